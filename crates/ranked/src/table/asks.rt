// What a table answers.
ghost use Rattle.std.specs.Prelude.{◌≡◌, length};
ghost use Rattle.std.specs.List.{position};
ghost use Rattle.std.specs.Ordering.{is_eq};
ghost use Rattle.ranked.specs.Order.{found, FirstLevel};
ghost use Rattle.ranked.specs.Table.{listed};

use crate::rank::Rank;
use crate::table::OrderedTable;

impl<T: Rank + Drop> OrderedTable<T> {
    pub fn len(&self) -> usize
        ensures { result ≡ length (listed self.now) }
    {
        self.records.len()
    }

    // All records, in order.
    pub fn as_slice(&self) -> &[T]
        ensures { result.now ≡ listed self.now }
    {
        self.records.as_slice()
    }

    // The place of the first record that is level with `x`.
    pub fn place_of(&self, x: &T) -> Option<usize>
        ensures value { result ≡ found T.ranks x.now (listed self.now) }
        ensures first { FirstLevel T.ranks x.now (listed self.now) result }
    {
        first_level(self.as_slice(), x)
    }
}

// The place of the first of some records that is level with `x`.
fn first_level<T: Rank>(records: &[T], x: &T) -> Option<usize>
    ensures { result ≡ position (λ y. is_eq (T.ranks x.now y)) records.now }
{
    records.iter().position(|y| x.rank(y).is_eq())
}
