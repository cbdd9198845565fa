// How a table is made, and how a record arrives in it.
ghost use Rattle.std.specs.Prelude.{◌≡◌, not, ◌<◌, ◌≤◌, List, [], length, IfOk, MatchOption};
ghost use Rattle.std.specs.List.{prefix_len};
ghost use Rattle.std.specs.Ordering.{is_lt};
ghost use Rattle.ranked.specs.Order.{behind, InOrder, Arrived, Keeps};
ghost use Rattle.ranked.specs.Table.{listed};

use crate::rank::Rank;
use crate::table::OrderedTable;
use std::alloc::{AllocError, Global};

impl<T: Rank + Drop> OrderedTable<T> {
    // An empty table with memory for `limit` records.
    pub fn new(heap: Global, limit: usize) -> Result<OrderedTable<T>, AllocError>
        ensures { IfOk result (λ t. (listed t ≡ []) × (t.limit ≡ limit)) }
    {
        let records = Vec::with_capacity(heap, limit)?;
        Ok(OrderedTable { records, limit })
    }

    // How many records `x` goes behind.
    fn seat_of(&self, x: &T) -> usize
        ensures { result ≡ behind T.ranks x.now (listed self.now) }
    {
        ahead_of(x, self.as_slice())
    }

    // Puts `x` behind those that stand before it or level with it, and answers its place; `None` where the table is full.
    pub fn insert(&mut self, x: T) -> Option<usize>
        ensures limit { self.new.limit ≡ self.old.limit }
        ensures in_order { InOrder T.ranks (listed self.old) → InOrder T.ranks (listed self.new) }
        ensures arrived { MatchOption result ((self.old.limit ≤ length (listed self.old)) × (listed self.new ≡ listed self.old)) (λ i. (length (listed self.old) < self.old.limit) × (i ≡ behind T.ranks x (listed self.old)) × Arrived T.ranks x (listed self.old) (listed self.new)) }
    {
        if self.records.len() >= self.limit {
            return None;
        }
        let i = self.seat_of(&x);
        self.records.insert(i, x).unwrap();
        Some(i)
    }

    // Takes every record out; the memory stays.
    pub fn clear(&mut self)
        ensures empty { listed self.new ≡ [] }
        ensures limit { self.new.limit ≡ self.old.limit }
    {
        self.records.clear();
    }

    // Whatever arrives, an empty table ends up with all of it in order of rank, level ones as they came.
    pub fn keeps_order()
        ensures { (xs : List T) → Keeps T.ranks xs }
    {}
}

// How many records, from the first on, `x` does not stand before.
fn ahead_of<T: Rank>(x: &T, records: &[T]) -> usize
    ensures { result ≡ prefix_len (λ y. not (is_lt (T.ranks x.now y))) records.now }
{
    records.iter().take_while(|y| !x.rank(y).is_lt()).count()
}
