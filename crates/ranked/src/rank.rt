// What it is for records to have a rank.
ghost use Rattle.std.specs.Prelude.{◌≡◌};
ghost use Rattle.std.specs.declared.cmp.Ordering.{Ordering};
ghost use Rattle.ranked.specs.Order.{TotalOrder};

use std::cmp::Ordering;

// A record stands before, level with or after another of its kind. No `Ord`: that has to read each field that `==` reads, and
// a member stands by its name alone, a bid by its price alone.
pub trait Rank {
    ghost ranks: { Self → Self → Ordering };

    fn rank(&self, other: &Self) -> Ordering
        ensures { result ≡ ranks self.now other.now };

    ghost ordered: { TotalOrder ranks };
}
