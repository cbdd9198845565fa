// A bid in a round.
ghost use Rattle.rules.specs.Bids.{by_price};
ghost use Rattle.std.proofs.Common.{rules};

use ranked::rank::Rank;
use std::cmp::Ordering;

// The size is in parts, a millionth of what the round opens with; the price is in euros for a million parts.
#[derive(Clone, Copy, PartialEq, Eq, Debug)]
pub struct Bid {
    pub member: u8,
    pub size: u32,
    pub price: i64,
}

// A bid stands before one of lower price, and level with one of equal price.
impl Rank for Bid {
    ghost ranks = { by_price };

    ghost ordered = { Prim.search rules };

    fn rank(&self, other: &Bid) -> Ordering {
        other.price.cmp(&self.price)
    }
}
