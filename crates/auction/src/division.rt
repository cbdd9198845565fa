// How an offer is divided.
ghost use Rattle.std.specs.Prelude.{◌≡◌, ℕ, ◌<◌, ◌≤◌, MatchOption};
ghost use Rattle.rules.specs.Minimums.{all_parts};
ghost use Rattle.auction.specs.Divisions.{Balanced, Divided};
ghost use Rattle.auction.specs.Ruled.{IsOrderly, ruled, ruled_orderly};

use crate::orderly::OrderlyRound;
use crate::round::Round;
use crate::rows::shares_of;
use crate::transfers::transfers;
use crate::whole::within_whole;
use shares::rows::sum_of;

// Givings stand by the places of the bids, the other rows by the numbers of the members; behind the last all is 0. No memory is
// asked for: there are places for 96 bids and 64 members.
#[derive(Clone, Copy, PartialEq, Eq, Debug)]
pub struct Division {
    pub givings: [u64; 96],
    pub price: i64,
    pub shortfalls: [u64; 64],
    pub shortfall_parts: [u64; 64],
    pub allotments: [u64; 64],
    pub transfers: [i64; 64],
}

impl<'a> Round<'a> {
    // Divides an offer; None where it passes 1,000,000 parts or the round is not orderly.
    pub fn divide(&self, offer: u64) -> Option<Division>
        ensures { MatchOption result (IsOrderly self.now → offer ≤ all_parts → ⊥) (λ d. IsOrderly self.now × (offer ≤ all_parts) × Divided (ruled self.now) offer d × Balanced (ruled self.now) offer d) }
    {
        self.orderly()?.divide(offer)
    }
}

impl<'a> OrderlyRound<'a> {
    // Divides an offer; None where it passes 1,000,000 parts.
    pub fn divide(&self, offer: u64) -> Option<Division>
        ensures { MatchOption result (all_parts < offer) (λ d. (offer ≤ all_parts) × Divided (ruled_orderly self.now) offer d × Balanced (ruled_orderly self.now) offer d) }
    {
        let offer = within_whole(offer)?;
        let shortfalls = self.shortfalls();
        let short = sum_of(&shortfalls);
        let givings = self.give(offer.saturating_sub(short));
        let shortfall_parts = shares_of(offer.min(short), short, &shortfalls);
        let allotments = self.allot(&givings, &shortfall_parts);
        let price = self.price(&givings);
        let transfers = transfers(price, &allotments);
        Some(Division {
            givings,
            price,
            shortfalls,
            shortfall_parts,
            allotments,
            transfers,
        })
    }
}
