// What a struck round answers.
ghost use Rattle.std.specs.Prelude.{◌≡◌, ◌<◌, ◌≤◌, MatchOption};
ghost use Rattle.book.specs.HeldRounds.{round_held};
ghost use Rattle.calls.specs.Answers.{bid_result, member_result, round_prices};
ghost use Rattle.rules.specs.Fractions.{round_fraction};
ghost use Rattle.rules.specs.Minimums.{all_parts};
ghost use Rattle.rules.specs.Rounds.{mark as mark_from};

use crate::round::BookRound;
use auction::market::is_market;
use auction::marks::mark;
use calls::answers::{BidResult, MemberResult, RoundPrices};

impl BookRound {
    fn mark(&self) -> i64
        ensures { result ≡ mark_from (round_held self.now).round.bids (round_held self.now).round.reference }
    {
        mark(self.bids.as_slice(), self.terms.reference)
    }

    pub(crate) fn prices(&self) -> Option<RoundPrices>
        ensures { result ≡ round_prices (round_held self.now) }
    {
        let division = self.division.as_ref()?;
        Some(RoundPrices {
            mark: self.mark(),
            price: division.price,
        })
    }

    // Of the bid at a place in rank order.
    pub(crate) fn bid_result(&self, place: usize) -> Option<BidResult>
        ensures { result ≡ bid_result (round_held self.now) place }
    {
        let division = self.division.as_ref()?;
        let bid = self.bids.as_slice().get(place)?;
        Some(BidResult {
            is_market: is_market(bid, self.mark(), self.terms.margin),
            giving: division.givings[place],
        })
    }

    pub(crate) fn member_result(&self, member: usize) -> Option<MemberResult>
        ensures { result ≡ member_result (round_held self.now) member }
    {
        let division = self.division.as_ref()?;
        let fraction = self.fraction(member)?;
        Some(MemberResult {
            shortfall: division.shortfalls[member],
            parts: division.allotments[member],
            shortfall_parts: division.shortfall_parts[member],
            transfer: division.transfers[member],
            fraction,
        })
    }

    // How far a member fell short, in millionths.
    pub(crate) fn fraction(&self, member: usize) -> Option<u64>
        ensures { MatchOption result ((round_held self.now).round.members ≤ member) (λ f. (member < (round_held self.now).round.members) × (f ≡ round_fraction (round_held self.now).round member) × (f ≤ all_parts)) }
    {
        if member >= self.terms.members {
            return None;
        }
        let row = self.data().fractions().unwrap();
        Some(row[member])
    }
}
