// What each member lacks, and what it is allotted.
ghost use Rattle.std.specs.Prelude.{◌≡◌, ℕ, ◌+◌, ◌^◌, ◌<◌, ◌≤◌, ◌==◌, length, MatchOption};
ghost use Rattle.std.specs.List.{AllWithin, HoldsAt, sum_by, zip};
ghost use Rattle.shares.specs.Sums.{at};
ghost use Rattle.rules.specs.Amounts.{when};
ghost use Rattle.rules.specs.Rounds.{bid_at, last_given, of_member, shortfall};
ghost use Rattle.auction.specs.Rows.{Low, Narrow, Row};
ghost use Rattle.auction.specs.Ruled.{ruled_orderly};

use crate::orderly::OrderlyRound;
use crate::rows::if_so;
use rules::bid::Bid;
use shares::rows::row_of;

impl<'a> OrderlyRound<'a> {
    // What the market bids of each member lack of its minimum.
    pub fn shortfalls(&self) -> [u64; 64]
        ensures is { Row self.now.round.members (shortfall (ruled_orderly self.now)) result }
        ensures low { Low self.now.round.members result }
    {
        row_of(self.round.members, |a| {
            self.round.minimums[a].saturating_sub(self.market_size_of(a))
        })
    }

    // The parts of each member: those given to its bids and those for its shortfall.
    pub(crate) fn allot(&self, givings: &[u64; 96], shortfall_parts: &[u64; 64]) -> [u64; 64]
        requires small { Narrow (length self.now.round.bids.now) givings.now }
        requires low { Low self.now.round.members shortfall_parts.now }
        ensures { Row self.now.round.members (λ a. of_member self.now.round.bids.now (at givings.now) a + at shortfall_parts.now a) result }
    {
        row_of(self.round.members, |a| {
            given_to_member(self.round.bids, givings, a) + shortfall_parts[a]
        })
    }

    // The price of the last bid that is given a part; the reference price if none is.
    pub(crate) fn price(&self, givings: &[u64; 96]) -> i64
        ensures { result ≡ last_given (at givings.now) (λ i. (bid_at self.now.round.bids.now i).price) self.now.round.reference (length self.now.round.bids.now) }
    {
        let bids = self.round.bids;
        match last_given(&givings[..bids.len()]) {
            Some(last) => bids[last].price,
            None => self.round.reference,
        }
    }
}

// The parts given to the bids of one member.
fn given_to_member(bids: &[Bid], givings: &[u64], member: usize) -> u64
    requires { sum_by (λ p. when (p.0.member == member) p.1) (zip bids.now givings.now) < 2 ^ 64 }
    ensures { result ≡ sum_by (λ p. when (p.0.member == member) p.1) (zip bids.now givings.now) }
{
    bids.iter()
        .zip(givings)
        .map(|(bid, given)| if_so(usize::from(bid.member) == member, *given))
        .sum()
}

// The place of the last bid that is given a part.
fn last_given(givings: &[u64]) -> Option<usize>
    ensures { MatchOption result (AllWithin (λ n. n ≤ 0) givings.now 0 (length givings.now)) (λ i. (i < length givings.now) × HoldsAt (λ n. 0 < n) givings.now i × AllWithin (λ n. n ≤ 0) givings.now (i + 1) (length givings.now)) }
{
    givings.iter().rposition(|given| *given > 0)
}
