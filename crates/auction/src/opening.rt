// Whether a round can be divided.
ghost use Rattle.std.specs.Prelude.{◌≡◌, ℕ, ◌<◌, ◌≤◌, true, false, length, MatchOption};
ghost use Rattle.rules.specs.Rounds.{OfMembers};
ghost use Rattle.auction.specs.Orderly.{Covering, Falling, Orderly};
ghost use Rattle.auction.specs.Rows.{Low};
ghost use Rattle.auction.specs.Ruled.{IsOrderly, ruled, ruled_orderly};

use crate::marks::mark;
use crate::orderly::OrderlyRound;
use crate::round::Round;
use crate::whole::ALL_PARTS;
use rules::bid::Bid;

const MOST_BIDS: usize = 96;

const MOST_MEMBERS: usize = 64;

impl<'a> Round<'a> {
    // The same round with its mark; None where it is not orderly.
    pub fn orderly(&self) -> Option<OrderlyRound<'a>>
        ensures { MatchOption result (IsOrderly self.now → ⊥) (λ r. IsOrderly self.now × (r.round ≡ self.now)) }
    {
        if !self.is_orderly() {
            return None;
        }
        Some(OrderlyRound {
            round: *self,
            mark: mark(self.bids, self.reference),
        })
    }

    // Whether the bids are at most 96, in rank order and of members, the members at most 64, and the minimums together
    // at least 1,000,000 and none above it.
    pub fn is_orderly(&self) -> bool
        ensures yes { result ≡ true → IsOrderly self.now }
        ensures not { result ≡ false → IsOrderly self.now → ⊥ }
    {
        self.bids.len() <= MOST_BIDS
            && self.members <= MOST_MEMBERS
            && are_falling(self.bids)
            && are_of_members(self.bids, self.members)
            && reach_whole(&self.minimums[..self.members])
    }
}

// Whether no bid has a higher price than one in front of it.
fn are_falling(bids: &[Bid]) -> bool
    ensures yes { result ≡ true → Falling bids.now }
    ensures not { result ≡ false → Falling bids.now → ⊥ }
{
    bids.is_sorted_by(|bid, next| next.price <= bid.price)
}

// Whether each bid is of one of the members.
fn are_of_members(bids: &[Bid], members: usize) -> bool
    ensures yes { result ≡ true → OfMembers members bids.now }
    ensures not { result ≡ false → OfMembers members bids.now → ⊥ }
{
    bids.iter().all(|bid| usize::from(bid.member) < members)
}

// Whether the minimums reach the whole together, and none passes it alone.
fn reach_whole(minimums: &[u64]) -> bool
    requires { length minimums.now ≤ 64 }
    ensures yes { result ≡ true → Low (length minimums.now) minimums.now × Covering (length minimums.now) minimums.now }
    ensures not { result ≡ false → Low (length minimums.now) minimums.now → Covering (length minimums.now) minimums.now → ⊥ }
{
    are_low(minimums) && minimums.iter().sum::<u64>() >= ALL_PARTS
}

// Whether no minimum passes the whole.
fn are_low(minimums: &[u64]) -> bool
    ensures yes { result ≡ true → Low (length minimums.now) minimums.now }
    ensures not { result ≡ false → Low (length minimums.now) minimums.now → ⊥ }
{
    minimums.iter().all(|minimum| *minimum <= ALL_PARTS)
}
