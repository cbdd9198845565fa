// What a round answers, open or struck.
ghost use Rattle.std.specs.Prelude.{◌≡◌, ◌≤◌, length, sum_by, filter, ◌==◌};
ghost use Rattle.book.specs.HeldRounds.{round_held};
ghost use Rattle.calls.specs.Answers.{bid_of, minimum_of, round_terms};
ghost use Rattle.calls.specs.Packages.{sizes_of};
ghost use Rattle.std.specs.Option.{option_map};

use crate::round::BookRound;
use calls::answers::RoundTerms;
use rules::bid::Bid;

impl BookRound {
    pub(crate) fn is_struck(&self) -> bool
        ensures { result ≡ (round_held self.now).struck }
    {
        self.division.is_some()
    }

    // How many bids it has.
    pub(crate) fn len(&self) -> usize
        ensures { result ≡ length (round_held self.now).round.bids }
    {
        self.bids.len()
    }

    pub(crate) fn terms(&self) -> RoundTerms
        ensures { result ≡ round_terms (round_held self.now) }
    {
        RoundTerms {
            struck: self.is_struck(),
            offer: self.offer,
            margin: self.terms.margin,
            reference: self.terms.reference,
        }
    }

    pub(crate) fn minimum(&self, member: usize) -> Option<u64>
        ensures { result ≡ minimum_of (round_held self.now) member }
    {
        self.terms.minimum(member)
    }

    // The bid at a place in rank order.
    pub(crate) fn bid_at(&self, place: usize) -> Option<&Bid>
        ensures { option_map (λ b. b.now) result ≡ bid_of (round_held self.now) place }
    {
        self.bids.as_slice().get(place)
    }

    // The sizes of a member's bids together.
    pub(crate) fn sizes_of(&self, member: u8) -> u64
        ensures { result ≡ sizes_of member (round_held self.now).round.bids }
    {
        sizes_of(self.bids.as_slice(), member)
    }
}

// The sizes of those of a few bids that are of this member.
fn sizes_of(bids: &[Bid], member: u8) -> u64
    requires { length bids.now ≤ 96 }
    ensures { result ≡ sum_by (λ b. b.size) (filter (λ b. b.member == member) bids.now) }
{
    bids.iter()
        .filter(|bid| bid.member == member)
        .map(|bid| u64::from(bid.size))
        .sum()
}
