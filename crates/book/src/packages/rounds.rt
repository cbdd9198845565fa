// What a package answers of one of its rounds: nothing of a second where there is no residual.
ghost use Rattle.std.specs.Prelude.{◌≡◌};
ghost use Rattle.book.specs.HeldPackages.{held_by};
ghost use Rattle.book.specs.HeldRounds.{round_held};
ghost use Rattle.calls.specs.Answers.{bid_count, bid_of, bid_result, member_result, minimum_of, round_prices, round_terms, then_of};
ghost use Rattle.std.specs.Option.{option_map};

use crate::packages::Package;
use crate::round::BookRound;
use calls::answers::{BidResult, MemberResult, RoundPrices, RoundTerms};
use calls::round_number::RoundNumber;
use rules::bid::Bid;

impl Package {
    // The round with this number, if it has opened.
    pub(crate) fn round(&self, n: RoundNumber) -> Option<&BookRound>
        ensures { option_map (λ r. round_held r.now) result ≡ held_by self.now n }
    {
        match n {
            RoundNumber::First => Some(&self.first),
            RoundNumber::Second => self.residual.map(|_| &self.second),
        }
    }

    pub fn round_terms(&self, n: RoundNumber) -> Option<RoundTerms>
        ensures { result ≡ option_map round_terms (held_by self.now n) }
    {
        Some(self.round(n)?.terms())
    }

    // Of a member in a struck round.
    pub fn member_result(&self, n: RoundNumber, member: usize) -> Option<MemberResult>
        ensures { result ≡ then_of (held_by self.now n) (λ h. member_result h member) }
    {
        self.round(n)?.member_result(member)
    }

    // Of a struck round.
    pub fn prices(&self, n: RoundNumber) -> Option<RoundPrices>
        ensures { result ≡ then_of (held_by self.now n) round_prices }
    {
        self.round(n)?.prices()
    }

    pub fn minimum(&self, n: RoundNumber, member: usize) -> Option<u64>
        ensures { result ≡ then_of (held_by self.now n) (λ h. minimum_of h member) }
    {
        self.round(n)?.minimum(member)
    }

    pub fn bid_count(&self, n: RoundNumber) -> Option<usize>
        ensures { result ≡ option_map bid_count (held_by self.now n) }
    {
        Some(self.round(n)?.len())
    }

    // The bid at a place in rank order.
    pub fn bid_at(&self, n: RoundNumber, place: usize) -> Option<&Bid>
        ensures { option_map (λ b. b.now) result ≡ then_of (held_by self.now n) (λ h. bid_of h place) }
    {
        self.round(n)?.bid_at(place)
    }

    // Of the bid at a place in a struck round.
    pub fn bid_result(&self, n: RoundNumber, place: usize) -> Option<BidResult>
        ensures { result ≡ then_of (held_by self.now n) (λ h. bid_result h place) }
    {
        self.round(n)?.bid_result(place)
    }
}
