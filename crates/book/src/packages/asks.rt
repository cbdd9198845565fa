// What a package answers of itself and of its latest round.
ghost use Rattle.std.specs.Prelude.{◌≡◌, length};
ghost use Rattle.book.specs.HeldPackages.{package_of};
ghost use Rattle.book.specs.HeldRounds.{bidding_of, round_held};
ghost use Rattle.calls.specs.Answers.{package_terms};
ghost use Rattle.calls.specs.Held.{is_open};
ghost use Rattle.calls.specs.Packages.{latest, sizes_of};
ghost use Rattle.std.specs.Option.{option_map};

use crate::packages::Package;
use crate::round::BookRound;
use calls::answers::PackageTerms;
use calls::round_number::RoundNumber;

impl Package {
    pub fn terms(&self) -> PackageTerms
        ensures { result ≡ package_terms (package_of self.now) }
    {
        let first = self.first.terms();
        PackageTerms {
            margin: first.margin,
            reference: first.reference,
            excused: self.excused,
            residual: self.residual,
        }
    }

    // Whether a round of it is open. Only the latest can be.
    pub fn is_open(&self) -> bool
        ensures { result ≡ is_open (package_of self.now) }
    {
        !self.is_latest_struck()
    }

    // The round that opened last.
    fn latest(&self) -> &BookRound
        ensures { bidding_of (round_held result.now) ≡ latest (package_of self.now) }
    {
        self.round(RoundNumber::Second).unwrap_or(&self.first)
    }

    // Whether the round that opened last is struck.
    pub fn is_latest_struck(&self) -> bool
        ensures { result ≡ (latest (package_of self.now)).struck }
    {
        self.latest().is_struck()
    }

    pub fn is_first_struck(&self) -> bool
        ensures { result ≡ (package_of self.now).first.struck }
    {
        self.first.is_struck()
    }

    // The parts that were cut off, if any were.
    pub fn residual(&self) -> Option<u32>
        ensures { result ≡ option_map (λ x. x.parts) (package_of self.now).residual }
    {
        self.residual
    }

    // How many bids the latest round has.
    pub fn latest_len(&self) -> usize
        ensures { result ≡ length (latest (package_of self.now)).bids }
    {
        self.latest().len()
    }

    // The sizes of a member's bids in the latest round together.
    pub fn latest_sizes_of(&self, member: u8) -> u64
        ensures { result ≡ sizes_of member (latest (package_of self.now)).bids }
    {
        self.latest().sizes_of(member)
    }
}
