// What the rounds of a package come to.
ghost use Rattle.std.specs.Prelude.{◌≡◌, ◌<◌, ◌≤◌, false, MatchOption};
ghost use Rattle.auction.specs.Shortness.{InMillionths, OfRounds};
ghost use Rattle.book.specs.Brought.{brought_so_far, fraction_held, over_rounds, rounds_held};
ghost use Rattle.book.specs.HeldPackages.{package_of, terms_of};
ghost use Rattle.calls.specs.Held.{brought_by, is_open};

use crate::packages::Package;
use auction::fractions::PackageFractions;

impl Package {
    // All transfers of its struck rounds.
    pub fn brought(&self) -> i128
        ensures is { result ≡ over_rounds brought_so_far self.now }
        ensures all { is_open (package_of self.now) ≡ false → result ≡ over_rounds brought_by self.now }
    {
        match self.residual {
            None => self.first.brought(),
            Some(_) => self.first.brought() + self.second.brought(),
        }
    }

    // How far a member fell short, in millionths, once no round is open.
    pub fn fraction(&self, member: usize) -> Option<u64>
        ensures { result ≡ fraction_held self.now member }
    {
        if self.is_open() {
            return None;
        }
        self.fractions(member)?.fraction()
    }

    // The fractions of a member in its rounds.
    fn fractions(&self, member: usize) -> Option<PackageFractions>
        ensures { MatchOption result ((terms_of self.now).members ≤ member) (λ f. (member < (terms_of self.now).members) × OfRounds f (rounds_held self.now) member × InMillionths f) }
    {
        let first = self.first.fraction(member)?;
        Some(match self.residual {
            None => PackageFractions::FirstOnly(first),
            Some(parts) => PackageFractions::WithResidual {
                first,
                residual: u64::from(parts),
                second: self.second.fraction(member)?,
            },
        })
    }
}
