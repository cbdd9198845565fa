// How far a member fell short, in millionths, and how that splits its contribution.
ghost use Rattle.std.specs.Prelude.{◌≡◌, ℕ, ◌+◌, ◌*◌, ◌<◌, ◌≤◌, MatchOption};
ghost use Rattle.rules.specs.Minimums.{all_parts};
ghost use Rattle.rules.specs.Fractions.{fraction_of, junior_part, package_fraction, PackageRounds, round_fraction, senior_part, weighed};
ghost use Rattle.auction.specs.Rows.{Low, Row};
ghost use Rattle.auction.specs.Ruled.{IsOrderly, ruled, ruled_orderly};
ghost use Rattle.auction.specs.Shortness.{Countable, InMillionths, OfRounds, total_of, weighed_in};

use crate::fractions::{ContributionParts, PackageFractions, Weighed};
use crate::orderly::OrderlyRound;
use crate::round::Round;
use crate::whole::{ALL_PARTS, millionths, within_whole};
use shares::rows::row_of;

impl<'a> Round<'a> {
    // The fraction of each member; None where the round is not orderly.
    pub fn fractions(&self) -> Option<[u64; 64]>
        ensures { MatchOption result (IsOrderly self.now → ⊥) (λ row. IsOrderly self.now × Row self.now.members (round_fraction (ruled self.now)) row × Low self.now.members row) }
    {
        Some(self.orderly()?.fractions())
    }
}

impl<'a> OrderlyRound<'a> {
    // The fraction of each member.
    pub fn fractions(&self) -> [u64; 64]
        ensures is { Row self.now.round.members (round_fraction (ruled_orderly self.now)) result }
        ensures low { Low self.now.round.members result }
    {
        let shortfalls = self.shortfalls();
        row_of(self.round.members, |a| {
            fraction_of(shortfalls[a], self.round.minimums[a])
        })
    }
}

// A shortfall as a fraction of the minimum; 0 if the minimum is 0.
fn fraction_of(shortfall: u64, minimum: u64) -> u64
    requires { shortfall ≤ minimum }
    ensures is { result ≡ fraction_of shortfall minimum }
    ensures low { result ≤ all_parts }
{
    let parts = u128::from(shortfall) * u128::from(ALL_PARTS);
    // It is at most the whole, so it fits.
    parts.checked_div(u128::from(minimum)).unwrap_or(0) as u64
}

impl PackageFractions {
    // The fraction of the package; None where one of the numbers passes 1,000,000.
    pub fn fraction(&self) -> Option<u64>
        ensures { MatchOption result (InMillionths self.now → ⊥) (λ f. InMillionths self.now × (f ≡ weighed_in self.now) × (f ≤ all_parts) × ((rounds : PackageRounds) (a : ℕ) → OfRounds self.now rounds a → f ≡ package_fraction rounds a)) }
    {
        match *self {
            PackageFractions::FirstOnly(first) => within_whole(first),
            PackageFractions::WithResidual {
                first,
                residual,
                second,
            } => {
                let first = within_whole(first)?;
                let residual = within_whole(residual)?;
                let second = within_whole(second)?;
                Some(((ALL_PARTS - residual) * first + residual * second) / ALL_PARTS)
            }
        }
    }
}

// A member's total fraction; None where there are more than 8 packages or a fraction passes 1,000,000.
pub fn total_fraction(packages: &[Weighed]) -> Option<u64>
    ensures { MatchOption result (Countable packages.now → ⊥) (λ f. Countable packages.now × (f ≡ total_of packages.now) × (f ≤ all_parts)) }
{
    if packages.len() > 8 {
        return None;
    }
    let mut margins = 0;
    let mut weighed = 0;
    for package in packages {
        let fraction = within_whole(package.fraction)?;
        margins += u128::from(package.margin);
        weighed += u128::from(package.margin) * u128::from(fraction);
    }
    // A mean of fractions is at most the whole, so it fits.
    Some(weighed.checked_div(margins).unwrap_or(0) as u64)
}

// The junior part of a contribution, and the senior part, which is the rest; None where the fraction passes 1,000,000.
pub fn split(contribution: u64, fraction: u64) -> Option<ContributionParts>
    ensures { MatchOption result (all_parts < fraction) (λ p. (fraction ≤ all_parts) × (p.junior ≡ junior_part contribution fraction) × (p.senior ≡ senior_part contribution fraction) × (p.junior + p.senior ≡ contribution)) }
{
    let junior = millionths(contribution, within_whole(fraction)?);
    Some(ContributionParts {
        junior,
        senior: contribution - junior,
    })
}
