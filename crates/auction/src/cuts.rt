// What a residual leaves of a package's margin and reference price.
ghost use Rattle.std.specs.Prelude.{◌≡◌, ◌<◌, ◌≤◌, MatchOption};
ghost use Rattle.rules.specs.Minimums.{all_parts};
ghost use Rattle.rules.specs.Residuals.{cut_margin, cut_reference};

use crate::transfers::signed_as;
use crate::whole::{millionths, within_whole};

// The margin of a second round; None where the residual passes 1,000,000 parts.
pub fn cut_margin(margin: u64, residual: u64) -> Option<u64>
    ensures { MatchOption result (all_parts < residual) (λ n. (residual ≤ all_parts) × (n ≡ cut_margin residual margin) × (n ≤ margin)) }
{
    Some(millionths(margin, within_whole(residual)?))
}

// The reference price of a second round, cut toward 0; None where the residual passes 1,000,000 parts.
pub fn cut_reference(reference: i64, residual: u64) -> Option<i64>
    ensures { MatchOption result (all_parts < residual) (λ z. (residual ≤ all_parts) × (z ≡ cut_reference residual reference)) }
{
    let size = millionths(reference.unsigned_abs(), within_whole(residual)?);
    Some(signed_as(reference, size))
}
