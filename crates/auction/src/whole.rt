// The whole that a round opens with, and parts of it.
ghost use Rattle.std.specs.Prelude.{◌≡◌, ℕ, ◌*◌, ◌/◌, ◌<◌, ◌≤◌, MatchOption};
ghost use Rattle.rules.specs.Minimums.{all_parts};

pub(crate) const ALL_PARTS: u64 = 1_000_000;

// The parts, if the whole has so many.
pub(crate) fn within_whole(parts: u64) -> Option<u64>
    ensures { MatchOption result (all_parts < parts) (λ n. (n ≡ parts) × (parts ≤ all_parts)) }
{
    (parts <= ALL_PARTS).then_some(parts)
}

// So many millionths of an amount, rounded down.
pub(crate) fn millionths(amount: u64, parts: u64) -> u64
    requires { parts ≤ all_parts }
    ensures is { result ≡ amount * parts / all_parts }
    ensures low { result ≤ amount }
{
    // It is at most the amount, so it fits.
    (u128::from(amount) * u128::from(parts) / u128::from(ALL_PARTS)) as u64
}
