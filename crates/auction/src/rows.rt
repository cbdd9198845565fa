// What stands in rows of numbers by the members' numbers, or by the places of bids.
ghost use Rattle.std.specs.Prelude.{◌≡◌, ℕ, ◌≤◌};
ghost use Rattle.shares.specs.Sums.{at, total};
ghost use Rattle.shares.specs.Shares.{share};
ghost use Rattle.rules.specs.Amounts.{when};

use shares::share_out;

// The running shares of an amount on a base, over the weights of a row.
pub(crate) fn shares_of(amount: u64, base: u64, weights: &[u64; 64]) -> [u64; 64]
    requires within { total 64 (at weights.now) ≤ base }
    ensures { (a : ℕ) → at result a ≡ share amount base (at weights.now) a }
{
    let mut row = [0; 64];
    share_out(amount, base, weights, &mut row).unwrap();
    row
}

// A number where the test is passed, else 0.
pub(crate) fn if_so(test: bool, number: u64) -> u64
    ensures { result ≡ when test number }
{
    if test { number } else { 0 }
}
