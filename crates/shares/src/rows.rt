// Rows of numbers, one for each place.
ghost use Rattle.std.specs.Prelude.{◌≡◌, ℕ, ◌<◌, ◌≤◌, ◌^◌};
ghost use Rattle.shares.specs.Sums.{at, total};

// What f gives at each of the first places, and 0 behind them.
pub fn row_of<const N: usize, F: Fn(usize) -> u64>(count: usize, f: F) -> [u64; N]
    requires can { (a : ℕ) → a < count → F.pre f a }
    requires few { count ≤ N }
    requires small { N ≤ 96 }
    ensures shows { (a : ℕ) → a < count → F.post f a (at result a) }
    ensures blank { (a : ℕ) → count ≤ a → at result a ≡ 0 }
{
    // Not `array::from_fn`: it makes a call for each of the N places, which was timed slower (docs/DESIGN-PASS.md).
    let mut row = [0; N];
    for a in 0..count {
        row[a] = f(a);
    }
    row
}

// What the numbers of a row come to.
pub fn sum_of(row: &[u64; 64]) -> u64
    requires { total 64 (at row.now) < 2 ^ 64 }
    ensures { result ≡ total 64 (at row.now) }
{
    row.iter().sum()
}
