// What the members pay.
ghost use Rattle.std.specs.Prelude.{◌≡◌, ℕ, ◌≤◌, unsigned_abs};
ghost use Rattle.shares.specs.Sums.{at, total};
ghost use Rattle.shares.specs.Shares.{share};
ghost use Rattle.rules.specs.Amounts.{signed_as};
ghost use Rattle.rules.specs.Minimums.{all_parts};
ghost use Rattle.auction.specs.Rows.{at_z};

use crate::rows::shares_of;
use crate::whole::ALL_PARTS;

// What each member pays for its parts, or is paid if it is negative, at a price for all parts.
pub(crate) fn transfers(price: i64, allotments: &[u64; 64]) -> [i64; 64]
    requires { total 64 (at allotments.now) ≤ all_parts }
    ensures { (a : ℕ) → at_z result a ≡ signed_as price (share (unsigned_abs price) all_parts (at allotments.now) a) }
{
    let sizes = shares_of(price.unsigned_abs(), ALL_PARTS, allotments);
    // Not `map` of the array, which was timed slower (docs/DESIGN-PASS.md).
    let mut row = [0; 64];
    for (a, size) in sizes.iter().enumerate() {
        row[a] = signed_as(price, *size);
    }
    row
}

// A size with the sign of a price put back.
pub(crate) fn signed_as(price: i64, size: u64) -> i64
    requires { size ≤ unsigned_abs price }
    ensures { result ≡ signed_as price size }
{
    let size = i128::from(size);
    // It is no larger than the price, so it fits.
    (if price < 0 { -size } else { size }) as i64
}
