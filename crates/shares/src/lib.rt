// One sharing rule for bids, members and accounts: the running shares of an amount on a base, over weights in order.
// To weights that sum to c goes amount * c / base, rounded down; a weight gets what goes to the weights up to it
// and to it, less what goes to those up to it. On base 0 every share is 0.
#![tactic(auto)]

pub mod laws;
pub mod rows;

ghost use Rattle.std.specs.Prelude.{◌≡◌, ℕ, ◌+◌, ◌<◌, ◌≤◌, length, MatchOption, nat_le};
ghost use Rattle.shares.specs.Sums.{total, at};
ghost use Rattle.shares.specs.Shares.{dealt, share};
ghost use Rattle.shares.specs.Outcomes.{Shared, Fits, SharedOut};

// The share of a weight behind weights that sum to `before`; None where they and it pass the base.
pub fn share(amount: u64, base: u64, before: u64, weight: u64) -> Option<u64>
    ensures { MatchOption result (base < before + weight) (Shared amount base before weight) }
{
    let after = before.checked_add(weight)?;
    if base < after {
        return None;
    }
    Some(dealt_to(amount, base, after) - dealt_to(amount, base, before))
}

// What goes to the first weights, which sum to `sum`.
fn dealt_to(amount: u64, base: u64, sum: u64) -> u64
    requires within { sum ≤ base }
    ensures { result ≡ dealt amount base sum }
{
    if base == 0 {
        return 0;
    }
    // It is at most the amount, so it fits.
    (u128::from(amount) * u128::from(sum) / u128::from(base)) as u64
}

// What goes to the weights up to this one, if `given` goes to those before it: a weight of 0 is not worth a division.
fn dealt_past(amount: u64, base: u64, after: u64, weight: u64, given: u64) -> u64
    requires within { after ≤ base }
    requires before { weight ≡ 0 → given ≡ dealt amount base after }
    ensures { result ≡ dealt amount base after }
{
    if weight == 0 {
        return given;
    }
    dealt_to(amount, base, after)
}

// Why weights are not shared out.
#[derive(Clone, Copy, PartialEq, Eq, Debug)]
pub enum Unshared {
    FewPlaces,
    PastBase,
}

// Writes the share of each weight to its place, and keeps the places behind the last weight.
// Where the weights pass the places, or together the base, it writes nothing.
pub fn share_out(
    amount: u64,
    base: u64,
    weights: &[u64],
    shares: &mut [u64],
) -> Result<(), Unshared>
    ensures { SharedOut amount base weights.now shares.old shares.new result }
{
    if shares.len() < weights.len() {
        return Err(Unshared::FewPlaces);
    }
    if !within(base, weights) {
        return Err(Unshared::PastBase);
    }
    write_shares(amount, base, weights, shares);
    Ok(())
}

// Whether the weights together stay within the base.
fn within(base: u64, weights: &[u64]) -> bool
    ensures { result ≡ nat_le (total (length weights.now) (at weights.now)) base }
{
    let mut rest = base;
    for weight in weights {
        if rest < *weight {
            return false;
        }
        rest -= *weight;
    }
    true
}

// Writes the share of each weight to its place.
fn write_shares(amount: u64, base: u64, weights: &[u64], shares: &mut [u64])
    requires { Fits base weights.now shares.old }
    ensures each { (a : ℕ) → a < length weights.now → at shares.new a ≡ share amount base (at weights.now) a }
    ensures rest { (a : ℕ) → length weights.now ≤ a → at shares.new a ≡ at shares.old a }
{
    let mut before = 0;
    let mut given = 0;
    // Not `zip` with `iter_mut`: nothing is known then of what was written.
    for (i, weight) in weights.iter().enumerate() {
        let after = before + *weight;
        let next = dealt_past(amount, base, after, *weight, given);
        shares[i] = next - given;
        given = next;
        before = after;
    }
}

#[cfg(test)]
mod tests {
    use super::*;

    // An amount, a base, three weights, and the shares that they get.
    const FIGURES: [(u64, u64, [u64; 3], [u64; 3]); 4] = [
        (500_000, 900_000, [300_000; 3], [166_666, 166_667, 166_667]),
        (10, 3, [1; 3], [3, 3, 4]),
        (10, 4, [1, 0, 2], [2, 0, 5]),
        (7, 0, [0; 3], [0; 3]),
    ];

    #[test]
    fn figures(rt: HostRuntime) {
        for (amount, base, weights, expected) in FIGURES {
            let mut shares = [9; 3];
            assert_eq!(rt; share_out(amount, base, &weights, &mut shares), Ok(()));
            assert_eq!(rt; shares, expected);
            let second = share(amount, base, weights[0], weights[1]);
            assert_eq!(rt; second, Some(expected[1]));
        }
    }

    #[test]
    fn refusals(rt: HostRuntime) {
        let mut shares = [9; 3];
        assert_eq!(rt;
            share_out(10, 2, &[1, 1, 1], &mut shares),
            Err(Unshared::PastBase)
        );
        assert_eq!(rt;
            share_out(10, 5, &[1, 1, 1, 1], &mut shares),
            Err(Unshared::FewPlaces)
        );
        assert_eq!(rt; shares, [9; 3]);
        assert_eq!(rt; share_out(10, 5, &[1, 4], &mut shares), Ok(()));
        assert_eq!(rt; shares, [2, 8, 9]);
        assert_eq!(rt; share(10, 2, 1, 2), None);
        assert_eq!(rt; share(10, 2, u64::MAX, 1), None);
    }
}
