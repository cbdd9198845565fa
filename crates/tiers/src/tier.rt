// What every tier can do, whichever accounts it charges.
ghost use Rattle.std.specs.Prelude.{◌≡◌, ℕ, ◌<◌, length};
ghost use Rattle.shares.specs.Sums.{at};
ghost use Rattle.tiers.specs.Piles.{Pile, borne_at, left_all, told, Tells, Bears};

use shares::rows::row_of;

// The most that is told of an amount.
pub const MOST_TOLD: u64 = 1_000_000_000_000_000;

// What an account can still bear and what it has borne.
#[derive(Clone, Copy, PartialEq, Eq, Debug)]
pub struct Balance {
    pub left: u64,
    pub borne: u64,
}

// A tier means 64 accounts, 0 to 63, each with an amount that it can still bear and an amount that it has borne.
// The meaning has the true amounts; an amount above 10^15 is told as 10^15.
pub trait Tier {
    ghost meaning: { Self → Pile };

    // What an account can still bear and what it has borne; None for an account above 63.
    fn account(&self, number: u8) -> Option<Balance>
        ensures { Tells (meaning self.now) number result };

    // What is left in all.
    fn whole(&self) -> u64
        ensures { result ≡ told (left_all (meaning self.now)) };

    // Bears what it can of an amount, and answers the rest.
    fn bear(&mut self, amount: u64) -> u64
        ensures { Bears (meaning self.old) amount (meaning self.new) result };
}

// Nothing for each account.
pub fn nothing() -> [u64; 64]
    ensures wide { length result ≡ 64 }
    ensures each { (a : ℕ) → a < 64 → at result a ≡ 0 }
{
    [0; 64]
}

// What an account has borne, as it is told.
fn told_borne<T: Tier>(tier: &T, number: u8) -> u64
    requires { number < 64 }
    ensures { result ≡ told (borne_at (T.meaning tier.now) number) }
{
    tier.account(number).unwrap().borne
}

// What each account has borne, as it is told.
pub(crate) fn borne_row<T: Tier>(tier: &T) -> [u64; 64]
    ensures wide { length result ≡ 64 }
    ensures each { (a : ℕ) → a < 64 → at result a ≡ told (borne_at (T.meaning tier.now) a) }
{
    row_of(64, |a| told_borne(tier, a as u8))
}
