// A tier of a table of accounts, charged by a rule.
ghost use Rattle.std.specs.Prelude.{◌≡◌, ℕ, ◌<◌, ◌≤◌, ◌^◌, length, MatchResult};
ghost use Rattle.shares.specs.Sums.{total, at};
ghost use Rattle.tiers.specs.Charging.{Rule, ChargedBy};
ghost use Rattle.tiers.specs.Laws.{Lawful};
ghost use Rattle.tiers.specs.Piles.{Bears};
ghost use Rattle.tiers.specs.Tables.{Limited, Opened, Refused};

use crate::accounts::Accounts;
use crate::tier::{Balance, Tier};
use rules::refusal::Refusal;
use shares::rows::sum_of;
use std::marker::PhantomData;

// Which accounts of a table bear an amount, and how much an account may be made to bear.
pub trait Charging {
    ghost rule: { Rule };

    ghost MOST: { ℕ };

    // The largest capacity.
    const MOST: u64;

    // What each account is charged of an amount, where `left` is what each can still bear.
    fn charges(left: &[u64; 64], amount: u64) -> [u64; 64]
        requires { total 64 (at left.now) < 2 ^ 64 }
        ensures wide { length result ≡ 64 }
        ensures each { (a : ℕ) → a < 64 → at result a ≡ rule (at left.now) amount a };

    // No account is charged past what it can bear, and the charges come to the amount or to all that is left.
    ghost lawful: { Lawful rule };

    // No capacity is above what a table takes.
    ghost low: { MOST ≤ 10000000000 };
}

// The accounts of a tier, and the rule that says which of them it charges.
#[derive(Drop)]
pub struct Ruled<R: Charging> {
    accounts: Accounts,
    rule: PhantomData<R>,
    ghost limited: { Limited R.MOST accounts.each },
}

impl<R: Charging> Ruled<R> {
    // A tier of these capacities, each at most the largest, with nothing borne.
    pub fn new(capacity: [u64; 64]) -> Result<Ruled<R>, Refusal>
        ensures { MatchResult result (λ t. Opened R.MOST capacity t.accounts.each) (Refused R.MOST capacity) }
    {
        let accounts = Accounts::new(capacity, R::MOST)?;
        Ok(Ruled {
            accounts,
            rule: PhantomData,
        })
    }
}

impl<R: Charging> Tier for Ruled<R> {
    ghost use Rattle.tiers.specs.Meanings.{tier_in};

    ghost meaning = { λ s. tier_in s.accounts };

    fn account(&self, number: u8) -> Option<Balance> {
        self.accounts.account(number)
    }

    fn whole(&self) -> u64 {
        self.accounts.left_in_all()
    }

    // Besides what every tier does: each account is charged by the rule.
    fn bear(&mut self, amount: u64) -> u64
        ensures bears { Bears (tier_in self.old.accounts) amount (tier_in self.new.accounts) result }
        ensures charges { ChargedBy R.rule (tier_in self.old.accounts) amount (tier_in self.new.accounts) }
    {
        let left = self.accounts.left();
        let borne = amount.min(sum_of(&left));
        let charges = R::charges(&left, amount);
        self.accounts.charge(&charges);
        amount - borne
    }
}
