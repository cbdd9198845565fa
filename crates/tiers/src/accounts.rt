// A plain table of the 64 accounts of a tier.
ghost use Rattle.std.specs.Prelude.{◌≡◌, ℕ, ◌+◌, ◌-◌, ◌<◌, ◌≤◌, length, MatchResult};
ghost use Rattle.rules.specs.declared.refusal.Refusal.TheVariants.{OutsideLimits};
ghost use Rattle.shares.specs.Sums.{total, at};
ghost use Rattle.tiers.specs.Charging.{Charged};
ghost use Rattle.tiers.specs.Piles.{Tells};

use crate::tier::{Balance, nothing};
use rules::refusal::Refusal;
use shares::rows::sum_of;

// What an account can bear in all, and what it has borne. It is never borne past its capacity.
#[derive(Clone, Copy, PartialEq, Eq, Debug)]
pub struct Account {
    capacity: u64,
    borne: u64,
    ghost limited: { capacity ≤ 10000000000 },
    ghost held: { borne ≤ capacity },
}

impl Account {
    // An account with nothing borne, if its capacity is not above the limit.
    fn new(capacity: u64, limit: u64) -> Result<Account, Refusal>
        requires { limit ≤ 10000000000 }
        ensures { MatchResult result (λ t. (capacity ≤ limit) × (t.capacity ≡ capacity) × (t.borne ≡ 0)) (λ cause. (limit < capacity) × (cause ≡ OutsideLimits)) }
    {
        if capacity > limit {
            return Err(Refusal::OutsideLimits);
        }
        Ok(Account { capacity, borne: 0 })
    }

    // What it can still bear.
    fn left(&self) -> u64
        ensures { result ≡ self.now.capacity - self.now.borne }
    {
        self.capacity - self.borne
    }

    // Bears an amount within that.
    fn charge(&mut self, amount: u64)
        requires { amount ≤ self.old.capacity - self.old.borne }
        ensures capacity { self.new.capacity ≡ self.old.capacity }
        ensures borne { self.new.borne ≡ self.old.borne + amount }
    {
        self.borne += amount;
    }
}

#[derive(Drop)]
pub struct Accounts {
    each: [Account; 64],
    ghost wide: { length each ≡ 64 },
}

impl Accounts {
    ghost use Rattle.tiers.specs.Tables.{borne_of, left_of, tier_of, Opened, Refused};

    // A table with nothing borne, if no capacity is above the limit.
    pub(crate) fn new(capacity: [u64; 64], limit: u64) -> Result<Accounts, Refusal>
        requires { limit ≤ 10000000000 }
        ensures { MatchResult result (λ t. Opened limit capacity t.each) (Refused limit capacity) }
    {
        let mut each = [Account {
            capacity: 0,
            borne: 0,
        }; 64];
        // Not `try_map`: what it promises leaves open which limit each call of the closure took.
        for (a, account) in each.iter_mut().enumerate() {
            *account = Account::new(capacity[a], limit)?;
        }
        Ok(Accounts { each })
    }

    // What an account can still bear and what it has borne.
    pub(crate) fn account(&self, number: u8) -> Option<Balance>
        ensures { Tells (tier_of self.now.each) number result }
    {
        let account = self.each.get(usize::from(number))?;
        Some(Balance {
            left: account.left(),
            borne: account.borne,
        })
    }

    // What each account can still bear.
    pub(crate) fn left(&self) -> [u64; 64]
        ensures wide { length result ≡ 64 }
        ensures each { (a : ℕ) → a < 64 → at result a ≡ left_of self.now.each a }
        ensures sum { total 64 (at result) ≡ total 64 (left_of self.now.each) }
        ensures small { total 64 (at result) ≤ 640000000000 }
    {
        // Not `map` of the array: it copies the table first, which was timed slower (docs/DESIGN-PASS.md).
        let mut left = nothing();
        for (a, account) in self.each.iter().enumerate() {
            left[a] = account.left();
        }
        left
    }

    // What is left in all.
    pub(crate) fn left_in_all(&self) -> u64
        ensures sum { result ≡ total 64 (left_of self.now.each) }
        ensures small { result ≤ 640000000000 }
    {
        sum_of(&self.left())
    }

    // Charges each account what the row says, which is within what it can still bear.
    pub(crate) fn charge(&mut self, charges: &[u64; 64])
        requires { (a : ℕ) → a < 64 → at charges.now a ≤ left_of self.old.each a }
        ensures { Charged (left_of self.old.each) (borne_of self.old.each) (at charges.now) (left_of self.new.each) (borne_of self.new.each) }
    {
        // The proof does not close over `zip`.
        for (a, account) in self.each.iter_mut().enumerate() {
            account.charge(charges[a]);
        }
    }
}
