// A tier of another house: its accounts bear from the last to the first, and their amounts have no limit but 64 bits.
#![tactic(auto)]

ghost use Rattle.std.specs.Prelude.{◌≡◌, ℕ, ◌+◌, ◌^◌, ◌<◌, length};
ghost use Rattle.shares.specs.Sums.{at};

use tiers::tier::{Balance, MOST_TOLD, Tier};

// What an account can still bear and what it has borne, which fit 64 bits together.
#[derive(Clone, Copy, PartialEq, Eq, Debug)]
struct Account {
    left: u64,
    borne: u64,
    ghost fits: { left + borne < 2 ^ 64 },
}

impl Account {
    ghost use Rattle.backward.specs.Accounts.{Bears};

    // Bears what it can of an amount, and answers the rest.
    fn bear(&mut self, amount: u64) -> u64
        ensures { Bears self.old amount self.new result }
    {
        let charge = self.left.min(amount);
        self.left -= charge;
        self.borne += charge;
        amount - charge
    }
}

#[derive(Drop)]
pub struct Backward {
    accounts: [Account; 64],
    ghost wide: { length accounts ≡ 64 },
}

impl Backward {
    ghost use Rattle.backward.specs.Accounts.{left_of, borne_of};

    // A tier whose accounts can bear these amounts, with nothing borne.
    pub fn new(left: [u64; 64]) -> Backward
        ensures left { (a : ℕ) → a < 64 → left_of result.accounts a ≡ at left a }
        ensures borne { (a : ℕ) → a < 64 → borne_of result.accounts a ≡ 0 }
    {
        // Not `map` of the array, which was timed slower (docs/DESIGN-PASS.md).
        let mut accounts = [Account { left: 0, borne: 0 }; 64];
        for (a, account) in accounts.iter_mut().enumerate() {
            *account = Account {
                left: left[a],
                borne: 0,
            };
        }
        Backward { accounts }
    }
}

impl Tier for Backward {
    ghost use Rattle.backward.specs.Accounts.{tier_of};
    ghost use Rattle.backward.specs.Charging.{last_first};
    ghost use Rattle.tiers.specs.Charging.{ChargedBy};
    ghost use Rattle.tiers.specs.Piles.{Bears};

    ghost meaning = { λ s. tier_of s.accounts };

    fn account(&self, number: u8) -> Option<Balance> {
        let account = self.accounts.get(usize::from(number))?;
        Some(Balance {
            left: account.left.min(MOST_TOLD),
            borne: account.borne.min(MOST_TOLD),
        })
    }

    fn whole(&self) -> u64 {
        let mut all = 0u64;
        for account in &self.accounts {
            all = all.saturating_add(account.left);
        }
        all.min(MOST_TOLD)
    }

    // Besides what every tier does: the last account bears first.
    fn bear(&mut self, amount: u64) -> u64
        ensures bears { Bears (tier_of self.old.accounts) amount (tier_of self.new.accounts) result }
        ensures charges { ChargedBy last_first (tier_of self.old.accounts) amount (tier_of self.new.accounts) }
    {
        let mut rest = amount;
        let accounts = &mut self.accounts;
        // The proof does not close over `iter_mut().rev()`.
        for i in (0..64).rev() {
            rest = accounts[i].bear(rest);
        }
        rest
    }
}
