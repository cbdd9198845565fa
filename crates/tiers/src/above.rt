// One tier set above another.
ghost use Rattle.std.specs.Prelude.{◌≡◌, ◌+◌};
ghost use Rattle.tiers.specs.Piles.{told};
ghost use Rattle.tiers.specs.Piles.Pile.{above};

use crate::tier::{Balance, MOST_TOLD, Tier};

// Two tiers that are one: account by account the sum of both. The upper bears first, the lower what comes back.
#[derive(Drop)]
pub struct Above<U, L> {
    pub upper: U,
    pub lower: L,
}

// Two told amounts together, as they are told.
fn told_together(upper: u64, lower: u64) -> u64
    ensures { result ≡ told (upper + lower) }
{
    upper.saturating_add(lower).min(MOST_TOLD)
}

impl<U: Tier, L: Tier> Tier for Above<U, L> {
    ghost meaning = { λ s. above (U.Tier.meaning s.upper) (L.Tier.meaning s.lower) };

    fn account(&self, number: u8) -> Option<Balance> {
        let upper = self.upper.account(number)?;
        let lower = self.lower.account(number)?;
        Some(Balance {
            left: told_together(upper.left, lower.left),
            borne: told_together(upper.borne, lower.borne),
        })
    }

    fn whole(&self) -> u64 {
        told_together(self.upper.whole(), self.lower.whole())
    }

    fn bear(&mut self, amount: u64) -> u64 {
        let back = self.upper.bear(amount);
        self.lower.bear(back)
    }
}
