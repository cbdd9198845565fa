// Our own pile: the estate, the own share, the junior parts and the senior parts.
ghost use Rattle.std.specs.Prelude.{◌≡◌, ℕ, ◌<◌, MatchResult};
ghost use Rattle.shares.specs.Sums.{at};
ghost use Rattle.tiers.specs.OwnPile.{estate_row, own_share_row, member_row, OwnBore, OwnCharged};
ghost use Rattle.tiers.specs.OwnTiers.{left_rows, borne_rows, rows_of, OwnMade, OwnRefused};

use crate::above::Above;
use crate::in_turn::InTurn;
use crate::pro_rata::ProRata;
use crate::tier::{Tier, borne_row, nothing};
use rules::refusal::Refusal;

// From the top: the estate, the own share, the junior parts, the senior parts.
pub type OwnPile = Above<InTurn, Above<InTurn, Above<ProRata, ProRata>>>;

// The estate's capacities. No one function makes this row and the next: they differ in the accounts that they name.
fn estate_row(cash: u64, pledges: u64) -> [u64; 64]
    ensures { (a : ℕ) → a < 64 → at result a ≡ estate_row cash pledges a }
{
    let mut row = nothing();
    row[60] = cash;
    row[61] = pledges;
    row
}

// The capacity of the own share.
fn own_share_row(amount: u64) -> [u64; 64]
    ensures { (a : ℕ) → a < 64 → at result a ≡ own_share_row amount a }
{
    let mut row = nothing();
    row[62] = amount;
    row
}

// The capacities of the members' parts.
fn member_row(parts: &[u64; 60]) -> [u64; 64]
    ensures { (a : ℕ) → a < 64 → at result a ≡ member_row (at parts.now) a }
{
    let mut row = [0; 64];
    row[..60].copy_from_slice(parts);
    row
}

// What a loss charges each account, and what stays unborne of it.
#[derive(Drop)]
pub struct OwnCharges {
    pub each: [u64; 64],
    pub unborne: u64,
}

// What our own pile is made of: the parts are the members', by their numbers.
#[derive(Clone, Copy)]
pub struct OwnAmounts<'a> {
    pub estate_cash: u64,
    pub estate_pledges: u64,
    pub own_share: u64,
    pub juniors: &'a [u64; 60],
    pub seniors: &'a [u64; 60],
}

impl OwnAmounts<'_> {
    // Our own pile with nothing borne.
    pub fn pile(&self) -> Result<OwnPile, Refusal>
        ensures { MatchResult result (OwnMade self.now) (OwnRefused self.now) }
    {
        let estate = InTurn::new(estate_row(self.estate_cash, self.estate_pledges))?;
        let share = InTurn::new(own_share_row(self.own_share))?;
        let junior_parts = ProRata::new(member_row(self.juniors))?;
        let senior_parts = ProRata::new(member_row(self.seniors))?;
        Ok(Above {
            upper: estate,
            lower: Above {
                upper: share,
                lower: Above {
                    upper: junior_parts,
                    lower: senior_parts,
                },
            },
        })
    }

    // Bears a loss on our own pile, made new for it.
    pub fn charge(&self, loss: u64) -> Result<OwnCharges, Refusal>
        ensures { MatchResult result (λ c. OwnCharged (rows_of self.now) loss c.each c.unborne) (OwnRefused self.now) }
    {
        let mut pile = self.pile()?;
        let unborne = bear_own(&mut pile, loss);
        let each = borne_row(&pile);
        Ok(OwnCharges { each, unborne })
    }
}

// Bears a loss, tier by tier from the top, and answers what stays unborne.
pub fn bear_own(pile: &mut OwnPile, loss: u64) -> u64
    ensures { OwnBore (left_rows pile.old) (borne_rows pile.old) loss (left_rows pile.new) (borne_rows pile.new) result }
{
    let past_estate = pile.upper.bear(loss);
    let past_share = pile.lower.upper.bear(past_estate);
    let past_juniors = pile.lower.lower.upper.bear(past_share);
    pile.lower.lower.lower.bear(past_juniors)
}
