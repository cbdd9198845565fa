// A pile three deep, one of its tiers foreign, bears losses one after another.
#![tactic(auto)]

ghost use Rattle.std.specs.Prelude.{ℕ, ◌<◌, Some, MatchResult, slice_index_or};
ghost use Rattle.bearing.specs.Example.{example, untold};
ghost use Rattle.tiers.specs.Piles.{Alike, Tells};

use backward::Backward;
use rules::refusal::Refusal;
use shares::rows::row_of;
use std::io;
use tiers::above::Above;
use tiers::in_turn::InTurn;
use tiers::pro_rata::ProRata;
use tiers::tier::{Balance, Tier};
use tiers::waterfall::bear_loss;

type ThreeDeep = Above<InTurn, Above<Backward, ProRata>>;

const LOSSES: [u64; 5] = [1_200, 900, 1_000, 2_999_999_999_999_750, 260];

// In turn above the foreign tier above pro rata.
fn three_deep() -> Result<ThreeDeep, Refusal>
    ensures { MatchResult result (λ p. Alike (⟦<ThreeDeep as Tier>⟧.meaning p) example) (λ _. ⊥) }
{
    let in_turn = row_of(64, |a| match a {
        60 => 1_000,
        61 => 500,
        _ => 0,
    });
    let backward = row_of(64, |a| match a {
        0 => 3_000_000_000_000_000,
        1 => 700,
        2 => 300,
        _ => 0,
    });
    let pro_rata = row_of(64, |a| match a {
        0 => 100,
        1 => 200,
        2 => 300,
        _ => 0,
    });
    let upper = InTurn::new(in_turn)?;
    let middle = Backward::new(backward);
    let lower = ProRata::new(pro_rata)?;
    Ok(Above {
        upper,
        lower: Above {
            upper: middle,
            lower,
        },
    })
}

// What an account can still bear and has borne, as it is told.
fn told_account<P: Tier>(pile: &P, number: u8) -> Balance
    requires { number < 64 }
    ensures { Tells (P.meaning pile.now) number (Some result) }
{
    pile.account(number).unwrap()
}

// The same of each account.
fn told_accounts<P: Tier>(pile: &P) -> [Balance; 64]
    ensures { (a : ℕ) → a < 64 → Tells (P.meaning pile.now) a (Some (slice_index_or result a untold)) }
{
    // Not `array::from_fn`, which was timed slower (docs/DESIGN-PASS.md).
    let mut accounts = [Balance { left: 0, borne: 0 }; 64];
    for (a, account) in accounts.iter_mut().enumerate() {
        *account = told_account(pile, a as u8);
    }
    accounts
}

fn main(rt: HostRuntime) -> io::Result<()> {
    let mut pile = three_deep().unwrap();
    for loss in LOSSES {
        let before = told_accounts(&pile);
        let unborne = bear_loss(&mut pile, loss);
        let after = told_accounts(&pile);
        let left = pile.whole();
        println!(rt; "LOSS {loss} UNBORNE {unborne} LEFT {left}")?;
        for (number, (old, new)) in before.iter().zip(&after).enumerate() {
            if old != new {
                let Balance { left, borne } = new;
                println!(rt; "ACCOUNT {number} LEFT {left} BORNE {borne}")?;
            }
        }
    }
    Ok(())
}
