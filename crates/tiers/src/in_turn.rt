// A tier whose accounts bear in turn, by number, each to its end.
ghost use Rattle.std.specs.Prelude.{◌≡◌};
ghost use Rattle.tiers.specs.Charging.{in_turn};
ghost use Rattle.tiers.specs.Rules.{in_turn_lawful};
ghost use Rattle.std.proofs.Common.{arith};

use crate::ruled::{Charging, Ruled};
use crate::tier::nothing;

pub type InTurn = Ruled<ByTurns>;

// The lowest number is charged first.
pub struct ByTurns;

impl Charging for ByTurns {
    ghost rule = { in_turn };

    ghost MOST = { 10000000000 };

    const MOST: u64 = 10_000_000_000;

    fn charges(left: &[u64; 64], amount: u64) -> [u64; 64] {
        let mut charges = nothing();
        let mut rest = amount;
        // Not `map`: its closure would change the rest that it captures, and the charges stay open then.
        for (a, most) in left.iter().enumerate() {
            let charge = rest.min(*most);
            charges[a] = charge;
            rest -= charge;
        }
        charges
    }

    ghost lawful = { in_turn_lawful };

    ghost low = { Prim.omega arith };
}
