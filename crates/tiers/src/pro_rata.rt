// A tier whose accounts bear running shares of what each can still bear.
ghost use Rattle.tiers.specs.Charging.{pro_rata};
ghost use Rattle.tiers.specs.Rules.{pro_rata_lawful};
ghost use Rattle.std.proofs.Common.{arith};

use crate::ruled::{Charging, Ruled};
use crate::tier::nothing;
use shares::rows::sum_of;
use shares::share_out;

pub type ProRata = Ruled<ByShares>;

// All are charged together.
pub struct ByShares;

impl Charging for ByShares {
    ghost rule = { pro_rata };

    ghost MOST = { 25000000 };

    const MOST: u64 = 25_000_000;

    fn charges(left: &[u64; 64], amount: u64) -> [u64; 64] {
        let base = sum_of(left);
        let mut charges = nothing();
        // What is left totals the base, so it is shared out.
        share_out(amount.min(base), base, left, &mut charges).unwrap();
        charges
    }

    ghost lawful = { pro_rata_lawful };

    ghost low = { Prim.omega arith };
}
