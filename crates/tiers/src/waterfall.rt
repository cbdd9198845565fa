// A loss over a pile, whatever its tiers and its depth.
ghost use Rattle.std.specs.Prelude.{length};
ghost use Rattle.shares.specs.Sums.{total, at};
ghost use Rattle.tiers.specs.Piles.{Bears};
ghost use Rattle.tiers.specs.Waterfall.{Settled, BearsEach};

use crate::tier::Tier;

// Bears what the pile can of a loss, and answers what stays unborne.
pub fn bear_loss<P: Tier>(pile: &mut P, loss: u64) -> u64
    ensures bears { Bears (P.meaning pile.old) loss (P.meaning pile.new) result }
    ensures settled { Settled (P.meaning pile.old) loss (P.meaning pile.new) result }
{
    pile.bear(loss)
}

// Bears the losses one after another, and answers what stays unborne of all.
pub fn bear_losses<P: Tier>(pile: &mut P, losses: &[u64]) -> u128
    ensures each { BearsEach (P.meaning pile.old) losses.now (P.meaning pile.new) result }
    ensures settled { Settled (P.meaning pile.old) (total (length losses.now) (at losses.now)) (P.meaning pile.new) result }
{
    // `From` in place of the `as` below leaves the loop's invariant open.
    let mut unborne = 0;
    for loss in losses {
        unborne += pile.bear(*loss) as u128;
    }
    unborne
}
