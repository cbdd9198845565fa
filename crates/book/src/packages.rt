// A package.
ghost use Rattle.std.specs.Prelude.{◌≡◌};
ghost use Rattle.book.specs.Cuts.{CutSo, offer_after};
ghost use Rattle.book.specs.HeldRounds.{round_held};
ghost use Rattle.rules.specs.Minimums.{all_parts};
ghost use Rattle.std.proofs.Props.{props};

use crate::round::BookRound;

mod asks;
mod bidding;
mod cutting;
mod opening;
mod rounds;
mod striking;
mod totals;

// The set of excused members has a bit for each. The first round opens with the package, the second with a residual of
// some parts; before that nothing is told of it. It is there all the same, since its memory is asked for when the package
// is made.
#[derive(Drop)]
pub struct Package {
    excused: u64,
    first: BookRound,
    residual: Option<u32>,
    second: BookRound,
    ghost offered: { first.offer ≡ offer_after residual },
    ghost whole: { second.offer ≡ all_parts },
    ghost cut: { CutSo residual (round_held first) (round_held second) } by { Prim.hlevel props },
}
