// A round that can be divided, with its mark found.
ghost use Rattle.std.specs.Prelude.{◌≡◌};
ghost use Rattle.auction.specs.Orderly.{Orderly, mark_of};

use crate::round::Round;

#[derive(Drop)]
pub struct OrderlyRound<'a> {
    pub round: Round<'a>,
    pub mark: i64,
    ghost orderly: { Orderly round.bids.now round.minimums round.members },
    ghost marked: { mark ≡ mark_of round.bids.now round.reference },
}
