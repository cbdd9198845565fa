// How a round is divided.
ghost use Rattle.std.specs.Prelude.{◌≡◌, ◌≤◌};
ghost use Rattle.auction.specs.Ruled.{IsOrderly, ruled};
ghost use Rattle.book.specs.HeldRounds.{divided_at, round_held};
ghost use Rattle.rules.specs.Minimums.{all_parts};

use crate::round::BookRound;
use auction::round::Round;

impl BookRound {
    // Its data, which can be divided.
    pub(crate) fn data(&self) -> Round<'_>
        ensures is { ruled result ≡ (round_held self.now).round }
        ensures orderly { IsOrderly result }
    {
        Round {
            bids: self.bids.as_slice(),
            minimums: self.terms.minimums,
            members: self.terms.members,
            reference: self.terms.reference,
            margin: self.terms.margin,
        }
    }

    // Strikes it, or divides it anew, with this offer.
    pub(crate) fn divide(&mut self, offer: u64)
        requires { offer ≤ all_parts }
        ensures { round_held self.new ≡ divided_at offer (round_held self.old) }
    {
        self.division = self.data().divide(offer);
        self.offer = offer;
    }
}
