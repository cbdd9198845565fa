// How bids come into a round.
ghost use Rattle.std.specs.Prelude.{◌≡◌, OnErr, OnOk};
ghost use Rattle.book.specs.Errors.{bid_error, done_unless};
ghost use Rattle.book.specs.HeldRounds.{bidding_of, joined, round_held};
ghost use Rattle.book.specs.Terms.{terms_in};

use crate::errors::BidError;
use crate::round::BookRound;
use rules::bid::Bid;

impl BookRound {
    // Takes a bid, behind those of its price. It has to be open, and have a place, and the bid has to be of a member.
    pub(crate) fn take(&mut self, bid: Bid) -> Result<(), BidError>
        ensures answer { result ≡ done_unless (bid_error bid (bidding_of (round_held self.old)) (round_held self.old).round.members) }
        ensures did { OnOk result (round_held self.new ≡ joined bid (round_held self.old)) }
        ensures kept { OnErr result (self.new ≡ self.old) }
        ensures terms { terms_in (round_held self.new).round ≡ terms_in (round_held self.old).round }
    {
        if self.is_struck() {
            return Err(BidError::Struck);
        }
        if self.bids.len() >= 96 {
            return Err(BidError::NoRoom);
        }
        if usize::from(bid.member) >= self.terms.members {
            return Err(BidError::NoMember);
        }
        self.bids.insert(bid).unwrap();
        Ok(())
    }
}
