// Which bids are market bids, and how large they are.
ghost use Rattle.std.specs.Prelude.{◌≡◌, ◌≤◌, Bool, length};
ghost use Rattle.std.specs.Fn.{FnReturnsAt};
ghost use Rattle.shares.specs.Sums.{total};
ghost use Rattle.rules.specs.declared.bid.Bid.{Bid};
ghost use Rattle.rules.specs.Amounts.{when};
ghost use Rattle.rules.specs.Rounds.{bid_at, is_market, market_size, of_member};
ghost use Rattle.auction.specs.Ruled.{offered};

use crate::orderly::OrderlyRound;
use crate::rows::if_so;
use rules::bid::Bid;

// Whether a bid is no further below the mark than the margin.
pub fn is_market(bid: &Bid, mark: i64, margin: u64) -> bool
    ensures { result ≡ is_market mark margin bid.now.price }
{
    i128::from(mark) - i128::from(bid.price) <= i128::from(margin)
}

impl<'a> OrderlyRound<'a> {
    // The size of a bid if it is a market bid, else 0.
    pub fn market_size(&self, bid: &Bid) -> u64
        ensures is { result ≡ when (is_market self.now.mark self.now.round.margin bid.now.price) bid.now.size }
        ensures small { result ≤ 4294967295 }
    {
        if_so(
            is_market(bid, self.mark, self.round.margin),
            u64::from(bid.size),
        )
    }

    // The market sizes of a member's bids together.
    pub fn market_size_of(&self, member: usize) -> u64
        ensures { result ≡ of_member self.now.round.bids.now (offered self.now).size member }
    {
        self.sizes_where(self.round.bids, |bid| usize::from(bid.member) == member)
    }

    // Of some bids, the market sizes of those that pass a test, together.
    pub(crate) fn sizes_where<F: Fn(&Bid) -> bool>(&self, bids: &[Bid], test: F) -> u64
        requires few { length bids.now ≤ 96 }
        requires can { F.IsAlwaysCallable test }
        ensures { (p : Bid → Bool) → ((b : Bid) (t : Bool) → FnReturnsAt F.Fn test b t → t ≡ p b) → result ≡ total (length bids.now) (λ i. when (p (bid_at bids.now i)) (market_size bids.now self.now.mark self.now.round.margin i)) }
    {
        let mut sum = 0;
        for bid in bids {
            if test(bid) {
                sum += self.market_size(bid);
            }
        }
        sum
    }
}
