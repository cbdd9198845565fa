// What each bid is given.
ghost use Rattle.std.specs.Prelude.{◌≡◌, ◌<◌, ◌≤◌, length};
ghost use Rattle.rules.specs.Books.{giving};
ghost use Rattle.auction.specs.Rows.{Row, Narrow};
ghost use Rattle.auction.specs.Ruled.{offered};

use crate::orderly::OrderlyRound;
use shares::rows::row_of;
use shares::share;

impl<'a> OrderlyRound<'a> {
    // What each bid is given of some parts.
    pub(crate) fn give(&self, parts: u64) -> [u64; 96]
        ensures is { Row (length self.now.round.bids.now) (giving (offered self.now) parts) result }
        ensures small { Narrow (length self.now.round.bids.now) result }
    {
        row_of(self.round.bids.len(), |i| self.give_to(i, parts))
    }

    // What bid i is given of some parts: its running share of what its level takes.
    fn give_to(&self, i: usize, parts: u64) -> u64
        requires { i < length self.now.round.bids.now }
        ensures is { result ≡ giving (offered self.now) parts i }
        ensures small { result ≤ 4294967295 }
    {
        let bids = self.round.bids;
        let bid = &bids[i];
        let higher = self.sizes_where(bids, |other| other.price > bid.price);
        let level = self.sizes_where(bids, |other| other.price == bid.price);
        let before = self.sizes_where(&bids[..i], |other| other.price == bid.price);
        let taken = level.min(parts.saturating_sub(higher));
        share(taken, level, before, self.market_size(bid)).unwrap()
    }
}
