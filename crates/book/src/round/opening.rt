// How a round is made, and how it opens.
ghost use Rattle.std.specs.Prelude.{◌≡◌, [], pos, IfOk};
ghost use Rattle.auction.specs.Orderly.{round_of};
ghost use Rattle.book.specs.Divisions.{alone};
ghost use Rattle.book.specs.HeldRounds.{opened, round_held};
ghost use Rattle.book.specs.Terms.{round_with, terms_held};

use crate::round::BookRound;
use crate::terms::Terms;
use ranked::table::OrderedTable;
use std::alloc::{AllocError, Global};

impl BookRound {
    // A round that nobody opened, with memory for its bids.
    pub(crate) fn new(heap: Global) -> Result<BookRound, AllocError>
        ensures { IfOk result (λ b. round_held b ≡ opened (round_of [] alone 1 (pos 0) 0)) }
    {
        Ok(BookRound {
            bids: OrderedTable::new(heap, 96)?,
            terms: Terms::alone(),
            offer: 1_000_000,
            division: None,
        })
    }

    // Opens it anew, with no bid.
    pub(crate) fn open(&mut self, terms: Terms)
        ensures { round_held self.new ≡ opened (round_with (terms_held terms) []) }
    {
        self.bids.clear();
        self.terms = terms;
        self.offer = 1_000_000;
        self.division = None;
    }
}
