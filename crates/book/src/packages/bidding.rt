// How bids come into a package.
ghost use Rattle.std.specs.Prelude.{◌≡◌, is_ok, OnErr, OnOk};
ghost use Rattle.book.specs.Errors.{bid_error, done_unless};
ghost use Rattle.book.specs.HeldPackages.{package_of, terms_of};
ghost use Rattle.book.specs.HeldRounds.{takes_bid};
ghost use Rattle.calls.specs.Packages.{latest, with_bid};

use crate::errors::BidError;
use crate::packages::Package;
use rules::bid::Bid;

impl Package {
    // Puts a bid into the latest round. Nothing is changed where that round is struck or has 96 bids, or the bid is of no
    // member.
    pub fn bid(&mut self, bid: Bid) -> Result<(), BidError>
        ensures answer { is_ok result ≡ takes_bid bid (latest (package_of self.old)) (terms_of self.old).members }
        ensures why { result ≡ done_unless (bid_error bid (latest (package_of self.old)) (terms_of self.old).members) }
        ensures did { OnOk result (package_of self.new ≡ with_bid bid (package_of self.old)) }
        ensures kept { OnErr result (self.new ≡ self.old) }
        ensures terms { terms_of self.new ≡ terms_of self.old }
    {
        // An arm for each: a round that is lent out as `&mut` could lose the terms and the offer that the package keeps.
        match self.residual {
            None => self.first.take(bid),
            Some(_) => self.second.take(bid),
        }
    }
}
