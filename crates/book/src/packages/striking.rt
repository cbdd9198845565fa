// How the rounds of a package are struck.
ghost use Rattle.std.specs.Prelude.{◌≡◌, is_ok, not, OnErr, OnOk};
ghost use Rattle.book.specs.HeldPackages.{package_of, terms_of};
ghost use Rattle.calls.specs.Packages.{latest, with_strike};

use crate::errors::AlreadyStruck;
use crate::packages::Package;

impl Package {
    // Strikes the latest round: its offer is divided. Nothing is changed where it is struck already.
    pub fn strike(&mut self) -> Result<(), AlreadyStruck>
        ensures answer { is_ok result ≡ not (latest (package_of self.old)).struck }
        ensures did { OnOk result (package_of self.new ≡ with_strike (package_of self.old)) }
        ensures kept { OnErr result (self.new ≡ self.old) }
        ensures terms { terms_of self.new ≡ terms_of self.old }
    {
        if self.is_latest_struck() {
            return Err(AlreadyStruck);
        }
        // An arm for each: a round that is lent out as `&mut` could lose the terms and the offer that the package keeps.
        match self.residual {
            None => self.first.divide(1_000_000),
            Some(_) => self.second.divide(1_000_000),
        }
        Ok(())
    }
}
