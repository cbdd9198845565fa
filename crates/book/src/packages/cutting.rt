// How a residual cuts a package.
ghost use Rattle.std.specs.Prelude.{◌≡◌, is_ok, OnErr, OnOk};
ghost use Rattle.book.specs.Cuts.{takes_cut};
ghost use Rattle.book.specs.Errors.{cut_error, done_unless};
ghost use Rattle.book.specs.HeldPackages.{package_of, terms_of};
ghost use Rattle.calls.specs.Packages.{with_residual};

use crate::errors::CutError;
use crate::packages::Package;

impl Package {
    // Cuts some parts off: the first round is divided anew, and the second opens. Nothing is changed where the parts are
    // outside 1 to 999,999, the first round is not struck, or there is a residual.
    pub fn cut(&mut self, parts: u32) -> Result<(), CutError>
        ensures answer { is_ok result ≡ takes_cut parts (package_of self.old) }
        ensures why { result ≡ done_unless (cut_error parts (package_of self.old)) }
        ensures did { OnOk result (package_of self.new ≡ with_residual parts (package_of self.old)) }
        ensures kept { OnErr result (self.new ≡ self.old) }
        ensures terms { terms_of self.new ≡ terms_of self.old }
    {
        if !(1..=999_999).contains(&parts) {
            return Err(CutError::OutsideLimits);
        }
        if !self.first.is_struck() {
            return Err(CutError::NotStruck);
        }
        if self.residual.is_some() {
            return Err(CutError::CutAlready);
        }
        // `From` in place of this `as` leaves what the cut makes of the second round open.
        let residual = parts as u64;
        self.second.open(self.first.second_terms(residual));
        self.first.divide(1_000_000 - residual);
        self.residual = Some(parts);
        Ok(())
    }
}
