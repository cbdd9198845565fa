// How a second round opens after a first.
ghost use Rattle.std.specs.Prelude.{◌≡◌, ◌≤◌, []};
ghost use Rattle.book.specs.HeldRounds.{round_held};
ghost use Rattle.book.specs.Terms.{terms_held, terms_in};
ghost use Rattle.rules.specs.Minimums.{all_parts};
ghost use Rattle.rules.specs.Residuals.{second_round};

use crate::round::BookRound;
use crate::terms::Terms;
use auction::cuts::{cut_margin, cut_reference};

impl BookRound {
    // The terms that a residual makes for the round after this one.
    pub(crate) fn second_terms(&self, residual: u64) -> Terms
        requires { residual ≤ all_parts }
        ensures { terms_held result ≡ terms_in (second_round (round_held self.now).round residual []) }
    {
        Terms {
            minimums: self.data().second_minimums(residual).unwrap(),
            members: self.terms.members,
            reference: cut_reference(self.terms.reference, residual).unwrap(),
            margin: cut_margin(self.terms.margin, residual).unwrap(),
        }
    }
}
