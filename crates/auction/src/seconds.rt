// The minimums of a second round.
ghost use Rattle.std.specs.Prelude.{◌≡◌, ℕ, ◌-◌, ◌<◌, ◌≤◌, MatchOption, ◌==◌};
ghost use Rattle.shares.specs.Sums.{at};
ghost use Rattle.rules.specs.Amounts.{when};
ghost use Rattle.rules.specs.Minimums.{all_parts};
ghost use Rattle.rules.specs.Residuals.{credit, second_minimum};
ghost use Rattle.auction.specs.Rows.{Low, Row};
ghost use Rattle.auction.specs.Ruled.{IsOrderly, ruled};
ghost use Rattle.auction.specs.Seconds.{AskedAgain};

use crate::orderly::OrderlyRound;
use crate::round::Round;
use crate::rows::{if_so, shares_of};
use crate::whole::{ALL_PARTS, within_whole};
use shares::rows::{row_of, sum_of};

impl<'a> Round<'a> {
    // The minimums that a residual of some parts makes for the second round, from the allotments of this one as it is
    // divided anew. None where the residual passes 1,000,000 parts or the round is not orderly.
    pub fn second_minimums(&self, residual: u64) -> Option<[u64; 64]>
        ensures { MatchOption result (IsOrderly self.now → residual ≤ all_parts → ⊥) (λ row. IsOrderly self.now × (residual ≤ all_parts) × AskedAgain (ruled self.now) residual row) }
    {
        let residual = within_whole(residual)?;
        let round = self.orderly()?;
        let anew = round.divide(ALL_PARTS - residual)?;
        Some(round.raise(&anew.allotments))
    }
}

impl<'a> OrderlyRound<'a> {
    // The minimums less the credits and with the rises, each at most the whole.
    fn raise(&self, allotments: &[u64; 64]) -> [u64; 64]
        ensures { Row self.now.round.members (second_minimum self.now.round.members (at self.now.round.minimums) (at allotments.now)) result }
    {
        let minimums = &self.round.minimums;
        let credits = self.credits(allotments);
        let rising = self.rising(&credits);
        let rises = shares_of(sum_of(&credits), sum_of(&rising), &rising);
        row_of(self.round.members, |a| {
            (minimums[a] - credits[a] + rises[a]).min(ALL_PARTS)
        })
    }

    // What each allotment passes its minimum by, at most the minimum.
    fn credits(&self, allotments: &[u64; 64]) -> [u64; 64]
        ensures is { Row self.now.round.members (credit (at self.now.round.minimums) (at allotments.now)) result }
        ensures low { Low 64 result }
    {
        let minimums = &self.round.minimums;
        row_of(self.round.members, |a| {
            minimums[a].min(allotments[a].saturating_sub(minimums[a]))
        })
    }

    // The minimums of the members that have no credit.
    fn rising(&self, credits: &[u64; 64]) -> [u64; 64]
        ensures is { Row self.now.round.members (λ a. when (at credits.now a == 0) (at self.now.round.minimums a)) result }
        ensures low { Low 64 result }
    {
        row_of(self.round.members, |a| {
            if_so(credits[a] == 0, self.round.minimums[a])
        })
    }
}
