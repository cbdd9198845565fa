// How a package is made, and how it opens.
ghost use Rattle.std.specs.Prelude.{◌≡◌, [], IfOk, OnErr, OnOk};
ghost use Rattle.auction.specs.Asked.{Askable};
ghost use Rattle.book.specs.HeldPackages.{first_round_of, package_of};
ghost use Rattle.calls.specs.Packages.{newly, no_package};
ghost use Rattle.rules.specs.Rounds.{first_round};

use crate::errors::NoMinimums;
use crate::packages::Package;
use crate::round::BookRound;
use crate::terms::Terms;
use auction::minimums::minimums;
use rules::member::Member;
use std::alloc::{AllocError, Global};

impl Package {
    // A package that nobody opened, with memory for its bids. No later call asks for memory.
    pub fn new(heap: Global) -> Result<Package, AllocError>
        ensures { IfOk result (λ p. package_of p ≡ no_package) }
    {
        Ok(Package {
            excused: 0,
            first: BookRound::new(heap)?,
            residual: None,
            second: BookRound::new(heap)?,
        })
    }

    // Opens it anew with its first round. Nothing is changed where the members have no minimums. A call gives the five amounts
    // one by one, so a struct of them would be made only to be taken apart.
    pub fn open(
        &mut self,
        members: &[Member],
        multiplier: u32,
        margin: u64,
        reference: i64,
        excused: u64,
    ) -> Result<(), NoMinimums>
        ensures asked { OnOk result (Askable members.now multiplier excused) }
        ensures unasked { OnErr result (Askable members.now multiplier excused → ⊥) }
        ensures kept { OnErr result (self.new ≡ self.old) }
        ensures opened { OnOk result (package_of self.new ≡ newly margin reference excused) }
        ensures first { OnOk result (first_round_of self.new ≡ first_round members.now multiplier excused margin reference []) }
    {
        let minimums = minimums(members, multiplier, excused).ok_or(NoMinimums)?;
        self.excused = excused;
        self.residual = None;
        self.first.open(Terms {
            minimums,
            members: members.len(),
            reference,
            margin,
        });
        Ok(())
    }
}
