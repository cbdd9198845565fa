// The terms of a round, whatever bids come.
ghost use Rattle.std.specs.Prelude.{◌≡◌, ◌≤◌, length};
ghost use Rattle.auction.specs.Orderly.{Covering, round_of};
ghost use Rattle.auction.specs.Rows.{Low};
ghost use Rattle.book.specs.Divisions.{alone, Blank};

// The minimums stand by the members' numbers, and behind the last all is 0. There is a place for each member that there
// can be, since no memory is asked for after a package is made.
#[derive(Clone, Copy, PartialEq, Eq, Debug)]
pub(crate) struct Terms {
    pub(crate) minimums: [u64; 64],
    pub(crate) members: usize,
    pub(crate) reference: i64,
    pub(crate) margin: u64,
    ghost places: { length minimums ≡ 64 },
    ghost seats: { members ≤ 64 },
    ghost low: { Low members minimums },
    ghost spare: { Blank members minimums },
    ghost covered: { Covering members minimums },
}

impl Terms {
    ghost use Rattle.std.specs.Prelude.{[], nat_lt, pos};
    ghost use Rattle.calls.specs.Answers.{when_so};
    ghost use Rattle.shares.specs.Sums.{at};
    ghost use Rattle.book.specs.Terms.{terms_held, terms_in};

    // Those of one member, who has to bid for all parts.
    pub(crate) fn alone() -> Terms
        ensures { terms_held result ≡ terms_in (round_of [] alone 1 (pos 0) 0) }
    {
        let mut minimums = [0; 64];
        minimums[0] = 1_000_000;
        Terms {
            minimums,
            members: 1,
            reference: 0,
            margin: 0,
        }
    }

    // What a member has to bid for.
    pub(crate) fn minimum(&self, member: usize) -> Option<u64>
        ensures { result ≡ when_so (nat_lt member self.now.members) (Some (at self.now.minimums member)) }
    {
        self.minimums[..self.members].get(member).copied()
    }
}
