// The record.
ghost use Rattle.std.specs.Prelude.{◌≡◌};
ghost use Rattle.ranked.specs.Table.{listed};
ghost use Rattle.record.specs.View.{state_of};
ghost use Rattle.rules.specs.Calls.{Came};

use ranked::table::OrderedTable;
use rules::member::Member;
use rules::stage::Stage;

pub mod asks;
pub mod opening;
pub mod roll;

// It came from a new record by a list of calls, accepted and refused. All its memory is there from the start.
#[derive(Drop)]
pub struct Record {
    multiplier: u32,
    stage: Stage,
    members: OrderedTable<Member>,
    ghost came: { Came (state_of multiplier stage (listed members)) },
    ghost room: { members.limit ≡ 60 },
}
