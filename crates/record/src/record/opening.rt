// How a record begins.
ghost use Rattle.std.specs.Prelude.{◌≡◌, IfOk};
ghost use Rattle.record.specs.Look.{state};
ghost use Rattle.rules.specs.State.{fresh};

use crate::record::Record;
use ranked::table::OrderedTable;
use rules::stage::Stage;
use std::alloc::{AllocError, Global};

impl Record {
    // A new record. No later call asks for memory.
    pub fn new(heap: Global) -> Result<Record, AllocError>
        ensures { IfOk result (λ x. state x ≡ fresh) }
    {
        let members = OrderedTable::new(heap, 60)?;
        Ok(Record {
            multiplier: 1250,
            stage: Stage::Roll,
            members,
        })
    }
}
