// The laws of lines: each stands as the contract of a function.
ghost use Rattle.lines.specs.Laws.{SlotsAreStatement};

// One slot after another gives what the statement says of a record, whatever the record holds.
pub fn slots_make_statement()
    ensures { SlotsAreStatement }
{}
