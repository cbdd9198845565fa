// What holds after every list of calls.
ghost use Rattle.rules.specs.Laws.{EveryList};

// The law of every list of calls on a new record, accepted and refused.
pub fn every_list()
    ensures { EveryList }
{}
