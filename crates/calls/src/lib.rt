// What a list of calls makes of a record: for which causes each call is refused, what it makes of the record, and what
// holds after every list.
#![tactic(auto)]

pub mod answers;
pub mod laws;
pub mod outcome;
pub mod round_number;
