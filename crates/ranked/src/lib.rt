// Records that have a rank, and one table that keeps such records in order.
#![tactic(auto)]

pub mod rank;
pub mod table;
