// What became of a call file, line by line.
#![tactic(auto)]

pub mod report;
