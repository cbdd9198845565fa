// The record of a default: what was called on it, and what it then holds.
#![tactic(auto)]

pub mod record;
