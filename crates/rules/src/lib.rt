// The words of the rules: members, bids, stages and refusals.
#![tactic(auto)]

pub mod bid;
pub mod figures;
pub mod fraction_laws;
pub mod laws;
pub mod member;
pub mod name;
pub mod refusal;
pub mod round_laws;
pub mod stage;
