// A package with its rounds: the bids as they come, how a round is divided once it is struck, and what a residual makes
// of the package.
#![tactic(auto)]

pub mod errors;
pub mod packages;
mod round;
mod terms;
#[cfg(test)]
mod tests;
