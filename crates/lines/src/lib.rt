// The lines of a statement: what they say of a record, and their bytes in lent memory.
#![tactic(auto)]

pub mod laws;
pub mod line;
pub mod put;
#[cfg(test)]
mod tests;
