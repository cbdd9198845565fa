// Reads calls in place from the bytes of a call file.
#![tactic(auto)]

pub mod call;
pub mod field;
pub mod laws;
pub mod reader;
#[cfg(test)]
mod tests;
