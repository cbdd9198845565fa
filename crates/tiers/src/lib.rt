// Tiers of accounts that bear losses, and piles of them, one above another.
#![tactic(auto)]

pub mod above;
mod accounts;
pub mod in_turn;
pub mod laws;
pub mod own;
pub mod pro_rata;
pub mod ruled;
pub mod tier;
pub mod waterfall;
