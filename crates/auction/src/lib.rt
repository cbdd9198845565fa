// How a round of the auction is divided: minimums, mark, market bids, givings, price, allotments and transfers; what a
// residual makes of it; and how far each member fell short.
#![tactic(auto)]

pub mod cuts;
pub mod division;
pub mod fractions;
mod givings;
pub mod market;
pub mod marks;
pub mod members;
pub mod minimums;
pub mod opening;
pub mod orderly;
pub mod round;
mod rows;
pub mod seconds;
pub mod shortness;
mod transfers;
mod whole;
