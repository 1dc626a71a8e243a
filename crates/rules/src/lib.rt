// What the calls of the book mean. The definitions are in specs/; here are the records that they and the code share.
#![tactic(auto)]

pub mod arrival;
pub mod figures;
pub mod repricing;
pub mod trading;
