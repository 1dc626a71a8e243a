// The one search for the first-ranked row, for every kind of row that has a ranking.
#![tactic(auto)]

pub mod orders;
pub mod ranked;
pub mod venues;
