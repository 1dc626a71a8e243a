// The line of orders in a lent table: its edits, trade, arrival and repricing.
#![tactic(auto)]

pub mod arrival;
pub mod find;
pub mod line;
pub mod prices;
pub mod reports;
pub mod reprice;
pub mod table;
pub mod trade;
