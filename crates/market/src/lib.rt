// The words of the trade: sides, prices, quotes, venues, orders, reports and refusals.
#![tactic(auto)]

pub mod order;
pub mod price;
pub mod quote;
pub mod refusal;
pub mod report;
pub mod row;
pub mod side;
pub mod venue;
