// The book of one stock: an order table that the caller lends, and the calls on it.
#![tactic(auto)]

mod amendment;
pub mod book;
pub mod open;
mod terms;
mod top;
