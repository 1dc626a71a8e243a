// The texts: tapes and montages of quotes, and scripts of calls, in lines of fields parted by commas.
#![tactic(auto)]

pub mod field;
pub mod fields;
pub mod frame;
pub mod lines;
pub mod montage;
pub mod number;
pub mod pieces;
pub mod refusal;
pub mod script;
pub mod tape;
#[cfg(test)]
mod tests;
pub mod values;
