// Where quotes come from.
#![tactic(auto)]

pub mod last;
pub mod montage;
pub mod source;
pub mod tape;
#[cfg(test)]
mod tests;
mod venues;
