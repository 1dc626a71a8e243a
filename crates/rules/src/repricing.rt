// The two passes of a repricing.

#[derive(Clone, Copy)]
pub enum Pass {
    // The orders whose working price falls or stays, told for a buy.
    First,
    // The orders whose working price rises.
    Second,
}
