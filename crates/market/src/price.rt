// Prices, each a whole number of hundredths of a cent.
ghost use Rattle.std.specs.Prelude.{◌≡◌, ◌≤◌, true};
ghost use Rattle.market.specs.Prices.{on_grid, step_above, step_below, step_back, collar_percent, collar as collarOf};

use crate::side::Side;

pub const LOWEST: u32 = 100;

pub const HIGHEST: u32 = 900_000_000;

// One dollar: below it every price is on the grid, from it on the multiples of a cent.
const DOLLAR: u32 = 10_000;

const CENT: u32 = 100;

pub fn is_on_grid(price: u32) -> bool
    ensures { result ≡ on_grid price }
{
    (LOWEST..=HIGHEST).contains(&price) && (price < DOLLAR || price % CENT == 0)
}

// The price one step above a price.
pub fn step_above(price: u32) -> u32
    requires { price ≤ 900000000 }
    ensures { result ≡ step_above price }
{
    if price < DOLLAR {
        price + 1
    } else {
        price + CENT
    }
}

// The price one step below a price.
pub fn step_below(price: u32) -> u32
    requires { 100 ≤ price }
    ensures { result ≡ step_below price }
{
    if price <= DOLLAR {
        price - 1
    } else {
        price - CENT
    }
}

// One step away from the other side: below for a buy, above for a sell.
pub fn step_back(side: Side, price: u32) -> u32
    requires { on_grid price ≡ true }
    ensures { result ≡ step_back side price }
{
    match side {
        Side::Buy => step_below(price),
        Side::Sell => step_above(price),
    }
}

// The collar's width in percent of the reference price.
fn percent_of(reference: u32) -> u32
    ensures value { result ≡ collar_percent reference }
    ensures bound { result ≤ 10 }
{
    if reference <= 250_000 {
        10
    } else if reference <= 500_000 {
        5
    } else {
        3
    }
}

// The upper collar for a buy, the lower collar for a sell.
pub fn collar(side: Side, reference: u32) -> u32
    requires { on_grid reference ≡ true }
    ensures { result ≡ collarOf side reference }
{
    let width = (u64::from(reference) * u64::from(percent_of(reference)) / 100) as u32;
    match side {
        Side::Buy => reference + width,
        Side::Sell => reference - width,
    }
}
