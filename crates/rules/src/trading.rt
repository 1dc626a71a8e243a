// A row with its place in line, and a fill.
ghost use Rattle.std.specs.Prelude.{◌≡◌};
ghost use Rattle.rules.specs.Lines.{fill_report};

use market::report::Report;
use market::row::{Entry, OrderRow};

#[derive(Clone, Copy)]
pub struct Placed {
    pub place: usize,
    pub row: OrderRow,
}

// The order in hand, with its shares before the fill, trades with the row that rests at the place.
#[derive(Clone, Copy)]
pub struct Fill {
    pub trading: Entry,
    pub place: usize,
    pub resting: OrderRow,
    pub shares: u32,
}

impl From<Fill> for Report {
    ghost from_gives = { λ fill result. result ≡ fill_report fill };

    fn from(fill: Fill) -> Report {
        Report::Filled {
            number: fill.trading.number,
            resting: fill.resting.number,
            price: fill.resting.working,
            shares: fill.shares,
        }
    }
}
