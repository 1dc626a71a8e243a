// What a call reports of an order, and how that is printed.
ghost use Rattle.std.specs.Prelude.{Some};
ghost use Rattle.market.specs.Reports.{report_text};

use std::fmt;

#[derive(Clone, Copy, Debug, PartialEq, Eq)]
pub enum Report {
    // The order `number` traded with the resting order `resting`.
    Filled {
        number: u32,
        resting: u32,
        price: u32,
        shares: u32,
    },
    Cancelled {
        number: u32,
        shares: u32,
    },
    Added {
        number: u32,
        shares: u32,
    },
    Waiting {
        number: u32,
        away: u32,
        shares: u32,
    },
    Resting {
        number: u32,
        display: Option<u32>,
        working: u32,
        shares: u32,
    },
    Repriced {
        number: u32,
        display: Option<u32>,
        working: u32,
        shares: u32,
    },
}

// R and P differ in a letter alone, and have an arm each: a function over the letter would be no plainer.
impl fmt::Display for Report {
    ghost output = { λ report. Some (report_text report) };

    fn fmt<W: fmt::Write>(&self, f: &mut fmt::Formatter<W>) -> fmt::Result {
        match *self {
            Report::Filled {
                number,
                resting,
                price,
                shares,
            } => write!(f, "F,{number},{resting},{price},{shares}"),
            Report::Cancelled { number, shares } => write!(f, "C,{number},0,0,{shares}"),
            Report::Added { number, shares } => write!(f, "A,{number},0,0,{shares}"),
            Report::Waiting {
                number,
                away,
                shares,
            } => write!(f, "W,{number},0,{away},{shares}"),
            Report::Resting {
                number,
                display,
                working,
                shares,
            } => {
                let shown = display.unwrap_or(0);
                write!(f, "R,{number},{shown},{working},{shares}")
            }
            Report::Repriced {
                number,
                display,
                working,
                shares,
            } => {
                let shown = display.unwrap_or(0);
                write!(f, "P,{number},{shown},{working},{shares}")
            }
        }
    }
}
