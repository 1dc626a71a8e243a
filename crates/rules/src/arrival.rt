// What becomes of the shares that an arriving order has left after it traded.
ghost use Rattle.std.specs.Prelude.{◌≡◌};
ghost use Rattle.rules.specs.Arrival.{remainder_report};

use market::report::Report;
use market::row::Entry;

#[derive(Clone, Copy)]
pub enum Remainder {
    Cancels,
    // Waits to be routed to the away price.
    Waits { away: u32 },
    Rests { working: u32, display: Option<u32> },
}

impl Remainder {
    // No `From`: what is reported is of the order in hand too.
    pub fn report(self, entry: Entry) -> Report
        ensures { result ≡ remainder_report entry self }
    {
        let number = entry.number;
        let shares = entry.shares;
        match self {
            Remainder::Cancels => Report::Cancelled { number, shares },
            Remainder::Waits { away } => Report::Waiting {
                number,
                away,
                shares,
            },
            Remainder::Rests { working, display } => Report::Resting {
                number,
                display,
                working,
                shares,
            },
        }
    }
}
