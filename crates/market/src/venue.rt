// The away venues that quote the stock.
ghost use Rattle.std.specs.Prelude.{◌≡◌};
ghost use Rattle.market.specs.Venues.{is_venue, price_on, showing};

use crate::quote::Quote;
use crate::side::Side;

// How many there are; their numbers count from 1.
pub const VENUES: usize = 16;

// The latest bid and offer of a venue.
#[derive(Clone, Copy, Debug, PartialEq, Eq)]
pub struct Venue {
    pub bid: Option<u32>,
    pub offer: Option<u32>,
}

pub fn is_venue(number: u32) -> bool
    ensures { result ≡ is_venue number }
{
    (1..=VENUES as u32).contains(&number)
}

impl Venue {
    // The price that the venue quotes on the side: its bid for buys, its offer for sells. `Quote::away` is another rule:
    // the price that an order meets.
    pub fn price(self, side: Side) -> Option<u32>
        ensures { result ≡ price_on side self }
    {
        match side {
            Side::Buy => self.bid,
            Side::Sell => self.offer,
        }
    }
}

// A venue that shows the quote.
impl From<Quote> for Venue {
    ghost from_gives = { λ quote result. result ≡ showing quote };

    fn from(quote: Quote) -> Venue {
        Venue {
            bid: quote.bid,
            offer: quote.offer,
        }
    }
}
