// The latest bid and offer of each venue: an array, since there are sixteen.
ghost use Rattle.std.specs.Prelude.{◌≡◌, true, []};
ghost use Rattle.market.specs.Venues.{is_venue, best as bestOf, Best};
ghost use Rattle.sources.specs.Montages.{venues_after, changed, best_quote};

use market::quote::Quote;
use market::side::Side;
use market::venue::{VENUES, Venue};
use ranking::ranked::first_ranked;
use texts::montage::VenueQuote;

#[derive(Clone, Copy)]
pub struct VenueTable {
    rows: [Venue; VENUES],
}

impl VenueTable {
    // No venue has shown anything.
    pub(crate) fn new() -> VenueTable
        ensures { result.rows ≡ venues_after [] }
    {
        let none = Venue {
            bid: None,
            offer: None,
        };
        VenueTable {
            rows: [none; VENUES],
        }
    }

    // Changes the row of the line's venue.
    fn change(&mut self, line: VenueQuote)
        requires { is_venue line.venue ≡ true }
        ensures { self.new.rows ≡ changed line self.old.rows }
    {
        self.rows[(line.venue - 1) as usize] = line.quote.into();
    }

    // The highest bid, or the lowest offer.
    fn best(&self, side: Side) -> Option<u32>
        ensures value { result ≡ bestOf side self.now.rows }
        ensures law { Best side self.now.rows result }
    {
        let first = first_ranked(&self.rows, side)?;
        self.rows[first].price(side)
    }

    // The quote that the line gives.
    pub(crate) fn quote_after(&mut self, line: VenueQuote) -> Quote
        requires { is_venue line.venue ≡ true }
        ensures table { self.new.rows ≡ changed line self.old.rows }
        ensures quote { result ≡ best_quote self.new.rows line.quote.reference }
    {
        self.change(line);
        Quote {
            bid: self.best(Side::Buy),
            offer: self.best(Side::Sell),
            reference: line.quote.reference,
        }
    }
}
