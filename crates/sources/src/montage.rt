// A montage that is read where it lies.
ghost use Rattle.std.specs.Prelude.{◌≡◌, true};
ghost use Rattle.market.specs.Quotes.{all_formed};
ghost use Rattle.texts.specs.Left.{left};
ghost use Rattle.texts.specs.Montages.{venue_line};
ghost use Rattle.sources.specs.Montages.{table_quotes};

use crate::source::Reader;
use crate::venues::VenueTable;
use texts::montage::VenueQuote;
use texts::values::Values;

mod reading;

pub type Montage<'a> = Reader<MontageQuotes<'a>>;

// The quotes that the lines of a montage give.
#[derive(Drop)]
pub struct MontageQuotes<'a> {
    lines: Values<'a, VenueQuote>,
    // what each venue has shown up to the next line
    venues: VenueTable,
    ghost well_formed: { all_formed (table_quotes venues.rows (left venue_line lines)) ≡ true },
}
