ghost use Rattle.std.specs.Prelude.{◌≡◌, []};
ghost use Rattle.texts.specs.Left.{left};
ghost use Rattle.texts.specs.Montages.{venue_line};
ghost use Rattle.sources.specs.Montages.{quotes_after, montage_quotes};
ghost use Rattle.sources.specs.Views.{montage_coming, montage_left};

use crate::montage::{Montage, MontageQuotes};
use crate::source::{Quotes, Reader};
use crate::venues::VenueTable;
use market::quote::Quote;
use texts::montage::{VenueQuote, montage_lines};
use texts::values::Values;

impl<'a> MontageQuotes<'a> {
    fn of(lines: Values<'a, VenueQuote>) -> MontageQuotes<'a>
        ensures { montage_coming result ≡ quotes_after [] (left venue_line lines.entry) }
    {
        MontageQuotes {
            lines,
            venues: VenueTable::new(),
        }
    }
}

impl Quotes for MontageQuotes<'_> {
    ghost coming = { montage_coming };

    ghost each_formed = { λ s. s.well_formed };

    fn next_quote(&mut self) -> Option<Quote> {
        let line = self.lines.next()?;
        Some(self.venues.quote_after(line))
    }
}

impl<'a> Reader<MontageQuotes<'a>> {
    // The quotes of the text; where it is no montage, the one quote that stands in for them.
    pub fn over(text: &'a [u8]) -> Montage<'a>
        ensures { montage_left result ≡ montage_quotes text.now }
    {
        Reader::of(MontageQuotes::of(montage_lines(text)))
    }
}
