// A tape that is read where it lies.
ghost use Rattle.std.specs.Prelude.{◌≡◌};
ghost use Rattle.texts.specs.Tapes.{quote_line};
ghost use Rattle.texts.specs.Left.{left};
ghost use Rattle.sources.specs.Tapes.{quotes_in};
ghost use Rattle.sources.specs.Views.{quotes_of};
ghost use Rattle.texts.specs.Places.{place};
ghost use Rattle.texts.proofs.Fit.{quotes_formed};

use crate::source::{Quotes, Reader};
use market::quote::Quote;
use texts::tape::tape_lines;
use texts::values::Values;

pub type Tape<'a> = Reader<Values<'a, Quote>>;

impl Quotes for Values<'_, Quote> {
    ghost coming = { left quote_line };

    ghost each_formed = { λ s. quotes_formed (place s.lines) };

    fn next_quote(&mut self) -> Option<Quote> {
        self.next()
    }
}

impl<'a> Reader<Values<'a, Quote>> {
    // The quotes of the text; where it is no tape, one quote with no bid, no offer and the lowest reference.
    pub fn over(text: &'a [u8]) -> Tape<'a>
        ensures { quotes_of result ≡ quotes_in text.now }
    {
        Reader::of(tape_lines(text))
    }
}
