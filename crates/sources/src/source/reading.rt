ghost use Rattle.std.specs.Prelude.{◌≡◌, ◌∷◌};
ghost use Rattle.std.proofs.Common.{zero-le, suc-le-suc};
ghost use Rattle.std.proofs.lemmas.Bool.{and_from};
ghost use Rattle.sources.specs.Sources.{or_stand_in};

use crate::source::{QuoteSource, Quotes, Reader};
use market::quote::Quote;
use market::refusal::Refusal;

// The quote of a source that has none of its own.
const STAND_IN: Quote = Quote {
    bid: None,
    offer: None,
    reference: 100,
};

impl<Q: Quotes> Reader<Q> {
    // The first of the quotes is in force, or the one in their place where there are none.
    pub(crate) fn of(mut later: Q) -> Reader<Q>
        ensures { result.quote ∷ Q.coming result.later ≡ or_stand_in (Q.coming later) }
    {
        let quote = later.next_quote().unwrap_or(STAND_IN);
        Reader { quote, later }
    }
}

impl<Q: Quotes> QuoteSource for Reader<Q> {
    ghost quotes = { λ s. s.quote ∷ Q.coming s.later };

    ghost some = { λ s. suc-le-suc zero-le };

    ghost formed = { λ s. and_from _ _ s.well_formed (Q.each_formed s.later) };

    fn look(&self) -> Quote {
        self.quote // in force
    }

    fn advance(&mut self) -> Result<(), Refusal> {
        self.quote = self.later.next_quote().ok_or(Refusal::NoFurtherQuote)?;
        Ok(())
    }
}
