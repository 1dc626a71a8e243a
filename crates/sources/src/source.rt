// A source of quotes: the one in force, and those that come after it.
ghost use Rattle.std.specs.Prelude.{◌≡◌, ◌<◌, true, List, ◌∷◌, length, drop};
ghost use Rattle.market.specs.declared.quote.Quote.{Quote};
ghost use Rattle.market.specs.Quotes.{formed, all_formed};
ghost use Rattle.texts.specs.Texts.{first_of};
ghost use Rattle.sources.specs.Sources.{advanced};

use market::quote::Quote;
use market::refusal::Refusal;

mod reading;

pub trait QuoteSource {
    // The quote in force, then those that come after it.
    ghost quotes: { Self → List Quote };

    // The law of a source: there is always a quote,
    ghost some: { (s : Self) → 0 < length (quotes s) };

    // and every quote is formed.
    ghost formed: { (s : Self) → all_formed (quotes s) ≡ true };

    // The quote in force: there is always one.
    fn look(&self) -> Quote
        ensures first { quotes self.now ≡ result ∷ drop 1 (quotes self.now) }
        ensures formed { all_formed (quotes self.now) ≡ true };

    // Goes on to the next quote, if there is one.
    fn advance(&mut self) -> Result<(), Refusal>
        ensures answer { result ≡ (advanced (quotes self.old)).0 }
        ensures after { quotes self.new ≡ (advanced (quotes self.old)).1 };
}

// What gives quotes one after the other.
pub trait Quotes {
    ghost coming: { Self → List Quote };

    // The law: every quote is formed.
    ghost each_formed: { (s : Self) → all_formed (coming s) ≡ true };

    // The next quote, if there is one.
    fn next_quote(&mut self) -> Option<Quote>
        ensures value { result ≡ first_of (coming self.old) }
        ensures after { coming self.new ≡ drop 1 (coming self.old) };
}

// A source that reads ahead no further than the quote in force.
#[derive(Drop)]
pub struct Reader<Q> {
    // the quote in force
    quote: Quote,
    later: Q,
    ghost well_formed: { formed quote ≡ true },
}
