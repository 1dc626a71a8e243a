// The last quote of any source.
ghost use Rattle.std.specs.Prelude.{◌≡◌, [], ◌∷◌};
ghost use Rattle.sources.specs.Sources.{last_only};

use crate::source::QuoteSource;
use market::quote::Quote;

// Advances the source as far as it goes, and answers the quote that is then in force.
pub fn last_quote<S: QuoteSource>(source: &mut S) -> Quote
    ensures answer { result ∷ [] ≡ last_only (S.QuoteSource.quotes source.old) }
    ensures after { S.QuoteSource.quotes source.new ≡ last_only (S.QuoteSource.quotes source.old) }
{
    while source.advance().is_ok() {}
    source.look()
}
