// The best protected prices of the away markets.
ghost use Rattle.std.specs.Prelude.{◌≡◌, true};
ghost use Rattle.market.specs.Prices.{collar as collarOf};
ghost use Rattle.market.specs.Quotes.{quotable, formed, away as awayOf};

use crate::price::collar;
use crate::side::Side;
use std::marker::Model;

#[derive(Clone, Copy, Debug, PartialEq, Eq)]
pub struct Quote {
    pub bid: Option<u32>,
    pub offer: Option<u32>,
    pub reference: u32,
}

impl Quote {
    // The away price that an order of the side meets: the offer for a buy, the bid for a sell.
    pub fn away(self, side: Side) -> Option<u32>
        ensures { result ≡ awayOf self side }
    {
        match side {
            Side::Buy => self.offer,
            Side::Sell => self.bid,
        }
    }
}

// A quote that is known to be formed.
#[derive(Clone, Copy)]
pub struct FormedQuote {
    quote: Quote,
}

impl Model for FormedQuote {
    ghost use Rattle.std.specs.Prelude.{◌≡◌, true};
    ghost use Rattle.market.specs.declared.quote.Quote.{Quote};

    ghost Value = { Quote };

    ghost use Rattle.market.specs.Quotes.{formed};

    ghost view = { λ known. known.quote };

    ghost invariant = { λ known. formed known.quote ≡ true };

    ghost inverse = { λ quote. record { quote = quote } };
}

impl FormedQuote {
    pub fn known(quote: Quote) -> FormedQuote
        requires { formed quote ≡ true }
        ensures { result ≡ quote }
    {
        FormedQuote { quote }
    }

    // The away price that an order of the side meets.
    pub fn away(self, side: Side) -> Option<u32>
        ensures value { result ≡ awayOf self side }
        ensures quotable { quotable result ≡ true }
    {
        self.quote.away(side)
    }

    // The collar of a side around the reference price.
    pub fn collar(self, side: Side) -> u32
        ensures { result ≡ collarOf side self.reference }
    {
        collar(side, self.quote.reference)
    }
}
