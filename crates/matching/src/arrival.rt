// The arrival of an order in hand.
ghost use Rattle.std.specs.Prelude.{◌≡◌, ◌+◌, ◌<◌, ◌≤◌, true, ◌++◌};
ghost use Rattle.market.specs.Quotes.{formed};
ghost use Rattle.rules.specs.Lines.{all_formed};
ghost use Rattle.rules.specs.Arrival.{limit_or_collar, held_to, bound as boundOf, reached, remainder as remainderOf, remainder_rows, arrival};
ghost use Rattle.matching.specs.Changes.{Makes};
ghost use Rattle.matching.specs.Held.{held, size, Becomes};
ghost use Rattle.matching.specs.Reported.{HasRoom};

use crate::line::Line;
use crate::reports::Reports;
use market::order::Order;
use market::price::step_back;
use market::quote::FormedQuote;
use market::row::{Entry, Kind, State};
use market::side::Side;
use rules::arrival::Remainder;

fn limit_or_collar_of(quote: FormedQuote, entry: Entry) -> u32
    ensures { result ≡ limit_or_collar quote entry entry.kind }
{
    match entry.kind {
        Kind::Market => quote.collar(entry.side),
        _ => entry.limit,
    }
}

// A price held to the away price, if there is one.
pub fn hold_to(side: Side, price: u32, away: Option<u32>) -> u32
    ensures { result ≡ held_to side price away }
{
    away.map_or(price, |away| side.tighter(price, away))
}

// The away price, if there is one and the price reaches it.
pub fn away_reached(side: Side, price: u32, away: Option<u32>) -> Option<u32>
    ensures { result ≡ reached side price away }
{
    away.filter(|away| side.may_trade(*away, price))
}

fn bound(quote: FormedQuote, entry: Entry) -> u32
    ensures { result ≡ boundOf quote entry }
{
    hold_to(
        entry.side,
        limit_or_collar_of(quote, entry),
        quote.away(entry.side),
    )
}

// What becomes of the shares that an order has left after it traded.
fn remainder(quote: FormedQuote, entry: Entry) -> Remainder
    ensures { result ≡ remainderOf quote entry }
{
    let reached = away_reached(
        entry.side,
        limit_or_collar_of(quote, entry),
        quote.away(entry.side),
    );
    let limit = entry.limit;
    match (entry.kind, reached) {
        (Kind::Ioc, _) => Remainder::Cancels,
        (Kind::Market, None) => Remainder::Cancels,
        (Kind::Market, Some(away)) => Remainder::Waits { away },
        (Kind::Limit, Some(away)) => Remainder::Waits { away },
        (Kind::Hidden, _) => Remainder::Rests {
            working: bound(quote, entry),
            display: None,
        },
        (Kind::NonRoutable, Some(away)) => Remainder::Rests {
            working: away,
            display: Some(step_back(entry.side, away)),
        },
        (Kind::Limit, None) | (Kind::NonRoutable, None) => Remainder::Rests {
            working: limit,
            display: Some(limit),
        },
    }
}

impl Line<'_> {
    // Adds what stays of the order in hand at the end of the line.
    fn keep(&mut self, entry: Entry, remainder: Remainder)
        requires free_row { self.old.len < size self.old }
        requires formed { all_formed (remainder_rows entry remainder) ≡ true }
        ensures line { Becomes self.old (held self.old ++ remainder_rows entry remainder) self.new }
        ensures len { self.new.len ≤ self.old.len + 1 }
    {
        match remainder {
            Remainder::Cancels => {}
            Remainder::Waits { away: _ } => {
                let row = entry.row(State::Waiting, 0, None);
                self.append(Order::known(row));
            }
            Remainder::Rests { working, display } => {
                let row = entry.row(State::Resting, working, display);
                self.append(Order::known(row));
            }
        }
    }

    // The order in hand trades, and what is left of it is cancelled, waits or rests.
    pub fn arrive(&mut self, entry: Entry, quote: FormedQuote, reports: &mut Reports)
        requires free_row { self.old.len < size self.old }
        requires room { HasRoom (self.old.len + 1) reports.old }
        requires shares { entry.shares ≤ 1000000 }
        ensures made { Makes (arrival quote entry (held self.old)) self.old reports.old self.new reports.new }
        ensures len { self.new.len ≤ self.old.len + 1 }
    {
        let left = self.trade(entry, bound(quote, entry), reports);
        if left.shares == 0 {
            return;
        }
        let remainder = remainder(quote, left);
        self.keep(left, remainder);
        reports.write(remainder.report(left));
    }
}
