// The prices that a resting order takes at a new quote.
ghost use Rattle.std.specs.Prelude.{◌≡◌, true, Some};
ghost use Rattle.market.specs.Quotes.{quotable};
ghost use Rattle.rules.specs.Repricing.{at_prices, at_away, slid, off_limit, is_at_limit as isAtLimit, repriced as repricedOf, follows as followsOf, rises as risesOf};

use crate::arrival::{away_reached, hold_to};
use market::price::step_back;
use market::quote::FormedQuote;
use market::row::{Kind, OrderRow};

fn with_prices(row: OrderRow, working: u32, display: Option<u32>) -> OrderRow
    ensures { result ≡ at_prices working display row }
{
    OrderRow {
        working,
        display,
        ..row
    }
}

// A row whose limit the away price reaches: at its display price where that is reached too, else at the away price.
fn slide(row: OrderRow, away: u32) -> OrderRow
    requires { quotable (Some away) ≡ true }
    ensures { result ≡ slid row.display away row }
{
    match row.display {
        Some(display) if row.side.may_trade(away, display) => {
            with_prices(row, display, Some(display))
        }
        _ => with_prices(row, away, Some(step_back(row.side, away))),
    }
}

fn leave_limit(row: OrderRow, reached: Option<u32>) -> OrderRow
    requires { quotable reached ≡ true }
    ensures { result ≡ off_limit reached row }
{
    match reached {
        None => with_prices(row, row.limit, Some(row.limit)),
        Some(away) => slide(row, away),
    }
}

fn is_at_limit(row: &OrderRow) -> bool
    ensures { result ≡ isAtLimit row.now }
{
    row.working == row.limit && row.display == Some(row.limit)
}

// The row as it is priced at the quote.
pub fn repriced(quote: FormedQuote, row: OrderRow) -> OrderRow
    ensures { result ≡ repricedOf quote row }
{
    let away = quote.away(row.side);
    match row.kind {
        Kind::Hidden => with_prices(row, hold_to(row.side, row.limit, away), None),
        Kind::NonRoutable => if is_at_limit(&row) {
            row
        } else {
            leave_limit(row, away_reached(row.side, row.limit, away))
        },
        _ => row,
    }
}

// Whether the row is priced anew with each quote.
pub fn follows_quotes(row: &OrderRow) -> bool
    ensures { result ≡ followsOf row.now }
{
    row.state.is_resting() && matches!(row.kind, Kind::Hidden | Kind::NonRoutable)
}

// Whether the working price rises at the quote, told for a buy.
pub fn rises(quote: FormedQuote, row: OrderRow) -> bool
    ensures { result ≡ risesOf quote row }
{
    row.side
        .is_better(repriced(quote, row).working, row.working)
}
