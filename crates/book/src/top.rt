// The best display price of a side, and the shares displayed at it.
ghost use Rattle.std.specs.Prelude.{◌≡◌, ◌+◌, ◌*◌, ◌^◌, ◌<◌, ◌≤◌, true, length};
ghost use Rattle.rules.specs.Lines.{all_formed};
ghost use Rattle.book.specs.Held.{shares_at};

use market::row::OrderRow;
use market::side::Side;

// The price that the row displays, if it rests on the side and displays one. A `filter` would be no plainer: it would
// not look at the price.
fn displayed_on(row: &OrderRow, side: Side) -> Option<u32> {
    if row.rests_on(side) {
        row.display
    } else {
        None
    }
}

// The best price so far and the shares at it, once a row that displays these shares at this price is counted. A
// `match`: there are four outcomes.
fn with_displayed(
    side: Side,
    best: Option<(u32, u32)>,
    price: u32,
    shares: u32,
) -> Option<(u32, u32)>
    requires { shares_at best + shares < 2 ^ 32 }
    ensures { shares_at result ≤ shares_at best + shares }
{
    match best {
        None => Some((price, shares)),
        Some((top, total)) => if price == top {
            Some((top, total + shares))
        } else if side.is_better(price, top) {
            Some((price, shares))
        } else {
            Some((top, total))
        },
    }
}

// Sums the shares at the side's best display price over all rows of the line, in a loop by a rule of the project.
pub(crate) fn best_displayed(line: &[OrderRow], side: Side) -> Option<(u32, u32)>
    requires { (all_formed line.now ≡ true) × (length line.now ≤ 1024) }
    ensures { shares_at result ≤ 1000000 * length line.now }
{
    let mut best = None;
    for row in line {
        if let Some(price) = displayed_on(row, side) {
            best = with_displayed(side, best, price, row.shares);
        }
    }
    best
}
