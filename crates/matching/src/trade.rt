// The trade of an order in hand against the line.
ghost use Rattle.std.specs.Prelude.{◌≡◌, ◌+◌, ◌-◌, ◌<◌, ◌≤◌, true, ◌&&◌, if◌then◌else◌, nat_le, nat_lt};
ghost use Rattle.market.specs.Sides.{inside};
ghost use Rattle.market.specs.Rows.{formed};
ghost use Rattle.rules.specs.Lines.{fills, after, first_ranked};
ghost use Rattle.rules.specs.Trading.{next_fill, fills_of, total, fewer, fill_events};
ghost use Rattle.matching.specs.Changes.{Makes};
ghost use Rattle.matching.specs.Held.{held, Becomes};
ghost use Rattle.matching.specs.Reported.{HasRoom};

use crate::line::Line;
use crate::reports::Reports;
use market::order::Order;
use market::row::{Entry, OrderRow};
use market::side::Side;
use ranking::ranked;
use rules::trading::{Fill, Placed};

// The first-ranked order that rests on the side.
fn first_on(line: &[OrderRow], side: Side) -> Option<Placed>
    ensures { result ≡ first_ranked side line.now }
{
    let place = ranked::first_ranked(line, side)?;
    let row = line[place];
    Some(Placed { place, row })
}

fn may_fill(entry: Entry, price: u32, bound: u32) -> bool
    ensures { result ≡ (nat_lt 0 entry.shares && inside entry.side price bound) }
{
    entry.shares > 0 && entry.side.may_trade(price, bound)
}

fn next_fill_of(line: &[OrderRow], entry: Entry, bound: u32) -> Option<Fill>
    ensures { result ≡ next_fill entry bound line.now }
{
    let first = first_on(line, entry.side.opposite())?;
    if !may_fill(entry, first.row.working, bound) {
        return None;
    }
    Some(Fill {
        trading: entry,
        place: first.place,
        resting: first.row,
        shares: entry.shares.min(first.row.shares),
    })
}

impl Line<'_> {
    // Takes a fill's shares from the resting order; an empty row leaves the line.
    fn take_shares(&mut self, fill: Fill)
        requires { (fill.place < self.old.len) × (formed fill.resting ≡ true) }
        ensures line { Becomes self.old (after (fills fill) (held self.old)) self.new }
        ensures len { self.new.len ≡ (if nat_le fill.resting.shares fill.shares then self.old.len - 1 else self.old.len) }
    {
        let resting = fill.resting;
        if resting.shares <= fill.shares {
            self.remove(fill.place);
        } else {
            let row = OrderRow {
                shares: resting.shares - fill.shares,
                ..resting
            };
            self.write(fill.place, Order::known(row));
        }
    }

    // Trades the order in hand as far as its bound and the line let it, and reports each fill. Answers the order with
    // its remaining shares.
    pub fn trade(&mut self, entry: Entry, bound: u32, reports: &mut Reports) -> Entry
        requires { HasRoom self.old.len reports.old }
        ensures made { Makes (fill_events (fills_of entry bound (held self.old))) self.old reports.old self.new reports.new }
        ensures left { result ≡ fewer (total (fills_of entry bound (held self.old))) entry }
        ensures shorter { self.new.len ≤ self.old.len }
        ensures most { reports.new.next + self.new.len ≤ reports.old.next + self.old.len + 1 }
        ensures room { 0 < result.shares → reports.new.next + self.new.len ≤ reports.old.next + self.old.len }
    {
        let mut left = entry;
        while let Some(fill) = next_fill_of(self.orders(), left, bound) {
            reports.write(fill.into());
            self.take_shares(fill);
            left.shares -= fill.shares;
        }
        left
    }
}
