// The amendment of an order in line.
ghost use Rattle.std.specs.Prelude.{◌≡◌, ◌+◌, ◌<◌, ◌≤◌, true, IfOk};
ghost use Rattle.market.specs.Rows.{countable, formed};
ghost use Rattle.rules.specs.Lines.{replay};
ghost use Rattle.matching.specs.Changes.{Makes};
ghost use Rattle.matching.specs.Held.{held, Becomes};
ghost use Rattle.matching.specs.Reported.{HasRoom, Reported};
ghost use Rattle.book.specs.Calls.{change_reports, resized, rearrival, amended};

use crate::terms::check_terms;
use market::order::Order;
use market::quote::FormedQuote;
use market::refusal::Refusal;
use market::report::Report;
use market::row::{Entry, OrderRow};
use matching::line::Line;
use matching::reports::Reports;
use rules::trading::Placed;

// The limit price and the count of open shares that an order is given.
#[derive(Clone, Copy)]
pub(crate) struct Amendment {
    price: u32,
    shares: u32,
    ghost countable_shares: { countable shares ≡ true },
}

impl Amendment {
    ghost use Rattle.book.specs.declared.amendment.Amendment.{Amendment};

    // Refuses to amend a row that does not rest, or to such a price or share count.
    pub(crate) fn of(row: &OrderRow, price: u32, shares: u32) -> Result<Amendment, Refusal>
        ensures price { IfOk result (λ (a : Amendment). a.price ≡ price) }
        ensures shares { IfOk result (λ (a : Amendment). a.shares ≡ shares) }
    {
        if !row.state.is_resting() {
            return Err(Refusal::WrongState);
        }
        check_terms(row.kind, price, shares)?;
        Ok(Amendment { price, shares })
    }

    // Reports a change in the open shares of the row.
    fn report_change(self, row: &OrderRow, reports: &mut Reports)
        requires { HasRoom 1 reports.old }
        ensures { Reported (change_reports row.now self.shares) reports.old reports.new }
    {
        let number = row.number;
        if self.shares < row.shares {
            let shares = row.shares - self.shares;
            reports.write(Report::Cancelled { number, shares });
        } else if row.shares < self.shares {
            let shares = self.shares - row.shares;
            reports.write(Report::Added { number, shares });
        }
    }

    // At the same limit price the order keeps its place, unless its shares become more. That a place lies in the line is
    // asked here and below: it is a fact about two values, and ends with the line's next change.
    fn resize(self, line: &mut Line, found: Placed)
        requires within { found.place < line.old.len }
        requires formed { formed found.row ≡ true }
        ensures line { Becomes line.old (replay (resized self.shares found) (held line.old)) line.new }
        ensures len { line.new.len ≡ line.old.len }
    {
        let order = Order::known(OrderRow {
            shares: self.shares,
            ..found.row
        });
        if self.shares > found.row.shares {
            line.write_last(found.place, order);
        } else {
            line.write(found.place, order);
        }
    }

    // At another limit price it leaves the line, and arrives again.
    fn rearrive(self, line: &mut Line, found: Placed, quote: FormedQuote, reports: &mut Reports)
        requires within { found.place < line.old.len }
        requires room { HasRoom line.old.len reports.old }
        ensures made { Makes (rearrival quote self.price self.shares found (held line.old)) line.old reports.old line.new reports.new }
        ensures len { line.new.len ≤ line.old.len }
    {
        line.remove(found.place);
        let entry = Entry {
            limit: self.price,
            shares: self.shares,
            ..found.row.into()
        };
        line.arrive(entry, quote, reports);
    }

    // Gives the order in line that limit price and those open shares.
    pub(crate) fn apply(
        self,
        line: &mut Line,
        found: Placed,
        quote: FormedQuote,
        reports: &mut Reports,
    )
        requires within { found.place < line.old.len }
        requires formed { formed found.row ≡ true }
        requires room { HasRoom (line.old.len + 1) reports.old }
        ensures made { Makes (amended quote self.price self.shares (Some found) (held line.old)) line.old reports.old line.new reports.new }
        ensures len { line.new.len ≤ line.old.len }
    {
        self.report_change(&found.row, reports);
        if self.price == found.row.limit {
            self.resize(line, found);
        } else {
            self.rearrive(line, found, quote, reports);
        }
    }
}
