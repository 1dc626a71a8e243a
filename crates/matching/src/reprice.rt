// The orders that follow the quotes take new prices, in two passes.
ghost use Rattle.std.specs.Prelude.{◌≡◌, ◌+◌, ◌*◌, ◌<◌, ◌≤◌, true, [], length, IfSome};
ghost use Rattle.market.specs.Rows.{formed};
ghost use Rattle.rules.specs.declared.repricing.Pass.TheVariants.{First, Second};
ghost use Rattle.rules.specs.declared.trading.Placed.{Placed};
ghost use Rattle.rules.specs.Repricing.{takes_part, numbers as numbersOf, follows, follower as followerOf, repriced as repricedOf, takes_new_place, same_display, repriced_report, fall, rise, each, reprices};
ghost use Rattle.matching.specs.Changes.{Makes};
ghost use Rattle.matching.specs.Held.{held};
ghost use Rattle.matching.specs.Reported.{HasRoom};
ghost use Rattle.matching.specs.Turns.{turn};

use crate::line::Line;
use crate::prices::{follows_quotes, repriced, rises};
use crate::reports::Reports;
use arrayvec::ArrayVec;
use market::order::Order;
use market::quote::FormedQuote;
use market::report::Report;
use market::row::OrderRow;
use rules::repricing::Pass;
use rules::trading::Placed;

// The most rows of a line that is repriced.
pub const MOST_ROWS: usize = 1024;

// Whether the row has its turn in the pass.
fn is_in_pass(quote: FormedQuote, pass: Pass, row: &OrderRow) -> bool
    ensures { result ≡ takes_part quote pass row.now }
{
    follows_quotes(row)
        && match pass {
            Pass::First => !rises(quote, *row),
            Pass::Second => rises(quote, *row),
        }
}

// Whether a repriced row takes a new place: only if its working price changed.
fn takes_new_place(old: &OrderRow, new: &OrderRow) -> bool
    ensures { result ≡ takes_new_place old.now new.now }
{
    new.working != old.working
}

fn is_same_display(a: Option<u32>, b: Option<u32>) -> bool
    ensures { result ≡ same_display a b }
{
    a == b
}

// No `From`: a row is reported as repriced only here.
fn report_of(row: OrderRow) -> Report
    ensures { result ≡ repriced_report row }
{
    Report::Repriced {
        number: row.number,
        display: row.display,
        working: row.working,
        shares: row.shares,
    }
}

// The order in a row that follows the quotes, as it is priced at the quote.
fn repriced_order(quote: FormedQuote, row: OrderRow) -> Order
    requires row { formed row ≡ true }
    requires follows { follows row ≡ true }
    ensures { result ≡ repricedOf quote row }
{
    Order::known(repriced(quote, row))
}

impl Line<'_> {
    // Gathers the numbers of the orders that have their turn in the pass, in line order. They are no result: an array
    // of this size would be copied.
    fn gather(&self, quote: FormedQuote, pass: Pass, numbers: &mut ArrayVec<u32, MOST_ROWS>)
        requires few { self.now.len ≤ 1024 }
        requires empty { numbers.old.items ≡ [] }
        ensures { numbers.new.items ≡ numbersOf quote pass (held self.now) }
    {
        // No `extend`: it answers a `Result`, and there is always room.
        for row in self.orders() {
            if is_in_pass(quote, pass, row) {
                numbers.push(row.number);
            }
        }
    }

    // The row of the number, if it still stands in line and follows the quotes.
    fn follower(&self, number: u32) -> Option<Placed>
        ensures row { result ≡ followerOf number (held self.now) }
        ensures within { IfSome result (λ (p : Placed). p.place < self.now.len) }
        ensures formed { IfSome result (λ (p : Placed). formed p.row ≡ true) }
        ensures follows { IfSome result (λ (p : Placed). follows p.row ≡ true) }
    {
        self.find(number).filter(|found| follows_quotes(&found.row))
    }

    // The first pass over one order.
    fn reprice_falling(&mut self, number: u32, quote: FormedQuote, reports: &mut Reports)
        requires { HasRoom self.old.len reports.old }
        ensures made { Makes (fall quote number (held self.old)) self.old reports.old self.new reports.new }
        ensures len { self.new.len ≡ self.old.len }
        ensures most { reports.new.next ≤ reports.old.next + 1 }
    {
        let Some(found) = self.follower(number) else {
            return;
        };
        let old = found.row;
        let order = repriced_order(quote, old);
        let new = order.row();
        if takes_new_place(&old, &new) {
            self.write_last(found.place, order);
            reports.write(report_of(new));
        } else if !is_same_display(new.display, old.display) {
            self.write(found.place, order);
            reports.write(report_of(new));
        }
    }

    // The second pass over one order: it trades with its new working price as bound, and what is left rests last.
    fn reprice_rising(&mut self, number: u32, quote: FormedQuote, reports: &mut Reports)
        requires { HasRoom self.old.len reports.old }
        ensures made { Makes (rise quote number (held self.old)) self.old reports.old self.new reports.new }
        ensures len { self.new.len ≤ self.old.len }
        ensures most { reports.new.next + self.new.len ≤ reports.old.next + self.old.len + 1 }
    {
        let Some(found) = self.follower(number) else {
            return;
        };
        let new = repriced_order(quote, found.row).row();
        reports.write(report_of(new));
        self.remove(found.place);
        let left = self.trade(new.into(), new.working, reports).shares;
        if left == 0 {
            return;
        }
        let row = OrderRow {
            shares: left,
            ..new
        };
        self.append(Order::known(row));
    }

    // The pass over one order. No closure in its place: the two differ in what they promise of the line.
    fn reprice_one(&mut self, pass: Pass, number: u32, quote: FormedQuote, reports: &mut Reports)
        requires { HasRoom self.old.len reports.old }
        ensures made { Makes (turn quote pass number (held self.old)) self.old reports.old self.new reports.new }
        ensures len { self.new.len ≤ self.old.len }
        ensures most { reports.new.next + self.new.len ≤ reports.old.next + self.old.len + 1 }
    {
        match pass {
            Pass::First => self.reprice_falling(number, quote, reports),
            Pass::Second => self.reprice_rising(number, quote, reports),
        }
    }

    // The pass over the orders of these numbers, one after another.
    fn reprice_all(
        &mut self,
        pass: Pass,
        numbers: &[u32],
        quote: FormedQuote,
        reports: &mut Reports,
    )
        requires { HasRoom (self.old.len + length numbers.now) reports.old }
        ensures made { Makes (each (turn quote pass) numbers.now (held self.old)) self.old reports.old self.new reports.new }
        ensures len { self.new.len ≤ self.old.len }
        ensures most { reports.new.next + self.new.len ≤ reports.old.next + self.old.len + length numbers.now }
    {
        for number in numbers {
            self.reprice_one(pass, *number, quote, reports);
        }
    }

    // Reprices the line at the quote, and reports each changed order and each fill. The numbers of both passes are
    // gathered first: rows move while it runs, and no order has its turn in both.
    pub fn reprice(&mut self, quote: FormedQuote, reports: &mut Reports)
        requires few { self.old.len ≤ 1024 }
        requires room { HasRoom (2 * self.old.len) reports.old }
        ensures made { Makes (reprices quote (held self.old)) self.old reports.old self.new reports.new }
        ensures len { self.new.len ≤ self.old.len }
    {
        let mut first = ArrayVec::new();
        let mut second = ArrayVec::new();
        self.gather(quote, Pass::First, &mut first);
        self.gather(quote, Pass::Second, &mut second);
        self.reprice_all(Pass::First, &first, quote, reports);
        self.reprice_all(Pass::Second, &second, quote, reports);
    }
}
