// The book of one stock.
ghost use Rattle.std.specs.Prelude.{◌≡◌, ◌*◌, ◌+◌, ◌<◌, ◌≤◌, [], length, OnOk};
ghost use Rattle.rules.specs.Arrival.{arrival};
ghost use Rattle.rules.specs.Repricing.{reprices};
ghost use Rattle.book.specs.Calls.{in_force, amendment, cancellation};
ghost use Rattle.book.specs.Capacity.{capacity as capacityOf, Fits};

use crate::amendment::Amendment;
use crate::terms::check_terms;
use crate::top::best_displayed;
use market::quote::FormedQuote;
use market::refusal::Refusal;
use market::report::Report;
use market::row::{Entry, OrderRow, State};
use market::side::Side;
use matching::line::Line;
use matching::reports::Reports;
use matching::reprice::MOST_ROWS;
use sources::source::QuoteSource;

// `highest` is the highest order number accepted.
#[derive(Drop)]
pub struct Book<'a> {
    number: u32,
    highest: u32,
    line: Line<'a>,
    ghost fits: { Fits line },
}

// The quote in force, which is formed by the law of its source.
fn quote_of<S: QuoteSource>(source: &S) -> FormedQuote
    ensures { result ≡ in_force (S.quotes source.now) }
{
    FormedQuote::known(source.look())
}

// Refuses to cancel an order that is away.
fn check_cancellation(row: &OrderRow) -> Result<(), Refusal> {
    if row.state == State::Away {
        return Err(Refusal::WrongState);
    }
    Ok(())
}

impl<'a> Book<'a> {
    ghost use Rattle.book.specs.Held.{held, size, Counted, MakesIfOk, StaysIfRefused, highest_after, quotes_after, report_check, shares_at};

    // A new book over the table, of which it uses at most the first 1,024 rows.
    pub fn open(number: u32, rows: &'a mut [OrderRow]) -> Book<'a>
        ensures number { result.number ≡ number }
        ensures highest { result.highest ≡ 0 }
        ensures line { held result ≡ [] }
        ensures size { size result ≡ length rows.old }
    {
        Book {
            number,
            highest: 0,
            line: Line::over(rows),
        }
    }

    // How many rows of the order table are used.
    fn capacity(&self) -> usize
        ensures { result ≡ capacityOf (size self.now) }
    {
        self.line.size().min(MOST_ROWS)
    }

    // Refuses a report table without room for every call. The calls make their `Reports` themselves: of a table that
    // comes back inside a `Result` it is not known what it holds after the call.
    fn check_reports(&self, table: &[Report]) -> Result<(), Refusal>
        ensures { result ≡ report_check (size self.now) (length table.now) }
    {
        if table.len() >= 2 * self.capacity() + 1 {
            Ok(())
        } else {
            Err(Refusal::ReportTableSize)
        }
    }

    // Refuses an order that may not enter.
    fn check_entry(&self, entry: Entry) -> Result<(), Refusal>
        ensures { OnOk result ((entry.shares ≤ 1000000) × (self.now.line.len < capacityOf (size self.now))) }
    {
        if entry.number <= self.highest {
            return Err(Refusal::OldNumber);
        }
        check_terms(entry.kind, entry.limit, entry.shares)?;
        if self.line.orders().len() >= self.capacity() {
            return Err(Refusal::NoFreeRow);
        }
        Ok(())
    }

    // Lets an order arrive. Answers how many reports were written, from the first row of the table on.
    pub fn enter<S: QuoteSource>(
        &mut self,
        source: &S,
        entry: Entry,
        reports: &mut [Report],
    ) -> Result<usize, Refusal>
        ensures number { self.new.number ≡ self.old.number }
        ensures highest { self.new.highest ≡ highest_after result entry.number self.old.highest }
        ensures size { size self.new ≡ size self.old }
        ensures within { Counted result (length reports.old) }
        ensures made { MakesIfOk (arrival (in_force (S.quotes source.now)) entry (held self.old)) self.old reports.old self.new reports.new result }
        ensures refused { StaysIfRefused self.old reports.old self.new reports.new result }
    {
        self.check_reports(reports)?;
        let mut reports = Reports::over(reports);
        self.check_entry(entry)?;
        self.line.arrive(entry, quote_of(source), &mut reports);
        self.highest = entry.number;
        Ok(reports.count())
    }

    // Gives a resting order a limit price and a count of open shares.
    pub fn amend<S: QuoteSource>(
        &mut self,
        source: &S,
        number: u32,
        price: u32,
        shares: u32,
        reports: &mut [Report],
    ) -> Result<usize, Refusal>
        ensures number { self.new.number ≡ self.old.number }
        ensures highest { self.new.highest ≡ self.old.highest }
        ensures size { size self.new ≡ size self.old }
        ensures within { Counted result (length reports.old) }
        ensures made { MakesIfOk (amendment (in_force (S.quotes source.now)) number price shares (held self.old)) self.old reports.old self.new reports.new result }
        ensures refused { StaysIfRefused self.old reports.old self.new reports.new result }
    {
        self.check_reports(reports)?;
        let found = self.line.find(number).ok_or(Refusal::NoSuchOrder)?;
        let amendment = Amendment::of(&found.row, price, shares)?;
        let mut changes = Reports::over(reports);
        amendment.apply(&mut self.line, found, quote_of(source), &mut changes);
        Ok(changes.count())
    }

    // Takes a resting or waiting order out of the line.
    pub fn cancel(&mut self, number: u32, reports: &mut [Report]) -> Result<usize, Refusal>
        ensures number { self.new.number ≡ self.old.number }
        ensures highest { self.new.highest ≡ self.old.highest }
        ensures size { size self.new ≡ size self.old }
        ensures within { Counted result (length reports.old) }
        ensures made { MakesIfOk (cancellation number (held self.old)) self.old reports.old self.new reports.new result }
        ensures refused { StaysIfRefused self.old reports.old self.new reports.new result }
    {
        self.check_reports(reports)?;
        let found = self.line.find(number).ok_or(Refusal::NoSuchOrder)?;
        let row = found.row;
        check_cancellation(&row)?;
        self.line.remove(found.place);
        let mut cancelled = Reports::over(reports);
        cancelled.write(Report::Cancelled {
            number: row.number,
            shares: row.shares,
        });
        Ok(cancelled.count())
    }

    // Moves the source to its next quote, and reprices the orders that follow the quotes.
    pub fn advance<S: QuoteSource>(
        &mut self,
        source: &mut S,
        reports: &mut [Report],
    ) -> Result<usize, Refusal>
        ensures number { self.new.number ≡ self.old.number }
        ensures highest { self.new.highest ≡ self.old.highest }
        ensures size { size self.new ≡ size self.old }
        ensures source { S.quotes source.new ≡ quotes_after result (S.quotes source.old) }
        ensures within { Counted result (length reports.old) }
        ensures made { MakesIfOk (reprices (in_force (S.quotes source.new)) (held self.old)) self.old reports.old self.new reports.new result }
        ensures refused { StaysIfRefused self.old reports.old self.new reports.new result }
    {
        self.check_reports(reports)?;
        let mut reports = Reports::over(reports);
        source.advance()?;
        self.line.reprice(quote_of(source), &mut reports);
        Ok(reports.count())
    }

    // The best display price of a side, and the shares displayed at it.
    pub fn top(&self, side: Side) -> Option<(u32, u32)>
        ensures { shares_at result ≤ 1000000 * length (held self.now) }
    {
        best_displayed(self.line.orders(), side)
    }
}
