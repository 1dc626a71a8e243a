// The line of orders in a lent table.
ghost use Rattle.std.specs.Prelude.{◌≡◌, ◌+◌, ◌<◌, ◌≤◌, true, [], ◌∷◌, ◌++◌, length, take};
ghost use Rattle.rules.specs.Lines.{all_formed, replace_at};

use crate::table;
use market::order::Order;
use market::row::OrderRow;

// The line is the first `len` rows of a table, which the caller lends; what the later rows hold is left open. The
// table is no `Vec`: a call of the book cannot fail for want of memory.
#[derive(Drop)]
pub struct Line<'a> {
    rows: &'a mut [OrderRow],
    len: usize,
    pub ghost within: { len ≤ length rows.now },
    pub ghost formed: { all_formed (take len rows.now) ≡ true },
}

impl<'a> Line<'a> {
    ghost use Rattle.matching.specs.Held.{held, size as sizeOf, Becomes};

    // The line of the first `len` rows of the table.
    pub fn of(rows: &'a mut [OrderRow], len: usize) -> Line<'a>
        requires within { len ≤ length rows.old }
        requires formed { all_formed (take len rows.old) ≡ true }
        ensures orders { held result ≡ take len rows.old }
        ensures size { sizeOf result ≡ length rows.old }
        ensures same_table { result.rows.ghost_name ≡ rows.entry.ghost_name }
    {
        Line { rows, len }
    }

    // An empty line in the table.
    pub fn over(rows: &'a mut [OrderRow]) -> Line<'a>
        ensures empty { held result ≡ [] }
        ensures size { sizeOf result ≡ length rows.old }
        ensures same_table { result.rows.ghost_name ≡ rows.entry.ghost_name }
    {
        Line::of(rows, 0)
    }

    // The orders in line.
    pub fn orders(&self) -> &[OrderRow]
        ensures { result.now ≡ held self.now }
    {
        &self.rows[..self.len]
    }

    // How many rows the table has.
    pub fn size(&self) -> usize
        ensures { result ≡ sizeOf self.now }
    {
        self.rows.len()
    }

    // Writes an order whole in the place `i`. That a place lies in the line, or that a row found is formed, is asked of
    // callers here and below: it is a fact about two values, and ends with the line's next change.
    pub fn write(&mut self, i: usize, order: Order)
        requires { i < self.old.len }
        ensures line { Becomes self.old (replace_at i (order ∷ []) (held self.old)) self.new }
        ensures len { self.new.len ≡ self.old.len }
    {
        table::write(&mut self.rows[..self.len], i, order);
    }

    // Adds an order at the end.
    pub fn append(&mut self, order: Order)
        requires { self.old.len < sizeOf self.old }
        ensures line { Becomes self.old (held self.old ++ order ∷ []) self.new }
        ensures len { self.new.len ≡ self.old.len + 1 }
    {
        table::append(self.rows, self.len, order);
        self.len += 1;
    }

    // Takes the row at `i` out.
    pub fn remove(&mut self, i: usize)
        requires { i < self.old.len }
        ensures line { Becomes self.old (replace_at i [] (held self.old)) self.new }
        ensures len { self.new.len + 1 ≡ self.old.len }
    {
        table::remove(&mut self.rows[..self.len], i);
        self.len -= 1;
    }

    // Moves the row at `i` to the end, and writes an order whole in its place there.
    pub fn write_last(&mut self, i: usize, order: Order)
        requires { i < self.old.len }
        ensures line { Becomes self.old (replace_at i [] (held self.old) ++ order ∷ []) self.new }
        ensures len { self.new.len ≡ self.old.len }
    {
        table::write_last(&mut self.rows[..self.len], i, order);
    }
}
