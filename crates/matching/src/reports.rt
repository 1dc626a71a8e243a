// The reports of a call, in a lent table.
ghost use Rattle.std.specs.Prelude.{◌≡◌, ◌+◌, ◌<◌, ◌≤◌, ◌∷◌, [], length};

use market::report::Report;

// The next report goes to the row `next` of a table, which the caller lends. It stands beside the quote in force in many
// calls, and not with it in one struct: the quote is only read.
#[derive(Drop)]
pub struct Reports<'a> {
    table: &'a mut [Report],
    next: usize,
    pub ghost within: { next ≤ length table.now },
}

impl<'a> Reports<'a> {
    ghost use Rattle.matching.specs.Reported.{HasRoom, Reported};

    // Reports from the row `next` of the table on.
    pub fn behind(table: &'a mut [Report], next: usize) -> Reports<'a>
        requires { next ≤ length table.old }
        ensures next { result.next ≡ next }
        ensures table { result.table.now ≡ table.old }
        ensures same_table { result.table.ghost_name ≡ table.entry.ghost_name }
    {
        Reports { table, next }
    }

    // Reports from the first row of the table on.
    pub fn over(table: &'a mut [Report]) -> Reports<'a>
        ensures first { result.next ≡ 0 }
        ensures table { result.table.now ≡ table.old }
        ensures same_table { result.table.ghost_name ≡ table.entry.ghost_name }
    {
        Reports::behind(table, 0)
    }

    pub fn write(&mut self, report: Report)
        requires { HasRoom 1 self.old }
        ensures { Reported (report ∷ []) self.old self.new }
    {
        self.table[self.next] = report;
        self.next += 1;
    }

    pub fn count(&self) -> usize
        ensures count { result ≡ self.now.next }
        ensures within { result ≤ length self.now.table.now }
    {
        self.next
    }
}
