// The row of an order number.
ghost use Rattle.std.specs.Prelude.{◌≡◌, ◌<◌, ◌==◌, true, IfSome, position};
ghost use Rattle.market.specs.declared.row.OrderRow.{OrderRow};
ghost use Rattle.market.specs.Rows.{formed};
ghost use Rattle.rules.specs.declared.trading.Placed.{Placed};
ghost use Rattle.rules.specs.Lines.{find as findOf};
ghost use Rattle.matching.specs.Held.{held};

use crate::line::Line;
use market::row::OrderRow;
use rules::trading::Placed;

fn place_of(line: &[OrderRow], number: u32) -> Option<usize>
    ensures { result ≡ position (λ (r : OrderRow). r.number == number) line.now }
{
    line.iter().position(|row| row.number == number)
}

// The row of an order number, with its place.
pub fn find(line: &[OrderRow], number: u32) -> Option<Placed>
    ensures { result ≡ findOf number line.now }
{
    let place = place_of(line, number)?;
    let row = line[place];
    Some(Placed { place, row })
}

impl Line<'_> {
    // The same, of the orders in line.
    pub fn find(&self, number: u32) -> Option<Placed>
        ensures row { result ≡ findOf number (held self.now) }
        ensures within { IfSome result (λ (p : Placed). p.place < self.now.len) }
        ensures formed { IfSome result (λ (p : Placed). formed p.row ≡ true) }
    {
        find(self.orders(), number)
    }
}
