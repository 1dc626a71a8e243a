// An order that may stand in line: a row that was checked. A table's rows are written whole from it.
ghost use Rattle.std.specs.Prelude.{◌≡◌, true, false, Some, None};
ghost use Rattle.market.specs.Rows.{formed, displays_behind, well_priced, countable};

use crate::row::{OrderRow, State};
use crate::side::Side;
use std::marker::Model;

#[derive(Clone, Copy)]
pub struct Order {
    row: OrderRow,
}

impl Model for Order {
    ghost use Rattle.std.specs.Prelude.{◌≡◌, true};
    ghost use Rattle.market.specs.declared.row.OrderRow.{OrderRow};

    ghost Value = { OrderRow };

    ghost use Rattle.market.specs.Rows.{formed};

    ghost view = { λ order. order.row };

    ghost invariant = { λ order. formed order.row ≡ true };

    ghost inverse = { λ row. record { row = row } };
}

pub fn are_countable(shares: u32) -> bool
    ensures { result ≡ countable shares }
{
    (1..=1_000_000).contains(&shares)
}

fn is_display_behind(side: Side, display: Option<u32>, working: u32) -> bool
    ensures { result ≡ displays_behind side display working }
{
    display.is_none_or(|display| side.may_trade(display, working))
}

fn is_well_priced(row: OrderRow) -> bool
    ensures { result ≡ well_priced row.state row.side row.limit row.working row.display }
{
    match row.state {
        State::Resting => row.side.may_trade(row.working, row.limit)
            && is_display_behind(row.side, row.display, row.working),
        _ => row.working == 0 && row.display.is_none(),
    }
}

impl Order {
    // The order in a row, if the row is formed. An `Option`, no `TryFrom`: there is one reason only.
    pub fn of(row: OrderRow) -> Option<Order>
        ensures { elim result [ Some order ↦ order ≡ row | None ↦ formed row ≡ false ] }
    {
        if are_countable(row.shares) && is_well_priced(row) {
            Some(Order { row })
        } else {
            None
        }
    }

    // The order in a row that is known to be formed.
    pub fn known(row: OrderRow) -> Order
        requires { formed row ≡ true }
        ensures { result ≡ row }
    {
        Order::of(row).unwrap()
    }

    pub fn row(self) -> OrderRow
        ensures value { result ≡ self }
        ensures formed { formed result ≡ true }
    {
        self.row
    }
}
