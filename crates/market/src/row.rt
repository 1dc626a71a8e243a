// An order as it stands in a table, and an order in hand.
ghost use Rattle.std.specs.Prelude.{◌≡◌};
ghost use Rattle.market.specs.Rows.{is_resting, rests_on, category_of, priority, entry_of, row_of};

use crate::side::Side;

#[derive(Clone, Copy, Debug, PartialEq, Eq)]
pub enum Kind {
    Limit,
    Ioc,
    Market,
    Hidden,
    NonRoutable,
}

// A waiting order has no slip yet; an away order has one.
#[derive(Clone, Copy, Debug, PartialEq, Eq)]
pub enum State {
    Resting,
    Waiting,
    Away,
}

// One plain record, as whoever lends a table sees it: a row that does not rest has working price 0 and no display.
// Its first six values are those of an `Entry`, and are not nested, since nearly every rule reads one of them.
#[derive(Clone, Copy, Debug, PartialEq, Eq)]
pub struct OrderRow {
    pub number: u32,
    pub firm: u16,
    pub side: Side,
    pub kind: Kind,
    pub limit: u32,
    pub shares: u32,
    pub state: State,
    pub working: u32,
    pub display: Option<u32>,
}

// The priority category of a resting order: a lower number ranks first.
#[derive(Clone, Copy, Debug, PartialEq, Eq, PartialOrd, Ord)]
pub enum Category {
    // The order displays the price that it works at.
    Display = 2,
    // Any other resting order.
    NonDisplay = 3,
}

// An order in hand: what is entered, or taken out of the line to arrive again.
#[derive(Clone, Copy, Debug, PartialEq, Eq)]
pub struct Entry {
    pub number: u32,
    pub firm: u16,
    pub side: Side,
    pub kind: Kind,
    pub limit: u32,
    pub shares: u32,
}

impl Category {
    pub fn number(self) -> u8
        ensures { result ≡ priority self }
    {
        self as u8
    }
}

impl State {
    pub fn is_resting(self) -> bool
        ensures { result ≡ is_resting self }
    {
        self == State::Resting
    }
}

impl OrderRow {
    // Whether the order rests on the side.
    pub fn rests_on(&self, side: Side) -> bool
        ensures { result ≡ rests_on side self.now }
    {
        self.state == State::Resting && self.side == side
    }

    pub fn category(&self) -> Category
        ensures { result ≡ category_of self.now }
    {
        if self.display == Some(self.working) {
            Category::Display
        } else {
            Category::NonDisplay
        }
    }
}

// The order in hand that a row is when it leaves the line.
impl From<OrderRow> for Entry {
    ghost from_gives = { λ row result. result ≡ entry_of row };

    fn from(row: OrderRow) -> Entry {
        Entry {
            number: row.number,
            firm: row.firm,
            side: row.side,
            kind: row.kind,
            limit: row.limit,
            shares: row.shares,
        }
    }
}

impl Entry {
    // The row that the order in hand becomes in that state, at those prices. No `From`: these are three values more.
    pub fn row(self, state: State, working: u32, display: Option<u32>) -> OrderRow
        ensures { result ≡ row_of self state working display }
    {
        OrderRow {
            number: self.number,
            firm: self.firm,
            side: self.side,
            kind: self.kind,
            limit: self.limit,
            shares: self.shares,
            state,
            working,
            display,
        }
    }
}
