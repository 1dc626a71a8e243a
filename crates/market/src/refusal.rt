// Why a text or a call is refused.
ghost use Rattle.std.specs.Prelude.{◌≡◌};
ghost use Rattle.market.specs.Refusals.{number_of};

#[derive(Clone, Copy, Debug, PartialEq, Eq)]
pub enum Refusal {
    FirstLine = 1,
    LineCount = 2,
    BadField = 3,
    OutOfRange = 4,
    OrderTableSize = 5,
    ReportTableSize = 6,
    OldNumber = 7,
    BadPrice = 8,
    BadShares = 9,
    NoFreeRow = 10,
    NoSuchOrder = 11,
    WrongState = 12,
    NoFurtherQuote = 13,
}

impl Refusal {
    pub fn number(self) -> u8
        ensures { result ≡ number_of self }
    {
        self as u8
    }
}
