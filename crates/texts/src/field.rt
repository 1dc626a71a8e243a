// The kinds of field: each is a type that says how it is read.
ghost use Rattle.std.specs.Prelude.{◌≡◌, ℕ, ◌||◌, List, Result, ◌==◌};
ghost use Rattle.market.specs.declared.refusal.Refusal.{Refusal};
ghost use Rattle.market.specs.Prices.{on_grid};
ghost use Rattle.market.specs.Venues.{is_venue as isVenue};
ghost use Rattle.texts.specs.Numbers.{number};
ghost use Rattle.texts.specs.Kinds.{KindsWritten};
ghost use Rattle.texts.specs.FieldKinds.{in_range, Ranges, priced, number_field, firm_field, side_field, kind_field, call_word_field, unused_field, grid_price_field, price_or_none_field, venue_number_field};

use crate::number::read_number;
use market::price::is_on_grid;
use market::refusal::Refusal;
use market::row::Kind;
use market::side::Side;
use market::venue::is_venue;

pub trait Field: Sized {
    ghost meaning: { List ℕ → Result Self Refusal };

    // The value of a field, given without the byte that ends it.
    fn read(field: &[u8]) -> Result<Self, Refusal>
        ensures { result ≡ meaning field.now };
}

// A price on the grid.
#[derive(Clone, Copy)]
pub struct GridPrice {
    pub price: u32,
}

// A price on the grid, or none, written 0.
#[derive(Clone, Copy)]
pub struct PriceOrNone {
    pub price: Option<u32>,
}

// The number of a venue, 1 to 16.
#[derive(Clone, Copy)]
pub struct VenueNumber {
    pub number: u32,
}

// The word that a line of a script begins with.
#[derive(Clone, Copy)]
pub enum CallWord {
    Enter,
    Amend,
    Cancel,
    Advance,
}

// A field that the call does not use, written `-`.
#[derive(Clone, Copy)]
pub struct Unused;

impl TryFrom<u32> for GridPrice {
    type Error = Refusal;

    ghost try_from_gives = { λ n r. r ≡ in_range on_grid (λ p. record { price = p }) n };

    fn try_from(price: u32) -> Result<GridPrice, Refusal> {
        if is_on_grid(price) {
            Ok(GridPrice { price })
        } else {
            Err(Refusal::OutOfRange)
        }
    }
}

impl TryFrom<u32> for PriceOrNone {
    type Error = Refusal;

    ghost try_from_gives = { λ n r. r ≡ in_range (λ p. (p == 0) || on_grid p) (λ p. record { price = priced p }) n };

    fn try_from(number: u32) -> Result<PriceOrNone, Refusal> {
        match number {
            0 => Ok(PriceOrNone { price: None }),
            price if is_on_grid(price) => Ok(PriceOrNone { price: Some(price) }),
            _ => Err(Refusal::OutOfRange),
        }
    }
}

impl TryFrom<u32> for VenueNumber {
    type Error = Refusal;

    ghost try_from_gives = { λ n r. r ≡ in_range isVenue (λ v. record { number = v }) n };

    fn try_from(number: u32) -> Result<VenueNumber, Refusal> {
        if is_venue(number) {
            Ok(VenueNumber { number })
        } else {
            Err(Refusal::OutOfRange)
        }
    }
}

// A number in range, as the value that it stands for. Each kind calls it in an impl of its own: one for all that are
// `TryFrom<u32>` would claim the kinds of words too.
fn read_ranged<T: TryFrom<u32>>(field: &[u8]) -> Result<T, Refusal>
where
    T::Error: Drop,
    ensures { Ranges T.TryFrom.try_from_gives (number field.now) result }
{
    let number = read_number(field).ok_or(Refusal::BadField)?;
    T::try_from(number).map_err(|_| Refusal::OutOfRange)
}

// A number is read as it is, whatever it counts.
impl Field for u32 {
    ghost meaning = { number_field };

    fn read(field: &[u8]) -> Result<u32, Refusal> {
        read_number(field).ok_or(Refusal::BadField)
    }
}

// The number of a firm.
impl Field for u16 {
    ghost meaning = { firm_field };

    fn read(field: &[u8]) -> Result<u16, Refusal> {
        read_ranged(field)
    }
}

impl Field for GridPrice {
    ghost meaning = { grid_price_field };

    fn read(field: &[u8]) -> Result<GridPrice, Refusal> {
        read_ranged(field)
    }
}

impl Field for PriceOrNone {
    ghost meaning = { price_or_none_field };

    fn read(field: &[u8]) -> Result<PriceOrNone, Refusal> {
        read_ranged(field)
    }
}

impl Field for VenueNumber {
    ghost meaning = { venue_number_field };

    fn read(field: &[u8]) -> Result<VenueNumber, Refusal> {
        read_ranged(field)
    }
}

impl Field for Side {
    ghost meaning = { side_field };

    fn read(field: &[u8]) -> Result<Side, Refusal> {
        match field {
            b"buy" => Ok(Side::Buy),
            b"sell" => Ok(Side::Sell),
            _ => Err(Refusal::BadField),
        }
    }
}

impl Field for Kind {
    ghost meaning = { kind_field };

    fn read(field: &[u8]) -> Result<Kind, Refusal> {
        match field {
            b"limit" => Ok(Kind::Limit),
            b"ioc" => Ok(Kind::Ioc),
            b"market" => Ok(Kind::Market),
            b"hidden" => Ok(Kind::Hidden),
            b"nonroute" => Ok(Kind::NonRoutable),
            _ => Err(Refusal::BadField),
        }
    }
}

impl Field for CallWord {
    ghost meaning = { call_word_field };

    fn read(field: &[u8]) -> Result<CallWord, Refusal> {
        match field {
            b"enter" => Ok(CallWord::Enter),
            b"amend" => Ok(CallWord::Amend),
            b"cancel" => Ok(CallWord::Cancel),
            b"advance" => Ok(CallWord::Advance),
            _ => Err(Refusal::BadField),
        }
    }
}

impl Field for Unused {
    ghost meaning = { unused_field };

    fn read(field: &[u8]) -> Result<Unused, Refusal> {
        match field {
            b"-" => Ok(Unused),
            _ => Err(Refusal::BadField),
        }
    }
}

// The kinds keep their law; this is here so that the check asks for its proof.
pub fn kinds_hold() -> bool
    ensures { KindsWritten }
{
    true
}
