// Montages: a first line, and one to 65,535 lines, each with the quote of one venue.
ghost use Rattle.std.specs.Prelude.{◌≡◌, [], length, drop};
ghost use Rattle.std.specs.Result.{result_unwrap_or};
ghost use Rattle.texts.specs.Montages.{venue_line, venue_text, is_venue_quote, montage_header, montage};
ghost use Rattle.texts.specs.Texts.{checked, Exact, Placed};
ghost use Rattle.texts.specs.Places.{place};
ghost use Rattle.texts.specs.Left.{left};
ghost use Rattle.texts.specs.Pieces.{pieces};

use crate::field::VenueNumber;
use crate::fields::{Fields, check_ended};
use crate::frame::{Frame, MOST_LINES};
use crate::lines::Line;
use crate::refusal::{Fault, TextRefusal};
use crate::tape::read_fields;
use crate::values::Values;
use market::quote::Quote;

pub const MONTAGE: Frame<'static> = Frame {
    header: b"venue,bid,offer,ref\n",
    least: 1,
    most: MOST_LINES,
};

// The bid and the offer that a venue now has, and the reference price.
#[derive(Clone, Copy, Debug, PartialEq, Eq)]
pub struct VenueQuote {
    pub venue: u32,
    pub quote: Quote,
}

impl Line for VenueQuote {
    ghost meaning = { venue_line };

    fn read(line: &[u8]) -> Result<VenueQuote, Fault> {
        check_ended(line)?;
        let mut fields = Fields::of(line);
        let venue: VenueNumber = fields.next()?;
        let quote = read_fields(fields)?;
        Ok(VenueQuote {
            venue: venue.number,
            quote,
        })
    }
}

// Refuses a text that is no montage. A function for each format, since each carries the laws of its own.
pub fn check_montage(text: &[u8]) -> Result<(), TextRefusal>
    ensures answer { result ≡ checked (montage text.now) }
    ensures law { Exact montage_header venue_line venue_text is_venue_quote 1 65535 text.now }
    ensures place { Placed (pieces 10 (drop (length montage_header) text.now)) result }
{
    MONTAGE.check::<VenueQuote>(text)
}

// The values of a montage; none where the text is refused.
pub fn montage_lines(text: &[u8]) -> Values<'_, VenueQuote>
    ensures values { left venue_line result ≡ result_unwrap_or (montage text.now) [] }
    ensures number { (place result.lines).number ≡ 2 }
{
    MONTAGE.values(text)
}
