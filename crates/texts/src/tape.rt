// Tapes: a first line, and one to 65,535 lines of a quote each.
ghost use Rattle.std.specs.Prelude.{◌≡◌, [], length, drop};
ghost use Rattle.std.specs.Result.{result_unwrap_or};
ghost use Rattle.market.specs.Quotes.{formed};
ghost use Rattle.texts.specs.Cursors.{cursor};
ghost use Rattle.texts.specs.Pieces.{pieces};
ghost use Rattle.texts.specs.Places.{place};
ghost use Rattle.texts.specs.Left.{left};
ghost use Rattle.texts.specs.Tapes.{quote_fields, quote_line, quote_text, tape_header, tape};
ghost use Rattle.texts.specs.Texts.{checked, Exact, Placed};

use crate::field::{GridPrice, PriceOrNone};
use crate::fields::{Fields, check_ended};
use crate::frame::{Frame, MOST_LINES};
use crate::lines::Line;
use crate::refusal::{Fault, TextRefusal};
use crate::values::Values;
use market::quote::Quote;

pub const TAPE: Frame<'static> = Frame {
    header: b"bid,offer,ref\n",
    least: 1,
    most: MOST_LINES,
};

// The fields of a quote, to the end of the line.
pub(crate) fn read_fields(mut fields: Fields<'_>) -> Result<Quote, Fault>
    ensures { result ≡ quote_fields (cursor fields.entry) }
{
    let bid: PriceOrNone = fields.next()?;
    let offer: PriceOrNone = fields.next()?;
    let reference: GridPrice = fields.next()?;
    fields.end()?;
    Ok(Quote {
        bid: bid.price,
        offer: offer.price,
        reference: reference.price,
    })
}

// The quote of a line, which has its LF.
pub fn read_quote(line: &[u8]) -> Result<Quote, Fault>
    ensures { result ≡ quote_line line.now }
{
    check_ended(line)?;
    read_fields(Fields::of(line))
}

impl Line for Quote {
    ghost meaning = { quote_line };

    fn read(line: &[u8]) -> Result<Quote, Fault> {
        read_quote(line)
    }
}

// Refuses a text that is no tape. A function for each format, since each carries the laws of its own.
pub fn check_tape(text: &[u8]) -> Result<(), TextRefusal>
    ensures answer { result ≡ checked (tape text.now) }
    ensures law { Exact tape_header quote_line quote_text formed 1 65535 text.now }
    ensures place { Placed (pieces 10 (drop (length tape_header) text.now)) result }
{
    TAPE.check::<Quote>(text)
}

// The quotes of a tape; none where the text is refused.
pub fn tape_lines(text: &[u8]) -> Values<'_, Quote>
    ensures values { left quote_line result ≡ result_unwrap_or (tape text.now) [] }
    ensures number { (place result.lines).number ≡ 2 }
{
    TAPE.values(text)
}
