// The frame of a format: its first line, and how many lines may stand behind it.
ghost use Rattle.std.specs.Prelude.{◌≡◌, [], Ok};
ghost use Rattle.std.specs.Result.{result_map_both, result_unwrap_or};
ghost use Rattle.texts.specs.Texts.{value_lines, text, text_rows, checked, first_place, rows_at, all_good};
ghost use Rattle.texts.specs.Places.{place};
ghost use Rattle.texts.specs.Left.{left};

use crate::lines::{Line, Lines};
use crate::pieces::Pieces;
use crate::refusal::TextRefusal;
use crate::values::Values;

#[derive(Clone, Copy)]
pub struct Frame<'h> {
    // the first line, with its LF
    pub header: &'h [u8],
    pub least: u16,
    pub most: u16,
}

// The most value lines that a text may have.
pub const MOST_LINES: u16 = 65_535;

impl Frame<'_> {
    // The lines behind the first.
    pub fn value_lines<'a>(self, bytes: &'a [u8]) -> Result<&'a [u8], TextRefusal>
        ensures { result_map_both (λ x. x.now) (λ e. e) result ≡ value_lines self.entry.header.now self.entry.least self.entry.most bytes.now }
    {
        let rest = bytes
            .strip_prefix(self.header)
            .ok_or(TextRefusal::FIRST_LINE)?;
        let count = Pieces::of(rest, b'\n').count();
        if !(usize::from(self.least)..=usize::from(self.most)).contains(&count) {
            return Err(TextRefusal::LINE_COUNT);
        }
        Ok(rest)
    }

    // The same lines, to be read one after the other, good or bad.
    pub fn lines<'a, L: Line>(self, bytes: &'a [u8]) -> Result<Lines<'a, L>, TextRefusal>
        ensures lines { result_map_both place (λ e. e) result ≡ result_map_both first_place (λ e. e) (value_lines self.entry.header.now self.entry.least self.entry.most bytes.now) }
        ensures rows { result_map_both (λ l. rows_at L.Line.meaning (place l)) (λ e. e) result ≡ text_rows self.entry.header.now L.Line.meaning self.entry.least self.entry.most bytes.now }
    {
        Ok(Lines::of(self.value_lines(bytes)?))
    }

    // Refuses a text with a bad line, at the first.
    pub fn check<L: Line + Drop>(self, bytes: &[u8]) -> Result<(), TextRefusal>
        ensures { result ≡ checked (text self.entry.header.now L.Line.meaning self.entry.least self.entry.most bytes.now) }
    {
        for line in self.lines::<L>(bytes)? {
            line?;
        }
        Ok(())
    }

    // The lines; none of a text that is refused.
    pub fn lines_or_none<'a, L: Line>(self, bytes: &'a [u8]) -> Lines<'a, L>
        ensures lines { place result ≡ first_place (result_unwrap_or (value_lines self.entry.header.now self.entry.least self.entry.most bytes.now) []) }
        ensures rows { rows_at L.Line.meaning (place result) ≡ result_unwrap_or (text_rows self.entry.header.now L.Line.meaning self.entry.least self.entry.most bytes.now) [] }
    {
        // a `match`: `unwrap_or_else` of what has a lifetime gets no proof
        match self.lines(bytes) {
            Ok(lines) => lines,
            Err(_) => Lines::of(b""),
        }
    }

    // The lines of a text that is good as a whole; none of any other.
    fn good_lines<'a, L: Line + Drop>(self, bytes: &'a [u8]) -> Lines<'a, L>
        ensures rows { all_good (rows_at L.Line.meaning (place result)) ≡ Ok (result_unwrap_or (text self.entry.header.now L.Line.meaning self.entry.least self.entry.most bytes.now) []) }
        ensures number { (place result).number ≡ 2 }
    {
        // a `match`: each arm says what is read, and a `map_or_else` over no value would be no plainer
        match self.check::<L>(bytes) {
            Ok(()) => self.lines_or_none(bytes),
            Err(_) => Lines::of(b""),
        }
    }

    // The values of a text that is good as a whole; none of any other.
    pub fn values<'a, L: Line + Drop>(self, bytes: &'a [u8]) -> Values<'a, L>
        ensures values { left L.Line.meaning result ≡ result_unwrap_or (text self.entry.header.now L.Line.meaning self.entry.least self.entry.most bytes.now) [] }
        ensures number { (place result.lines).number ≡ 2 }
    {
        Values::of(self.good_lines(bytes))
    }
}
