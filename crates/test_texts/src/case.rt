// A text, and what must come of it.
use std::alloc::{AllocError, Global};
use std::fmt;
use texts::refusal::TextRefusal;

// Refused by the number, at the line and the column.
#[derive(Clone, Copy, Debug, PartialEq, Eq)]
pub struct Refused(pub u8, pub u32, pub usize);

impl From<TextRefusal> for Refused {
    fn from(found: TextRefusal) -> Refused {
        Refused(found.refusal.number(), found.line, found.column)
    }
}

pub type Outcome = Result<(), Refused>;

#[derive(Clone, Copy)]
pub enum Text {
    // A text as it stands.
    Whole(&'static [u8]),
    // What stands below the first line of the format.
    Below(&'static [u8]),
    // Below the first line, one line so many times and then the rest.
    Many(&'static [u8], u32, &'static [u8]),
}

pub type Case = (Text, Outcome);

impl Text {
    pub fn bytes(self, heap: Global, first_line: &[u8]) -> Result<Vec<u8>, AllocError> {
        let mut bytes = Vec::new(heap);
        match self {
            Text::Whole(text) => bytes.extend_from_slice(text)?,
            Text::Below(lines) => {
                bytes.extend_from_slice(first_line)?;
                bytes.extend_from_slice(lines)?;
            }
            Text::Many(line, times, rest) => {
                bytes.extend_from_slice(first_line)?;
                for _ in 0..times {
                    bytes.extend_from_slice(line)?;
                }
                bytes.extend_from_slice(rest)?;
            }
        }
        Ok(bytes)
    }
}

impl fmt::Display for Text {
    fn fmt<W: fmt::Write>(&self, f: &mut fmt::Formatter<W>) -> fmt::Result {
        match *self {
            Text::Whole(text) => write!(f, "of \"{}\"", text.escape_ascii()),
            Text::Below(lines) => write!(f, "with \"{}\"", lines.escape_ascii()),
            Text::Many(line, times, rest) => {
                let line = line.escape_ascii();
                let rest = rest.escape_ascii();
                write!(f, "with {times} times \"{line}\" and \"{rest}\"")
            }
        }
    }
}
