// Where a text is refused, and why.
ghost use Rattle.std.specs.Prelude.{◌≡◌, Some};
ghost use Rattle.texts.specs.Faults.{bad_field as badField, in_line as inLine, refusal_text};

use market::refusal::Refusal;
use std::fmt;

// What is wrong in a line, and at which of its bytes, from 1.
#[derive(Clone, Copy, Debug, PartialEq, Eq)]
pub struct Fault {
    pub refusal: Refusal,
    pub column: usize,
}

// The same in a text. Lines count from 1; a refused number of lines stands at line 0, column 0.
#[derive(Clone, Copy, Debug, PartialEq, Eq)]
pub struct TextRefusal {
    pub refusal: Refusal,
    pub line: u32,
    pub column: usize,
}

impl Fault {
    // A field that is bad, missing or too many.
    pub(crate) fn bad_field(column: usize) -> Fault
        ensures { result ≡ badField column }
    {
        Fault {
            refusal: Refusal::BadField,
            column,
        }
    }

    // The same, in the line of that number.
    pub fn in_line(self, line: u32) -> TextRefusal
        ensures { result ≡ inLine line self }
    {
        TextRefusal {
            refusal: self.refusal,
            line,
            column: self.column,
        }
    }
}

impl TextRefusal {
    // A text that does not begin with the first line of its format.
    pub const FIRST_LINE: TextRefusal = TextRefusal {
        refusal: Refusal::FirstLine,
        line: 1,
        column: 1,
    };

    // A text with too few lines behind the first, or too many.
    pub const LINE_COUNT: TextRefusal = TextRefusal {
        refusal: Refusal::LineCount,
        line: 0,
        column: 0,
    };
}

impl fmt::Display for TextRefusal {
    ghost output = { λ refused. Some (refusal_text refused) };

    fn fmt<W: fmt::Write>(&self, f: &mut fmt::Formatter<W>) -> fmt::Result {
        let number = self.refusal.number();
        let line = self.line;
        let column = self.column;
        write!(f, "E,{number},{line},{column},0")
    }
}
