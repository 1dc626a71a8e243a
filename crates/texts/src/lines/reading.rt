ghost use Rattle.std.specs.Prelude.{◌≡◌, ◌≤◌, length, drop};
ghost use Rattle.std.specs.Iterator.{item_count};
ghost use Rattle.texts.specs.Pieces.{pieces};
ghost use Rattle.texts.specs.Texts.{numbered, first_place};
ghost use Rattle.texts.specs.Places.{place as place_of, GivesRow};

use crate::lines::{Line, Lines};
use crate::pieces::Pieces;
use crate::refusal::TextRefusal;
use std::marker::PhantomData;

// What the line of that number says.
fn read_line<L: Line>(line: &[u8], number: u32) -> Result<L, TextRefusal>
    ensures { result ≡ numbered number (L.Line.meaning line.now) }
{
    L::read(line).map_err(|fault| fault.in_line(number))
}

impl<'a, L: Line> Lines<'a, L> {
    // The lines of the bytes, which stand behind the first line of a text.
    pub(crate) fn of(bytes: &'a [u8]) -> Lines<'a, L>
        requires { length (pieces 10 bytes.now) ≤ 65535 }
        ensures { place_of result ≡ first_place bytes.now }
    {
        Lines {
            bytes,
            place: 0,
            number: 2,
            of: PhantomData,
        }
    }

    // The same lines, to be read as another kind.
    pub fn of_kind<M: Line>(self) -> Lines<'a, M>
        ensures { place_of result ≡ place_of self.entry }
    {
        let Lines {
            bytes,
            place,
            number,
            of: _,
        } = self;
        Lines {
            bytes,
            place,
            number,
            of: PhantomData,
        }
    }

    // The bytes from the next line on.
    fn rest(&self) -> &'a [u8]
        ensures { result.now ≡ drop self.now.place self.now.bytes.now }
    {
        let (_, rest) = self.bytes.split_at(self.place);
        rest
    }

    // The number of the next line in its text.
    pub fn number(&self) -> u32
        ensures { result ≡ (place_of self.now).number }
    {
        self.number // the next one's
    }
}

impl<L: Line> Iterator for Lines<'_, L> {
    type Item = Result<L, TextRefusal>;

    ghost next_gives = { GivesRow L.Line.meaning };

    ghost remaining = { item_count (λ s. (place_of s).left) };

    fn next(&mut self) -> Option<Result<L, TextRefusal>> {
        let line = Pieces::of(self.rest(), b'\n').next()?;
        let number = self.number;
        self.place += line.len();
        self.number += 1;
        Some(read_line(line, number))
    }
}
