ghost use Rattle.std.specs.Prelude.{◌≡◌, true};
ghost use Rattle.std.specs.Iterator.{item_count};
ghost use Rattle.texts.specs.Places.{place};
ghost use Rattle.texts.specs.Values.{readable};
ghost use Rattle.texts.specs.Left.{left, GivesValue};

use crate::lines::{Line, Lines};
use crate::values::Values;

impl<'a, L: Line> Values<'a, L> {
    pub(crate) fn of(lines: Lines<'a, L>) -> Values<'a, L>
        requires { readable L.Line.meaning (place lines) ≡ true }
        ensures { place result.lines ≡ place lines.entry }
    {
        Values { lines }
    }

    // The number of the next line in its text.
    pub fn number(&self) -> u32
        ensures { result ≡ (place self.now.lines).number }
    {
        self.lines.number()
    }
}

impl<L: Line + Drop> Iterator for Values<'_, L> {
    type Item = L;

    ghost next_gives = { GivesValue L.Line.meaning };

    ghost remaining = { item_count (left L.Line.meaning) };

    fn next(&mut self) -> Option<L> {
        self.lines.next()?.ok()
    }
}
