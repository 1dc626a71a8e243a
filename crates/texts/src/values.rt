// The values of the lines of a text, all of them good.
ghost use Rattle.std.specs.Prelude.{◌≡◌, true};
ghost use Rattle.texts.specs.Places.{place};
ghost use Rattle.texts.specs.Values.{readable};

use crate::lines::{Line, Lines};

mod reading;

#[derive(Drop)]
pub struct Values<'a, L: Line> {
    lines: Lines<'a, L>,
    ghost good: { readable L.Line.meaning (place lines) ≡ true },
}
