// The fields of a line, from one of them on.
ghost use Rattle.std.specs.Prelude.{◌+◌, ◌^◌, ◌≤◌, length};

use crate::pieces::Pieces;

mod next;

pub use next::check_ended;

#[derive(Drop)]
pub struct Fields<'a> {
    left: Pieces<'a>,
    // where the next of them begins
    column: usize,
    // where the line's LF stands
    last: usize,
    ghost placed: { column + length left.bytes.now ≤ 2 ^ 63 },
}
