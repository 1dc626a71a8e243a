// The lines of a text, read one after the other.
ghost use Rattle.std.specs.Prelude.{◌≡◌, ℕ, ◌+◌, ◌≤◌, List, length, drop, Result};
ghost use Rattle.texts.specs.declared.refusal.Fault.{Fault};
ghost use Rattle.texts.specs.Pieces.{pieces};

use crate::refusal::Fault;
use std::marker::PhantomData;

mod reading;

// A kind of line: a type that says how it is read.
pub trait Line: Sized {
    ghost meaning: { List ℕ → Result Self Fault };

    // The value of a line, which has its LF.
    fn read(line: &[u8]) -> Result<Self, Fault>
        ensures { result ≡ meaning line.now };
}

// A reader of the value lines of a text, each by itself. It keeps a place and a line number, no `Pieces`: the reader
// of a tape has these (DECISIONS).
#[derive(Drop)]
pub struct Lines<'a, L> {
    bytes: &'a [u8],
    // where the next line begins
    place: usize,
    // the number of that line in its text
    number: u32,
    of: PhantomData<L>,
    ghost within: { place ≤ length bytes.now },
    ghost counted: { number + length (pieces 10 (drop place bytes.now)) ≤ 65537 },
}
