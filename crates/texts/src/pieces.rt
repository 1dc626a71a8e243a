// Bytes cut into pieces, each with the byte that ends it: a text into lines, a line into fields.
ghost use Rattle.std.specs.Prelude.{◌≡◌, ◌+◌, ◌<◌, ◌≤◌, ◌∷◌, length, drop};
ghost use Rattle.std.specs.Iterator.{YieldsFirstRef, item_count};
ghost use Rattle.texts.specs.Pieces.{first_len, pieces};
ghost use Rattle.texts.specs.Cuts.{cuts};

// How many bytes go up to the first byte `end`, and with it.
fn piece_len(bytes: &[u8], end: u8) -> usize
    ensures is { result ≡ first_len end bytes.now }
    ensures within { result ≤ length bytes.now }
    ensures some { 0 < length bytes.now → 0 < result }
{
    // a `match`: with `map_or` the three facts stay open
    match bytes.iter().position(|b| *b == end) {
        Some(i) => i + 1,
        None => bytes.len(),
    }
}

// The bytes up to the first byte `end`, and with it; and the others.
pub fn first_piece(bytes: &[u8], end: u8) -> (&[u8], &[u8])
    ensures cut { 0 < length bytes.now → pieces end bytes.now ≡ result.0.now ∷ pieces end result.1.now }
    ensures some { 0 < length bytes.now → 0 < length result.0.now }
    ensures len { length result.0.now + length result.1.now ≡ length bytes.now }
    ensures back { result.1.now ≡ drop (length result.0.now) bytes.now }
{
    bytes.split_at(piece_len(bytes, end))
}

// The pieces of some bytes, one after the other.
#[derive(Clone, Copy)]
pub struct Pieces<'a> {
    pub(crate) bytes: &'a [u8],
    end: u8,
}

impl<'a> Pieces<'a> {
    pub fn of(bytes: &'a [u8], end: u8) -> Pieces<'a>
        ensures { cuts result ≡ pieces end bytes.now }
    {
        Pieces { bytes, end }
    }
}

impl<'a> Iterator for Pieces<'a> {
    type Item = &'a [u8];

    ghost next_gives = { YieldsFirstRef cuts };

    ghost remaining = { item_count cuts };

    fn next(&mut self) -> Option<&'a [u8]> {
        if self.bytes.is_empty() {
            return None;
        }
        let (piece, rest) = first_piece(self.bytes, self.end);
        self.bytes = rest;
        Some(piece)
    }
}
