// Reads the quote file and the script, and prints the session's report.
#![tactic(auto)]

ghost use Rattle.std.specs.Prelude.{◌≤◌, IfOk, vec_len};

use std::alloc::Global;
use std::fs::File;
use std::io;
use std::io::Read;
use transcript::session::{MOST_BYTES, session};

// One byte more than a text may have, so that a longer text is seen to be longer.
const MOST: usize = MOST_BYTES + 1;

// The first bytes of a source, `MOST` of them at most.
fn read_bytes<R: Read + Drop>(heap: Global, source: R) -> io::Result<Vec<u8>>
    ensures { IfOk result (λ v. vec_len v ≤ 65537) }
{
    let mut bytes = Vec::new(heap);
    source.take(MOST as u64).read_to_end(&mut bytes)?;
    bytes.truncate(MOST);
    Ok(bytes)
}

fn read_file(rt: &HostRuntime, path: &str) -> io::Result<Vec<u8>>
    ensures { IfOk result (λ v. vec_len v ≤ 65537) }
{
    read_bytes(rt.alloc(), File::open(rt, path)?)
}

fn main(rt: HostRuntime) -> io::Result<()> {
    let heap = rt.alloc();
    // a file that cannot be read counts as empty
    let quotes = read_file(&rt, "quotes.txt").unwrap_or_else(|_| Vec::new(heap));
    let script = read_bytes(heap, rt.stdin())?;
    let text = session(heap, quotes.as_slice(), script.as_slice())?;
    print!(rt; "{text}")
}
