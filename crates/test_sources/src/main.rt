// Prints the quotes of a tape and of a montage, and the last of each.
#![tactic(auto)]

use market::quote::Quote;
use sources::last::last_quote;
use sources::montage::Montage;
use sources::source::QuoteSource;
use sources::tape::Tape;
use std::{fs, io};

fn print_quote(rt: &HostRuntime, quote: Quote) -> io::Result<()> {
    let bid = quote.bid.unwrap_or(0);
    let offer = quote.offer.unwrap_or(0);
    let reference = quote.reference;
    println!(rt; "{bid},{offer},{reference}")
}

// Every quote of a source, up to the one that no other follows.
fn print_quotes<S: QuoteSource>(rt: &HostRuntime, source: &mut S) -> io::Result<()> {
    print_quote(rt, source.look())?;
    while source.advance().is_ok() {
        print_quote(rt, source.look())?;
    }
    Ok(())
}

fn main(rt: HostRuntime) -> io::Result<()> {
    let tape = fs::read(&rt, "tape.txt")?;
    println!(rt; "tape:")?;
    print_quotes(&rt, &mut Tape::over(tape.as_slice()))?;
    let montage = fs::read(&rt, "montage.txt")?;
    println!(rt; "montage:")?;
    print_quotes(&rt, &mut Montage::over(montage.as_slice()))?;
    println!(rt; "the last of each:")?;
    print_quote(&rt, last_quote(&mut Tape::over(tape.as_slice())))?;
    print_quote(&rt, last_quote(&mut Montage::over(montage.as_slice())))?;
    println!(rt; "no tape, no montage:")?;
    print_quotes(&rt, &mut Tape::over(montage.as_slice()))?;
    print_quotes(&rt, &mut Montage::over(tape.as_slice()))
}
