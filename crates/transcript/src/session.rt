// The session as a function of the bytes of its two texts.
ghost use Rattle.std.specs.Prelude.{◌≡◌, ◌++◌, ◌≤◌, true, length, IfOk, Ok, string_bytes};
ghost use Rattle.texts.specs.Texts.{checked};
ghost use Rattle.texts.specs.Views.{calls_left, next_number};
ghost use Rattle.sources.specs.Tapes.{quotes_in};
ghost use Rattle.book.specs.Held.{held};
ghost use Rattle.transcript.specs.Limits.{sized, texts_checked, calls_in};
ghost use Rattle.transcript.specs.Answering.{Performs, AnswersRow};
ghost use Rattle.transcript.specs.Format.{answered, answer_lines, begins_with_header, AddsAnswers, Completes, Transcript};

use crate::printing::{Top, begin, print_refusal, print_reports, print_tops};
use book::book::Book;
use market::refusal::Refusal;
use market::report::Report;
use market::row::{Kind, OrderRow, State};
use market::side::Side;
use sources::source::QuoteSource;
use sources::tape::Tape;
use std::alloc::{AllocError, Global};
use texts::refusal::TextRefusal;
use texts::script::{Script, ScriptCall};
use texts::tape::check_tape;

// The most bytes of a text.
pub const MOST_BYTES: usize = 65_536;

const ORDER_ROWS: usize = 64;

const REPORT_ROWS: usize = 2 * ORDER_ROWS + 1;

// The number of the session's book. It is never printed.
const BOOK_NUMBER: u32 = 1;

// What the rows of the two tables hold before they are used.
const UNUSED_ROW: OrderRow = OrderRow {
    number: 0,
    firm: 0,
    side: Side::Buy,
    kind: Kind::Limit,
    limit: 0,
    shares: 0,
    state: State::Waiting,
    working: 0,
    display: None,
};

const UNUSED_REPORT: Report = Report::Cancelled {
    number: 0,
    shares: 0,
};

// Refuses a text that is too long, ahead of its other checks.
fn check_size(text: &[u8]) -> Result<(), TextRefusal>
    ensures { result ≡ sized text.now }
{
    if text.len() > MOST_BYTES {
        return Err(TextRefusal::LINE_COUNT);
    }
    Ok(())
}

// The lines of the script, or the refusal of a text of the session; the quotes go before the script. They stay two
// parameters: a struct of them would have no other use.
fn script_of<'a>(quotes: &[u8], script: &'a [u8]) -> Result<Script<'a>, TextRefusal>
    ensures texts { checked result ≡ texts_checked quotes.now script.now }
    ensures lines { IfOk result (λ s. calls_left s ≡ calls_in script.now) }
    ensures number { IfOk result (λ s. next_number s ≡ 2) }
{
    check_size(quotes)?;
    check_tape(quotes)?;
    check_size(script)?;
    Script::of(script)
}

fn perform<S: QuoteSource>(
    book: &mut Book,
    source: &mut S,
    call: ScriptCall,
    reports: &mut [Report],
) -> Result<usize, Refusal>
    ensures within { IfOk result (λ count. count ≤ length reports.old) }
    ensures performs { Performs call (S.quotes source.old) (held book.old) result reports.new (S.quotes source.new) (held book.new) }
{
    match call {
        ScriptCall::Enter(entry) => book.enter(source, entry, reports),
        ScriptCall::Amend {
            number,
            price,
            shares,
        } => book.amend(source, number, price, shares, reports),
        ScriptCall::Cancel { number } => book.cancel(number, reports),
        ScriptCall::Advance => book.advance(source, reports),
    }
}

// Makes the call of a line, which has that number in the script. A refusal by the book has column 0.
fn answer<S: QuoteSource>(
    book: &mut Book,
    source: &mut S,
    call: Result<ScriptCall, TextRefusal>,
    line: u32,
    reports: &mut [Report],
) -> Result<usize, TextRefusal>
    ensures within { IfOk result (λ count. count ≤ length reports.old) }
    ensures answers { AnswersRow line call (S.quotes source.old) (held book.old) (answered reports.new result) (S.quotes source.new) (held book.new) }
{
    perform(book, source, call?, reports).map_err(|refusal| TextRefusal {
        refusal,
        line,
        column: 0,
    })
}

fn print_answer(
    text: &mut String,
    reports: &[Report],
    answer: Result<usize, TextRefusal>,
) -> Result<(), AllocError>
    requires { IfOk answer (λ count. count ≤ length reports.now) }
    ensures { IfOk result (λ _. string_bytes text.new ≡ string_bytes text.old ++ answer_lines (answered reports.now answer)) }
{
    match answer {
        Ok(count) => print_reports(text, &reports[..count]),
        Err(refused) => print_refusal(text, refused),
    }
}

// Makes the calls of a script one after the other, and prints the answers.
fn print_answers<S: QuoteSource>(
    text: &mut String,
    book: &mut Book,
    source: &mut S,
    mut script: Script<'_>,
) -> Result<(), AllocError>
    ensures { IfOk result (λ _. AddsAnswers (next_number script.entry) (S.quotes source.old) (held book.old) (calls_left script.entry) (string_bytes text.old) (string_bytes text.new)) }
{
    let mut reports = [UNUSED_REPORT; REPORT_ROWS];
    let mut line = script.number();
    // no `for`: it would count beside the script what the script knows, the number of its next line
    while let Some(call) = script.next() {
        let answer = answer(book, source, call, line, &mut reports);
        print_answer(text, &reports, answer)?;
        line = script.number();
    }
    Ok(())
}

fn top_of(book: &Book, side: Side) -> Top
    ensures { result.side ≡ side }
{
    Top {
        side,
        best: book.top(side),
    }
}

// Prints the answers and the tops of a session whose texts are good.
#[tactic(auto, using(crate::proofs::Adding::tops_complete))]
fn print_calls(text: &mut String, quotes: &[u8], script: Script<'_>) -> Result<(), AllocError>
    requires { next_number script ≡ 2 }
    ensures { IfOk result (λ _. Completes (Ok tt) (quotes_in quotes.now) (calls_left script.entry) (string_bytes text.old) (string_bytes text.new)) }
{
    let mut rows = [UNUSED_ROW; ORDER_ROWS];
    let mut book = Book::open(BOOK_NUMBER, &mut rows);
    let mut tape = Tape::over(quotes);
    print_answers(text, &mut book, &mut tape, script)?;
    print_tops(text, top_of(&book, Side::Buy), top_of(&book, Side::Sell))?;
    Ok(())
}

// Prints all that comes behind the first line.
fn print_rest(text: &mut String, quotes: &[u8], script: &[u8]) -> Result<(), AllocError>
    ensures { IfOk result (λ _. Completes (texts_checked quotes.now script.now) (quotes_in quotes.now) (calls_in script.now) (string_bytes text.old) (string_bytes text.new)) }
{
    match script_of(quotes, script) {
        Ok(script) => print_calls(text, quotes, script),
        Err(refused) => print_refusal(text, refused),
    }
}

// All that a session prints, from the bytes of its quote file and of its script.
pub fn session(heap: Global, quotes: &[u8], script: &[u8]) -> Result<String, AllocError>
    ensures header { IfOk result (λ s. begins_with_header (string_bytes s) ≡ true) }
    ensures transcript { IfOk result (λ s. Transcript (texts_checked quotes.now script.now) (quotes_in quotes.now) (calls_in script.now) (string_bytes s)) }
{
    let mut text = begin(heap)?;
    print_rest(&mut text, quotes, script)?;
    Ok(text)
}
