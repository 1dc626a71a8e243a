// Scripts: a first line, and up to 65,535 lines of a call each.
ghost use Rattle.std.specs.Prelude.{◌≡◌, ◌<◌, length};
ghost use Rattle.texts.specs.Cursors.{cursor};
ghost use Rattle.texts.specs.Fields.{AtAByte};
ghost use Rattle.texts.specs.Scripts.{enter_fields, amend_fields, cancel_fields, advance_fields, call_line, call_text, is_call, script_lines};
ghost use Rattle.texts.specs.Writing.{one_line, Written};
ghost use Rattle.std.specs.Result.{result_map_both};

use crate::field::{CallWord, Unused};
use crate::fields::{Fields, check_ended};
use crate::frame::{Frame, MOST_LINES};
use crate::lines::Line;
use crate::refusal::{Fault, TextRefusal};
use market::row::Entry;

mod reader;

pub use reader::{Script, check_script};

pub const SCRIPT: Frame<'static> = Frame {
    header: b"call,number,firm,side,kind,price,shares\n",
    least: 0,
    most: MOST_LINES,
};

#[derive(Clone, Copy, Debug, PartialEq, Eq)]
pub enum ScriptCall {
    Enter(Entry),
    Amend {
        number: u32,
        price: u32,
        shares: u32,
    },
    Cancel {
        number: u32,
    },
    Advance,
}

// Each of these four reads the fields behind the call's word, to the end of the line, one column a line. A call that
// passes over several unused columns was tried, and left goals open in two of them.
fn read_enter(mut fields: Fields<'_>) -> Result<ScriptCall, Fault>
    ensures { result ≡ enter_fields (cursor fields.entry) }
{
    let number = fields.next()?;
    let firm = fields.next()?;
    let side = fields.next()?;
    let kind = fields.next()?;
    let limit = fields.next()?;
    let shares = fields.next()?;
    fields.end()?;
    Ok(ScriptCall::Enter(Entry {
        number,
        firm,
        side,
        kind,
        limit,
        shares,
    }))
}

fn read_amend(mut fields: Fields<'_>) -> Result<ScriptCall, Fault>
    ensures { result ≡ amend_fields (cursor fields.entry) }
{
    let number = fields.next()?;
    fields.next::<Unused>()?;
    fields.next::<Unused>()?;
    fields.next::<Unused>()?;
    let price = fields.next()?;
    let shares = fields.next()?;
    fields.end()?;
    Ok(ScriptCall::Amend {
        number,
        price,
        shares,
    })
}

fn read_cancel(mut fields: Fields<'_>) -> Result<ScriptCall, Fault>
    ensures { result ≡ cancel_fields (cursor fields.entry) }
{
    let number = fields.next()?;
    fields.next::<Unused>()?;
    fields.next::<Unused>()?;
    fields.next::<Unused>()?;
    fields.next::<Unused>()?;
    fields.next::<Unused>()?;
    fields.end()?;
    Ok(ScriptCall::Cancel { number })
}

fn read_advance(mut fields: Fields<'_>) -> Result<ScriptCall, Fault>
    ensures { result ≡ advance_fields (cursor fields.entry) }
{
    fields.next::<Unused>()?;
    fields.next::<Unused>()?;
    fields.next::<Unused>()?;
    fields.next::<Unused>()?;
    fields.next::<Unused>()?;
    fields.next::<Unused>()?;
    fields.end()?;
    Ok(ScriptCall::Advance)
}

fn call_of(line: &[u8]) -> Result<ScriptCall, Fault>
    ensures { result ≡ call_line line.now }
{
    check_ended(line)?;
    let mut fields = Fields::of(line);
    match fields.next()? {
        CallWord::Enter => read_enter(fields),
        CallWord::Amend => read_amend(fields),
        CallWord::Cancel => read_cancel(fields),
        CallWord::Advance => read_advance(fields),
    }
}

// The call of a line, which has its LF. Laws: a line is read just if it is its call written out, and a fault is at a
// byte of its line. Not in `call_of`: tried, and each early exit owes the laws again.
pub fn read_call(line: &[u8]) -> Result<ScriptCall, Fault>
    ensures value { result ≡ call_line line.now }
    ensures law { Written one_line call_line call_text is_call }
    ensures place { 0 < length line.now → AtAByte (length line.now) result }
{
    call_of(line)
}

impl Line for ScriptCall {
    ghost meaning = { call_line };

    fn read(line: &[u8]) -> Result<ScriptCall, Fault> {
        read_call(line)
    }
}

// The value lines of a script. Each is good or bad by itself, as `read_call` says.
pub fn script_lines(text: &[u8]) -> Result<&[u8], TextRefusal>
    ensures { result_map_both (λ x. x.now) (λ e. e) result ≡ script_lines text.now }
{
    SCRIPT.value_lines(text)
}
