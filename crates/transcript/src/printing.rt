// How a session prints: a first line, the answer to each line of its script, and the tops of both sides.
ghost use Rattle.std.specs.Prelude.{◌≡◌, ◌++◌, Some, Err, IfOk, string_bytes};
ghost use Rattle.std.specs.List.{flat_map};
ghost use Rattle.transcript.specs.Format.{header, report_line, refusal_line, side_number, top_text, top_lines};

use market::report::Report;
use market::side::Side;
use std::alloc::{AllocError, Global};
use std::fmt;
use texts::refusal::TextRefusal;

// A text that has the first line.
pub fn begin(heap: Global) -> Result<String, AllocError>
    ensures { IfOk result (λ text. string_bytes text ≡ header) }
{
    String::from_str(heap, "report,number,other,price,shares\n")
}

pub fn print_reports(text: &mut String, reports: &[Report]) -> Result<(), AllocError>
    ensures { IfOk result (λ _. string_bytes text.new ≡ string_bytes text.old ++ flat_map report_line reports.now) }
{
    for report in reports {
        writeln!(text, "{report}")?;
    }
    Ok(())
}

pub fn print_refusal(text: &mut String, refused: TextRefusal) -> Result<(), AllocError>
    ensures { IfOk result (λ _. string_bytes text.new ≡ string_bytes text.old ++ refusal_line refused) }
{
    writeln!(text, "{refused}")
}

// The best display price of a side and the shares at it, if it displays any.
#[derive(Clone, Copy, Debug, PartialEq, Eq)]
pub struct Top {
    pub side: Side,
    pub best: Option<(u32, u32)>,
}

// The number of a side in the report, and nowhere else.
fn number_of(side: Side) -> u8
    ensures { result ≡ side_number side }
{
    match side {
        Side::Buy => 1,
        Side::Sell => 2,
    }
}

impl fmt::Display for Top {
    ghost output = { λ top. Some (top_text top) };

    fn fmt<W: fmt::Write>(&self, f: &mut fmt::Formatter<W>) -> fmt::Result {
        let number = number_of(self.side);
        let (price, shares) = self.best.unwrap_or((0, 0));
        write!(f, "T,{number},0,{price},{shares}")
    }
}

pub fn print_tops(text: &mut String, buy: Top, sell: Top) -> Result<(), AllocError>
    ensures { IfOk result (λ _. string_bytes text.new ≡ string_bytes text.old ++ top_lines buy sell) }
{
    writeln!(text, "{buy}\n{sell}")
}
