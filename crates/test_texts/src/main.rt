// Judges tapes, montages and scripts, good and damaged, and prints each that does not come out as its
// table says.
#![tactic(auto)]

mod case;
mod format;
mod montages;
mod scripts;
mod tapes;

use case::Text;
use format::{Format, judge_lines};
use scripts::LINES;
use std::io;

fn texts_as_said(rt: &HostRuntime, format: Format) -> io::Result<usize> {
    let mut right = 0usize;
    for (text, outcome) in format.cases() {
        let bytes = text.bytes(rt.alloc(), format.first_line())?;
        let came = format.judge(bytes.as_slice());
        if came == *outcome {
            right = right.saturating_add(1);
        } else {
            println!(rt; "{format} {text}: {came:?}")?;
        }
    }
    Ok(right)
}

fn scripts_as_said_by_lines(rt: &HostRuntime) -> io::Result<usize> {
    let mut right = 0usize;
    for (lines, outcomes) in LINES {
        let text = Text::Below(*lines);
        let bytes = text.bytes(rt.alloc(), Format::Script.first_line())?;
        let came = judge_lines(rt.alloc(), bytes.as_slice())?;
        if came.as_slice() == *outcomes {
            right = right.saturating_add(1);
        } else {
            print!(rt; "script {text}, by lines:")?;
            for outcome in came.iter() {
                print!(rt; " {outcome:?};")?;
            }
            println!(rt)?;
        }
    }
    Ok(right)
}

fn main(rt: HostRuntime) -> io::Result<()> {
    let tapes = texts_as_said(&rt, Format::Tape)?;
    println!(rt; "tape: {tapes} texts as the table says")?;
    let montages = texts_as_said(&rt, Format::Montage)?;
    println!(rt; "montage: {montages} texts as the table says")?;
    let scripts = texts_as_said(&rt, Format::Script)?;
    let by_lines = scripts_as_said_by_lines(&rt)?;
    let scripts = scripts.saturating_add(by_lines);
    println!(rt; "script: {scripts} texts as the table says")
}
