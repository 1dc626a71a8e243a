// The three formats, and how a text of each is judged.
use crate::case::{Case, Outcome, Refused};
use crate::montages::MONTAGES;
use crate::scripts::SCRIPTS;
use crate::tapes::TAPES;
use std::alloc::{AllocError, Global};
use std::fmt;
use texts::montage::check_montage;
use texts::script::{Script, check_script};
use texts::tape::check_tape;

#[derive(Clone, Copy)]
pub enum Format {
    Tape,
    Montage,
    Script,
}

impl Format {
    pub fn cases(self) -> &'static [Case] {
        match self {
            Format::Tape => TAPES,
            Format::Montage => MONTAGES,
            Format::Script => SCRIPTS,
        }
    }

    pub fn first_line(self) -> &'static [u8] {
        match self {
            Format::Tape => b"bid,offer,ref\n",
            Format::Montage => b"venue,bid,offer,ref\n",
            Format::Script => b"call,number,firm,side,kind,price,shares\n",
        }
    }

    pub fn judge(self, text: &[u8]) -> Outcome {
        match self {
            Format::Tape => check_tape(text)?,
            Format::Montage => check_montage(text)?,
            Format::Script => judge_script(text)?,
        }
        Ok(())
    }
}

impl fmt::Display for Format {
    fn fmt<W: fmt::Write>(&self, f: &mut fmt::Formatter<W>) -> fmt::Result {
        match *self {
            Format::Tape => write!(f, "tape"),
            Format::Montage => write!(f, "montage"),
            Format::Script => write!(f, "script"),
        }
    }
}

fn judge_script(text: &[u8]) -> Outcome {
    check_script(text)?;
    for call in Script::over(text) {
        call?;
    }
    Ok(())
}

// Each line of a script by itself.
pub fn judge_lines(heap: Global, text: &[u8]) -> Result<Vec<Outcome>, AllocError> {
    Script::over(text)
        .map(|call| call.map(|_| ()).map_err(Refused::from))
        .collect(heap)
}
