// A script read line by line.
ghost use Rattle.std.specs.Prelude.{◌≡◌, [], IfOk};
ghost use Rattle.std.specs.Iterator.{item_count};
ghost use Rattle.std.specs.Result.{result_map_both, result_unwrap_or};
ghost use Rattle.texts.specs.Scripts.{script};
ghost use Rattle.texts.specs.Texts.{checked};
ghost use Rattle.texts.specs.Views.{calls_left, next_number, GivesCall};

use crate::lines::Lines;
use crate::refusal::TextRefusal;
use crate::script::{SCRIPT, ScriptCall};

// A reader of a script's lines.
#[derive(Drop)]
pub struct Script<'a> {
    lines: Lines<'a, ScriptCall>,
}

// Refuses a text that is no script. Its lines are not looked at: each is good or bad by itself.
pub fn check_script(text: &[u8]) -> Result<(), TextRefusal>
    ensures { result ≡ checked (script text.now) }
{
    SCRIPT.value_lines(text).map(|_| ())
}

impl<'a> Script<'a> {
    // The lines of a script, or why the text is none.
    pub fn of(text: &'a [u8]) -> Result<Script<'a>, TextRefusal>
        ensures lines { result_map_both calls_left (λ e. e) result ≡ script text.now }
        ensures number { IfOk result (λ s. next_number s ≡ 2) }
    {
        Ok(Script {
            lines: SCRIPT.lines(text)?,
        })
    }

    // The lines of the script; none where the text is refused.
    pub fn over(text: &'a [u8]) -> Script<'a>
        ensures lines { calls_left result ≡ result_unwrap_or (script text.now) [] }
        ensures number { next_number result ≡ 2 }
    {
        Script {
            lines: SCRIPT.lines_or_none(text),
        }
    }

    // The number of the next line.
    pub fn number(&self) -> u32
        ensures { result ≡ next_number self.now }
    {
        self.lines.number()
    }
}

impl Iterator for Script<'_> {
    type Item = Result<ScriptCall, TextRefusal>;

    ghost next_gives = { GivesCall };

    ghost remaining = { item_count calls_left };

    // The call of the next line, or where the line is refused.
    fn next(&mut self) -> Option<Result<ScriptCall, TextRefusal>> {
        self.lines.next()
    }
}
