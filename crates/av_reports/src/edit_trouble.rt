//! What is wrong with a line of edits that is refused.
ghost use Rattle.std.specs.Prelude.{IfOk};
ghost use Rattle.av_reports.specs.Edits.{IsEditCause, IsTroubleOf};

use av_types::Fault;
use std::alloc::{AllocError, Global};

/// The most bytes of a line that are said.
const MOST_SAID: usize = 200;

/// Why a line of edits is refused.
#[derive(Clone, Copy, Debug, PartialEq, Eq)]
pub enum EditCause {
    /// It has another form.
    Form,
    /// Its tick is none of the run's, of which there are so many.
    Tick(u32),
    /// Its block is not loaded.
    Outside,
}

/// A line of edits that is refused: where it stands, its text, where that can be said, and why it is refused.
#[derive(Debug, Drop)]
pub struct EditTrouble {
    pub path: String,
    pub line: u64,
    pub text: Option<String>,
    pub cause: EditCause,
}

/// The line of a fault of edits, from 1 on, and why it is refused by a run of so many ticks.
pub fn edit_cause(fault: &Fault, ticks: u32) -> Option<(u64, EditCause)>
    ensures { IsEditCause ticks fault.now result }
{
    match fault {
        Fault::BadEdit(line) => Some((*line, EditCause::Form)),
        Fault::EditTick(line) => Some((*line, EditCause::Tick(ticks))),
        Fault::EditOutside(line) => Some((*line, EditCause::Outside)),
        _ => None,
    }
}

/// One of the lines of a text, where it is short and prints as it is.
fn said_line(text: &[u8], number: u64) -> Option<&str> {
    let index = usize::try_from(number.checked_sub(1)?).ok()?;
    let line = text.split(|byte| *byte == b'\n').nth(index)?;
    let line = str::from_utf8(line).ok()?;
    let line = line.strip_suffix('\r').unwrap_or(line);
    if line.len() > MOST_SAID || line.chars().any(|c| c.is_control()) {
        return None;
    }
    Some(line)
}

impl EditTrouble {
    /// The trouble with a line of a text of edits, which may not be known.
    pub fn new(
        alloc: Global,
        path: &str,
        text: Option<&[u8]>,
        line: u64,
        cause: EditCause,
    ) -> Result<EditTrouble, AllocError>
        ensures { IfOk result (IsTroubleOf path.now line cause) }
    {
        let said = match text {
            Some(text) => said_line(text, line),
            None => None,
        };
        let text = match said {
            Some(said) => Some(String::from_str(alloc, said)?),
            None => None,
        };
        Ok(EditTrouble {
            path: String::from_str(alloc, path)?,
            line,
            text,
            cause,
        })
    }

    /// Where it is.
    fn whereabouts(&self, alloc: Global) -> Result<String, AllocError> {
        let EditTrouble { path, line, .. } = self;
        match &self.text {
            Some(text) => format!(in alloc; "{path}, line {line}: {text}"),
            None => format!(in alloc; "{path}, line {line}"),
        }
    }

    /// What can be done.
    fn advice(&self, alloc: Global) -> Result<String, AllocError> {
        match self.cause {
            EditCause::Form => String::from_str(
                alloc,
                "a line is TICK X Y Z STATE with single spaces, as `1 8 75 8 minecraft:water[level=0]`",
            ),
            EditCause::Tick(0) => String::from_str(
                alloc,
                "the run has no ticks, and --ticks gives it some",
            ),
            EditCause::Tick(ticks) => {
                format!(in alloc; "its tick is its first number, and the run's are 1 to {ticks}")
            }
            EditCause::Outside => String::from_str(
                alloc,
                "its block is in no chunk that is loaded, or above or below the world: a chunk is loaded where it is fully generated",
            ),
        }
    }

    /// What is said of it.
    pub(crate) fn lines(&self, alloc: Global) -> Result<Vec<String>, AllocError> {
        let mut lines = Vec::new(alloc);
        lines.push(self.whereabouts(alloc)?)?;
        lines.push(self.advice(alloc)?)?;
        Ok(lines)
    }
}
