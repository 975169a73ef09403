//! By what the files of a folder are known again, where an exchange was cut off.
ghost use Rattle.std.specs.Prelude.{◌≡◌, IfOk, OnOk, Some, length, map, string_bytes, vec_len};
ghost use Rattle.av_exchange.specs.Marks.{AreAsMarked, AreMarksOf, IsAsMarked, line_at};
ghost use Rattle.av_exchange.specs.Exchange.{AreStaged};
ghost use Rattle.av_exchange.specs.Outcomes.{name_of};
ghost use Rattle.av_exchange.specs.Steps.{IfTold};

use crate::folder::Folder;
use crate::journal::Journal;
use crate::moves::Move;
use crate::names::{JOURNAL, part_name};
use std::alloc::{AllocError, Global};
use std::io::{self, ErrorKind};

/// The line of a name that no file has.
const NO_FILE: &str = "-";

/// What is said of a journal that is gone.
pub(crate) const GONE: &str = "another program took it away";

/// The line of what has a name.
fn mark_line<F: Folder>(alloc: Global, folder: &F, name: &str) -> io::Result<String>
    ensures { IfOk result (λ line. IfTold (F.history folder.now)
        (λ h. string_bytes line ≡ line_at (F.mark_of folder.now) h name.now)) }
{
    match folder.mark(alloc, name)? {
        Some(mark) => Ok(mark),
        None => Ok(String::from_str(alloc, NO_FILE)?),
    }
}

/// The lines of what has these names.
pub(crate) fn mark_lines<F: Folder>(
    alloc: Global,
    folder: &F,
    names: &[String],
) -> io::Result<Vec<String>>
    ensures marked { IfOk result (λ marks. AreMarksOf (F.mark_of folder.now) (F.history folder.now)
        (map string_bytes names.now) (map string_bytes marks.items)) }
    ensures each { IfOk result (λ marks. length marks.items ≡ length names.now) }
{
    let mut marks = Vec::new(alloc);
    for name in names {
        marks.push(mark_line(alloc, folder, name.as_str())?)?;
    }
    Ok(marks)
}

/// An error of which this is said, or want of memory.
fn error_told(told: Result<String, AllocError>) -> io::Error {
    match told {
        Ok(text) => io::Error::new(ErrorKind::InvalidData, text.as_str()),
        Err(refused) => refused.into(),
    }
}

/// What is said of a new file that is gone behind a journal, though it had not its name.
pub(crate) fn lost(alloc: Global, name: &str) -> io::Error {
    error_told(format!(in alloc; "the new file of {name} is lost; to go on, remove this journal"))
}

/// What is said of a file that was written since a journal was, while its new one waits, or whose new one is lost.
fn changed_since(alloc: Global, name: &str, waits: bool) -> io::Error {
    if !waits {
        return lost(alloc, name);
    }
    error_told(format!(in alloc; "{name} was written since; to keep it, remove this journal"))
}

/// What is said of a new file that is gone.
pub(crate) fn taken_away(alloc: Global, name: &str) -> io::Error {
    error_told(format!(in alloc; "another program took away the new file of {name}"))
}

/// What is said of a file that was written before its new one could take its place.
fn written_meanwhile(alloc: Global, name: &str) -> io::Error {
    error_told(format!(in alloc; "another program wrote {name} meanwhile"))
}

/// That what has a name is what had it when this line was written, exactly as long as its new file waits; whether it does.
pub(crate) fn check_mark<F: Folder>(
    alloc: Global,
    folder: &F,
    name: &str,
    mark: &str,
) -> io::Result<bool>
    ensures { OnOk result (IfTold (F.history folder.now)
        (λ h. IsAsMarked (F.mark_of folder.now) h name.now (Some mark.now))) }
{
    let part = part_name(alloc, name)?;
    let waits = folder.mark(alloc, part.as_str())?.is_some();
    let line = mark_line(alloc, folder, name)?;
    let is_old = line.as_str() == mark;
    if waits == is_old {
        return Ok(waits);
    }
    Err(changed_since(alloc, name, waits))
}

/// That what has the names of a journal is what had them when it was written, exactly where the new files wait.
///
/// # Errors
/// What the system says, want of memory, and `InvalidData` where one was written since, or a new file is lost.
pub(crate) fn check_marks<F: Folder>(alloc: Global, folder: &F, journal: &Journal) -> io::Result<()>
    ensures { OnOk result (IfTold (F.history folder.now) (λ h. AreAsMarked (F.mark_of folder.now) h
        (map string_bytes journal.now.names.items) (map string_bytes journal.now.marks.items)
        (vec_len journal.now.names))) }
{
    for index in 0..journal.names.len() {
        let name = journal.names[index].as_str();
        check_mark(alloc, folder, name, journal.marks[index].as_str())?;
    }
    Ok(())
}

/// That each new file is there.
///
/// # Errors
/// What the system says, want of memory, and `InvalidData` where one is gone.
pub(crate) fn check_staged<F: Folder>(alloc: Global, folder: &F, moves: &[Move]) -> io::Result<()>
    ensures { OnOk result (IfTold (F.history folder.now) (AreStaged (map name_of moves.now))) }
{
    for file in moves {
        if folder.mark(alloc, file.part.as_str())?.is_none() {
            return Err(taken_away(alloc, file.name.as_str()));
        }
    }
    Ok(())
}

/// That what has a name is as it was marked.
fn check_unwritten<F: Folder>(alloc: Global, folder: &F, file: &Move) -> io::Result<()> {
    let line = mark_line(alloc, folder, file.name.as_str())?;
    if line.as_str() == file.mark.as_str() {
        Ok(())
    } else {
        Err(written_meanwhile(alloc, file.name.as_str()))
    }
}

/// That a journal stands, each new file waits, and what has its name is as it was marked.
///
/// # Errors
/// What the system says, want of memory, and `InvalidData` where one is gone or was written.
pub(crate) fn check_waiting<F: Folder>(alloc: Global, folder: &F, moves: &[Move]) -> io::Result<()>
    ensures { OnOk result (IfTold (F.history folder.now) (AreStaged (map name_of moves.now))) }
{
    if folder.mark(alloc, JOURNAL)?.is_none() {
        return Err(io::Error::new(ErrorKind::InvalidData, GONE));
    }
    check_staged(alloc, folder, moves)?;
    for file in moves {
        check_unwritten(alloc, folder, file)?;
    }
    Ok(())
}
