//! The journal's text: a line that tells its form, the names of the files that are to take their names, a line each, an empty line, and for
//! each name a line by which what had it is known again.
ghost use Rattle.std.specs.Prelude.{◌≡◌, ◌++◌, IfOk, IfSome, OnOk, map, string_bytes, vec_len};
ghost use Rattle.std.specs.List.{AllByRecursion};
ghost use Rattle.av_exchange.specs.Names.{IsRegionName, journal_of, lines_of};

use crate::names::is_region_name;
use std::alloc::{AllocError, Global};

/// The first line.
const HEAD: &str = "anvilwater journal 2\n";

/// What a journal says.
#[derive(Drop)]
pub(crate) struct Journal {
    /// The names of the files that are to take their names.
    pub(crate) names: Vec<String>,
    /// For each, the mark of what had the name.
    pub(crate) marks: Vec<String>,
    ghost each: { vec_len marks ≡ vec_len names },
}

/// Puts lines behind a text.
fn push_lines(text: &mut String, lines: &[String]) -> Result<(), AllocError>
    ensures { OnOk result (string_bytes text.new
        ≡ string_bytes text.old ++ lines_of (map string_bytes lines.now)) }
{
    for line in lines {
        text.push_str(line.as_str())?;
        text.push('\n')?;
    }
    Ok(())
}

/// The journal of files of these names, with these marks.
pub(crate) fn journal_text(
    alloc: Global,
    names: &[String],
    marks: &[String],
) -> Result<String, AllocError>
    ensures { IfOk result (λ text. string_bytes text
        ≡ journal_of (map string_bytes names.now) (map string_bytes marks.now)) }
{
    let mut text = String::from_str(alloc, HEAD)?;
    push_lines(&mut text, names)?;
    text.push('\n')?;
    push_lines(&mut text, marks)?;
    Ok(text)
}

/// The names that stand in the lines of a text behind the first, where each is that of a region's file.
fn names_in(alloc: Global, text: &str) -> Result<Option<Vec<String>>, AllocError>
    ensures { IfOk result (λ r. IfSome r (λ names.
        AllByRecursion IsRegionName (map string_bytes names.items))) }
{
    let mut names = Vec::new(alloc);
    for line in text.lines().skip(1) {
        if !is_region_name(alloc, line)? {
            return Ok(None);
        }
        names.push(String::from_str(alloc, line)?)?;
    }
    Ok(Some(names))
}

/// The lines of a text.
fn lines_in(alloc: Global, text: &str) -> Result<Vec<String>, AllocError> {
    let mut lines = Vec::new(alloc);
    for line in text.lines() {
        lines.push(String::from_str(alloc, line)?)?;
    }
    Ok(lines)
}

/// What a journal says. A text that is no journal says nothing.
pub(crate) fn read_journal(alloc: Global, text: &str) -> Result<Option<Journal>, AllocError>
    ensures { IfOk result (λ r. IfSome r (λ journal. (text.now ≡ journal_of
        (map string_bytes journal.names.items) (map string_bytes journal.marks.items))
        × AllByRecursion IsRegionName (map string_bytes journal.names.items))) }
{
    let Some((names, marks)) = text.split_once("\n\n") else {
        return Ok(None);
    };
    let Some(names) = names_in(alloc, names)? else {
        return Ok(None);
    };
    let marks = lines_in(alloc, marks)?;
    if marks.len() != names.len() {
        return Ok(None);
    }
    let written = journal_text(alloc, names.as_slice(), marks.as_slice())?;
    if written.as_str() == text {
        Ok(Some(Journal { names, marks }))
    } else {
        Ok(None)
    }
}
