//! The locks that the system lists.
ghost use Rattle.std.specs.Prelude.{◌≡◌, ◌++◌, [], ◌∷◌, IfOk, filter, List, OnOk, option_map, string_bytes, ◌&&◌, ℕ};
ghost use Rattle.std.specs.Borrow.{Bor};
ghost use Rattle.std.specs.List.{slice_get};
ghost use Rattle.std.specs.Str.{bytes_eq};
ghost use Rattle.av_folders.specs.Locks.{AreNumbersOf, is_diskless, is_filled, is_kind, lock_at, lock_by, lock_in, lock_words, major_of, may_be_on, minor_of, split_on, texts, words_of};

use std::alloc::{AllocError, Global};
use std::fs::{self, Metadata};
use std::os::unix::fs::MetadataExt;
use std::rt::Files;

/// Where Linux lists the locks that are held, a line each.
const LOCKS: &str = "/proc/locks";

/// A lock that is listed, by the words of its line.
#[derive(Clone, Copy, Debug, PartialEq, Eq)]
pub struct Lock<'a> {
    /// The process that holds it, or `-1` where it goes with an open file.
    pub process: &'a [u8],
    /// The numbers of the file's device, in two hex digits or more.
    pub major: &'a [u8],
    pub minor: &'a [u8],
    /// The file's number there.
    pub number: &'a [u8],
}

/// The numbers of a file, as they are listed.
#[derive(Debug, Drop)]
pub struct FileNumbers {
    pub major: String,
    pub minor: String,
    pub number: String,
}

/// The first number of a device, as Linux packs the two (<https://man7.org/linux/man-pages/man3/makedev.3.html>): bits 8 to 19,
/// and above them those from bit 44 on.
fn major_of(device: u64) -> u64
    ensures { result ≡ major_of device }
{
    device / 256 % 4096 + device / 17_592_186_044_416 * 4096
}

/// The second: the lowest 8 bits, and above them bits 20 to 43.
fn minor_of(device: u64) -> u64
    ensures { result ≡ minor_of device }
{
    device % 256 + device / 1_048_576 % 16_777_216 * 256
}

impl FileNumbers {
    /// The numbers of a file, by its device and its number there.
    pub fn new(alloc: Global, device: u64, number: u64) -> Result<FileNumbers, AllocError>
        ensures { IfOk result (AreNumbersOf device number) }
    {
        let major = major_of(device);
        let minor = minor_of(device);
        Ok(FileNumbers {
            major: format!(in alloc; "{major:02x}")?,
            minor: format!(in alloc; "{minor:02x}")?,
            number: format!(in alloc; "{number}")?,
        })
    }
}

/// The parts between separators.
fn parts(alloc: Global, text: &[u8], separator: u8) -> Result<Vec<&[u8]>, AllocError>
    ensures { IfOk result (λ v. texts v.items ≡ split_on separator text.now) }
{
    text.split(|byte| *byte == separator).collect(alloc)
}

/// Adds a part that is not empty.
fn push_filled<'a>(words: &mut Vec<&'a [u8]>, part: &'a [u8]) -> Result<(), AllocError>
    ensures { OnOk result ((before : List (Bor (List ℕ))) → texts words.old.items ≡ filter is_filled (texts before)
        → texts words.new.items ≡ filter is_filled (texts (before ++ part.entry ∷ []))) }
{
    if part.is_empty() {
        return Ok(());
    }
    Ok(words.push(part)?)
}

/// The parts that are not empty.
fn filled<'a>(alloc: Global, parts: Vec<&'a [u8]>) -> Result<Vec<&'a [u8]>, AllocError>
    ensures { IfOk result (λ words. texts words.items
        ≡ filter is_filled (texts parts.entry.items)) }
{
    let mut words = Vec::new(alloc);
    for part in parts {
        push_filled(&mut words, part)?;
    }
    Ok(words)
}

/// The words of a line.
fn words_of(alloc: Global, line: &[u8]) -> Result<Vec<&[u8]>, AllocError>
    ensures { IfOk result (λ words. texts words.items ≡ words_of line.now) }
{
    filled(alloc, parts(alloc, line, b' ')?)
}

/// One of some words.
fn word<'a>(words: &[&'a [u8]], at: usize) -> Option<&'a [u8]>
    ensures { option_map (λ x. x.now) result ≡ slice_get (texts words.now) at }
{
    words.get(at).copied()
}

/// Whether a word is a kind of locks.
fn is_kind(word: &[u8]) -> bool
    ensures { result ≡ is_kind word.now }
{
    word == b"POSIX".as_slice() || (word == b"OFDLCK".as_slice() || word == b"FLOCK".as_slice())
}

/// The lock of a process, by the parts of what is locked.
fn lock_at<'a>(process: &'a [u8], parts: &[&'a [u8]]) -> Option<Lock<'a>>
    ensures { option_map lock_words result ≡ lock_at process.now (texts parts.now) }
{
    let major = word(parts, 0)?;
    let minor = word(parts, 1)?;
    let number = word(parts, 2)?;
    Some(Lock {
        process,
        major,
        minor,
        number,
    })
}

/// The lock of some words.
fn lock_by<'a>(alloc: Global, words: &[&'a [u8]]) -> Result<Option<Lock<'a>>, AllocError>
    ensures { IfOk result (λ lock. option_map lock_words lock ≡ lock_by (texts words.now)) }
{
    let (Some(kind), Some(process), Some(file)) = (word(words, 1), word(words, 4), word(words, 5))
    else {
        return Ok(None);
    };
    if !is_kind(kind) {
        return Ok(None);
    }
    let numbers = parts(alloc, file, b':')?;
    Ok(lock_at(process, numbers.as_slice()))
}

/// The lock that a line tells of, such as `1: POSIX  ADVISORY  WRITE 4711 fe:00:131077 0 EOF`. None where a lock is only waited for.
///
/// Errors: only want of memory.
pub fn lock_in<'a>(alloc: Global, line: &'a [u8]) -> Result<Option<Lock<'a>>, AllocError>
    ensures { IfOk result (λ lock. option_map lock_words lock ≡ lock_in line.now) }
{
    let words = words_of(alloc, line)?;
    lock_by(alloc, words.as_slice())
}

/// Whether a device has no disk, by its first number.
fn is_diskless(major: &[u8]) -> bool
    ensures { result ≡ is_diskless major.now }
{
    major == b"00".as_slice()
}

impl<'a> Lock<'a> {
    /// Whether it has a device's numbers.
    fn has_device(&self, major: &[u8], minor: &[u8]) -> bool
        ensures { result ≡ (bytes_eq self.now.major.now major.now
            && bytes_eq self.now.minor.now minor.now) }
    {
        self.major == major && self.minor == minor
    }

    /// Whether it may be on a file: it has the file's number, and the devices are not two disks. Where a file system has no disk, as one in
    /// memory or one over others, the list may have another number for its device than its files have.
    pub fn may_be_on(&self, file: &FileNumbers) -> bool
        ensures { result ≡ may_be_on (lock_words self.now) (string_bytes file.now.major)
            (string_bytes file.now.minor) (string_bytes file.now.number) }
    {
        let major = file.major.as_bytes();
        if self.number != file.number.as_bytes() {
            return false;
        }
        self.has_device(major, file.minor.as_bytes())
            || (is_diskless(self.major) || is_diskless(major))
    }
}

/// Who holds a lock on a file by a line of the list.
fn holder_in(alloc: Global, line: &[u8], file: &FileNumbers) -> Option<String> {
    let lock = lock_in(alloc, line).ok()??;
    if !lock.may_be_on(file) {
        return None;
    }
    match str::from_utf8(lock.process) {
        Ok(process) if process != "-1" => format!(in alloc; "process {process}").ok(),
        _ => String::from_str(alloc, "another process").ok(),
    }
}

/// Who holds a lock on a file, where the system lists that.
pub(crate) fn holder_of<R: Files + AllocGlobal>(rt: &R, found: &Metadata) -> Option<String> {
    let alloc = rt.alloc();
    let locks = fs::read(rt, LOCKS).ok()?;
    let file = FileNumbers::new(alloc, found.dev(), found.ino()).ok()?;
    for line in locks.as_slice().split(|byte| *byte == b'\n') {
        if let Some(holder) = holder_in(alloc, line, &file) {
            return Some(holder);
        }
    }
    None
}
