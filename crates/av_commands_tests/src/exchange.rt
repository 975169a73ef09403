//! Exchanges over a folder in memory, which are cut off at each of their steps.
ghost use Rattle.std.specs.Prelude.{None};

use crate::expecting::expect_equal;
use av_exchange::{
    Folder, NotCommitted, close, commit, commit_alone, repair, stage, sweep, unstage,
};
use av_sink::NoTeller;
use std::alloc::{AllocError, Global};
use std::io::{self, ErrorKind};
use std::process::Abort;
use std::test::Fail;

/// A file of the folder.
#[derive(Drop)]
struct Entry {
    name: String,
    bytes: Vec<u8>,
}

/// What another program does to the folder, just before a file takes a name.
#[derive(Clone, Copy)]
enum Meddling {
    /// It takes a file away.
    Takes(&'static str),
    /// It writes a file.
    Writes(&'static str),
}

/// A folder in memory, of which so many calls are done and each one behind them fails.
#[derive(Drop)]
struct Memory {
    alloc: Global,
    entries: Vec<Entry>,
    calls_left: u32,
    /// What is done before so many further calls that give a name.
    meddling: Option<(u32, Meddling)>,
    /// Whether a call that gives the journal its name is done and fails all the same.
    answers_late: bool,
    /// Whether its files are in use when that is asked again.
    in_use: bool,
}

impl Memory {
    fn new(alloc: Global) -> Memory {
        Memory {
            alloc,
            entries: Vec::new(alloc),
            calls_left: u32::MAX,
            meddling: None,
            answers_late: false,
            in_use: false,
        }
    }

    fn add(&mut self, name: &str, bytes: &[u8]) -> Result<(), AllocError> {
        let name = String::from_str(self.alloc, name)?;
        let bytes = Vec::from_slice(self.alloc, bytes)?;
        Ok(self.entries.push(Entry { name, bytes })?)
    }

    fn position(&self, name: &str) -> Option<usize> {
        self.entries
            .iter()
            .position(|entry| entry.name.as_str() == name)
    }

    fn take(&mut self, name: &str) -> Option<Entry> {
        let at = self.position(name)?;
        if at < self.entries.len() {
            Some(self.entries.swap_remove(at))
        } else {
            None
        }
    }

    /// Whether one more call is done.
    fn spend(&mut self) -> io::Result<()> {
        if self.calls_left == 0 {
            return Err(ErrorKind::BrokenPipe.into());
        }
        self.calls_left -= 1;
        Ok(())
    }

    /// Lets the other program do what it does before this call, if it is its turn.
    fn meddle(&mut self) -> Result<(), AllocError> {
        match self.meddling {
            Some((0, Meddling::Takes(name))) => {
                let _ = self.take(name);
                self.meddling = None;
            }
            Some((0, Meddling::Writes(name))) => {
                let _ = self.take(name);
                self.add(name, b"newer")?;
                self.meddling = None;
            }
            Some((calls, meddling)) => self.meddling = Some((calls - 1, meddling)),
            None => {}
        }
        Ok(())
    }

    /// What a file has, as text, or `-` where there is none.
    fn text(&self, name: &str) -> &str {
        for entry in &self.entries {
            if entry.name.as_str() == name {
                return str::from_utf8(entry.bytes.as_slice()).unwrap_or("?");
            }
        }
        "-"
    }
}

impl Folder for Memory {
    ghost history = { λ s. None };

    ghost mark_of = { λ s bytes. bytes };

    fn write_new(&mut self, name: &str, bytes: &[u8], _like: &str) -> io::Result<()> {
        self.spend()?;
        if self.position(name).is_some() {
            return Err(ErrorKind::AlreadyExists.into());
        }
        Ok(self.add(name, bytes)?)
    }

    fn move_over(&mut self, from: &str, to: &str) -> io::Result<bool> {
        self.spend()?;
        self.meddle()?;
        let Some(entry) = self.take(from) else {
            return Ok(false);
        };
        let _ = self.take(to);
        self.add(to, entry.bytes.as_slice())?;
        if self.answers_late && to == ".anvilwater-journal" {
            return Err(ErrorKind::BrokenPipe.into());
        }
        Ok(true)
    }

    fn remove(&mut self, name: &str) -> io::Result<()> {
        self.spend()?;
        let _ = self.take(name);
        Ok(())
    }

    fn sync(&mut self) -> io::Result<()> {
        self.spend()
    }

    fn look_again(&mut self) -> io::Result<()> {
        if self.in_use {
            return Err(ErrorKind::WouldBlock.into());
        }
        Ok(())
    }

    fn read_text(&self, alloc: Global, name: &str) -> io::Result<Option<String>> {
        match self.position(name) {
            Some(_) => Ok(Some(String::from_str(alloc, self.text(name))?)),
            None => Ok(None),
        }
    }

    fn mark(&self, alloc: Global, name: &str) -> io::Result<Option<String>> {
        self.read_text(alloc, name)
    }

    fn names(&self, alloc: Global) -> io::Result<Vec<String>> {
        let mut names = Vec::new(alloc);
        for entry in &self.entries {
            names.push(entry.name.clone()?)?;
        }
        Ok(names)
    }
}

/// Writes two files, of which one is there, and answers their names.
fn staged(alloc: Global, folder: &mut Memory) -> io::Result<Vec<String>> {
    let mut names = Vec::new(alloc);
    for name in ["r.0.0.mca", "r.-1.2.mca"] {
        names.push(String::from_str(alloc, name)?)?;
    }
    stage(alloc, folder, "r.0.0.mca", b"new zero")?;
    stage(alloc, folder, "r.-1.2.mca", b"new one")?;
    Ok(names)
}

/// Writes two files, and lets them take their names.
fn exchange(alloc: Global, folder: &mut Memory) -> io::Result<()> {
    let names = staged(alloc, folder)?;
    if let Err(not) = commit(alloc, folder, names.as_slice()) {
        return Err(not.error);
    }
    close(folder)?;
    Ok(())
}

/// A folder in which an exchange was cut off behind so many calls.
fn cut_off(alloc: Global, calls: u32) -> io::Result<Memory> {
    let mut folder = Memory::new(alloc);
    folder.add("r.0.0.mca", b"old zero")?;
    folder.calls_left = calls;
    let _ = exchange(alloc, &mut folder);
    folder.calls_left = u32::MAX;
    Ok(folder)
}

/// That a folder has these files of regions, and no other file.
fn has(rt: &impl Abort, folder: &Memory, zero: &str, one: &str, count: usize) {
    expect_equal(rt, folder.text("r.0.0.mca"), zero);
    expect_equal(rt, folder.text("r.-1.2.mca"), one);
    expect_equal(rt, folder.entries.len(), count);
}

/// Two files are written, then the journal; the names are synced, and the sixth step but one gives the journal its name. Two files take their
/// names behind the sync of that, one step each; then come a sync, the end of the journal, and a sync.
#[test]
fn a_cut_off_leaves_old_or_new(rt: HostRuntime) -> Result<(), Fail> {
    for calls in 0..12 {
        let mut folder = cut_off(rt.alloc(), calls)?;
        repair(rt.alloc(), &mut folder, &NoTeller)?;
        if calls < 5 {
            has(&rt, &folder, "old zero", "-", 1);
        } else {
            has(&rt, &folder, "new zero", "new one", 2);
        }
    }
    Ok(())
}

/// What a repair says, by how many calls were done before.
#[test]
fn a_repair_tells_what_it_did(rt: HostRuntime) -> Result<(), Fail> {
    let told = [
        (0, None, 0),
        (2, None, 2),
        (3, None, 3),
        (5, Some(2), 0),
        (7, Some(2), 0),
        (10, None, 0),
    ];
    for (calls, finished, removed) in told {
        let mut folder = cut_off(rt.alloc(), calls)?;
        let repaired = repair(rt.alloc(), &mut folder, &NoTeller)?;
        expect_equal(&rt, repaired.finished, finished);
        expect_equal(&rt, repaired.removed, removed);
    }
    Ok(())
}

/// A repair may be cut off too, and be done again.
#[test]
fn a_repair_that_is_cut_off(rt: HostRuntime) -> Result<(), Fail> {
    for calls in 0..6 {
        let mut folder = cut_off(rt.alloc(), 5)?;
        folder.calls_left = calls;
        let _ = repair(rt.alloc(), &mut folder, &NoTeller);
        folder.calls_left = u32::MAX;
        repair(rt.alloc(), &mut folder, &NoTeller)?;
        has(&rt, &folder, "new zero", "new one", 2);
    }
    Ok(())
}

/// The name of a journal that a killed call has left may not be on the device: it is waited for before the first file moves.
#[test]
fn a_repair_waits_for_names_first(rt: HostRuntime) -> Result<(), Fail> {
    let mut folder = cut_off(rt.alloc(), 5)?;
    folder.calls_left = 1;
    expect_equal(
        &rt,
        repair(rt.alloc(), &mut folder, &NoTeller).is_err(),
        true,
    );
    expect_equal(&rt, folder.text("r.0.0.mca"), "old zero");
    folder.calls_left = 2;
    let _ = repair(rt.alloc(), &mut folder, &NoTeller);
    has(&rt, &folder, "new zero", "-", 3);
    Ok(())
}

/// Where another program took a new file away, no file takes its name, and no journal is written.
#[test]
fn a_new_file_that_is_gone(rt: HostRuntime) -> Result<(), Fail> {
    for gone in [".anvilwater-r.0.0.mca", ".anvilwater-r.-1.2.mca"] {
        let mut folder = Memory::new(rt.alloc());
        folder.add("r.0.0.mca", b"old zero")?;
        let names = staged(rt.alloc(), &mut folder)?;
        let _ = folder.take(gone);
        let not = commit(rt.alloc(), &mut folder, names.as_slice())
            .err()
            .ok_or("a new file that is gone")?;
        expect_equal(&rt, not.begun, false);
        expect_equal(&rt, not.error.kind(), ErrorKind::InvalidData);
        has(&rt, &folder, "old zero", "-", 2);
    }
    Ok(())
}

/// A folder with two new files, of which one is to replace an old one, and what becomes of their names.
fn committed(alloc: Global, folder: &mut Memory) -> io::Result<NotCommitted> {
    folder.add("r.0.0.mca", b"old zero")?;
    let names = staged(alloc, folder)?;
    match commit(alloc, folder, names.as_slice()) {
        Ok(()) => Err(ErrorKind::Other.into()),
        Err(not) => Ok(not),
    }
}

/// Where another program takes a new file, or writes an old one, just before the journal gets its name, that goes again, and no file moves.
#[test]
fn what_changes_before_the_first_file(rt: HostRuntime) -> Result<(), Fail> {
    let changes = [
        (Meddling::Takes(".anvilwater-r.0.0.mca"), "old zero", "-", 2),
        (
            Meddling::Takes(".anvilwater-r.-1.2.mca"),
            "old zero",
            "-",
            2,
        ),
        (Meddling::Writes("r.0.0.mca"), "newer", "-", 3),
        (Meddling::Writes("r.-1.2.mca"), "old zero", "newer", 4),
    ];
    for (meddling, zero, one, count) in changes {
        let mut folder = Memory::new(rt.alloc());
        folder.meddling = Some((0, meddling));
        let not = committed(rt.alloc(), &mut folder)?;
        expect_equal(&rt, not.begun, false);
        expect_equal(&rt, not.error.kind(), ErrorKind::InvalidData);
        has(&rt, &folder, zero, one, count);
    }
    Ok(())
}

/// So it does where the folder's files are in use then.
#[test]
fn what_is_in_use_before_the_first_file(rt: HostRuntime) -> Result<(), Fail> {
    let mut folder = Memory::new(rt.alloc());
    folder.in_use = true;
    let not = committed(rt.alloc(), &mut folder)?;
    expect_equal(&rt, not.begun, false);
    expect_equal(&rt, not.error.kind(), ErrorKind::WouldBlock);
    has(&rt, &folder, "old zero", "-", 3);
    Ok(())
}

/// Before the second file takes its name the first one has it: what is gone or was written then is refused, and the journal stays.
#[test]
fn what_changes_before_the_second_file(rt: HostRuntime) -> Result<(), Fail> {
    let changes = [
        (Meddling::Takes(".anvilwater-r.-1.2.mca"), "-"),
        (Meddling::Writes("r.-1.2.mca"), "newer"),
    ];
    for (meddling, one) in changes {
        let mut folder = Memory::new(rt.alloc());
        folder.meddling = Some((1, meddling));
        let not = committed(rt.alloc(), &mut folder)?;
        expect_equal(&rt, not.begun, true);
        expect_equal(&rt, not.error.kind(), ErrorKind::InvalidData);
        expect_equal(&rt, folder.text("r.0.0.mca"), "new zero");
        expect_equal(&rt, folder.text("r.-1.2.mca"), one);
        expect_equal(
            &rt,
            repair(rt.alloc(), &mut folder, &NoTeller).is_err(),
            true,
        );
    }
    Ok(())
}

/// A journal that has its name, though the call that gave it failed, is not taken for one that has none.
#[test]
fn a_journal_that_is_named_late(rt: HostRuntime) -> Result<(), Fail> {
    let mut folder = Memory::new(rt.alloc());
    folder.answers_late = true;
    let not = committed(rt.alloc(), &mut folder)?;
    expect_equal(&rt, not.begun, true);
    folder.answers_late = false;
    repair(rt.alloc(), &mut folder, &NoTeller)?;
    has(&rt, &folder, "new zero", "new one", 2);
    Ok(())
}

/// Where all is done but the wait for the journal's end, the exchange is closed; where the journal can't go, it is not.
#[test]
fn an_end_that_is_not_on_the_device(rt: HostRuntime) -> Result<(), Fail> {
    for (calls, is_closed) in [(0, false), (1, true)] {
        let mut folder = Memory::new(rt.alloc());
        let names = staged(rt.alloc(), &mut folder)?;
        commit(rt.alloc(), &mut folder, names.as_slice())?;
        folder.calls_left = calls;
        match close(&mut folder) {
            Ok(unsynced) => expect_equal(&rt, (is_closed, unsynced.is_some()), (true, true)),
            Err(_) => expect_equal(&rt, is_closed, false),
        }
        expect_equal(&rt, folder.text(".anvilwater-journal") == "-", is_closed);
    }
    Ok(())
}

/// The journal's text, once it has its name.
#[test]
fn the_text_of_a_journal(rt: HostRuntime) -> Result<(), Fail> {
    let folder = cut_off(rt.alloc(), 5)?;
    expect_equal(
        &rt,
        folder.text(".anvilwater-journal"),
        "anvilwater journal 2\nr.0.0.mca\nr.-1.2.mca\n\nold zero\n-\n",
    );
    expect_equal(&rt, folder.text(".anvilwater-r.-1.2.mca"), "new one");
    Ok(())
}

/// A text of another form is refused, and nothing is done.
#[test]
fn texts_that_are_no_journal(rt: HostRuntime) -> Result<(), Fail> {
    let texts: [&[u8]; 9] = [
        b"",
        b"anvilwater journal 1\nr.0.0.mca\n",
        b"anvilwater journal 3\nr.0.0.mca\n\n-\n",
        b"anvilwater journal 2\nr.0.0.mca\n\n-",
        b"anvilwater journal 2\n../r.0.0.mca\n\n-\n",
        b"anvilwater journal 2\nr.00.0.mca\n\n-\n",
        b"anvilwater journal 2\nr.0.0.mca\n",
        b"anvilwater journal 2\nr.0.0.mca\n\n",
        b"anvilwater journal 2\nr.0.0.mca\n\n-\n-\n",
    ];
    for text in texts {
        let mut folder = Memory::new(rt.alloc());
        folder.add(".anvilwater-journal", text)?;
        folder.add(".anvilwater-r.0.0.mca", b"new")?;
        let error = repair(rt.alloc(), &mut folder, &NoTeller)
            .err()
            .ok_or("a journal that is none")?;
        expect_equal(&rt, error.kind(), ErrorKind::InvalidData);
        expect_equal(&rt, folder.entries.len(), 2);
    }
    Ok(())
}

/// Behind the fifth call the journal has its name, and no file its own. What then is written, or comes, is not replaced, and nothing is done.
#[test]
fn what_was_written_since_is_kept(rt: HostRuntime) -> Result<(), Fail> {
    for (name, text) in [("r.0.0.mca", "newer"), ("r.-1.2.mca", "came")] {
        let mut folder = cut_off(rt.alloc(), 5)?;
        let _ = folder.take(name);
        folder.add(name, text.as_bytes())?;
        let error = repair(rt.alloc(), &mut folder, &NoTeller)
            .err()
            .ok_or("a file that was written since")?;
        expect_equal(&rt, error.kind(), ErrorKind::InvalidData);
        expect_equal(&rt, folder.text(name), text);
        expect_equal(&rt, folder.text(".anvilwater-r.0.0.mca"), "new zero");
        expect_equal(&rt, folder.text(".anvilwater-r.-1.2.mca"), "new one");
    }
    Ok(())
}

/// One that is gone was written since too. One whose new file took its name may be written: behind the seventh call `r.0.0.mca` has its.
#[test]
fn what_has_its_name_may_be_written(rt: HostRuntime) -> Result<(), Fail> {
    let mut folder = cut_off(rt.alloc(), 5)?;
    let _ = folder.take("r.0.0.mca");
    expect_equal(
        &rt,
        repair(rt.alloc(), &mut folder, &NoTeller).is_err(),
        true,
    );
    let mut folder = cut_off(rt.alloc(), 7)?;
    let _ = folder.take("r.0.0.mca");
    folder.add("r.0.0.mca", b"newer")?;
    repair(rt.alloc(), &mut folder, &NoTeller)?;
    has(&rt, &folder, "newer", "new one", 2);
    Ok(())
}

/// A new file that is lost while its old one stays has not its name: nothing is done, though the other one waits.
#[test]
fn what_is_lost_gets_no_name(rt: HostRuntime) -> Result<(), Fail> {
    for lost in [".anvilwater-r.0.0.mca", ".anvilwater-r.-1.2.mca"] {
        let mut folder = cut_off(rt.alloc(), 5)?;
        let _ = folder.take(lost);
        let error = repair(rt.alloc(), &mut folder, &NoTeller)
            .err()
            .ok_or("a new file that is lost")?;
        expect_equal(&rt, error.kind(), ErrorKind::InvalidData);
        has(&rt, &folder, "old zero", "-", 3);
    }
    Ok(())
}

/// Only files that an exchange makes are taken away.
#[test]
fn files_that_are_left_alone(rt: HostRuntime) -> Result<(), Fail> {
    let mut folder = Memory::new(rt.alloc());
    let gone = [
        ".anvilwater-r.0.0.mca",
        ".anvilwater-journal-new",
        ".anvilwater-trial",
    ];
    let kept = [
        "r.0.0.mca",
        ".anvilwater-notes",
        ".anvilwater-r.0.mca",
        "anvilwater-r.0.0.mca",
    ];
    for name in gone.iter().chain(kept.iter()) {
        folder.add(*name, b"text")?;
    }
    expect_equal(&rt, sweep(rt.alloc(), &mut folder)?, 3);
    for name in kept {
        expect_equal(&rt, folder.text(name), "text");
    }
    expect_equal(&rt, folder.entries.len(), 4);
    Ok(())
}

/// What is left of one new file keeps its next one from being written, until it alone is taken away.
#[test]
fn what_is_left_of_one_file_is_taken_away(rt: HostRuntime) -> Result<(), Fail> {
    let mut folder = Memory::new(rt.alloc());
    folder.add("map.png", b"old")?;
    folder.add(".anvilwater-map.png", b"ha")?;
    folder.add(".anvilwater-other.png", b"other")?;
    let error = stage(rt.alloc(), &mut folder, "map.png", b"new")
        .err()
        .ok_or("a file where the new one is to be")?;
    expect_equal(&rt, error.kind(), ErrorKind::AlreadyExists);
    unstage(rt.alloc(), &mut folder, "map.png")?;
    expect_equal(&rt, folder.text(".anvilwater-map.png"), "-");
    expect_equal(&rt, folder.text("map.png"), "old");
    stage(rt.alloc(), &mut folder, "map.png", b"new")?;
    commit_alone(rt.alloc(), &mut folder, "map.png")?;
    expect_equal(&rt, folder.text("map.png"), "new");
    expect_equal(&rt, folder.text(".anvilwater-other.png"), "other");
    expect_equal(&rt, folder.entries.len(), 2);
    Ok(())
}
