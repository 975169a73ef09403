//! Names and lines. What the program answers, `scripts/check_words.sh` asks of the built one.
use crate::expecting::expect_equal;
use av_commands::block::block_text;
use av_commands::checking::{Counts, findings, write_counts, write_unread};
use av_reports::edit_trouble::{EditCause, EditTrouble, edit_cause};
use av_reports::failure::{Failure, Reason, UnreadFile};
use av_reports::names::{file_name, region_of_name, split_path};
use av_reports::output::report_fault;
use av_reports::reasons::report_failure;
use av_survey::Finding;
use av_types::{ChunkPos, Fault, Height, Pos, RegionPos};
use std::alloc::Global;
use std::io::{Cursor, ErrorKind};
use std::test::Fail;

/// How files of other compressions are made readable.
const ADVICE: &[u8] =
    b"  scripts/worlds.py plain IN OUT makes such files readable; anvilwater-world WORLD does the whole way\n";

/// That behind the fault of such a file.
const FAULT_AND_ADVICE: &[u8] =
    b"fault 09: Compression 2\n  scripts/worlds.py plain IN OUT makes such files readable; anvilwater-world WORLD does the whole way\n";

#[test]
fn names_of_regions(rt: HostRuntime) -> Result<(), Fail> {
    let alloc = rt.alloc();
    for (name, x, z) in [
        ("r.0.0.mca", 0, 0),
        ("r.-1.17.mca", -1, 17),
        ("r.2147483647.-2147483648.mca", 2147483647, -2147483648),
    ] {
        assert_eq!(rt;
            region_of_name(alloc, name)?,
            Some(RegionPos { x, z }),
            "{name}"
        );
    }
    Ok(())
}

#[test]
fn names_of_no_region(rt: HostRuntime) -> Result<(), Fail> {
    for name in [
        "r.00.0.mca",
        "r.-0.0.mca",
        "r.+1.0.mca",
        "r.01.0.mca",
        "r.0.0.mcr",
        "r.0.mca",
        "r.0.0.0.mca",
        "R.0.0.mca",
        "r. 0.0.mca",
        "r..0.mca",
        "r.0.2147483648.mca",
        "ar.0.0.mca",
        "",
    ] {
        assert_eq!(rt; region_of_name(rt.alloc(), name)?, None, "{name}");
    }
    Ok(())
}

#[test]
fn names_in_paths(rt: HostRuntime) -> Result<(), Fail> {
    expect_equal(&rt, file_name("a/b/r.0.0.mca"), "r.0.0.mca");
    expect_equal(&rt, file_name("r.0.0.mca"), "r.0.0.mca");
    expect_equal(&rt, file_name("a/"), "");
    for (path, want_folder, want_name) in [
        ("a/b/map.png", "a/b/", "map.png"),
        ("/map.png", "/", "map.png"),
        ("map.png", "", "map.png"),
    ] {
        let (folder, name) = split_path(rt.alloc(), path)?;
        expect_equal(&rt, folder.as_str(), want_folder);
        expect_equal(&rt, name, want_name);
    }
    Ok(())
}

#[test]
fn a_line_for_each_finding(rt: HostRuntime) -> Result<(), Fail> {
    let alloc = rt.alloc();
    let mut found = Vec::new(alloc);
    let region = RegionPos { x: -1, z: 2 };
    found.push(Finding {
        region: RegionPos { x: -1, z: 2 },
        chunk: Some(ChunkPos { x: -31, z: 64 }),
        fault: Fault::Compression(2),
    })?;
    found.push(Finding {
        region: RegionPos { x: 3, z: 4 },
        chunk: None,
        fault: Fault::ShortHeader,
    })?;
    let mut out = Vec::new(alloc);
    let mut err = Vec::new(alloc);
    let surveyed = Ok(found);
    expect_equal(&rt, findings(&surveyed, &mut out, &mut err), 1);
    expect_equal(
        &rt,
        out.as_slice(),
        b"r.-1.2.mca -31 64 fault 09: Compression 2\nr.3.4.mca fault 04: ShortHeader\n".as_slice(),
    );
    expect_equal(&rt, err.as_slice(), ADVICE);
    Ok(())
}

/// What is written of two files that could not be read.
fn said_of_unread(alloc: Global, explains: bool) -> Result<Vec<u8>, Fail> {
    let mut unread = Vec::new(alloc);
    for (name, path) in [("r.0.0.mca", "w/r.0.0.mca"), ("r.-1.2.mca", "w/r.-1.2.mca")] {
        unread.push(UnreadFile {
            name: String::from_str(alloc, name)?,
            path: String::from_str(alloc, path)?,
            error: ErrorKind::IsADirectory.into(),
        })?;
    }
    let mut err = Vec::new(alloc);
    write_unread(alloc, &mut err, unread, explains)?;
    Ok(err)
}

#[test]
fn files_that_are_not_read(rt: HostRuntime) -> Result<(), Fail> {
    expect_equal(
        &rt,
        said_of_unread(rt.alloc(), false)?.as_slice(),
        b"fault 25: Device r.0.0.mca\nfault 25: Device r.-1.2.mca\n".as_slice(),
    );
    expect_equal(
        &rt,
        said_of_unread(rt.alloc(), true)?.as_slice(),
        b"fault 25: Device r.0.0.mca\n  w/r.0.0.mca: is a directory\n  a folder has that name, where a file is wanted\nfault 25: Device r.-1.2.mca\n  w/r.-1.2.mca: is a directory\n  a folder has that name, where a file is wanted\n".as_slice(),
    );
    Ok(())
}

/// What is written of a failure that is explained.
fn said_of(alloc: Global, fault: Fault, reason: Option<Reason>) -> Vec<u8> {
    let mut err = Vec::new(alloc);
    report_failure(alloc, &mut err, &Failure { fault, reason }, true);
    err
}

#[test]
fn counts_tables_and_chunks(rt: HostRuntime) -> Result<(), Fail> {
    let alloc = rt.alloc();
    let text = b"version = 2\n[[block]]\nname = \"a:b\"\nopen = true\nfloor = 1\n";
    let table = Reason::of_table(alloc, "t.toml", text);
    let chunk = Reason::Chunk {
        region: RegionPos { x: 1, z: -2 },
        chunk: Some(ChunkPos { x: 33, z: -40 }),
    };
    let cases: [(Fault, Option<Reason>, &[u8]); 4] = [
        (
            Fault::BadCount,
            None,
            b"fault 23: BadCount\n  there are more region files than 1024: take a part of them at a time\n",
        ),
        (
            Fault::BadCount,
            Some(Reason::Workers(9)),
            b"fault 23: BadCount\n  --workers is 9, and 1 to 8 can work\n",
        ),
        (
            Fault::BadTable,
            table,
            b"fault 19: BadTable\n  t.toml: row 1, a:b: open and floor have to be true or false\n",
        ),
        (
            Fault::OldLayout,
            Some(chunk),
            b"fault 11: OldLayout\n  r.1.-2.mca, chunk 33 -40\n  `anvilwater check --in DIR` lists each file and chunk that has a fault\n",
        ),
    ];
    for (fault, reason, want) in cases {
        expect_equal(&rt, said_of(alloc, fault, reason).as_slice(), want);
    }
    Ok(())
}

/// A region is 32 chunks wide, so the chunk 33 -40 is of the region 1 -2.
#[test]
fn a_chunk_that_is_too_large(rt: HostRuntime) {
    let chunk = ChunkPos { x: 33, z: -40 };
    let said = said_of(
        rt.alloc(),
        Fault::ChunkTooLarge(chunk),
        Some(Reason::TooLarge(chunk)),
    );
    expect_equal(
        &rt,
        said.as_slice(),
        b"fault 24: ChunkTooLarge 33 -40\n  r.1.-2.mca, chunk 33 -40: with its light it has more than 1044475 bytes\n  with --skip r.1.-2.mca its file stays as it is and counts as not there\n".as_slice(),
    );
}

/// What is said of the line of a fault of edits, in a run of 20 ticks.
fn said_of_edits(alloc: Global, fault: Fault, text: &[u8]) -> Result<Vec<u8>, Fail> {
    let (line, cause) = edit_cause(&fault, 20).ok_or("no fault of edits")?;
    let trouble = EditTrouble::new(alloc, "e.txt", Some(text), line, cause)?;
    Ok(said_of(alloc, fault, Some(Reason::Edit(trouble))))
}

/// Lines are numbered from 1, and a carriage return at a line's end is none of its text. A line that would not print as it is, or is no text, is not said.
#[test]
fn lines_of_edits(rt: HostRuntime) -> Result<(), Fail> {
    let cases: [(Fault, &[u8], &[u8]); 4] = [
        (
            Fault::BadEdit(2),
            b"# none\n1 2 3\r\n",
            b"fault 20: BadEdit 2\n  e.txt, line 2: 1 2 3\n  a line is TICK X Y Z STATE with single spaces, as `1 8 75 8 minecraft:water[level=0]`\n",
        ),
        (
            Fault::EditTick(1),
            b"21 8 75 8 a:b",
            b"fault 21: EditTick 1\n  e.txt, line 1: 21 8 75 8 a:b\n  its tick is its first number, and the run's are 1 to 20\n",
        ),
        (
            Fault::BadEdit(1),
            b"\x1b[2J",
            b"fault 20: BadEdit 1\n  e.txt, line 1\n  a line is TICK X Y Z STATE with single spaces, as `1 8 75 8 minecraft:water[level=0]`\n",
        ),
        (
            Fault::BadEdit(1),
            b"\xff",
            b"fault 20: BadEdit 1\n  e.txt, line 1\n  a line is TICK X Y Z STATE with single spaces, as `1 8 75 8 minecraft:water[level=0]`\n",
        ),
    ];
    for (fault, text, want) in cases {
        let said = said_of_edits(rt.alloc(), fault, text)?;
        expect_equal(&rt, said.as_slice(), want);
    }
    expect_equal(
        &rt,
        edit_cause(&Fault::EditOutside(7), 0),
        Some((7, EditCause::Outside)),
    );
    expect_equal(&rt, edit_cause(&Fault::BadTable, 1), None);
    Ok(())
}

#[test]
fn a_line_of_counts(rt: HostRuntime) -> Result<(), Fail> {
    let mut err = Vec::new(rt.alloc());
    let counts = Counts {
        files: 4,
        chunks: 3012,
        findings: 2,
    };
    write_counts(&mut err, counts)?;
    expect_equal(
        &rt,
        err.as_slice(),
        b"4 files, 3012 chunks, 2 findings\n".as_slice(),
    );
    Ok(())
}

/// The line in which a text stops to be TOML.
#[test]
fn a_line_of_a_table(rt: HostRuntime) {
    let alloc = rt.alloc();
    let reason = Reason::of_table(alloc, "t.toml", b"version = 2\n\n[[block]\n");
    let line = match &reason {
        Some(Reason::Table { trouble, .. }) => trouble.line,
        _ => None,
    };
    expect_equal(&rt, line, Some(3));
}

/// The fault's own line comes first, and only that of a compressed chunk has another behind it.
#[test]
fn lines_of_a_fault(rt: HostRuntime) -> Result<(), Fail> {
    let alloc = rt.alloc();
    let mut err = Vec::new(alloc);
    expect_equal(&rt, report_fault(&mut err, &Fault::Compression(2)), 1);
    expect_equal(&rt, err.as_slice(), FAULT_AND_ADVICE);
    let mut err = Vec::new(alloc);
    expect_equal(&rt, report_fault(&mut err, &Fault::ExternalChunk), 1);
    expect_equal(&rt, err.as_slice(), b"fault 08: ExternalChunk\n".as_slice());
    Ok(())
}

/// A chunk without a payload is refused, and where it is asked for, the chunk at the position is named: 20 is in chunk 1, and -1 in chunk -1.
#[test]
fn the_chunk_of_a_block(rt: HostRuntime) -> Result<(), Fail> {
    let alloc = rt.alloc();
    let mut bytes = Vec::new(alloc);
    bytes.resize(3972, 0)?;
    bytes.extend_from_slice(b"\0\0\x01\x01")?;
    bytes.resize(8192, 0)?;
    let pos = Pos { x: 20, y: 0, z: -1 };
    for (explains, want) in [
        (false, b"fault 05: BadLocation\n".as_slice()),
        (
            true,
            b"fault 05: BadLocation\n  r.0.-1.mca, chunk 1 -1\n  `anvilwater check --in DIR` lists each file and chunk that has a fault\n".as_slice(),
        ),
    ] {
        let mut out = Vec::new(alloc);
        let mut err = Vec::new(alloc);
        let path = "w/r.0.-1.mca";
        let status = block_text(
            alloc,
            path,
            bytes.as_slice(),
            pos,
            Height::game(),
            explains,
            &mut out,
            &mut err,
        );
        expect_equal(&rt, (status, out.len()), (1, 0));
        expect_equal(&rt, err.as_slice(), want);
    }
    Ok(())
}

/// Of the line `unloaded` an output with room for 4 bytes has the first 4, and why it has no more is said.
#[test]
fn a_line_that_finds_no_room(rt: HostRuntime) {
    let alloc = rt.alloc();
    let pos = Pos { x: 0, y: 0, z: 0 };
    let mut room = [b' '; 4];
    let mut out = Cursor::new(room.as_mut_slice());
    let mut err = Vec::new(alloc);
    let status = block_text(
        alloc,
        "r.0.0.mca",
        b"",
        pos,
        Height::game(),
        false,
        &mut out,
        &mut err,
    );
    expect_equal(&rt, status, 1);
    expect_equal(&rt, room.as_slice(), b"unlo".as_slice());
    expect_equal(
        &rt,
        err.as_slice(),
        b"standard output: write zero\n".as_slice(),
    );
}
