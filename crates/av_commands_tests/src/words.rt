//! Words. What the program answers, `scripts/check_words.sh` asks of the built one.
use crate::expecting::expect_equal;
use av_types::Pos;
use av_words::command_line::commands::{RunWords, Words};
use av_words::command_line::words;
use clap::error::ErrorKind;
use std::alloc::Global;
use std::test::Fail;

/// The values of `block`.
fn block_of<'a>(command: Words<'a>) -> Option<(&'a str, Pos, Option<&'a str>)> {
    match command {
        Words::Block {
            file,
            pos,
            table,
            ..
        } => Some((file, pos, table)),
        _ => None,
    }
}

#[test]
fn words_of_block(rt: HostRuntime) -> Result<(), Fail> {
    let alloc = rt.alloc();
    let plain = ["block", "--", "r.-1.-1.mca", "-1", "64", "-1"];
    let (file, pos, table) = block_of(words(alloc, plain.as_slice())?).ok_or("another command")?;
    expect_equal(&rt, file, "r.-1.-1.mca");
    expect_equal(
        &rt,
        pos,
        Pos {
            x: -1,
            y: 64,
            z: -1,
        },
    );
    expect_equal(&rt, table, None);
    let with_table = ["block", "--table", "t.toml", "f", "3", "+4", "0005"];
    let (file, pos, table) = block_of(words(alloc, with_table.as_slice())?).ok_or(
        "another command",
    )?;
    expect_equal(&rt, file, "f");
    expect_equal(&rt, pos, Pos { x: 3, y: 4, z: 5 });
    expect_equal(&rt, table, Some("t.toml"));
    Ok(())
}

/// The values of `check`.
fn check_of<'a>(command: Words<'a>) -> Option<(&'a str, Option<&'a str>, bool)> {
    match command {
        Words::Check {
            input,
            table,
            progress,
            ..
        } => Some((input, table, progress)),
        _ => None,
    }
}

#[test]
fn words_of_check(rt: HostRuntime) -> Result<(), Fail> {
    let alloc = rt.alloc();
    let plain = ["check", "--in", "world"];
    let (input, table, progress) = check_of(words(alloc, plain.as_slice())?).ok_or(
        "another command",
    )?;
    expect_equal(&rt, input, "world");
    expect_equal(&rt, table, None);
    expect_equal(&rt, progress, false);
    let all = ["check", "--progress", "--table", "t.toml", "--in=world"];
    let (input, table, progress) = check_of(words(alloc, all.as_slice())?).ok_or(
        "another command",
    )?;
    expect_equal(&rt, input, "world");
    expect_equal(&rt, table, Some("t.toml"));
    expect_equal(&rt, progress, true);
    Ok(())
}

/// The values of `run`.
fn run_of<'a>(command: Words<'a>) -> Option<RunWords<'a>> {
    match command {
        Words::Run(run) => Some(run),
        _ => None,
    }
}

#[test]
fn words_of_run_that_may_be_left_out(rt: HostRuntime) -> Result<(), Fail> {
    let alloc = rt.alloc();
    let plain = ["run", "--in=a", "--out=b", "--ticks=3"];
    let run = run_of(words(alloc, plain.as_slice())?).ok_or("another command")?;
    expect_equal(&rt, (run.input, run.output), ("a", "b"));
    expect_equal(&rt, (run.table, run.edits), (None, None));
    expect_equal(&rt, (run.ticks, run.workers), (3, None));
    expect_equal(&rt, run.skip.len(), 0);
    expect_equal(&rt, (run.strict, run.explain), (false, false));
    expect_equal(&rt, (run.dry_run, run.progress), (false, false));
    expect_equal(&rt, (run.again, run.in_use), (false, false));
    Ok(())
}

#[test]
fn words_of_run(rt: HostRuntime) -> Result<(), Fail> {
    let alloc = rt.alloc();
    let all = [
        "run",
        "--skip=r.0.0.mca",
        "--in=a",
        "--out=b",
        "--table=-",
        "--edits=e",
        "--ticks=1",
        "--workers=9",
        "--strict",
        "--dry-run",
        "--skip",
        "x",
    ];
    let run = run_of(words(alloc, all.as_slice())?).ok_or("another command")?;
    expect_equal(&rt, (run.table, run.edits), (Some("-"), Some("e")));
    expect_equal(&rt, (run.ticks, run.workers), (1, Some(9)));
    expect_equal(&rt, run.skip.as_slice(), ["r.0.0.mca", "x"].as_slice());
    expect_equal(&rt, (run.strict, run.explain), (true, false));
    expect_equal(&rt, (run.dry_run, run.progress), (true, false));
    Ok(())
}

#[test]
fn flags_of_run(rt: HostRuntime) -> Result<(), Fail> {
    for (flag, again, in_use) in [("--again", true, false), ("--in-use", false, true)] {
        let given = ["run", "--in=a", "--out=b", "--ticks=3", flag];
        let run = run_of(words(rt.alloc(), given.as_slice())?).ok_or("another command")?;
        expect_equal(&rt, (run.again, run.in_use), (again, in_use));
        expect_equal(&rt, (run.strict, run.dry_run), (false, false));
    }
    Ok(())
}

/// Whether two texts of a command are standard input.
fn asks_twice<'a>(alloc: Global, given: &'a [&'a str]) -> Option<bool> {
    Some(words(alloc, given).ok()?.asks_twice())
}

#[test]
fn words_that_ask_twice_for_standard_input(rt: HostRuntime) {
    let cases: [(&[&str], bool); 6] = [
        (
            &[
                "run",
                "--in=a",
                "--out=b",
                "--ticks=1",
                "--table=-",
                "--edits=-",
            ],
            true,
        ),
        (
            &[
                "run",
                "--in=a",
                "--out=b",
                "--ticks=1",
                "--table=-",
                "--edits=e",
            ],
            false,
        ),
        (&["run", "--in=-", "--out=-", "--ticks=1"], false),
        (
            &["map", "--in=a", "--out=b", "--table=-", "--colours=-"],
            true,
        ),
        (&["map", "--in=a", "--out=-", "--colours=-"], false),
        (&["states", "--in=-", "--table=-"], false),
    ];
    for (given, want) in cases {
        expect_equal(&rt, asks_twice(rt.alloc(), given), Some(want));
    }
}

/// The values of `map`.
#[derive(Drop)]
struct Drawn<'a> {
    input: &'a str,
    picture: &'a str,
    table: Option<&'a str>,
    colours: Option<&'a str>,
    light: bool,
}

fn map_of<'a>(command: Words<'a>) -> Option<Drawn<'a>> {
    match command {
        Words::Map {
            input,
            picture,
            table,
            colours,
            light,
            ..
        } => Some(Drawn {
            input,
            picture,
            table,
            colours,
            light,
        }),
        _ => None,
    }
}

#[test]
fn words_of_map(rt: HostRuntime) -> Result<(), Fail> {
    let alloc = rt.alloc();
    let plain = ["map", "--in", "world", "--out", "map.png"];
    let map = map_of(words(alloc, plain.as_slice())?).ok_or("another command")?;
    expect_equal(&rt, map.input, "world");
    expect_equal(&rt, map.picture, "map.png");
    expect_equal(&rt, map.table, None);
    expect_equal(&rt, map.colours, None);
    expect_equal(&rt, map.light, false);
    let all = [
        "map",
        "--light",
        "--colours=c.toml",
        "--table=t.toml",
        "--out=map.png",
        "--in=world",
    ];
    let map = map_of(words(alloc, all.as_slice())?).ok_or("another command")?;
    expect_equal(&rt, map.table, Some("t.toml"));
    expect_equal(&rt, map.colours, Some("c.toml"));
    expect_equal(&rt, map.light, true);
    Ok(())
}

/// The values of `states`.
fn states_of<'a>(command: Words<'a>) -> Option<(&'a str, Option<&'a str>)> {
    match command {
        Words::States { input, table, .. } => Some((input, table)),
        _ => None,
    }
}

#[test]
fn words_of_states(rt: HostRuntime) -> Result<(), Fail> {
    let alloc = rt.alloc();
    let plain = ["states", "--in", "world"];
    let (input, table) = states_of(words(alloc, plain.as_slice())?).ok_or("another command")?;
    expect_equal(&rt, input, "world");
    expect_equal(&rt, table, None);
    let all = ["states", "--table=t.toml", "--in=world"];
    let (_, table) = states_of(words(alloc, all.as_slice())?).ok_or("another command")?;
    expect_equal(&rt, table, Some("t.toml"));
    Ok(())
}

/// Whether words ask how far the command is, and why it failed.
fn asked<'a>(alloc: Global, given: &'a [&'a str]) -> Option<(bool, bool)> {
    let command = words(alloc, given).ok()?;
    Some((command.wants_progress(), command.wants_reasons()))
}

#[test]
fn words_that_ask_for_more(rt: HostRuntime) {
    let cases: [(&[&str], (bool, bool)); 7] = [
        (&["block", "--explain", "f", "1", "2", "3"], (false, true)),
        (&["block", "f", "1", "2", "3"], (false, false)),
        (&["check", "--in=a", "--progress"], (true, false)),
        (&["check", "--in=a", "--explain"], (false, true)),
        (&["map", "--in=a", "--out=b", "--explain"], (false, true)),
        (
            &[
                "run",
                "--in=a",
                "--out=b",
                "--table=t",
                "--edits=e",
                "--ticks=1",
                "--workers=1",
                "--progress",
                "--explain",
            ],
            (true, true),
        ),
        (&["states", "--in=a", "--explain"], (false, true)),
    ];
    for (given, want) in cases {
        expect_equal(&rt, asked(rt.alloc(), given), Some(want));
    }
}

/// Why words are refused.
fn refusal<'a>(alloc: Global, given: &'a [&'a str]) -> Option<ErrorKind> {
    words(alloc, given).err().map(|error| error.kind())
}

#[test]
fn words_that_are_refused(rt: HostRuntime) {
    let cases: [(&[&str], ErrorKind); 13] = [
        (&[], ErrorKind::MissingSubcommand),
        (&["blok"], ErrorKind::InvalidSubcommand),
        (
            &["block", "f", "1", "2"],
            ErrorKind::MissingRequiredArgument,
        ),
        (
            &["block", "f", "1", "2", "3", "4"],
            ErrorKind::UnknownArgument,
        ),
        (&["block", "f", "-1", "2", "3"], ErrorKind::UnknownArgument),
        (
            &["block", "f", "1", "2147483648", "3"],
            ErrorKind::ValueValidation,
        ),
        (
            &["block", "--table", "a", "--table", "b", "f", "1", "2", "3"],
            ErrorKind::ArgumentConflict,
        ),
        (&["block", "--help"], ErrorKind::DisplayHelp),
        (&["--version"], ErrorKind::DisplayVersion),
        (&["run", "--version"], ErrorKind::UnknownArgument),
        (
            &["run", "--in=a", "--out=b", "--ticks=1", "--workers=two"],
            ErrorKind::ValueValidation,
        ),
        (
            &["map", "--in", "world"],
            ErrorKind::MissingRequiredArgument,
        ),
        (
            &["states", "--in", "world", "--light"],
            ErrorKind::UnknownArgument,
        ),
    ];
    for (given, kind) in cases {
        expect_equal(&rt, refusal(rt.alloc(), given), Some(kind));
    }
}
