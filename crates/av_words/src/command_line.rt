//! The words of the command line, read by `clap`.
ghost use Rattle.std.specs.Prelude.{◌≡◌, IfErr, IfNone, IfOk, IfSome, IsErr, List, Option, Some, codes, false, map};
ghost use Rattle.std.specs.Borrow.{Bor};
ghost use Rattle.clap.specs.declared.builder.command.Command.TheViews.{out-Command};
ghost use Rattle.clap.specs.Words.{app_of, found_of, kind_of, rows_of, rule_of, subcommand_rows_of, with_rule, Row};
ghost use Rattle.av_words.specs.declared.command_line.commands.Words.{Words};
ghost use Rattle.av_words.specs.CommandLine.{HasRunValues, HasTexts, HasValues, IsReadFrom, IsWordsRefusal, LacksBlock, LacksCheck, LacksMap, LacksRun, LacksStates};
ghost use Rattle.av_words.specs.CommandLine.{anvilwater, bare_app, block_app, check_app, map_app, name_of, run_app, states_app, with_counts, with_files, with_flags};

use crate::arguments::{
    command, coordinate, counted, explain_flag, file, flag, height_table, named, progress_flag,
    repeated,
};
use crate::values::{count_if_given, count_of, is_given, number, text_of, texts_of};
use av_types::Pos;
use clap::error::ErrorKind;
use clap::{Arg, ArgMatches, Command, Error};
use std::alloc::{AllocError, Global};

pub mod commands;

use commands::{RunWords, Words};

/// What `--version` answers behind the program's name.
pub const VERSION: &str = "0.1.0";

/// A command with one argument more, of which no more is said than is asked here: so the proofs of commands with many stay short.
fn with_arg<'a>(app: Command<'a>, arg: Arg<'a>) -> Result<Command<'a>, Error>
    requires global { arg.global ≡ false }
    requires local { (out-Command app).has_globals ≡ false }
    ensures app { IfOk result (λ c. app_of c ≡ with_rule (app_of app.entry) (rule_of arg.entry)) }
    ensures local { IfOk result (λ c. (out-Command c).has_globals ≡ false) }
    ensures memory { IfErr result (λ e. kind_of e ≡ ErrorKind.OutOfMemory) }
{
    Ok(app.arg(arg)?)
}

/// `block [--table FILE] [--explain] FILE X Y Z`.
fn block_command<'a>(alloc: Global) -> Result<Command<'a>, Error>
    ensures app { IfOk result (λ c. app_of c ≡ block_app) }
    ensures local { IfOk result (λ c. (out-Command c).has_globals ≡ false) }
    ensures memory { IfErr result (λ e. kind_of e ≡ ErrorKind.OutOfMemory) }
{
    let about = "Prints the block state at a position of a region file, or unloaded";
    let usage =
        "anvilwater block [--table FILE] [--explain] [--] FILE X Y Z, negative numbers behind --";
    let region = "The region file, r.X.Z.mca";
    let east = "The block's position to the east";
    let south = "Its position to the south";
    let block = command(alloc, "block", about, usage);
    let block = with_arg(block, file(alloc, "FILE", region))?;
    let block = with_arg(block, coordinate(alloc, "X", east))?;
    let block = with_arg(block, coordinate(alloc, "Y", "Its height"))?;
    let block = with_arg(block, coordinate(alloc, "Z", south))?;
    let block = with_arg(block, height_table(alloc))?;
    with_arg(block, explain_flag(alloc))
}

/// `check --in DIR [--table FILE] [--progress] [--explain]`.
fn check_command<'a>(alloc: Global) -> Result<Command<'a>, Error>
    ensures app { IfOk result (λ c. app_of c ≡ check_app) }
    ensures local { IfOk result (λ c. (out-Command c).has_globals ≡ false) }
    ensures memory { IfErr result (λ e. kind_of e ≡ ErrorKind.OutOfMemory) }
{
    let about = "Lists what is wrong with the region files of a folder";
    let usage = "anvilwater check --in DIR [--table FILE] [--progress] [--explain]";
    let read = "The folder whose files r.X.Z.mca are read";
    let check = command(alloc, "check", about, usage);
    let check = with_arg(check, named(alloc, "in", "DIR", true, read))?;
    let check = with_arg(check, height_table(alloc))?;
    let check = with_arg(check, progress_flag(alloc))?;
    with_arg(check, explain_flag(alloc))
}

/// Adds the folders and texts of `run`.
fn with_files<'a>(alloc: Global, run: Command<'a>) -> Result<Command<'a>, Error>
    requires { (out-Command run).has_globals ≡ false }
    ensures app { IfOk result (λ c. app_of c ≡ with_files (app_of run.entry)) }
    ensures local { IfOk result (λ c. (out-Command c).has_globals ≡ false) }
    ensures memory { IfErr result (λ e. kind_of e ≡ ErrorKind.OutOfMemory) }
{
    let read = "The folder whose files r.X.Z.mca are read";
    let written = "The folder that they are written to; it may be the same";
    let table = "The block table, and - for standard input; without it that of the program";
    let edits = "The edits, and - for standard input; without it there are none";
    let run = with_arg(run, named(alloc, "in", "DIR", true, read))?;
    let run = with_arg(run, named(alloc, "out", "DIR", true, written))?;
    let run = with_arg(run, named(alloc, "table", "FILE", false, table))?;
    with_arg(run, named(alloc, "edits", "FILE", false, edits))
}

/// Adds the counts of `run`, and the files that it leaves out.
fn with_counts<'a>(alloc: Global, run: Command<'a>) -> Result<Command<'a>, Error>
    requires { (out-Command run).has_globals ≡ false }
    ensures app { IfOk result (λ c. app_of c ≡ with_counts (app_of run.entry)) }
    ensures local { IfOk result (λ c. (out-Command c).has_globals ≡ false) }
    ensures memory { IfErr result (λ e. kind_of e ≡ ErrorKind.OutOfMemory) }
{
    let ticks = "How many ticks are run";
    let workers =
        "How many workers run them, 1 to 8; without it one for each processor, and 8 at most";
    let skip = "A file of the folder, r.X.Z.mca, that counts as not there and stays as it is";
    let run = with_arg(run, counted(alloc, "ticks", true, ticks))?;
    let run = with_arg(run, counted(alloc, "workers", false, workers))?;
    with_arg(run, repeated(alloc, "skip", "NAME", skip))
}

/// Adds the flags of `run` that no other command has.
fn with_flags<'a>(alloc: Global, run: Command<'a>) -> Result<Command<'a>, Error>
    requires { (out-Command run).has_globals ≡ false }
    ensures app { IfOk result (λ c. app_of c ≡ with_flags (app_of run.entry)) }
    ensures local { IfOk result (λ c. (out-Command c).has_globals ≡ false) }
    ensures memory { IfErr result (λ e. kind_of e ≡ ErrorKind.OutOfMemory) }
{
    let strict = "Runs nothing where a block state of the world has no row in the table";
    let dry_run = "Says which files and how many of their chunks would change, and writes nothing";
    let again = "Runs also where an earlier run that was cut off is finished first";
    let in_use = "Runs although the game has the world open";
    let run = with_arg(run, flag(alloc, "strict", strict))?;
    let run = with_arg(run, flag(alloc, "dry-run", dry_run))?;
    let run = with_arg(run, flag(alloc, "again", again))?;
    with_arg(run, flag(alloc, "in-use", in_use))
}

/// `run --in DIR --out DIR [--table FILE] [--edits FILE] --ticks N [--workers N] [--skip NAME].. [--strict] [--dry-run]
/// [--again] [--in-use] [--progress] [--explain]`.
fn run_command<'a>(alloc: Global) -> Result<Command<'a>, Error>
    ensures app { IfOk result (λ c. app_of c ≡ run_app) }
    ensures local { IfOk result (λ c. (out-Command c).has_globals ≡ false) }
    ensures memory { IfErr result (λ e. kind_of e ≡ ErrorKind.OutOfMemory) }
{
    let about = "Runs edits, water and block light over the region files of a folder";
    let usage =
        "anvilwater run --in DIR --out DIR [--table FILE] [--edits FILE] --ticks N [--workers N] [--skip NAME].. [--strict] [--dry-run] [--again] [--in-use] [--progress] [--explain]";
    let run = with_files(alloc, command(alloc, "run", about, usage))?;
    let run = with_counts(alloc, run)?;
    let run = with_flags(alloc, run)?;
    let run = with_arg(run, progress_flag(alloc))?;
    with_arg(run, explain_flag(alloc))
}

/// `map --in DIR --out FILE [--table FILE] [--colours FILE] [--light] [--explain]`.
fn map_command<'a>(alloc: Global) -> Result<Command<'a>, Error>
    ensures app { IfOk result (λ c. app_of c ≡ map_app) }
    ensures local { IfOk result (λ c. (out-Command c).has_globals ≡ false) }
    ensures memory { IfErr result (λ e. kind_of e ≡ ErrorKind.OutOfMemory) }
{
    let about = "Draws the region files of a folder from above, a pixel for each column of blocks";
    let usage =
        "anvilwater map --in DIR --out FILE [--table FILE] [--colours FILE] [--light] [--explain]";
    let read = "The folder whose files r.X.Z.mca are read";
    let written = "The picture that is written, a PNG file";
    let colours = "The colours of blocks by name; without it each name has one of its letters";
    let light = "Draws the block light on the highest blocks in place of their colours";
    let map = command(alloc, "map", about, usage);
    let map = with_arg(map, named(alloc, "in", "DIR", true, read))?;
    let map = with_arg(map, named(alloc, "out", "FILE", true, written))?;
    let map = with_arg(map, height_table(alloc))?;
    let map = with_arg(map, named(alloc, "colours", "FILE", false, colours))?;
    let map = with_arg(map, flag(alloc, "light", light))?;
    with_arg(map, explain_flag(alloc))
}

/// `states --in DIR [--table FILE] [--explain]`.
fn states_command<'a>(alloc: Global) -> Result<Command<'a>, Error>
    ensures app { IfOk result (λ c. app_of c ≡ states_app) }
    ensures local { IfOk result (λ c. (out-Command c).has_globals ≡ false) }
    ensures memory { IfErr result (λ e. kind_of e ≡ ErrorKind.OutOfMemory) }
{
    let about =
        "Lists the block states of the region files of a folder, with how many blocks have each";
    let usage = "anvilwater states --in DIR [--table FILE] [--explain]";
    let read = "The folder whose files r.X.Z.mca are read";
    let table = "A block table, whose height the world has, and whose row for each state is listed";
    let states = command(alloc, "states", about, usage);
    let states = with_arg(states, named(alloc, "in", "DIR", true, read))?;
    let states = with_arg(states, named(alloc, "table", "FILE", false, table))?;
    with_arg(states, explain_flag(alloc))
}

/// The program without its commands.
fn bare_program<'a>(alloc: Global) -> Command<'a>
    ensures app { app_of result ≡ bare_app }
{
    let about = "Reads Minecraft region files, and runs water and light over them";
    command(alloc, "anvilwater", about, "anvilwater COMMAND")
        .version(VERSION)
        .no_binary_name(true)
        .subcommand_required(true)
}

/// The program's command line.
fn program<'a>(alloc: Global) -> Result<Command<'a>, Error>
    ensures app { IfOk result (λ c. app_of c ≡ anvilwater) }
    ensures memory { IfErr result (λ e. kind_of e ≡ ErrorKind.OutOfMemory) }
{
    let program = bare_program(alloc);
    let program = program.subcommand(block_command(alloc)?)?;
    let program = program.subcommand(check_command(alloc)?)?;
    let program = program.subcommand(run_command(alloc)?)?;
    let program = program.subcommand(map_command(alloc)?)?;
    let program = program.subcommand(states_command(alloc)?)?;
    Ok(program)
}

/// The values of `block`, where each was given.
fn block_words<'a>(matches: &ArgMatches<'a>) -> Option<Words<'a>>
    ensures values { IfSome result (λ w. (name_of w ≡ codes "block")
        × HasValues (rows_of (found_of matches.now)) w) }
    ensures none { IfNone result (LacksBlock (rows_of (found_of matches.now))) }
{
    let file = text_of(matches, "FILE")?;
    let x = number(matches, "X")?;
    let y = number(matches, "Y")?;
    let z = number(matches, "Z")?;
    let table = text_of(matches, "table");
    let explain = is_given(matches, "explain");
    Some(Words::Block {
        file,
        pos: Pos { x, y, z },
        table,
        explain,
    })
}

/// The values of `check`, where each was given.
fn check_words<'a>(matches: &ArgMatches<'a>) -> Option<Words<'a>>
    ensures values { IfSome result (λ w. (name_of w ≡ codes "check")
        × HasValues (rows_of (found_of matches.now)) w) }
    ensures none { IfNone result (LacksCheck (rows_of (found_of matches.now))) }
{
    let input = text_of(matches, "in")?;
    let table = text_of(matches, "table");
    let progress = is_given(matches, "progress");
    let explain = is_given(matches, "explain");
    Some(Words::Check {
        input,
        table,
        progress,
        explain,
    })
}

/// The values of `run`, where each was given, with the files that it leaves out.
fn values_of_run<'a>(matches: &ArgMatches<'a>, skip: Vec<&'a str>) -> Option<RunWords<'a>>
    requires { HasTexts (rows_of (found_of matches.now)) (codes "skip") skip.items }
    ensures values { IfSome result (HasRunValues (rows_of (found_of matches.now))) }
    ensures none { IfNone result (LacksRun (rows_of (found_of matches.now))) }
{
    let input = text_of(matches, "in")?;
    let output = text_of(matches, "out")?;
    let table = text_of(matches, "table");
    let edits = text_of(matches, "edits");
    let ticks = count_of(matches, "ticks")?;
    let workers = count_if_given(matches, "workers")?;
    let strict = is_given(matches, "strict");
    let dry_run = is_given(matches, "dry-run");
    let again = is_given(matches, "again");
    let in_use = is_given(matches, "in-use");
    let progress = is_given(matches, "progress");
    let explain = is_given(matches, "explain");
    Some(RunWords {
        input,
        output,
        table,
        edits,
        ticks,
        workers,
        skip,
        strict,
        dry_run,
        again,
        in_use,
        progress,
        explain,
    })
}

/// The values of `run`, where each was given.
fn run_words<'a>(alloc: Global, matches: &ArgMatches<'a>) -> Result<Option<Words<'a>>, AllocError>
    ensures values { IfOk result (λ o. IfSome o (λ w. (name_of w ≡ codes "run")
        × HasValues (rows_of (found_of matches.now)) w)) }
    ensures none { IfOk result (λ o. IfNone o (LacksRun (rows_of (found_of matches.now)))) }
{
    let skip = texts_of(alloc, matches, "skip")?;
    match values_of_run(matches, skip) {
        Some(run) => Ok(Some(Words::Run(run))),
        None => Ok(None),
    }
}

/// The values of `map`, where each was given.
fn map_words<'a>(matches: &ArgMatches<'a>) -> Option<Words<'a>>
    ensures values { IfSome result (λ w. (name_of w ≡ codes "map")
        × HasValues (rows_of (found_of matches.now)) w) }
    ensures none { IfNone result (LacksMap (rows_of (found_of matches.now))) }
{
    let input = text_of(matches, "in")?;
    let picture = text_of(matches, "out")?;
    let table = text_of(matches, "table");
    let colours = text_of(matches, "colours");
    let light = is_given(matches, "light");
    let explain = is_given(matches, "explain");
    Some(Words::Map {
        input,
        picture,
        table,
        colours,
        light,
        explain,
    })
}

/// The values of `states`, where each was given.
fn states_words<'a>(matches: &ArgMatches<'a>) -> Option<Words<'a>>
    ensures values { IfSome result (λ w. (name_of w ≡ codes "states")
        × HasValues (rows_of (found_of matches.now)) w) }
    ensures none { IfNone result (LacksStates (rows_of (found_of matches.now))) }
{
    let input = text_of(matches, "in")?;
    let table = text_of(matches, "table");
    let explain = is_given(matches, "explain");
    Some(Words::States {
        input,
        table,
        explain,
    })
}

/// The command, where one was given with its values.
fn command_of<'a>(alloc: Global, matches: &ArgMatches<'a>) -> Result<Option<Words<'a>>, AllocError>
    ensures read { IfOk result (λ o. IfSome o (λ w. (rows : List Row)
        × (subcommand_rows_of matches.now ≡ Some (name_of w, rows)) × HasValues rows w)) }
    ensures none { IfOk result (λ o. IfNone o ((w : Words) (rows : List Row)
        → subcommand_rows_of matches.now ≡ Some (name_of w, rows) → HasValues rows w → ⊥)) }
{
    if let Some(block) = matches.subcommand_matches("block") {
        return Ok(block_words(block));
    }
    if let Some(check) = matches.subcommand_matches("check") {
        return Ok(check_words(check));
    }
    if let Some(map) = matches.subcommand_matches("map") {
        return Ok(map_words(map));
    }
    if let Some(states) = matches.subcommand_matches("states") {
        return Ok(states_words(states));
    }
    match matches.subcommand_matches("run") {
        Some(run) => run_words(alloc, run),
        None => Ok(None),
    }
}

/// Refuses words that give no command all its values.
fn no_command<'a>(alloc: Global) -> Result<Words<'a>, Error>
    ensures { IsErr result }
{
    Err(program(alloc)?.error(ErrorKind::InvalidSubcommand, "no command was given")?)
}

/// Reads the words that follow the program's name. The answer is the command that `clap` reads of them, with its
/// values. Negative numbers stand behind `--`.
///
/// Errors: words that are refused and calls for help or the version, each with its text, and want of memory. Words that `clap`
/// takes are refused only where they give no command all its values.
pub fn words<'a>(alloc: Global, given: &'a [&'a str]) -> Result<Words<'a>, Error>
    ensures read { IfOk result (IsReadFrom (map (λ s. s.now) given.now)) }
    ensures refused { IfErr result (IsWordsRefusal (map (λ s. s.now) given.now)) }
{
    let matches = program(alloc)?.try_get_matches_from(given)?;
    match command_of(alloc, &matches)? {
        Some(command) => Ok(command),
        None => no_command(alloc),
    }
}
