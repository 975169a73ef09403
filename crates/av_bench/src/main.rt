//! The program that `bench/plain.sh` times: hot paths of the crates, one a command. Beside this it runs ticks of a small world
//! for the merge gate, which refuses its growths.
#![tactic(auto)]

mod decoding;
mod flowing;
mod lighting;
mod placing;
mod planning;
mod refusing;
mod running;
mod summing;
mod tally;
mod ticking;

use anyhow::{Result, bail};
use av_rewrite::{recode, rewrite};
use av_types::Height;
use std::alloc::{AllocError, Global};
use std::rt::{Clock, Env, Files};
use std::sync::Wait;
use std::thread::Threads;
use std::{env, fs};

const USAGE: &str =
    "av_bench decode FILE ROUNDS | recode IN OUT | rewrite IN OUT | light FILE TABLE TIMES | time FILE TABLE TIMES | plan lake|spread|pools ENTRIES ROUNDS | turn WORLDS | run FILE TABLE EDITS TICKS WORKERS | tick WIDTH TICKS WORKERS | refuse WORKERS; several have a + between them";

/// Writes what was made, and tells its size.
fn write<R: Files + AllocGlobal>(rt: &R, path: &str, bytes: &[u8]) -> Result<String> {
    fs::write(rt, path, bytes)?;
    let size = bytes.len();
    Ok(format!(in rt.alloc(); "bytes {size}")?)
}

/// Runs a command on what it is given, without ticks, and gives the line that it prints.
fn run<R: Clock + Env + Files + AllocGlobal + Threads + Wait + Sync>(
    rt: &R,
    words: &[&str],
) -> Result<String> {
    let alloc = rt.alloc();
    match words {
        ["decode", path, rounds] => {
            let bytes = fs::read(rt, *path)?;
            let rounds: u32 = rounds.parse()?;
            Ok(decoding::decode_rounds(alloc, bytes.as_slice(), rounds)?)
        }
        ["recode", input, output] => {
            let bytes = fs::read(rt, *input)?;
            let written = recode(alloc, bytes.as_slice())?;
            write(rt, *output, written.as_slice())
        }
        ["rewrite", input, output] => {
            let bytes = fs::read(rt, *input)?;
            let written = rewrite(alloc, bytes.as_slice(), Height::game())?;
            write(rt, *output, written.as_slice())
        }
        ["light", path, table, times] => {
            lighting::light_region(rt, *path, *table, times.parse()?, false)
        }
        ["time", path, table, times] => {
            lighting::light_region(rt, *path, *table, times.parse()?, true)
        }
        ["plan", layout, count, rounds] => {
            planning::plan_entries(alloc, *layout, count.parse()?, rounds.parse()?)
        }
        ["turn", worlds] => {
            let worlds: u64 = worlds.parse()?;
            Ok(flowing::play_worlds(alloc, worlds)?)
        }
        _ => run_ticks(rt, words),
    }
}

/// Runs a command that ticks, and gives the line that it prints.
fn run_ticks<R: Clock + Files + AllocGlobal + Threads + Wait + Sync>(
    rt: &R,
    words: &[&str],
) -> Result<String> {
    let alloc = rt.alloc();
    match words {
        ["run", path, table, edits, ticks, workers] => {
            let bytes = fs::read(rt, *path)?;
            let table = fs::read(rt, *table)?;
            let edits = fs::read(rt, *edits)?;
            let ticks: u32 = ticks.parse()?;
            let workers: u32 = workers.parse()?;
            let (table, edits) = (table.as_slice(), edits.as_slice());
            running::run_region(rt, alloc, bytes, table, edits, ticks, workers)
        }
        ["tick", width, ticks, workers] => {
            let width: i32 = width.parse()?;
            let ticks: u32 = ticks.parse()?;
            let workers: u32 = workers.parse()?;
            ticking::tick_lakes(rt, alloc, width, ticks, workers)
        }
        ["refuse", workers] => {
            let workers: u32 = workers.parse()?;
            Ok(refusing::refuse(rt, alloc, workers)?)
        }
        _ => bail!("{USAGE}"),
    }
}

fn as_texts(alloc: Global, words: &[String]) -> Result<Vec<&str>, AllocError> {
    words.iter().map(|word| word.as_str()).collect(alloc)
}

fn main(rt: HostRuntime) -> Result<()> {
    let alloc = rt.alloc();
    let words: Vec<String> = env::args(&rt)?.skip(1).collect(alloc)?;
    let words = as_texts(alloc, words.as_slice())?;
    for command in words.as_slice().split(|word| -> bool { *word == "+" }) {
        let line = run(&rt, command)?;
        println!(rt; "{line}")?;
    }
    Ok(())
}
