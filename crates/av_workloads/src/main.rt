//! The jobs that a user of Anvilwater waits for, on inputs that are made from a seed: what `bench/run` times.
#![tactic(auto)]

mod awkward;
mod cells;
mod chunks;
mod dice;
mod digest;
mod documents;
mod flooding;
mod jobs;
mod packed;
mod pool;
mod regions;
mod relighting;
mod sections;
mod states;
mod surveying;
mod tables;

use anyhow::{Result, bail};
use std::alloc::{AllocError, Global};
use std::env;
use std::rt::Env;
use std::sync::Wait;
use std::thread::Threads;

const USAGE: &str =
    "av_workloads relight SEED SIDE | flood SEED SIDE EDITS TICKS WORKERS | lakes SEED SIDE TICKS WORKERS | survey SEED SIDE ROUNDS | awkward SEED SIZE; several have a + between them";

/// Does a job, and gives the line that it prints.
fn line_of<R: Env + AllocGlobal + Threads + Wait + Sync>(rt: &R, words: &[&str]) -> Result<String> {
    let alloc = rt.alloc();
    match words {
        ["relight", seed, side] => relighting::relight(rt, alloc, seed.parse()?, side.parse()?),
        ["flood", seed, side, edits, ticks, workers] => flooding::flood(
            rt,
            alloc,
            seed.parse()?,
            side.parse()?,
            edits.parse()?,
            ticks.parse()?,
            workers.parse()?,
        ),
        ["lakes", seed, side, ticks, workers] => flooding::lakes(
            rt,
            alloc,
            seed.parse()?,
            side.parse()?,
            ticks.parse()?,
            workers.parse()?,
        ),
        ["survey", seed, side, rounds] => {
            surveying::survey_all(alloc, seed.parse()?, side.parse()?, rounds.parse()?)
        }
        ["awkward", seed, size] => awkward::run_all(rt, alloc, seed.parse()?, size.parse()?),
        _ => bail!("{USAGE}"),
    }
}

fn as_texts(alloc: Global, words: &[String]) -> Result<Vec<&str>, AllocError> {
    words.iter().map(|word| word.as_str()).collect(alloc)
}

fn main(rt: HostRuntime) -> Result<()> {
    let alloc = rt.alloc();
    let words: Vec<String> = env::args(&rt)?.skip(1).collect(alloc)?;
    let words = as_texts(alloc, words.as_slice())?;
    for command in words.as_slice().split(|word| -> bool { *word == "+" }) {
        let line = line_of(&rt, command)?;
        println!(rt; "{line}")?;
    }
    Ok(())
}
