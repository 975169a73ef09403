//! What is wrong with regions, and single blocks of their files.
use crate::dice::Dice;
use crate::digest::Digest;
use crate::jobs::only;
use crate::pool::Pool;
use crate::regions::{Country, region};
use anyhow::Result;
use av_codec::block_at;
use av_state::State;
use av_survey::{Finding, survey};
use av_types::{Fault, Height, Pos, RegionPos};
use std::alloc::Global;

fn add_state(digest: &mut Digest, state: &State) {
    digest.add_bytes(state.name.as_slice());
    for property in &state.properties {
        digest.add_bytes(property.key.as_slice());
        digest.add_bytes(property.value.as_slice());
    }
}

/// A block, unloaded ones and those of refused chunks too. Want of memory is answered.
fn add_block(
    alloc: Global,
    digest: &mut Digest,
    bytes: &[u8],
    region: RegionPos,
    pos: Pos,
) -> Result<(), Fault> {
    match block_at(alloc, bytes, region, pos, Height::game()) {
        Ok(None) => digest.add(0),
        Ok(Some(state)) => add_state(digest, &state),
        Err(Fault::OutOfMemory) => return Err(Fault::OutOfMemory),
        Err(fault) => digest.add_fault(&fault),
    }
    Ok(())
}

/// A block of each chunk.
fn add_blocks(
    alloc: Global,
    digest: &mut Digest,
    bytes: &[u8],
    region: RegionPos,
    side: u32,
    dice: &mut Dice,
) -> Result<(), Fault> {
    for index in 0..1024u32 {
        let (x, z) = (index % 32, index / 32);
        if x < side && z < side {
            let pos = Pos {
                x: region
                    .x
                    .wrapping_mul(512)
                    .wrapping_add((16 * x + dice.below(16)) as i32),
                y: (dice.below(384) as i32).wrapping_sub(64),
                z: region
                    .z
                    .wrapping_mul(512)
                    .wrapping_add((16 * z + dice.below(16)) as i32),
            };
            add_block(alloc, digest, bytes, region, pos)?;
        }
    }
    Ok(())
}

fn add_findings(digest: &mut Digest, findings: &[Finding]) {
    digest.add(findings.len() as u64);
    for finding in findings {
        digest.add_region(finding.region);
        digest.add_fault(&finding.fault);
        if let Some(chunk) = finding.chunk {
            digest.add_chunk(chunk);
        }
    }
}

/// One region: a block of each of its chunks, and all that is wrong with it.
fn look_at(
    alloc: Global,
    digest: &mut Digest,
    pool: &Pool,
    seed: u32,
    round: u32,
    side: u32,
) -> Result<(), Fault> {
    let pos = RegionPos {
        x: (round % 1000) as i32,
        z: -1,
    };
    let mut dice = Dice::new(seed, u64::from(round) + 16);
    let drawn = region(
        alloc,
        pool,
        seed.wrapping_add(round),
        pos,
        side,
        Country::Flawed,
    )?;
    add_blocks(
        alloc,
        digest,
        drawn.file.bytes.as_slice(),
        pos,
        side,
        &mut dice,
    )?;
    let findings = survey(alloc, only(alloc, drawn.file)?, Height::game())?;
    add_findings(digest, findings.as_slice());
    Ok(())
}

/// So many regions of so many chunks a side, one after the other. The line has the digest of all that was found.
pub(crate) fn survey_all(alloc: Global, seed: u32, side: u32, rounds: u32) -> Result<String> {
    let pool = Pool::new(alloc, seed)?;
    let mut digest = Digest::default();
    for round in 0..rounds {
        look_at(alloc, &mut digest, &pool, seed, round, side)?;
    }
    let sum = digest.sum;
    Ok(format!(in alloc; "survey {sum}")?)
}
