//! The blocks from which a flood starts: those that emit light that may come to the chunk.
ghost use Rattle.std.specs.Prelude.{◌≡◌, ◌≤◌, ◌<◌, ℕ, pos, negsuc, ◌+ℤ◌, ◌-ℤ◌, ◌≤ℤ◌, OnOk, [], Contains};
ghost use Rattle.av_types.specs.declared.position.Pos.{Pos};
ghost use Rattle.av_flood.specs.Blocks.{MayBeLoaded, AreKnown, column_at};
ghost use Rattle.av_flood.specs.Board.{raw_of};
ghost use Rattle.av_flood.specs.Flooding.{todo_of, IsFresh, IsDark, IsNoted, IsGrown, IsStarted, WaitsIfEmitting};

use crate::blocks::Blocks;
use crate::board::Flood;
use crate::buckets::Buckets;
use crate::spots::Spot;
use av_types::{ChunkPos, Pos};
use std::alloc::AllocError;

/// Lets a block emit its light.
fn emit<B: Blocks>(
    flood: &mut Flood,
    blocks: &B,
    pos: Pos,
    buckets: &mut Buckets,
) -> Result<(), AllocError>
    requires height { flood.old.height ≡ B.tall blocks.now }
    requires dark { IsDark flood.old }
    requires noted { IsNoted (B.terrain blocks.now) flood.old.chunk (raw_of flood.old)
        (todo_of buckets.old) }
    ensures chunk { flood.new.chunk ≡ flood.old.chunk }
    ensures height { flood.new.height ≡ flood.old.height }
    ensures dark { OnOk result (IsDark flood.new) }
    ensures noted { OnOk result (IsNoted (B.terrain blocks.now) flood.old.chunk (raw_of flood.new)
        (todo_of buckets.new)) }
    ensures grown { OnOk result (IsGrown (B.terrain blocks.now) flood.old.chunk 16
        (todo_of buckets.old) (todo_of buckets.new)) }
    ensures ready { OnOk result (WaitsIfEmitting (B.terrain blocks.now) flood.old.chunk
        (todo_of buckets.new) pos) }
{
    let Some(index) = flood.index(pos) else {
        return Ok(());
    };
    let spot = Spot { pos, index };
    let Some(level) = blocks.emission(pos) else {
        return Ok(());
    };
    if level <= flood.byte(spot) {
        return Ok(());
    }
    flood.mark(spot, level);
    buckets.push(level, pos)?;
    Ok(())
}

/// Lets each of some blocks emit its light.
fn emit_all<B: Blocks>(
    flood: &mut Flood,
    blocks: &B,
    lamps: &[Pos],
    buckets: &mut Buckets,
) -> Result<(), AllocError>
    requires height { flood.old.height ≡ B.tall blocks.now }
    requires dark { IsDark flood.old }
    requires noted { IsNoted (B.terrain blocks.now) flood.old.chunk (raw_of flood.old)
        (todo_of buckets.old) }
    ensures chunk { flood.new.chunk ≡ flood.old.chunk }
    ensures height { flood.new.height ≡ flood.old.height }
    ensures dark { OnOk result (IsDark flood.new) }
    ensures noted { OnOk result (IsNoted (B.terrain blocks.now) flood.old.chunk (raw_of flood.new)
        (todo_of buckets.new)) }
    ensures grown { OnOk result (IsGrown (B.terrain blocks.now) flood.old.chunk 16
        (todo_of buckets.old) (todo_of buckets.new)) }
    ensures ready { OnOk result ((p : Pos) → Contains lamps.now p
        → WaitsIfEmitting (B.terrain blocks.now) flood.old.chunk (todo_of buckets.new) p) }
{
    for lamp in lamps {
        emit(flood, blocks, *lamp, buckets)?;
    }
    Ok(())
}

/// One of the nine chunks that a board lies in.
fn column_at(chunk: ChunkPos, number: u32) -> ChunkPos
    requires near { MayBeLoaded chunk }
    requires number { number < 9 }
    ensures { result ≡ column_at chunk number }
{
    ChunkPos {
        x: beside(chunk.x, number % 3),
        z: beside(chunk.z, number / 3),
    }
}

/// A coordinate of a chunk, so many after the one before it.
fn beside(chunk: i32, steps: u32) -> i32
    requires low { negsuc 1920030 ≤ℤ chunk }
    requires high { chunk ≤ℤ pos 1920031 }
    requires steps { steps < 3 }
    ensures { result ≡ chunk -ℤ pos 1 +ℤ pos steps }
{
    chunk - 1 + steps as i32
}

/// Puts the blocks that emit light into their levels.
pub(crate) fn start<B: Blocks>(
    flood: &mut Flood,
    blocks: &B,
    buckets: &mut Buckets,
) -> Result<(), AllocError>
    requires near { MayBeLoaded flood.old.chunk }
    requires height { flood.old.height ≡ B.tall blocks.now }
    requires known { AreKnown (B.terrain blocks.now) (B.lamps blocks.now) flood.old.chunk }
    requires fresh { IsFresh flood.old }
    requires none { (n : ℕ) → todo_of buckets.old n ≡ [] }
    ensures chunk { flood.new.chunk ≡ flood.old.chunk }
    ensures height { flood.new.height ≡ flood.old.height }
    ensures dark { OnOk result (IsDark flood.new) }
    ensures noted { OnOk result (IsNoted (B.terrain blocks.now) flood.old.chunk (raw_of flood.new)
        (todo_of buckets.new)) }
    ensures started { OnOk result (IsStarted (B.terrain blocks.now) flood.old.chunk
        (todo_of buckets.new)) }
{
    for number in 0..9 {
        let lamps = blocks.lamps(column_at(flood.chunk, number));
        emit_all(flood, blocks, lamps, buckets)?;
    }
    Ok(())
}
