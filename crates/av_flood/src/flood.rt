//! A flood of light, from the brightest level down.
ghost use Rattle.std.specs.Prelude.{◌≡◌, ◌≤◌, ◌<◌, ◌-◌, ℕ, [], OnOk, IfOk};
ghost use Rattle.av_types.specs.Positions.{chunk_of};
ghost use Rattle.av_types.specs.declared.position.Pos.{Pos};
ghost use Rattle.av_flood.specs.Light.{IsAdjacent, HasLight, IsLight};
ghost use Rattle.av_flood.specs.Board.{light_of, raw_of, IsOnBoard};
ghost use Rattle.av_flood.specs.Spots.{IsSpot};
ghost use Rattle.av_flood.specs.Blocks.{IsFarFromEnds, MayBeLoaded, AreKnown};
ghost use Rattle.av_flood.specs.Flooding.{todo_of, Matters, IsFresh, IsMarked, IsGrown, IsBrought, IsOffered, IsFlooding, CanOffer, HasOffered};

use crate::blocks::Blocks;
use crate::board::Flood;
use crate::buckets::Buckets;
use crate::bytes::SEEN;
use crate::emit::start;
use crate::near::may_be_loaded;
use crate::spots::Spot;
use av_types::{ChunkPos, Pos};
use std::alloc::{AllocError, Global};

/// Lets light come to a block of which none was seen yet, where it is more than the byte that stood of it.
#[inline(always)]
fn bring<B: Blocks>(
    chunk: ChunkPos,
    blocks: &B,
    from: Pos,
    pos: Pos,
    level: u8,
    seen: u8,
    buckets: &mut Buckets,
) -> Result<(), AllocError>
    requires level { level < 16 }
    requires beside { IsAdjacent from pos }
    requires comes { HasLight (B.terrain blocks.now) from level }
    requires matters { (v : ℕ) → seen < v → Matters chunk v pos }
    ensures grown { OnOk result (IsGrown (B.terrain blocks.now) chunk level (todo_of buckets.old)
        (todo_of buckets.new)) }
    ensures brought { OnOk result (IsBrought (B.terrain blocks.now) level seen
        (todo_of buckets.new) pos) }
    ensures others { OnOk result (todo_of buckets.new level ≡ todo_of buckets.old level) }
{
    let Some(cost) = blocks.cost(pos) else {
        return Ok(());
    };
    if level.saturating_sub(cost) <= seen {
        return Ok(());
    }
    buckets.push(level - cost, pos)?;
    Ok(())
}

/// Lets light come to a block from one beside it. The first that comes to it from any side is the brightest, so each
/// block is looked up once.
#[inline(always)]
fn offer<B: Blocks>(
    flood: &mut Flood,
    blocks: &B,
    from: Pos,
    spot: Spot,
    level: u8,
    buckets: &mut Buckets,
) -> Result<(), AllocError>
    requires can { CanOffer (B.terrain blocks.now) (B.tall blocks.now) level flood.old
        (todo_of buckets.old) from }
    requires spot { IsSpot flood.old.chunk flood.old.height spot }
    requires beside { IsAdjacent from spot.pos }
    ensures chunk { flood.new.chunk ≡ flood.old.chunk }
    ensures height { flood.new.height ≡ flood.old.height }
    ensures came { OnOk result (HasOffered (B.terrain blocks.now) level flood.old flood.new
        (todo_of buckets.old) (todo_of buckets.new)) }
    ensures offered { OnOk result (IsOffered (B.terrain blocks.now) flood.old.chunk level
        (light_of flood.old) (todo_of buckets.new) spot.pos) }
{
    let seen = flood.byte(spot);
    // Each block takes at least 1, so one compare tells most blocks beside one from those of which to look up more.
    if level.saturating_sub(1) <= seen {
        return Ok(());
    }
    flood.mark(spot, SEEN);
    bring(flood.chunk, blocks, from, spot.pos, level, seen, buckets)?;
    Ok(())
}

/// Lets light come to two blocks from one beside both.
#[inline(always)]
fn offer_both<B: Blocks>(
    flood: &mut Flood,
    blocks: &B,
    from: Pos,
    first: Spot,
    second: Spot,
    level: u8,
    buckets: &mut Buckets,
) -> Result<(), AllocError>
    requires can { CanOffer (B.terrain blocks.now) (B.tall blocks.now) level flood.old
        (todo_of buckets.old) from }
    requires first { IsSpot flood.old.chunk flood.old.height first }
    requires second { IsSpot flood.old.chunk flood.old.height second }
    requires first_beside { IsAdjacent from first.pos }
    requires second_beside { IsAdjacent from second.pos }
    ensures chunk { flood.new.chunk ≡ flood.old.chunk }
    ensures height { flood.new.height ≡ flood.old.height }
    ensures came { OnOk result (HasOffered (B.terrain blocks.now) level flood.old flood.new
        (todo_of buckets.old) (todo_of buckets.new)) }
    ensures first { OnOk result (IsOffered (B.terrain blocks.now) flood.old.chunk level
        (light_of flood.old) (todo_of buckets.new) first.pos) }
    ensures second { OnOk result (IsOffered (B.terrain blocks.now) flood.old.chunk level
        (light_of flood.old) (todo_of buckets.new) second.pos) }
{
    offer(flood, blocks, from, first, level, buckets)?;
    offer(flood, blocks, from, second, level, buckets)?;
    Ok(())
}

/// Lets light come to the blocks beside a block. Level 1 comes to none.
fn spread<B: Blocks>(
    flood: &mut Flood,
    blocks: &B,
    spot: Spot,
    level: u8,
    buckets: &mut Buckets,
) -> Result<(), AllocError>
    requires can { CanOffer (B.terrain blocks.now) (B.tall blocks.now) level flood.old
        (todo_of buckets.old) spot.pos }
    requires inner { IsFarFromEnds spot.pos }
    requires on_board { IsOnBoard flood.old.chunk flood.old.height spot.pos spot.index }
    ensures chunk { flood.new.chunk ≡ flood.old.chunk }
    ensures height { flood.new.height ≡ flood.old.height }
    ensures came { OnOk result (HasOffered (B.terrain blocks.now) level flood.old flood.new
        (todo_of buckets.old) (todo_of buckets.new)) }
    ensures offered { OnOk result ((q : Pos) → IsAdjacent spot.pos q
        → IsOffered (B.terrain blocks.now) flood.old.chunk level (light_of flood.old)
        (todo_of buckets.new) q) }
{
    if level < 2 {
        return Ok(());
    }
    let pos = spot.pos;
    let (below, above) = (flood.spot_below(spot), flood.spot_above(spot));
    let (north, south) = (flood.spot_north(spot), flood.spot_south(spot));
    let (west, east) = (flood.spot_west(spot), flood.spot_east(spot));
    offer_both(flood, blocks, pos, below, above, level, buckets)?;
    offer_both(flood, blocks, pos, north, south, level, buckets)?;
    offer_both(flood, blocks, pos, west, east, level, buckets)?;
    Ok(())
}

/// Settles the blocks of a level.
fn settle_level<B: Blocks>(
    flood: &mut Flood,
    blocks: &B,
    level: u8,
    buckets: &mut Buckets,
) -> Result<(), AllocError>
    requires low { 0 < level }
    requires high { level < 16 }
    requires height { flood.old.height ≡ B.tall blocks.now }
    requires flooding { IsFlooding (B.terrain blocks.now) flood.old.chunk level (light_of flood.old)
        (todo_of buckets.old) }
    requires marked { IsMarked (B.terrain blocks.now) flood.old.chunk level (raw_of flood.old)
        (todo_of buckets.old) }
    ensures chunk { flood.new.chunk ≡ flood.old.chunk }
    ensures height { flood.new.height ≡ flood.old.height }
    ensures flooding { OnOk result (IsFlooding (B.terrain blocks.now) flood.new.chunk (level - 1)
        (light_of flood.new) (todo_of buckets.new)) }
    ensures marked { OnOk result (IsMarked (B.terrain blocks.now) flood.new.chunk (level - 1)
        (raw_of flood.new) (todo_of buckets.new)) }
{
    while let Some(pos) = buckets.pop(level) {
        let spot = flood.spot(pos);
        if flood.byte(spot) < 128 {
            flood.settle_at(spot, level);
            spread(flood, blocks, spot, level, buckets)?;
        }
    }
    Ok(())
}

/// Lets light flow over a dark board.
fn fill<B: Blocks>(blocks: &B, flood: &mut Flood, buckets: &mut Buckets) -> Result<(), AllocError>
    requires near { MayBeLoaded flood.old.chunk }
    requires height { flood.old.height ≡ B.tall blocks.now }
    requires known { AreKnown (B.terrain blocks.now) (B.lamps blocks.now) flood.old.chunk }
    requires fresh { IsFresh flood.old }
    requires none { (n : ℕ) → todo_of buckets.old n ≡ [] }
    ensures chunk { flood.new.chunk ≡ flood.old.chunk }
    ensures height { flood.new.height ≡ flood.old.height }
    ensures light { OnOk result ((p : Pos) → chunk_of p ≡ flood.old.chunk
        → IsLight (B.terrain blocks.now) p (light_of flood.new p)) }
{
    start(flood, blocks, buckets)?;
    for step in 0..15 {
        settle_level(flood, blocks, 15 - step, buckets)?;
    }
    Ok(())
}

/// A board on which each block of a chunk has its light: that of its brightest path, wherever the path comes from.
/// It takes the memory of a board that was used, if one is given.
///
/// # Errors
/// A growth was refused.
pub fn flooded<B: Blocks>(
    alloc: Global,
    blocks: &B,
    chunk: ChunkPos,
    used: Option<Flood>,
) -> Result<Flood, AllocError>
    requires { AreKnown (B.terrain blocks.now) (B.lamps blocks.now) chunk }
    ensures chunk { IfOk result (λ f. f.chunk ≡ chunk) }
    ensures height { IfOk result (λ f. f.height ≡ B.tall blocks.now) }
    ensures light { IfOk result (λ f. (p : Pos) → chunk_of p ≡ chunk
        → IsLight (B.terrain blocks.now) p (light_of f p)) }
{
    let mut flood = Flood::dark(alloc, chunk, blocks.height(), used)?;
    if !may_be_loaded(chunk) {
        return Ok(flood);
    }
    let mut buckets = Buckets::empty(alloc, flood.waiting.take())?;
    fill(blocks, &mut flood, &mut buckets)?;
    flood.waiting = Some(buckets);
    Ok(flood)
}
