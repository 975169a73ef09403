//! The board of a flood: blocks with their light.
ghost use Rattle.std.specs.Prelude.{◌≡◌, ◌≤◌, ◌<◌, ◌+◌, ◌*◌, ℕ, pos, IsTrue, MatchOption, IfOk, vec_len, true, false, count_by, nat_le, if◌then◌else◌, All, length, slice_index, ◌-◌, ◌/◌, ◌%◌, OnOk, slice_range};
ghost use Rattle.std.proofs.Props.{props};
ghost use Rattle.av_types.specs.declared.position.Pos.{Pos};
ghost use Rattle.av_flood.specs.Offsets.{IsNth, IsBeyond};
ghost use Rattle.av_flood.specs.Quiet.{IsQuiet, IsFenced};

use crate::buckets::Buckets;
use crate::bytes::{LAYER, clear, dark_bytes, dark_layer, halves, push_dark, put_row};
use crate::spots::{Spot, natural};
use av_types::{ChunkPos, Height, Pos};
use std::alloc::{AllocError, Global};

/// The board of a flood: the light of a chunk's blocks and of those up to 14 blocks west, east, north and south of it,
/// over the whole height. That is as far as light goes.
#[derive(Drop)]
pub struct Flood {
    /// The chunk in the middle.
    pub(crate) chunk: ChunkPos,
    /// The world's height.
    pub(crate) height: Height,
    /// A byte for each block, x within z within y, between two layers of no blocks. From 128 on it is the block's light and
    /// 128; below 128 no light of so much or less is of use to the block, since it would not reach the chunk, or more came.
    light: Vec<u8>,
    /// How many blocks have their light.
    count: u32,
    /// For each layer of blocks, whether any of its bytes was set.
    touched: Vec<bool>,
    /// The lists of blocks that waited in an earlier flood.
    pub(crate) waiting: Option<Buckets>,
    ghost long: { vec_len light ≡ 30976 * height.sections + 3872 },
    ghost layers: { vec_len touched ≡ 16 * height.sections },
    ghost quiet: { IsQuiet touched.items light.items } by { Prim.hlevel props },
    ghost fenced: { IsFenced (30976 * height.sections + 1936) light.items } by { Prim.hlevel props },
    ghost counted: { count ≡ count_by (λ n. nat_le 128 n) light.items },
    ghost dim: { All (λ n. n < 144) light.items } by { Prim.hlevel props },
}

impl Flood {
    ghost use Rattle.av_flood.specs.Offsets.{apart};
    ghost use Rattle.av_flood.specs.Board.{corner, is_on, raw_of, byte_of, light_of, is_settled, settled_count, light_at, HasLightSoFar, IsOff, IsOnBoard, IsSettled};
    ghost use Rattle.av_flood.specs.Spots.{IsSpot};
    ghost use Rattle.av_types.specs.Positions.{same_pos};
    ghost use Rattle.av_flood.specs.Flooding.{IsFresh};

    /// A board on which no block has light yet.
    ///
    /// # Errors
    /// A growth was refused.
    pub fn new(alloc: Global, chunk: ChunkPos, height: Height) -> Result<Flood, AllocError>
        ensures chunk { IfOk result (λ f. f.chunk ≡ chunk) }
        ensures height { IfOk result (λ f. f.height ≡ height) }
        ensures dark { IfOk result (λ f. (p : Pos) → byte_of f p ≡ 0) }
        ensures none { IfOk result (λ f. settled_count f ≡ 0) }
    {
        Flood::fresh(alloc, chunk, height)
    }

    /// A board on which no block has light yet, in memory of its own.
    fn fresh(alloc: Global, chunk: ChunkPos, height: Height) -> Result<Flood, AllocError>
        ensures chunk { IfOk result (λ f. f.chunk ≡ chunk) }
        ensures height { IfOk result (λ f. f.height ≡ height) }
        ensures fresh { IfOk result IsFresh }
        ensures none { IfOk result (λ f. settled_count f ≡ 0) }
    {
        let layers = 16 * height.sections as usize;
        Ok(Flood {
            chunk,
            height,
            light: dark_bytes(alloc, layers)?,
            count: 0,
            touched: vec![in alloc; false; layers]?,
            waiting: None,
        })
    }

    /// The same board for another chunk, on which no block has light yet. Work goes where light was.
    fn cleared(self, chunk: ChunkPos) -> Flood
        ensures chunk { result.chunk ≡ chunk }
        ensures height { result.height ≡ self.height }
        ensures fresh { IsFresh result }
        ensures none { settled_count result ≡ 0 }
    {
        let Flood {
            height,
            mut light,
            mut touched,
            waiting,
            ..
        } = self;
        let dark = dark_layer();
        for layer in 0..touched.len() {
            clear(&mut light, &mut touched, layer, dark.as_slice());
        }
        Flood {
            chunk,
            height,
            light,
            count: 0,
            touched,
            waiting,
        }
    }

    /// A board on which no block has light yet, over the memory of another if it fits.
    pub(crate) fn dark(
        alloc: Global,
        chunk: ChunkPos,
        height: Height,
        used: Option<Flood>,
    ) -> Result<Flood, AllocError>
        ensures chunk { IfOk result (λ f. f.chunk ≡ chunk) }
        ensures height { IfOk result (λ f. f.height ≡ height) }
        ensures fresh { IfOk result IsFresh }
    {
        let Some(used) = used else {
            return Flood::fresh(alloc, chunk, height);
        };
        if used.height != height {
            return Flood::fresh(alloc, chunk, height);
        }
        Ok(used.cleared(chunk))
    }

    /// How many blocks it is from the board's west end.
    fn along_x(&self, pos: Pos) -> Option<u32>
        ensures { MatchOption result (IsBeyond (corner self.now.chunk self.now.height).x 44 pos.x)
            (IsNth (corner self.now.chunk self.now.height).x 44 pos.x) }
    {
        let steps = i64::from(pos.x) - (16 * i64::from(self.chunk.x) - 14);
        if steps < 0 || 44 <= steps {
            return None;
        }
        Some(natural(steps))
    }

    /// How many blocks it is from the board's north end.
    fn along_z(&self, pos: Pos) -> Option<u32>
        ensures { MatchOption result (IsBeyond (corner self.now.chunk self.now.height).z 44 pos.z)
            (IsNth (corner self.now.chunk self.now.height).z 44 pos.z) }
    {
        let steps = i64::from(pos.z) - (16 * i64::from(self.chunk.z) - 14);
        if steps < 0 || 44 <= steps {
            return None;
        }
        Some(natural(steps))
    }

    /// How many blocks it is from the board's bottom.
    fn along_y(&self, pos: Pos) -> Option<u32>
        ensures { MatchOption result (IsBeyond (corner self.now.chunk self.now.height).y (16 * self.now.height.sections) pos.y)
            (IsNth (corner self.now.chunk self.now.height).y (16 * self.now.height.sections) pos.y) }
    {
        let steps = i64::from(pos.y) - 16 * i64::from(self.height.min_section);
        let size = 16 * i64::from(self.height.sections);
        if steps < 0 {
            return None;
        }
        if size <= steps {
            return None;
        }
        Some(natural(steps))
    }

    /// Where a block's byte stands, if it is one of the board.
    pub(crate) fn index(&self, pos: Pos) -> Option<usize>
        ensures { MatchOption result (IsOff self.now.chunk self.now.height pos)
            (IsOnBoard self.now.chunk self.now.height pos) }
    {
        let x = self.along_x(pos)?;
        let z = self.along_z(pos)?;
        let y = self.along_y(pos)?;
        Some((44 * (44 * (y + 1) + z) + x) as usize)
    }

    /// Whether a block is one of the board.
    pub fn is_on(&self, pos: Pos) -> bool
        ensures { result ≡ is_on self.now.chunk self.now.height pos }
    {
        self.index(pos).is_some()
    }

    /// What stands of a block, 0 of one that is none of the board.
    fn raw(&self, pos: Pos) -> u8
        ensures { result ≡ raw_of self.now pos }
    {
        match self.index(pos) {
            Some(index) => self.light[index],
            None => 0,
        }
    }

    /// The byte at a spot.
    #[inline(always)]
    pub(crate) fn byte(&self, spot: Spot) -> u8
        requires { IsSpot self.now.chunk self.now.height spot }
        ensures on_board { IsOnBoard self.now.chunk self.now.height spot.pos spot.index
            → result ≡ raw_of self.now spot.pos }
        ensures far { apart (spot.index % 1936) ≤ result }
        ensures least { result < 14 → IsOnBoard self.now.chunk self.now.height spot.pos spot.index }
    {
        self.light[spot.index]
    }

    /// The light of a block, from 0 to 15. It is 0 where the block is not settled, or none of the board.
    pub fn light(&self, pos: Pos) -> u8
        ensures value { result ≡ light_of self.now pos }
        ensures unsettled { is_settled self.now pos ≡ false → result ≡ 0 }
        ensures most { result ≤ 15 }
    {
        self.raw(pos).saturating_sub(128)
    }

    /// Whether a block has its light.
    pub fn is_settled(&self, pos: Pos) -> bool
        ensures { result ≡ is_settled self.now pos }
    {
        self.raw(pos) >= 128
    }

    /// Notes that no light of so much or less is of use to a block.
    #[inline(always)]
    pub(crate) fn mark(&mut self, spot: Spot, byte: u8)
        requires on_board { IsOnBoard self.old.chunk self.old.height spot.pos spot.index }
        requires unsettled { raw_of self.old spot.pos < 128 }
        requires small { byte < 128 }
        requires far { apart (spot.index % 1936) ≤ byte }
        ensures bytes { IsSettled (raw_of self.old) (raw_of self.new) spot.pos byte }
        ensures chunk { self.new.chunk ≡ self.old.chunk }
        ensures height { self.new.height ≡ self.old.height }
    {
        self.light[spot.index] = byte;
        self.touched[(spot.index - LAYER) / LAYER] = true;
    }

    /// Gives a block of the board its light, once.
    #[inline(always)]
    pub(crate) fn settle_at(&mut self, spot: Spot, level: u8)
        requires on_board { IsOnBoard self.old.chunk self.old.height spot.pos spot.index }
        requires unsettled { raw_of self.old spot.pos < 128 }
        requires level { level ≤ 15 }
        ensures bytes { IsSettled (raw_of self.old) (raw_of self.new) spot.pos (128 + level) }
        ensures count { settled_count self.new ≡ settled_count self.old + 1 }
        ensures chunk { self.new.chunk ≡ self.old.chunk }
        ensures height { self.new.height ≡ self.old.height }
    {
        self.light[spot.index] = 128 + level;
        self.touched[(spot.index - LAYER) / LAYER] = true;
        self.count += 1;
    }

    /// Gives a block of the board its light, once, as `settle_at` does where it is known where the byte stands. No other
    /// call does.
    pub fn settle(&mut self, pos: Pos, level: u8)
        requires on { IsTrue (is_on self.old.chunk self.old.height pos) }
        requires unsettled { is_settled self.old pos ≡ false }
        requires level { level ≤ 15 }
        ensures light { (q : Pos) → light_of self.new q
            ≡ (if same_pos q pos then level else light_of self.old q) }
        ensures settled { (q : Pos) → is_settled self.new q
            ≡ (if same_pos q pos then true else is_settled self.old q) }
        ensures count { settled_count self.new ≡ settled_count self.old + 1 }
        ensures chunk { self.new.chunk ≡ self.old.chunk }
        ensures height { self.new.height ≡ self.old.height }
        ensures bytes { IsSettled (byte_of self.old) (byte_of self.new) pos (128 + level) }
    {
        let spot = self.spot(pos);
        self.settle_at(spot, level);
    }

    /// How many blocks have their light.
    pub fn settled(&self) -> u32
        ensures count { result ≡ settled_count self.now }
        ensures most { result ≤ 30976 * self.now.height.sections }
        ensures none { result ≡ 0 → (p : Pos) → light_of self.now p ≡ 0 }
    {
        self.count
    }

    /// Sixteen bytes from one on.
    fn sixteen(&self, start: usize) -> &[u8]
        requires { start + 16 ≤ vec_len self.now.light }
        ensures value { result.now ≡ slice_range self.now.light.items start (start + 16) }
        ensures length { length result.now ≡ 16 }
    {
        &self.light[start..start + 16]
    }

    /// The bytes of sixteen blocks of the chunk in a row from west to east, so many blocks from its bottom and north end.
    fn row(&self, y: u32, z: u32) -> &[u8]
        requires y { y < 16 * self.now.height.sections }
        requires z { z < 16 }
        ensures length { length result.now ≡ 16 }
        ensures light { (x : ℕ) → x < 16 → slice_index result.now x - 128
            ≡ light_at self.now (256 * y + 16 * z + x) }
        ensures dim { All (λ n. n < 144) result.now }
    {
        self.sixteen((44 * (44 * (y + 1) + z + 14) + 14) as usize)
    }

    /// The bytes of the chunk's blocks in a layer, row by row.
    fn layer(&self, y: u32) -> [u8; 256]
        requires { y < 16 * self.now.height.sections }
        ensures light { (j : ℕ) → j < 256 → slice_index result j - 128
            ≡ light_at self.now (256 * y + j) }
        ensures dim { (j : ℕ) → j < 256 → slice_index result j < 144 }
    {
        let mut bytes = [0; 256];
        for z in 0..16u32 {
            put_row(&mut bytes, z as usize, self.row(y, z));
        }
        bytes
    }

    /// Appends the light of a layer of the chunk's blocks.
    fn push_layer(&self, y: u32, bytes: &mut Vec<u8>) -> Result<(), AllocError>
        requires y { y < 16 * self.now.height.sections }
        requires before { vec_len bytes.old ≡ 128 * y }
        requires halves { HasLightSoFar (light_at self.now) bytes.old.items }
        ensures count { OnOk result (vec_len bytes.new ≡ 128 * y + 128) }
        ensures halves { OnOk result (HasLightSoFar (light_at self.now) bytes.new.items) }
    {
        if !self.touched[y as usize] {
            return push_dark(bytes);
        }
        bytes.extend_from_slice(halves(&self.layer(y)).as_slice())?;
        Ok(())
    }

    /// The light of the chunk's blocks, a half byte each, x within z within y, the lowest layer first.
    ///
    /// # Errors
    /// A growth was refused.
    pub fn half_bytes(&self, alloc: Global) -> Result<Vec<u8>, AllocError>
        ensures count { IfOk result (λ bytes. vec_len bytes ≡ 2048 * self.now.height.sections) }
        ensures halves { IfOk result (λ bytes. HasLightSoFar (light_at self.now) bytes.items) }
    {
        let mut bytes = Vec::with_capacity(alloc, 2048 * self.height.sections as usize)?;
        for y in 0..16 * self.height.sections {
            self.push_layer(y, &mut bytes)?;
        }
        Ok(bytes)
    }
}
