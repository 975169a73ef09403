//! Region files of drawn chunks (<https://minecraft.wiki/w/Region_file_format>).
use crate::chunks::{Flaw, Scene, put_chunk};
use crate::dice::Dice;
use crate::pool::Pool;
use av_region_files::RegionFile;
use av_types::{ChunkPos, RegionPos};
use std::alloc::{AllocError, Global};

/// A region file that grows chunk by chunk.
#[derive(Drop)]
pub(crate) struct RegionWriter {
    bytes: Vec<u8>,
}

/// Writes four bytes, big-endian, where there is room.
fn patch(bytes: &mut [u8], at: usize, number: u32) {
    let [a, b, c, d] = number.to_be_bytes();
    if at < bytes.len() && bytes.len() - at >= 4 {
        bytes[at] = a;
        bytes[at + 1] = b;
        bytes[at + 2] = c;
        bytes[at + 3] = d;
    }
}

impl RegionWriter {
    /// A file without chunks, with room for so many bytes.
    pub(crate) fn new(alloc: Global, room: usize) -> Result<Self, AllocError> {
        let mut bytes = Vec::with_capacity(alloc, room)?;
        bytes.extend_from_slice([0u8; 8192].as_slice())?;
        Ok(RegionWriter { bytes })
    }

    /// Appends the document of the chunk with an index.
    pub(crate) fn append(&mut self, index: usize, document: &[u8]) -> Result<(), AllocError> {
        let sectors = document.len() / 4096 + if document.len() % 4096 < 4092 { 1 } else { 2 };
        let offset = self.bytes.len() / 4096;
        let location = (offset % 0x100_0000 * 256 + sectors % 256) as u32;
        let header = self.bytes.as_mut_slice();
        patch(header, index % 1024 * 4, location);
        patch(
            header,
            4096 + index % 1024 * 4,
            1_650_000_000 + (index % 1024) as u32,
        );
        let length = (document.len() % 0x100_0000) as u32 + 1;
        self.bytes
            .extend_from_slice(length.to_be_bytes().as_slice())?;
        self.bytes.push(3)?;
        self.bytes.extend_from_slice(document)?;
        let padding = 4096 - self.bytes.len() % 4096;
        if padding < 4096 {
            self.bytes.extend_from_slice(&[0u8; 4096][..padding])?;
        }
        Ok(())
    }

    /// The file.
    pub(crate) fn file(self, pos: RegionPos) -> RegionFile {
        let RegionWriter { bytes } = self;
        RegionFile { pos, bytes }
    }
}

/// What a region's chunks are like.
#[derive(Clone, Copy)]
pub(crate) enum Country {
    /// Villages, and floors of lanterns and lakes of lava in a corner of a full region.
    Settled,
    /// Nothing that gives light above the ground.
    Empty,
    /// Settled, and some chunks have a flaw.
    Flawed,
}

fn scene_of(country: Country, x: u32, z: u32) -> Scene {
    match country {
        Country::Empty => Scene::Wild,
        Country::Settled | Country::Flawed => {
            if x >= 24 && z >= 24 {
                if x >= 28 {
                    Scene::LavaLake
                } else {
                    Scene::Lanterns
                }
            } else if x % 16 < 6 && z % 16 < 6 {
                Scene::Village
            } else {
                Scene::Wild
            }
        }
    }
}

fn flaw_of(country: Country, dice: &mut Dice) -> Flaw {
    if dice.below(40) == 0 {
        return Flaw::Unfinished;
    }
    match country {
        Country::Settled | Country::Empty => Flaw::Nothing,
        Country::Flawed => match dice.below(128) {
            0 => Flaw::OldLayout,
            1 => Flaw::NoSections,
            2 => Flaw::Elsewhere,
            3 => Flaw::NoName,
            4 => Flaw::FewLongs,
            5 => Flaw::WrongLevel,
            6 => Flaw::TickOutside,
            7 => Flaw::Cut,
            _ => Flaw::Nothing,
        },
    }
}

/// A region file, and which of its chunks, by their indices, are there and finished.
#[derive(Drop)]
pub(crate) struct Drawn {
    pub(crate) file: RegionFile,
    pub(crate) loaded: Vec<bool>,
}

/// The chunk of a region at its x and z there.
fn chunk_at(pos: RegionPos, x: u32, z: u32) -> ChunkPos {
    ChunkPos {
        x: pos.x.wrapping_mul(32).wrapping_add((x % 32) as i32),
        z: pos.z.wrapping_mul(32).wrapping_add((z % 32) as i32),
    }
}

/// The region file of a seed, with so many chunks a side.
pub(crate) fn region(
    alloc: Global,
    pool: &Pool,
    seed: u32,
    pos: RegionPos,
    side: u32,
    country: Country,
) -> Result<Drawn, AllocError> {
    let room = if side < 8 { 8_000_000 } else { 90_000_000 };
    let mut writer = RegionWriter::new(alloc, room)?;
    let mut document = Vec::with_capacity(alloc, 120_000)?;
    let mut loaded = Vec::with_capacity(alloc, 1024)?;
    let mut dice = Dice::new(seed, 2);
    for index in 0..1024u32 {
        let (x, z) = (index % 32, index / 32);
        let is_there = x < side && z < side;
        let flaw = flaw_of(country, &mut dice);
        if is_there {
            let scene = scene_of(country, x, z);
            document.clear();
            put_chunk(
                &mut document,
                pool,
                &mut dice,
                chunk_at(pos, x, z),
                scene,
                flaw,
            )?;
            writer.append(index as usize, document.as_slice())?;
        }
        loaded.push(is_there && flaw != Flaw::Unfinished)?;
    }
    let file = writer.file(pos);
    Ok(Drawn { file, loaded })
}
