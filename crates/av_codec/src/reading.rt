//! A chunk, read from its document.
ghost use Rattle.std.specs.Prelude.{◌≡◌, IfOk, IfErr, IfSome, true, false, option_map};
ghost use Rattle.av_types.specs.declared.fault.Fault.TheVariants.{OutOfMemory};
ghost use Rattle.av_tags.specs.Shape.{compounds_of};
ghost use Rattle.av_tags.specs.View.{document, view, views};
ghost use Rattle.av_state.specs.Table.{states};
ghost use Rattle.av_section.specs.Reading.{OnlyGrows};
ghost use Rattle.av_document.specs.Chunk.{is_other, root_tags, share_a_number};
ghost use Rattle.av_codec.specs.SectionsRead.{AreSectionsRead};
ghost use Rattle.av_codec.specs.TicksRead.{AreTicks, ArePartsRefused};
ghost use Rattle.av_chunk.specs.Rest.{opened};
ghost use Rattle.av_codec.specs.Working.{has_other, has_bad_number, list_items, list_rows};
ghost use Rattle.av_document.specs.Stored.{IsStored};
ghost use Rattle.av_chunk.specs.Reading.{IsReading, IsChunkRefusal, IsAdmitted};

pub(crate) mod faults;
pub(crate) mod loaded;
mod pending;
pub(crate) mod sections;
pub(crate) mod shape;
mod tags;
pub(crate) mod water;

use crate::reading::faults::lesser;
use crate::reading::loaded::assembled;
use crate::reading::sections::{Sections, emptied, read_sections};
use crate::reading::shape::admitted;
use crate::reading::water::{Ticks, read_ticks};
use av_chunk::Reading;
use av_section::{KnownStates, Numbering};
use av_state::StateTable;
use av_tags::{Root, Tag};
use av_types::{ChunkPos, Fault, Height};
use std::alloc::{AllocError, Global};

/// The tags of a List, none where there is no tag.
pub(crate) fn items(alloc: Global, list: Option<Tag>) -> Vec<Tag>
    requires { is_other compounds_of (option_map view list) ≡ false }
    ensures rows { opened (views result.items) ≡ list_rows (option_map view list) }
    ensures compounds { has_other (views result.items) ≡ false }
    ensures items { views result.items ≡ list_items (option_map view list) }
{
    match list {
        None => Vec::new(alloc),
        Some(list) => list.into_items().unwrap(),
    }
}

/// The sections and the scheduled ticks of a chunk. Of several faults the first is answered.
fn read_parts<N: Numbering>(
    alloc: Global,
    sections: Vec<Tag>,
    ticks: Vec<Tag>,
    at: ChunkPos,
    height: Height,
    numbering: &mut N,
) -> Result<(Sections, Ticks), Fault>
    requires numbers { has_bad_number height (views sections.items) ≡ false }
    requires apart { share_a_number (opened (views sections.items)) ≡ false }
    requires compounds { has_other (views ticks.items) ≡ false }
    ensures sections { IfOk result (λ parts. AreSectionsRead height (opened (views sections.items))
        (states (N.table numbering.old)) (states (N.table numbering.new)) parts.0) }
    ensures ticks { IfOk result (λ parts. AreTicks at height
        (opened (views ticks.items)) parts.1) }
    ensures err { IfErr result (λ e. N.takes ≡ true → ArePartsRefused at height
        (opened (views sections.items)) (opened (views ticks.items))
        (states (N.table numbering.old)) e) }
    ensures table { OnlyGrows (states (N.table numbering.old)) (states (N.table numbering.new)) }
    ensures same { N.takes ≡ false
        → states (N.table numbering.new) ≡ states (N.table numbering.old) }
{
    match read_ticks(alloc, ticks, at, height) {
        Ok(ticks) => {
            let sections = read_sections(alloc, sections, height, numbering)?;
            Ok((sections, ticks))
        }
        Err(bad) => match read_sections(alloc, sections, height, numbering) {
            Ok(_) => Err(bad),
            Err(fault) => Err(lesser(Some(bad), fault)),
        },
    }
}

/// The chunk of a document at its position, whose states have the numbers that are given them.
fn chunk_by<N: Numbering>(
    alloc: Global,
    root: Root,
    at: ChunkPos,
    height: Height,
    numbering: &mut N,
) -> Result<Reading, Fault>
    requires { IsStored (document root) }
    ensures ok { IfOk result (IsReading at height (document root)
        (states (N.table numbering.old)) (states (N.table numbering.new))) }
    ensures err { IfErr result (λ e. N.takes ≡ true → IsChunkRefusal at height (document root)
        (states (N.table numbering.old)) e) }
    ensures memory { IfErr result (λ e. e ≡ OutOfMemory
        → IsAdmitted height at (root_tags (document root))) }
    ensures table { OnlyGrows (states (N.table numbering.old))
        (states (N.table numbering.new)) }
    ensures same { N.takes ≡ false
        → states (N.table numbering.new) ≡ states (N.table numbering.old) }
{
    let Root { name, mut tags } = root;
    if !admitted(&tags, at, height)? {
        return Ok(Reading::Kept);
    }
    let sections = emptied(alloc, &mut tags, b"sections")?;
    let ticks = emptied(alloc, &mut tags, b"fluid_ticks")?;
    let (read, ticks) = read_parts(
        alloc,
        items(alloc, sections),
        items(alloc, ticks),
        at,
        height,
        numbering,
    )?;
    Ok(assembled(name, tags, read, ticks, at, height))
}

/// The chunk of a document at its position. New states are numbered after those of the table, in the order of the file.
/// The root has a spelling of at most 1,044,475 bytes, as one that was decoded from a region's payload has.
///
/// Of the faults that hold, the first by its number is answered: `OldLayout` where there is a `Level`; `BadChunk`
/// where a tag that every chunk has is missing or of another kind, or a section's number comes twice; `WrongPlace`
/// where the chunk is another's; `BadPalette`, `BadPacked` and `BadWaterLevel` of a section in the height; `BadTick`
/// of a fluid tick; and `TooManyStates`. After a refusal the table may have gained states at its end. Memory is
/// wanted only of a chunk that is to be loaded and has none of the first three faults.
pub fn read_chunk(
    alloc: Global,
    root: Root,
    at: ChunkPos,
    height: Height,
    table: &mut StateTable,
) -> Result<Reading, Fault>
    requires { IsStored (document root) }
    ensures ok { IfOk result (IsReading at height (document root) (states table.old)
        (states table.new)) }
    ensures err { IfErr result (IsChunkRefusal at height (document root)
        (states table.old)) }
    ensures memory { IfErr result (λ e. e ≡ OutOfMemory
        → IsAdmitted height at (root_tags (document root))) }
    ensures table { OnlyGrows (states table.old) (states table.new) }
{
    chunk_by(alloc, root, at, height, table)
}

/// What `read_chunk` reads of the same, where the table knows all states of the chunk: nearly all, after the first chunks of a
/// world. The table does not change, so several readers can share it. None where the chunk has a state that the table lacks, or
/// where it is refused: `read_chunk` tells which.
pub fn read_known(
    alloc: Global,
    root: Root,
    at: ChunkPos,
    height: Height,
    table: &StateTable,
) -> Result<Option<Reading>, AllocError>
    requires { IsStored (document root) }
    ensures { IfOk result (λ found. IfSome found
        (IsReading at height (document root) (states table.now) (states table.now))) }
{
    match chunk_by(alloc, root, at, height, &mut KnownStates { table }) {
        Ok(read) => Ok(Some(read)),
        Err(Fault::OutOfMemory) => Err(AllocError),
        Err(_) => Ok(None),
    }
}
