//! One chunk of a region's file, seen from above.
ghost use Rattle.std.specs.Prelude.{◌≡◌, ◌≢◌, ◌≤◌, ◌<◌, IfOk, IfErr, Some, length, map};
ghost use Rattle.std.specs.List.{range_with_len};
ghost use Rattle.av_types.specs.declared.fault.Fault.TheVariants.{OutOfMemory};
ghost use Rattle.av_types.specs.Faults.{fault_number};
ghost use Rattle.av_types.specs.Positions.{IsInLimits, chunk_at};
ghost use Rattle.av_tags.specs.View.{document};
ghost use Rattle.av_document.specs.Chunk.{first_fault, root_tags};
ghost use Rattle.av_document.specs.Stored.{IsStored};
ghost use Rattle.av_codec.specs.Payload.{IsPayloadFault};
ghost use Rattle.av_state.specs.StateList.{first_states};
ghost use Rattle.av_state.specs.Table.{states};
ghost use Rattle.av_map.specs.Arrays.{arrays_of};
ghost use Rattle.av_map.specs.Looks.{look_of};
ghost use Rattle.av_map.specs.Patches.{IsPatch, IsShown};
ghost use Rattle.av_map.specs.Payloads.{IsDocumentPatch, IsPayloadPatch, IsReadPatch};
ghost use Rattle.av_map.specs.Sections.{AreLightsFor, sight_by};
ghost use Rattle.av_map.specs.declared.patch.Patch.TheVariants.{Unread};
ghost use Rattle.av_map.specs.Views.{colours_of};

use crate::colours::Colours;
use crate::columns::Seen;
use crate::light::lights;
use crate::patch::Patch;
use crate::view::View;
use av_chunk::{Chunk, Reading};
use av_codec::read_chunk;
use av_nbt::decode;
use av_region::Region;
use av_state::StateTable;
use av_tags::Root;
use av_types::{ChunkPos, Fault, Height, RegionPos};
use std::alloc::{AllocError, Global};

/// How chunks are drawn.
#[derive(Clone, Copy)]
pub(crate) struct Scene<'a> {
    pub view: View,
    pub colours: &'a Colours,
    pub height: Height,
}

/// What a chunk shows that has a fault, or want of memory, which is no fault of a chunk.
fn unread(fault: Fault) -> Result<Patch, AllocError>
    ensures { IfOk result (λ patch. (fault ≢ OutOfMemory) × (patch ≡ Unread)) }
{
    match fault {
        Fault::OutOfMemory => Err(AllocError),
        _ => Ok(Patch::Unread),
    }
}

impl Scene<'_> {
    /// The arrays of light of a document, none where no light is drawn.
    fn lights(&self, alloc: Global, root: &Root) -> Result<Vec<Option<Vec<u8>>>, AllocError>
        ensures { IfOk result (λ found. AreLightsFor self.now.view
            (root_tags (document root.now)) self.now.height (arrays_of found.items)) }
    {
        match self.view {
            View::Blocks => Ok(Vec::new(alloc)),
            View::Light => lights(alloc, root, self.height),
        }
    }

    /// What a chunk shows whose states the table has.
    fn shown(
        &self,
        alloc: Global,
        chunk: &Chunk,
        table: &StateTable,
        lights: &[Option<Vec<u8>>],
    ) -> Result<Patch, AllocError>
        requires { length chunk.now.sections.items ≤ 64 }
        ensures { IfOk result (λ patch. IsShown patch
            (map (sight_by self.now.view chunk.now.sections.items
            (map (look_of (colours_of self.now.colours.now)) (states table.now))
            (arrays_of lights.now)) (range_with_len 0 256))) }
    {
        let looks = self.colours.looks(alloc, table)?;
        let seen = Seen {
            sections: chunk.sections.as_slice(),
            looks: looks.as_slice(),
            lights,
        };
        Ok(Patch::Shown(seen.sights(alloc, self.view)?))
    }

    /// What the chunk of a document shows, by its arrays of light.
    fn lit_patch(
        &self,
        alloc: Global,
        root: Root,
        at: ChunkPos,
        lights: &[Option<Vec<u8>>],
    ) -> Result<Patch, Fault>
        requires stored { IsStored (document root) }
        requires lights { AreLightsFor self.now.view (root_tags (document root)) self.now.height
            (arrays_of lights.now) }
        ensures ok { IfOk result (IsDocumentPatch self.now.view
            (colours_of self.now.colours.now) self.now.height (document root) at) }
        ensures err { IfErr result (λ e. e ≢ OutOfMemory
            → first_fault self.now.height at first_states (root_tags (document root))
            ≡ Some (fault_number e)) }
    {
        let mut table = StateTable::new(alloc)?;
        let read = read_chunk(alloc, root, at, self.height, &mut table)?;
        match &read {
            Reading::Kept => Ok(Patch::Clear),
            Reading::Full { chunk, rest: _ } => Ok(self.shown(alloc, chunk, &table, lights)?),
        }
    }

    /// What the chunk of a document shows.
    fn document_patch(&self, alloc: Global, root: Root, at: ChunkPos) -> Result<Patch, Fault>
        requires { IsStored (document root) }
        ensures ok { IfOk result (IsDocumentPatch self.now.view
            (colours_of self.now.colours.now) self.now.height (document root) at) }
        ensures err { IfErr result (λ e. e ≢ OutOfMemory
            → first_fault self.now.height at first_states (root_tags (document root))
            ≡ Some (fault_number e)) }
    {
        let lights = self.lights(alloc, &root)?;
        self.lit_patch(alloc, root, at, lights.as_slice())
    }

    /// What the chunk of a payload shows. A payload has at most 1,044,475 bytes.
    fn payload_patch(&self, alloc: Global, payload: &[u8], at: ChunkPos) -> Result<Patch, Fault>
        requires { length payload.now ≤ 1044475 }
        ensures ok { IfOk result (IsPayloadPatch self.now.view
            (colours_of self.now.colours.now) self.now.height payload.now at) }
        ensures err { IfErr result (λ e. e ≢ OutOfMemory
            → IsPayloadFault at self.now.height payload.now first_states e) }
    {
        let root = decode(alloc, payload)?;
        self.document_patch(alloc, root, at)
    }

    /// The same, where a chunk with a fault is not read.
    fn read_patch(&self, alloc: Global, payload: &[u8], at: ChunkPos) -> Result<Patch, AllocError>
        requires { length payload.now ≤ 1044475 }
        ensures { IfOk result (IsReadPatch self.now.view
            (colours_of self.now.colours.now) self.now.height payload.now at) }
    {
        match self.payload_patch(alloc, payload, at) {
            Ok(patch) => Ok(patch),
            Err(fault) => unread(fault),
        }
    }

    /// What stands at an index of a region shows.
    pub(crate) fn patch_at(
        &self,
        alloc: Global,
        region: &Region<'_>,
        pos: RegionPos,
        index: usize,
    ) -> Result<Patch, AllocError>
        requires limits { IsInLimits pos }
        requires index { index < 1024 }
        ensures { IfOk result (IsPatch self.now.view
            (colours_of self.now.colours.now) self.now.height region.now.bytes.now
            (chunk_at pos index) index) }
    {
        match region.payload(index) {
            Err(fault) => unread(fault),
            Ok(None) => Ok(Patch::Clear),
            Ok(Some(payload)) => self.read_patch(alloc, payload, pos.chunk_at(index)),
        }
    }
}
