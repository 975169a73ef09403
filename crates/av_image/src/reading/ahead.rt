//! Payloads of a region that several threads read before its indices are read, each the next that none has taken.
ghost use Rattle.std.specs.Prelude.{◌≡◌, ◌+◌, ◌<◌, ◌≤◌, length, slice_index_or, slice_set, None, IfOk, IfSome};
ghost use Rattle.av_dealt.specs.Dealt.{AreAtIndices, IsTaken};
ghost use Rattle.av_region.specs.Region.{Holds};
ghost use Rattle.av_state.specs.Table.{states};
ghost use Rattle.av_codec.specs.Payload.{IsPayloadReading};
ghost use Rattle.av_image.specs.Ahead.{IsMadeBy};

use crate::reading::batch::Batch;
use av_chunk::Reading;
use av_codec::read_known;
use av_dealt::{Dealt, Maker, gathered, taken};
use av_nbt::decode;
use av_state::StateTable;
use av_types::{ChunkPos, Height};
use rayon::current_num_threads;
use rayon::prelude::*;
use std::alloc::{AllocError, Global};
use std::sync::atomic::AtomicU64;
use std::thread::Threads;

/// How many states each table has. One with no more knows hardly any chunk, so none is tried.
const FIRST_STATES: usize = 10;

/// How many bytes of payloads are worth the start of a thread.
const BYTES_A_THREAD: usize = 1 << 15;

/// What a payload is read as, where the table has all states of its chunk. None where it is to be refused too, or memory is
/// refused: the index's reader finds why. A document is let go at once, so only those stand that threads are at.
fn known(
    alloc: Global,
    payload: &[u8],
    at: ChunkPos,
    height: Height,
    table: &StateTable,
) -> Option<Reading>
    requires { length payload.now ≤ 1044475 }
    ensures { IfSome result (IsPayloadReading at height payload.now (states table.now)
        (states table.now)) }
{
    let Ok(root) = decode(alloc, payload) else {
        return None;
    };
    match read_known(alloc, root, at, height, table) {
        Ok(reading) => reading,
        Err(_) => None,
    }
}

/// The payload at an index of a batch, where there is one.
fn payload_at<'a>(batch: &Batch<'a>, offset: usize) -> Option<&'a [u8]>
    requires { offset < batch.now.extent.count }
    ensures holds { IfSome result (λ payload. Holds batch.now.region.bytes.now
        (batch.now.first + offset) payload.now) }
    ensures small { IfSome result (λ payload. length payload.now ≤ 1044475) }
{
    match batch.region.payload(batch.first + offset) {
        Ok(payload) => payload,
        Err(_) => None,
    }
}

/// A batch that is read by the states of a table.
#[derive(Drop)]
struct BatchReader<'a> {
    batch: &'a Batch<'a>,
    table: &'a StateTable,
}

/// Makes what the payload of each index is read as, where that is known.
impl<'a> Maker for BatchReader<'a> {
    type Thing = Reading;

    type Bench = ();

    ghost count = { λ r. r.batch.now.extent.count };

    ghost is_of = { λ r. IsMadeBy r.batch.now (states r.table.now) };

    fn count(&self) -> usize {
        self.batch.extent.count
    }

    fn bench(&self) {}

    fn make(
        &self,
        alloc: Global,
        index: usize,
        _bench: &mut (),
    ) -> Result<Option<Reading>, AllocError> {
        let Some(payload) = payload_at(self.batch, index) else {
            return Ok(None);
        };
        let at = self.batch.pos.chunk_at(self.batch.first + index);
        Ok(known(alloc, payload, at, self.batch.height, self.table))
    }
}

/// How many threads are worth a batch: at most as many as there are processors, or payloads.
fn count_threads(rt: &(impl Threads + Sync), batch: &Batch<'_>) -> usize {
    current_num_threads(rt)
        .min(batch.extent.payloads)
        .min(batch.extent.bytes / BYTES_A_THREAD)
}

/// What several threads read of the payloads of a batch, by the states that a table has. There is none for an index without a payload,
/// or one that has a state which the table has not or that is to be refused. No list is made where a second thread is not
/// worth its start, as where there is one processor.
pub(crate) fn read_ahead(
    rt: &(impl Threads + Sync),
    alloc: Global,
    batch: &Batch<'_>,
    table: &StateTable,
) -> Result<Vec<Option<Reading>>, AllocError>
    ensures { IfOk result (λ readings. AreAtIndices (IsMadeBy batch.now (states table.now))
        readings.items) }
{
    let count = count_threads(rt, batch);
    if count < 2 || table.len() <= FIRST_STATES {
        return Ok(Vec::new(alloc));
    }
    let next = AtomicU64::new(0);
    let reader = BatchReader { batch, table };
    let all = (0..count)
        .into_par_iter()
        .with_min_len(1)
        .map(
            |_thread: usize| -> Result<Vec<Dealt<Reading>>, AllocError>
                ensures { IsTaken reader.entry.batch.now.extent.count
                    (IsMadeBy reader.entry.batch.now (states reader.entry.table.now)) result }
            { taken(alloc, &reader, &next) },
        )
        .collect::<Vec<Result<Vec<Dealt<Reading>>, AllocError>>>(rt, alloc)?;
    gathered(alloc, &reader, all)
}

/// Takes what a list has at an index. Past its end there is nothing.
pub(crate) fn take_at(readings: &mut Vec<Option<Reading>>, index: usize) -> Option<Reading>
    ensures taken { result ≡ slice_index_or readings.old.items index None }
    ensures left { readings.new.items ≡ slice_set readings.old.items index None }
{
    if index >= readings.len() {
        return None;
    }
    readings[index].take()
}
