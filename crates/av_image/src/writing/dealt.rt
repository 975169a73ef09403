//! Payloads of a region that several threads make, each the next that none has taken.
ghost use Rattle.std.specs.Prelude.{◌≡◌, ◌<◌, length, map, option_map, IfOk, IfSome};
ghost use Rattle.av_dealt.specs.Dealt.{AreAtIndices, IsTaken};
ghost use Rattle.av_image.specs.SavingSteps.{payload_items};
ghost use Rattle.av_image.specs.Making.{job_payload, job_payloads, IsPayloadAt, IsMade};

use crate::rest::{RegionRest, Slot};
use crate::writing::job::RegionJob;
use crate::writing::payloads::{Payload, loaded_payload, payload_from};
use av_dealt::{Dealt, Maker, gathered, taken};
use av_region::CHUNKS;
use rayon::current_num_threads;
use rayon::prelude::*;
use std::alloc::{AllocError, Global};
use std::sync::atomic::AtomicU64;
use std::thread::Threads;

/// How many loaded chunks are worth the start of a thread.
const CHUNKS_A_THREAD: usize = 4;

/// Makes the payload at each index, where a chunk is loaded there.
impl<'a> Maker for RegionJob<'a> {
    type Thing = Vec<u8>;

    type Bench = ();

    ghost count = { λ _. 1024 };

    ghost is_of = { IsMade };

    fn count(&self) -> usize {
        CHUNKS
    }

    fn bench(&self) {}

    fn make(
        &self,
        alloc: Global,
        index: usize,
        _bench: &mut (),
    ) -> Result<Option<Vec<u8>>, AllocError> {
        let Slot::Loaded(rest) = &self.region.slots[index] else {
            return Ok(None);
        };
        let at = self.region.pos.chunk_at(index);
        let bytes = loaded_payload(
            alloc,
            self.world,
            at,
            rest,
            self.kinds,
            self.lights,
            self.elapsed,
        )?;
        Ok(Some(bytes))
    }
}

/// What is written at an index: what was made for it, or else what is found here.
fn payload_at<'a>(
    alloc: Global,
    job: &RegionJob<'a>,
    index: usize,
    made: Option<Vec<u8>>,
) -> Result<Option<Payload<'a>>, AllocError>
    requires index { index < 1024 }
    requires made { IfSome made (λ v. IsPayloadAt job.now index v.items) }
    ensures { IfOk result (λ p. option_map payload_items p ≡ job_payload job.now index) }
{
    if let Some(bytes) = made {
        return Ok(Some(Payload::Written(bytes)));
    }
    payload_from(
        alloc,
        job.world,
        job.region.pos.chunk_at(index),
        &job.region.slots[index],
        job.kinds,
        job.lights,
        job.elapsed,
    )
}

/// What is written at each index, in order, from what threads made, each behind its index: what none made is made here.
fn in_order<'a>(
    alloc: Global,
    job: &RegionJob<'a>,
    mut bytes: Vec<Option<Vec<u8>>>,
) -> Result<Vec<Option<Payload<'a>>>, AllocError>
    requires long { length bytes.items ≡ 1024 }
    requires own { AreAtIndices (IsMade job.now) bytes.items }
    ensures { IfOk result (λ ps. map (option_map payload_items) ps.items ≡ job_payloads job.now) }
{
    let mut payloads = Vec::with_capacity(alloc, CHUNKS)?;
    for index in 0..CHUNKS {
        let payload = payload_at(alloc, job, index, bytes[index].take())?;
        payloads.push(payload)?;
    }
    Ok(payloads)
}

/// How many chunks of a region are loaded.
fn count_loaded(region: &RegionRest) -> usize {
    region
        .slots
        .iter()
        .filter(|slot| matches!(slot, Slot::Loaded(_)))
        .count()
}

/// What is written at each index of a region, by as many threads as there are processors, fewer where few chunks are loaded. Each
/// takes the next index that none has taken, since chunks differ in their work.
pub(crate) fn payloads_by<'a>(
    rt: &(impl Threads + Sync),
    alloc: Global,
    job: &RegionJob<'a>,
) -> Result<Vec<Option<Payload<'a>>>, AllocError>
    ensures { IfOk result (λ ps. map (option_map payload_items) ps.items ≡ job_payloads job.now) }
{
    let next = AtomicU64::new(0);
    let count = current_num_threads(rt).min(count_loaded(job.region) / CHUNKS_A_THREAD);
    let all = (0..count)
        .into_par_iter()
        .with_min_len(1)
        .map(
            |_thread: usize| -> Result<Vec<Dealt<Vec<u8>>>, AllocError>
                ensures { IsTaken 1024 (IsMade job.entry.now) result }
            { taken(alloc, job, &next) },
        )
        .collect::<Vec<Result<Vec<Dealt<Vec<u8>>>, AllocError>>>(rt, alloc)?;
    let bytes = gathered(alloc, job, all)?;
    in_order(alloc, job, bytes)
}
