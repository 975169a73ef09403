//! Memory that ticks give back and take again.
use std::alloc::Global;

/// How many bytes a run takes and gives back once, none of which is touched.
const KEPT: usize = 16_777_216;

/// How many bytes a worker takes and gives back before its first job, none of which is touched.
const ROOM: usize = 1_048_576;

/// Has the allocator keep what ticks give back. The C library returns it to the system at the end of each tick, and asks
/// for it again in the next, until a large block was given back once: from then on it keeps up to twice that block. Where
/// memory is refused, ticks are slower, and nothing else changes.
pub(crate) fn keep_pages(alloc: Global) {
    let _ = Vec::<u8>::with_capacity(alloc, KEPT);
}

/// Has the allocator make a worker's room in one step. The C library else asks the system for one page after the other,
/// and each such step keeps all threads waiting. Where memory is refused, the worker is slower, and nothing else changes.
pub(crate) fn make_room(alloc: Global) {
    let _ = Vec::<u8>::with_capacity(alloc, ROOM);
}
