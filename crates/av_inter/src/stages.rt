//! Where the parts are.
ghost use Rattle.std.specs.Prelude.{◌≡◌, ◌↔◌, ◌<◌, ◌+◌, ◌^◌, Some, IsTrue, IsSome, length};
ghost use Rattle.std.specs.List.{slice_get, All};
ghost use Rattle.av_play.specs.declared.event.Stage.{Stage};
ghost use Rattle.av_play.specs.Parts.{part_at};
ghost use Rattle.av_cluster.specs.Clusters.{parts_of};
ghost use Rattle.av_inter.specs.Refusals.{done_by};

use av_cluster::Cluster;
use av_play::{DueEntry, Stage};

/// Whether a part waits.
pub(crate) fn waits(stages: &[Stage], part: u32) -> bool
    ensures waits { IsTrue result ↔ slice_get stages.now part ≡ Some Stage.Waits }
    ensures there { IsTrue result → part < length stages.now }
{
    match stages.get(part as usize) {
        Some(Stage::Waits) => true,
        _ => false,
    }
}

/// How many entries of a part its holder has turned, if this worker holds it.
pub(crate) fn done_by(stages: &[Stage], worker: u32, part: u32) -> Option<usize>
    ensures done { result ≡ done_by worker (slice_get stages.now part) }
    ensures there { IsSome result → part < length stages.now }
{
    match stages.get(part as usize) {
        Some(Stage::Held(holder, done)) if *holder == worker => Some(*done),
        _ => None,
    }
}

/// Whether a part is back.
fn is_back(stage: &Stage) -> bool
    ensures { IsTrue result ↔ (stage.now ≡ Stage.Ended) }
{
    match stage {
        Stage::Ended => true,
        _ => false,
    }
}

/// Whether all parts are back.
pub(crate) fn all_back(stages: &[Stage]) -> bool
    ensures { IsTrue result ↔ All (λ s. s ≡ Stage.Ended) stages.now }
{
    stages.iter().all(|stage| is_back(stage))
}

/// An entry of a part.
fn nth(entries: &[DueEntry], done: usize) -> Option<DueEntry>
    ensures entry { result ≡ slice_get entries.now done }
    ensures there { IsSome result → done + 1 < 2 ^ 64 }
{
    entries.get(done).copied()
}

/// The entry of a part after so many others.
pub(crate) fn entry_after(clusters: &[Cluster], part: u32, done: usize) -> Option<DueEntry>
    ensures entry { result ≡ slice_get (part_at (parts_of clusters.now) part) done }
    ensures there { IsSome result → done + 1 < 2 ^ 64 }
{
    match clusters.get(part as usize) {
        Some(cluster) => nth(cluster.entries.as_slice(), done),
        None => None,
    }
}

/// The number of entries.
fn length_of(entries: &[DueEntry]) -> usize
    ensures { result ≡ length entries.now }
{
    entries.len()
}

/// How many entries a part has.
pub(crate) fn count_of(clusters: &[Cluster], part: u32) -> usize
    ensures { result ≡ length (part_at (parts_of clusters.now) part) }
{
    match clusters.get(part as usize) {
        Some(cluster) => length_of(cluster.entries.as_slice()),
        None => 0,
    }
}
