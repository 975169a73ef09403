//! Plans of many entries in a square of 32 chunks a side.
ghost use Rattle.std.specs.Prelude.{All, IsTrue};
ghost use Rattle.av_world.specs.Views.{blocks};

use crate::placing::{Layout, entries_of, layout_of, square};
use crate::summing::{PlanSums, sums_of};
use anyhow::{Result, bail};
use av_cluster::plan;
use av_types::{Entry, Fault};
use av_world::World;
use std::alloc::Global;

/// Plans the entries so often, and tells of the last plan.
fn plan_rounds(
    alloc: Global,
    world: &World,
    entries: &[Entry],
    rounds: u32,
) -> Result<PlanSums, Fault>
    requires { All (λ e. IsTrue ((blocks world.now).loaded e.pos)) entries.now }
{
    let mut sums = PlanSums::default();
    for _ in 0..rounds {
        let clusters = plan(alloc, world, entries)?;
        sums = sums_of(clusters.as_slice());
    }
    Ok(sums)
}

fn plan_layout(alloc: Global, layout: Layout, count: u32, rounds: u32) -> Result<PlanSums, Fault> {
    let world = square(alloc)?;
    let entries = entries_of(alloc, &world, layout, count)?;
    plan_rounds(alloc, &world, entries.as_slice(), rounds)
}

/// Plans so many entries that lie so, so often. The line has the number of parts of the last plan, and sums over it.
pub(crate) fn plan_entries(alloc: Global, layout: &str, count: u32, rounds: u32) -> Result<String> {
    let Some(layout) = layout_of(layout) else {
        bail!("no such layout");
    };
    let PlanSums {
        parts,
        indices,
        sections,
    } = plan_layout(alloc, layout, count, rounds)?;
    Ok(format!(in alloc; "parts {parts} indices {indices} sections {sections}")?)
}
