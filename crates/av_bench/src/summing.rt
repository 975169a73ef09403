//! Sums over a plan, by which two programs compare theirs.
use av_cluster::Cluster;
use av_play::DueEntry;
use av_types::SectionPos;

/// How many parts a plan has; the sums of its entries' indices and of its sections' coordinates, each times the number of
/// its part from 1 on, which wrap round.
#[derive(Clone, Copy, Default)]
pub(crate) struct PlanSums {
    pub(crate) parts: u64,
    pub(crate) indices: u64,
    pub(crate) sections: i64,
}

fn index_sum(entries: &[DueEntry]) -> u64 {
    let mut sum = 0u64;
    for due in entries {
        sum = sum.wrapping_add(due.index);
    }
    sum
}

fn section_sum(sections: &[SectionPos]) -> i64 {
    let mut sum = 0i64;
    for section in sections {
        let across = (section.x as i64).wrapping_add((section.z as i64).wrapping_mul(1_000_000));
        sum = sum.wrapping_add(across.wrapping_add((section.y as i64).wrapping_mul(1_000)));
    }
    sum
}

/// The sums over all parts.
pub(crate) fn sums_of(clusters: &[Cluster]) -> PlanSums {
    let mut sums = PlanSums::default();
    let mut number = 0i64;
    for cluster in clusters {
        sums.parts = sums.parts.wrapping_add(1);
        number = number.wrapping_add(1);
        let indices = sums
            .parts
            .wrapping_mul(index_sum(cluster.entries.as_slice()));
        sums.indices = sums.indices.wrapping_add(indices);
        let sections = number.wrapping_mul(section_sum(cluster.sections.as_slice()));
        sums.sections = sums.sections.wrapping_add(sections);
    }
    sums
}
