//! A part of a tick as a job, and what a worker answers for it.
use av_play::DueEntry;
use av_ring::Numbered;
use av_types::{Fault, Made};
use av_world::Parcel;

/// A part of a tick: its number, its entries, and the sections that their turns may change.
#[derive(Drop)]
pub struct Job {
    /// The part's number.
    pub number: u32,
    /// Its entries with their indices in the tick, in the tick's order.
    pub entries: Vec<DueEntry>,
    /// Its sections.
    pub parcel: Parcel,
}

impl Numbered for Job {
    ghost number_of = { λ job. job.number };

    fn number(&self) -> u32 {
        self.number
    }
}

/// What a worker answers for a job.
#[derive(Drop)]
pub struct Done {
    /// The job's number.
    pub number: u32,
    /// Its sections, as the turns left them.
    pub parcel: Parcel,
    /// The entries that the turns made.
    pub made: Vec<Made>,
    /// A fault, where not all entries were turned.
    pub fault: Option<Fault>,
}
