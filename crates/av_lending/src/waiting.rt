//! Which groups of a tick may be ready.
use std::alloc::{AllocError, Global};

/// Groups that may be ready, and of each stage those that wait for a chunk to come to it. A group that waits is looked at again only
/// when the group comes back that it waits for: so once for each that comes before it in its chunks, at most. It is a hint: whoever
/// takes a group asks whether it is ready. Each group is in one chain at most, so that no step takes memory.
#[derive(Drop)]
pub(crate) struct Waiting {
    /// The first group that may be ready.
    first: Option<usize>,
    /// Of each stage, the first group that waits for a chunk to come to it.
    waiting: Vec<Option<usize>>,
    /// Of each group, the next one in its chain.
    next: Vec<Option<usize>>,
}

impl Waiting {
    /// So many groups, all of which may be ready, the first one first.
    pub(crate) fn new(alloc: Global, groups: usize) -> Result<Self, AllocError> {
        let waiting = Vec::from_elem(alloc, None, groups.saturating_add(1))?;
        let mut next = Vec::with_capacity(alloc, groups)?;
        for group in 1..groups {
            next.push(Some(group))?;
        }
        next.push(None)?;
        Ok(Waiting {
            first: Some(0),
            waiting,
            next,
        })
    }

    /// Takes a group that may be ready.
    pub(crate) fn take(&mut self) -> Option<usize> {
        let group = self.first?;
        self.first = match self.next.get(group) {
            Some(next) => *next,
            None => None,
        };
        Some(group)
    }

    /// A group that was taken waits for a chunk to come to a stage.
    pub(crate) fn wait(&mut self, group: usize, stage: usize) {
        if group < self.next.len() && stage < self.waiting.len() {
            self.next[group] = self.waiting[stage];
            self.waiting[stage] = Some(group);
        }
    }

    /// The groups that wait for a stage may be ready.
    pub(crate) fn release(&mut self, stage: usize) {
        for _ in 0..self.next.len() {
            if !self.release_one(stage) {
                break;
            }
        }
    }

    /// The first group that waits for a stage may be ready. Says whether there was one.
    fn release_one(&mut self, stage: usize) -> bool {
        if stage >= self.waiting.len() {
            return false;
        }
        let Some(group) = self.waiting[stage] else {
            return false;
        };
        if group >= self.next.len() {
            return false;
        }
        self.waiting[stage] = self.next[group];
        self.next[group] = self.first;
        self.first = Some(group);
        true
    }
}
