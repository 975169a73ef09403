//! Sets of places of a section.
ghost use Rattle.std.specs.Prelude.{◌≡◌, ◌<◌, ◌/◌, ℕ, IfOk, true, false};

use av_types::Place;
use std::alloc::{AllocError, Global};

/// A set of places, which takes no memory of its own.
#[derive(Clone, Copy, Debug, PartialEq, Eq)]
pub struct PlaceSet {
    words: [u64; 64],
}

/// The word that has the bit of a place.
fn word_of(place: Place) -> usize
    ensures value { result ≡ place.index / 64 }
    ensures bound { result < 64 }
{
    usize::from(place.index / 64)
}

impl PlaceSet {
    ghost use Rattle.av_pack.specs.Places.{has_place, SetsPlace};

    /// The empty set.
    pub fn new() -> Self
        ensures { (i : ℕ) → has_place result i ≡ false }
    {
        PlaceSet { words: [0; 64] }
    }

    /// The empty set, in a box: what has one is moved without its 512 bytes.
    pub fn boxed(alloc: Global) -> Result<Box<Self>, AllocError>
        ensures { IfOk result (λ set. (i : ℕ) → has_place set.value i ≡ false) }
    {
        Ok(Box::new(alloc, PlaceSet::new())?)
    }

    /// Whether a place is in the set.
    pub fn contains(&self, place: Place) -> bool
        ensures { result ≡ has_place self.now place.index }
    {
        self.words[word_of(place)] >> (place.index % 64) & 1 == 1
    }

    /// Puts a place into the set, if it is not there.
    pub fn insert(&mut self, place: Place)
        ensures { SetsPlace self.old self.new place.index true }
    {
        self.words[word_of(place)] |= 1 << (place.index % 64);
    }

    /// Takes a place out of the set, if it is there.
    pub fn remove(&mut self, place: Place)
        ensures { SetsPlace self.old self.new place.index false }
    {
        self.words[word_of(place)] &= !(1 << (place.index % 64));
    }
}
