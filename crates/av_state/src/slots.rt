//! Where a state's number stands at once.
ghost use Rattle.std.specs.Prelude.{◌<◌};
ghost use Rattle.std.proofs.Props.{props};

use std::alloc::{AllocError, Global};

/// What a slot tells that has no number: no table has so many states.
pub(crate) const FREE: u16 = u16::MAX;

/// How many bits of a fingerprint are left out where there are no slots yet. The first slots are 512.
const FIRST_SHIFT: u32 = 56;

/// How many are left out at the least, which leaves 1,048,576 slots: 2 MB of them.
const LEAST_SHIFT: u32 = 44;

/// How many slots there are for each state at the least, so that one in twenty shares one that another was in first.
const FOR_EACH: usize = 16;

/// The first number of each slot. A fingerprint's slot is told by its first bits.
#[derive(Drop)]
pub(crate) struct Slots {
    pub(crate) numbers: Vec<u16>,
    /// How many bits of a fingerprint are left out.
    pub(crate) shift: u32,
    ghost within: { shift < 64 } by { Prim.hlevel props },
}

impl Slots {
    ghost use Rattle.std.specs.Prelude.{◌≡◌, ◌+◌, List, ℕ, [], length, OnOk, OnErr};
    ghost use Rattle.av_state.specs.Index.{told, AreSeated, AreFirst, HasTaken, AreFree, TellTheSame};

    /// No slots.
    pub(crate) fn new(alloc: Global) -> Slots
        ensures { result.numbers.items ≡ [] }
    {
        Slots {
            numbers: Vec::new(alloc),
            shift: FIRST_SHIFT,
        }
    }

    /// The number that the slot of a fingerprint tells, and 0 where there are no slots.
    pub(crate) fn told(&self, fingerprint: u64) -> u16
        ensures { result ≡ told self.now fingerprint }
    {
        let slot = (fingerprint >> self.shift) as usize;
        match self.numbers.get(slot) {
            Some(number) => *number,
            None => 0,
        }
    }

    /// Lets the slot of a fingerprint tell a number, where it tells none that is as small. The answer is whether it does.
    pub(crate) fn take(&mut self, fingerprint: u64, number: u16) -> bool
        ensures slot { HasTaken self.old self.new fingerprint number result }
        ensures shift { self.new.shift ≡ self.old.shift }
    {
        if self.told(fingerprint) <= number {
            return false;
        }
        let slot = (fingerprint >> self.shift) as usize;
        self.numbers[slot] = number;
        true
    }

    /// Makes room for one state more than these. Twice as many slots part those that shared one, so no number comes to
    /// share one that was the first of its own.
    pub(crate) fn reserve(&mut self, fingerprints: &[u64]) -> Result<(), AllocError>
        requires { length fingerprints.now < 65535 }
        ensures seated { (order : List ℕ) → AreSeated fingerprints.now self.old order
            → AreSeated fingerprints.now self.new order }
    {
        let count = self.numbers.len();
        if fingerprints.len() < count / FOR_EACH || self.shift <= LEAST_SHIFT {
            return Ok(());
        }
        self.double()?;
        self.seat(fingerprints);
        Ok(())
    }

    /// Makes the slots twice as many, all free. Nothing changes where memory is refused.
    fn double(&mut self) -> Result<(), AllocError>
        requires { 44 < self.old.shift }
        ensures free { OnOk result (AreFree self.new) }
        ensures shift { OnOk result (self.old.shift ≡ self.new.shift + 1) }
        ensures unchanged { OnErr result (TellTheSame self.old self.new) }
    {
        let shift = self.shift - 1;
        let count = 1usize << (64 - shift);
        self.numbers.resize(count, FREE)?;
        self.numbers.as_mut_slice().fill(FREE);
        self.shift = shift;
        Ok(())
    }

    /// Gives each number its slot, where that is free.
    fn seat(&mut self, fingerprints: &[u64])
        requires few { length fingerprints.now < 65535 }
        requires free { AreFree self.old }
        ensures first { AreFirst fingerprints.now (length fingerprints.now) self.new }
        ensures shift { self.new.shift ≡ self.old.shift }
    {
        for number in 0..fingerprints.len() {
            self.take(fingerprints[number], number as u16);
        }
    }
}
