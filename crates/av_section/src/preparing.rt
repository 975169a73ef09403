//! Room for further numbers of a section.
ghost use Rattle.std.specs.Prelude.{◌≡◌, ◌<◌, ◌≤◌, ◌^◌, ◌+◌, ◌↔◌, ◌++◌, [], ◌∷◌, IsTrue, IfErr, is_ok, if◌then◌else◌, length, Contains};
ghost use Rattle.av_types.specs.declared.fault.Fault.TheVariants.{OutOfMemory};
ghost use Rattle.av_pack.specs.Packing.{bits_for, longs_for};
ghost use Rattle.av_section.specs.Packed.{HasAllBelow};

use crate::indices::{are_below, first_missing, repacked};
use crate::section::Section;
use av_pack::{bits_for, longs_for};
use av_types::Fault;
use std::alloc::AllocError;

/// Whether a number is in the palette.
fn has_number(palette: &[u16], number: u16) -> bool
    ensures { IsTrue result ↔ Contains palette.now number }
{
    palette.contains(&number)
}

/// Puts a number at the end of the palette, which stays as it is where memory runs out.
fn push_number(palette: &mut Vec<u16>, number: u16) -> Result<(), AllocError>
    ensures items { palette.new.items ≡ (if is_ok result then palette.old.items ++ number ∷ []
        else palette.old.items) }
{
    palette.push(number)?;
    Ok(())
}

impl Section {
    ghost use Rattle.std.specs.Prelude.{All, IsOk, OnOk};
    ghost use Rattle.av_section.specs.Section.{CanSet, KeepsPlaces};

    /// Makes room for numbers, so that each place can be set to each of them without memory. Every place stays as it is,
    /// also after a refusal. Refuses with OutOfMemory alone.
    pub fn prepare(&mut self, numbers: &[u16]) -> Result<(), Fault>
        ensures same { KeepsPlaces self.old self.new }
        ensures ok { OnOk result (All (CanSet self.new) numbers.now) }
        ensures memory { IfErr result (λ e. e ≡ OutOfMemory) }

        // Numbers that can be set already take no memory.
        ensures succeeds { All (CanSet self.old) numbers.now → IsOk result }
    {
        if are_below(numbers, usize::from(self.ready)) {
            return Ok(());
        }
        self.prepare_each(numbers)?;
        self.ready = self.ready_with(numbers);
        Ok(())
    }

    /// Below which number each can be set, once there is room for some: the palette is gone through only where one of
    /// these is low enough to change that.
    fn ready_with(&self, numbers: &[u16]) -> u16
        ensures { HasAllBelow self.now.palette.items result }
    {
        if numbers.iter().all(|number| *number >= 16) {
            return self.ready;
        }
        first_missing(self.palette.as_slice())
    }

    /// Makes room for numbers, one after the other.
    fn prepare_each(&mut self, numbers: &[u16]) -> Result<(), AllocError>
        ensures same { KeepsPlaces self.old self.new }
        ensures ok { OnOk result (All (CanSet self.new) numbers.now) }
        ensures succeeds { All (CanSet self.old) numbers.now → IsOk result }
    {
        for number in numbers {
            self.prepare_one(*number)?;
        }
        Ok(())
    }

    /// Makes room for one number.
    fn prepare_one(&mut self, number: u16) -> Result<(), AllocError>
        ensures same { KeepsPlaces self.old self.new }
        ensures ok { OnOk result (CanSet self.new number) }
        ensures succeeds { CanSet self.old number → IsOk result }
    {
        if has_number(self.palette.as_slice(), number) {
            return Ok(());
        }
        self.add_longs()?;
        let bits = bits_for(self.palette.len() + 1);
        if bits == self.bits {
            return self.append(number);
        }
        self.widen(number, bits)
    }

    /// Makes the longs of a section of one number.
    fn add_longs(&mut self) -> Result<(), AllocError>
        ensures same { KeepsPlaces self.old self.new }
        ensures palette { self.new.palette ≡ self.old.palette }
        ensures bits { self.new.bits ≡ self.old.bits }
        ensures count { OnOk result (length self.new.longs.items ≡ longs_for self.new.bits) }
    {
        if !self.longs.is_empty() {
            return Ok(());
        }
        let alloc = *self.longs.allocator();
        self.longs = vec![in alloc; 0; longs_for(self.bits)]?;
        Ok(())
    }

    /// Appends a new number to the palette, where the indices stay as wide as they are.
    fn append(&mut self, number: u16) -> Result<(), AllocError>
        requires new { CanSet self.old number → ⊥ }
        requires room { length self.old.palette.items < 65536 }
        requires bits { bits_for (length self.old.palette.items + 1) ≡ self.old.bits }
        requires count { length self.old.longs.items ≡ longs_for self.old.bits }
        ensures same { KeepsPlaces self.old self.new }
        ensures ok { OnOk result (CanSet self.new number) }
    {
        push_number(&mut self.palette, number)
    }

    /// Appends a new number to the palette, with which the indices have so many bits.
    fn widen(&mut self, number: u16, bits: u32) -> Result<(), AllocError>
        requires new { CanSet self.old number → ⊥ }
        requires room { length self.old.palette.items < 65536 }
        requires bits { bits ≡ bits_for (length self.old.palette.items + 1) }
        requires low { 4 ≤ bits }
        requires high { bits ≤ 16 }
        requires enough { length self.old.palette.items + 1 ≤ 2 ^ bits }
        requires count { length self.old.longs.items ≡ longs_for self.old.bits }
        ensures same { KeepsPlaces self.old self.new }
        ensures ok { OnOk result (CanSet self.new number) }
    {
        let alloc = *self.longs.allocator();
        let longs = repacked(alloc, self.longs.as_slice(), self.bits, bits)?;
        push_number(&mut self.palette, number)?;
        self.longs = longs;
        self.bits = bits;
        Ok(())
    }
}
