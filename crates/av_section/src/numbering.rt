//! The states of a palette, numbered.
ghost use Rattle.std.specs.Prelude.{◌≡◌, ◌≢◌, Bool, true, false, map, length, is_some, IfOk, IfErr};
ghost use Rattle.std.specs.List.{list_all};
ghost use Rattle.av_types.specs.declared.fault.Fault.TheVariants.{TooManyStates};
ghost use Rattle.av_state.specs.BlockState.{meant};
ghost use Rattle.av_state.specs.States.{state_of};
ghost use Rattle.av_state.specs.Table.{states};
ghost use Rattle.av_tags.specs.Shape.{each};
ghost use Rattle.av_tags.specs.View.{views};
ghost use Rattle.av_section.specs.Known.{AreNotNumbered};
ghost use Rattle.av_section.specs.Numbered.{AreNumbered, AreOfPalette, AreNotOfPalette};
ghost use Rattle.av_section.specs.Palette.{state_in};
ghost use Rattle.av_section.specs.Reading.{OnlyGrows};

use crate::known::{KnownStates, known_numbers};
use crate::palette::entry_states;
use av_state::{State, StateTable};
use av_tags::Tag;
use av_types::Fault;
use std::alloc::Global;

/// What gives the states of a palette's entries their numbers.
pub trait Numbering {
    ghost use Rattle.av_state.specs.declared.table.StateTable.{StateTable};

    /// The table in which they have them.
    ghost table: { Self → StateTable };

    /// Whether states that are new to the table are added to it. Where they are not, `TooManyStates` says only that not all of
    /// them are known.
    ghost takes: { Bool };

    /// The numbers of a palette's entries in the forms that they take.
    ///
    /// Refuses an entry that is no state with `BadPalette`, water whose level is not 0 to 15 with `BadWaterLevel`, the first of
    /// these that holds, and else more than 65,535 states with `TooManyStates`.
    fn number(&mut self, alloc: Global, entries: &[Tag]) -> Result<Vec<u16>, Fault>
        ensures ok { IfOk result (λ numbers. AreOfPalette (states (table self.old))
            (states (table self.new)) (each state_in (views entries.now)) numbers.items) }
        ensures many { IfOk result (λ numbers. length numbers.items ≡ length entries.now) }
        ensures err { IfErr result (λ e. (takes ≡ false → e ≢ TooManyStates)
            → AreNotOfPalette (each state_in (views entries.now)) (states (table self.old)) e) }
        ensures table { OnlyGrows (states (table self.old)) (states (table self.new)) }
        ensures same { takes ≡ false → states (table self.new) ≡ states (table self.old) };
}

/// States that are new to a table are added to it.
impl Numbering for StateTable {
    ghost table = { λ t. t };

    ghost takes = { true };

    fn number(&mut self, alloc: Global, entries: &[Tag]) -> Result<Vec<u16>, Fault> {
        number_entries(alloc, entries, self)
    }
}

/// A table that others share takes no state: the first that it lacks is one too many.
impl<'a> Numbering for KnownStates<'a> {
    ghost table = { λ k. k.table.now };

    ghost takes = { false };

    fn number(&mut self, alloc: Global, entries: &[Tag]) -> Result<Vec<u16>, Fault> {
        match known_numbers(alloc, entries, self.table)? {
            Some(numbers) => Ok(numbers),
            None => Err(Fault::TooManyStates),
        }
    }
}

/// Whether each state has a form, which water with an odd level has not.
fn have_forms(entries: &[State]) -> bool
    ensures { result ≡ list_all (λ s. is_some (meant s)) (map state_of entries.now) }
{
    for entry in entries {
        if !entry.has_form() {
            return false;
        }
    }
    true
}

/// The numbers of a palette's states in the forms that they take. States that are new to the table are added to it.
/// `BadWaterLevel` comes before any is numbered, `TooManyStates` after as many as there may be.
fn number_states(
    alloc: Global,
    entries: &[State],
    table: &mut StateTable,
) -> Result<Vec<u16>, Fault>
    ensures ok { IfOk result (λ numbers. AreNumbered (map state_of entries.now) (states table.old)
        (states table.new) numbers.items) }
    ensures many { IfOk result (λ numbers. length numbers.items ≡ length entries.now) }
    ensures err { IfErr result (AreNotNumbered (map state_of entries.now) (states table.old)) }
    ensures table { OnlyGrows (states table.old) (states table.new) }
{
    if !have_forms(entries) {
        return Err(Fault::BadWaterLevel);
    }
    let mut numbers = Vec::with_capacity(alloc, entries.len())?;
    for entry in entries {
        numbers.push(table.intern(entry)?)?;
    }
    Ok(numbers)
}

/// The numbers of a palette's entries in the forms that they take. Where the table knows them all they are looked up by the
/// texts of their tags; else their states are made, and those that are new to the table are added to it.
fn number_entries(alloc: Global, entries: &[Tag], table: &mut StateTable) -> Result<Vec<u16>, Fault>
    ensures ok { IfOk result (λ numbers. AreOfPalette (states table.old) (states table.new)
        (each state_in (views entries.now)) numbers.items) }
    ensures many { IfOk result (λ numbers. length numbers.items ≡ length entries.now) }
    ensures err { IfErr result (AreNotOfPalette (each state_in (views entries.now))
        (states table.old)) }
    ensures table { OnlyGrows (states table.old) (states table.new) }
{
    if let Some(numbers) = known_numbers(alloc, entries, table)? {
        return Ok(numbers);
    }
    let told = entry_states(alloc, entries)?;
    let numbers = number_states(alloc, told.as_slice(), table)?;
    Ok(numbers)
}
