//! Flat chunks: stone at y 63, and air elsewhere.
ghost use Rattle.std.specs.Prelude.{◌≡◌, IfOk, IfErr};
ghost use Rattle.av_types.specs.declared.fault.Fault.TheVariants.{OutOfMemory};
ghost use Rattle.av_section.specs.Section.{CanSet};
ghost use Rattle.av_world_tests.specs.Flat.{IsCalm, IsFlat};

use av_chunk::Chunk;
use av_section::Section;
use av_state::{State, StateTable};
use av_ticks::TickList;
use av_types::{Fault, Height, Place};
use std::alloc::Global;

/// The number of stone: it is the first state after air and water.
pub const STONE: u16 = 10;

/// The number of a source.
pub const SOURCE: u16 = 1;

/// The section with the blocks of y 48 to 63.
const UNDERGROUND: i32 = 3;

/// Sets the uppermost layer of a section to stone.
fn lay_stone(section: &mut Section)
    requires stone { CanSet section.old 10 }
    requires calm { IsCalm section.old }
    ensures { IsCalm section.new }
{
    for index in 3840..4096 {
        section.set(Place::new(index), STONE);
    }
}

/// A section with stone in its uppermost layer.
fn with_stone(mut section: Section) -> Result<Section, Fault>
    requires { IsCalm section }
    ensures calm { IfOk result IsCalm }
    ensures memory { IfErr result (λ e. e ≡ OutOfMemory) }
{
    section.prepare(&[STONE])?;
    lay_stone(&mut section);
    Ok(section)
}

/// The section of a number.
fn flat_section(alloc: Global, number: i32) -> Result<Section, Fault>
    ensures calm { IfOk result IsCalm }
    ensures memory { IfErr result (λ e. e ≡ OutOfMemory) }
{
    let section = Section::filled(alloc, 0)?;
    if number == UNDERGROUND {
        return with_stone(section);
    }
    Ok(section)
}

/// A chunk with stone at y 63, air elsewhere and no entries.
pub fn flat_chunk(alloc: Global, height: Height) -> Result<Chunk, Fault>
    ensures flat { IfOk result (IsFlat height) }
    ensures memory { IfErr result (λ e. e ≡ OutOfMemory) }
{
    let mut sections = Vec::new(alloc);
    for index in 0..height.sections {
        let section = flat_section(alloc, height.min_section + index as i32)?;
        sections.push(Some(section))?;
    }
    Ok(Chunk {
        sections,
        ticks: TickList::new(alloc),
    })
}

/// The states air and water, and stone after them.
pub fn stone_table(alloc: Global) -> Result<StateTable, Fault> {
    let mut table = StateTable::new(alloc)?;
    let name = Vec::from_slice(alloc, b"minecraft:stone")?;
    let stone = State::new(name, Vec::new(alloc))?.ok_or(Fault::BadPalette)?;
    let _ = table.intern(&stone)?;
    Ok(table)
}
