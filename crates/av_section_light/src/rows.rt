//! What light loses and gains where a state stands.
ghost use Rattle.std.specs.Prelude.{◌≡◌, ◌<◌, IsTrue, IfOk, ℕ, length, slice_index};
ghost use Rattle.av_rules.specs.Kinds.{row_at};
ghost use Rattle.av_section.specs.Section.{number_at};
ghost use Rattle.av_section_light.specs.Lamps.{AreShining};

use av_rules::Kinds;
use av_section::Section;
use std::alloc::{AllocError, Global};

/// The light that the state of a number gives. A number that is none has a shut state.
#[tactic(auto, using(crate::proofs::RowLemmas::shut_emission))]
pub(crate) fn emission(kinds: &Kinds, number: u16) -> u8
    ensures { result ≡ (row_at kinds.now number).emission }
{
    if usize::from(number) >= kinds.count() {
        return 0;
    }
    kinds.row(number).emission
}

/// How much light the state of a number stops.
#[tactic(auto, using(crate::proofs::RowLemmas::shut_opacity))]
pub(crate) fn opacity(kinds: &Kinds, number: u16) -> u8
    ensures { result ≡ (row_at kinds.now number).opacity }
{
    if usize::from(number) >= kinds.count() {
        return 15;
    }
    kinds.row(number).opacity
}

/// Whether none of these numbers' states gives light.
fn are_dark(kinds: &Kinds, numbers: &[u16]) -> bool
    ensures { IsTrue result → (k : ℕ) → k < length numbers.now
        → (row_at kinds.now (slice_index numbers.now k)).emission ≡ 0 }
{
    for number in numbers {
        if emission(kinds, *number) > 0 {
            return false;
        }
    }
    true
}

/// For each number of a palette, whether its state gives light.
pub(crate) fn are_shining(
    alloc: Global,
    kinds: &Kinds,
    palette: &[u16],
) -> Result<Vec<bool>, AllocError>
    ensures { IfOk result (λ flags. AreShining kinds.now palette.now flags.items) }
{
    let mut flags = Vec::with_capacity(alloc, palette.len())?;
    for number in palette {
        flags.push(emission(kinds, *number) > 0)?;
    }
    Ok(flags)
}

/// Whether no state of a section's palette gives light. Then no block of it does.
#[tactic(auto, using(crate::proofs::RowLemmas::palette_dark))]
pub(crate) fn is_dark(kinds: &Kinds, section: &Section) -> bool
    ensures { IsTrue result → (i : ℕ) → i < 4096 →
        (row_at kinds.now (number_at section.now i)).emission ≡ 0 }
{
    let parts = section.parts();
    are_dark(kinds, parts.0)
}
