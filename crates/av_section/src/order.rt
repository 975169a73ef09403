//! The order of a written palette: that of the first places of its numbers.
ghost use Rattle.std.specs.Prelude.{◌≡◌, ◌≢◌, ◌<◌, ◌≤◌, length, IfOk, All, AllPairs, slice_index};
ghost use Rattle.av_section.specs.Distinct.{with_number};
ghost use Rattle.av_section.specs.WrittenPalette.{KnowsIndices, IsWritten};

use std::alloc::{AllocError, Global};

/// The index of an entry that no place was found to have yet.
const UNSEEN: u16 = 65535;

/// The numbers of a written palette, and the index of each place into it.
#[derive(Drop)]
pub(crate) struct Written {
    pub numbers: Vec<u16>,
    pub indices: Vec<u16>,
}

/// The index of a palette's entry in the written one, at the end of which it is put where it comes first.
fn written_index(
    palette: &[u16],
    seen: &mut Vec<u16>,
    written: &mut Vec<u16>,
    index: u16,
) -> Result<u16, AllocError>
    requires knows { KnowsIndices palette.now seen.old.items written.old.items }
    requires distinct { AllPairs (λ x y. x ≢ y) palette.now }
    requires below { index < length palette.now }
    requires few { length written.old.items < 65535 }
    ensures knows { IfOk result (λ _. KnowsIndices palette.now seen.new.items written.new.items) }
    ensures numbers { IfOk result (λ _. written.new.items
        ≡ with_number written.old.items (slice_index palette.now index)) }
    ensures bound { IfOk result (λ found. found < length written.new.items) }
    ensures found { IfOk result (λ found. slice_index written.new.items found
        ≡ slice_index palette.now index) }
{
    let index = usize::from(index);
    let known = seen[index];
    if known != UNSEEN {
        return Ok(known);
    }
    let last = written.len() as u16;
    written.push(palette[index])?;
    seen[index] = last;
    Ok(last)
}

/// The numbers of a written palette, by a palette and the indices of places into it.
pub(crate) fn written_order(
    alloc: Global,
    palette: &[u16],
    indices: &[u16],
) -> Result<Written, AllocError>
    requires distinct { AllPairs (λ x y. x ≢ y) palette.now }
    requires below { All (λ index. index < length palette.now) indices.now }
    requires few { length indices.now ≤ 4096 }
    ensures { IfOk result (λ order. IsWritten palette.now indices.now order.numbers.items
        order.indices.items) }
{
    let mut seen = vec![in alloc; UNSEEN; palette.len()]?;
    let mut numbers = Vec::with_capacity(alloc, palette.len())?;
    let mut found = Vec::with_capacity(alloc, indices.len())?;
    for index in indices {
        found.push(written_index(palette, &mut seen, &mut numbers, *index)?)?;
    }
    Ok(Written {
        numbers,
        indices: found,
    })
}
