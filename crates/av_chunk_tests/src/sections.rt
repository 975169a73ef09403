//! What a section must have.
use crate::expecting::expect_equal;
use crate::parts::Part::{Byte, Compound, End, Int, Ints, List, Text};
use crate::parts::{FULL, Part, X, Z, document, expect_fault, expect_read, fault_of, push_all};
use av_types::Fault;
use std::alloc::{AllocError, Global};
use std::process::Abort;
use std::test::Fail;

const ONE: Part<'static> = List("sections", 10, 1);

const TWO: Part<'static> = List("sections", 10, 2);

#[test]
fn a_section_has_a_number(rt: HostRuntime) -> Result<(), Fail> {
    let alloc = rt.alloc();
    let none = [X, Z, FULL, ONE, End, End];
    expect_fault(&rt, alloc, none.as_slice(), &Fault::BadChunk)?;
    let int = [X, Z, FULL, ONE, Int("Y", 0), End, End];
    expect_fault(&rt, alloc, int.as_slice(), &Fault::BadChunk)?;
    Ok(())
}

/// Also out of the height: 247 is -9.
#[test]
fn a_section_has_a_number_of_its_own(rt: HostRuntime) -> Result<(), Fail> {
    for y in [0, 247] {
        let twice = [X, Z, FULL, TWO, Byte("Y", y), End, Byte("Y", y), End, End];
        expect_fault(&rt, rt.alloc(), twice.as_slice(), &Fault::BadChunk)?;
    }
    let two = [X, Z, FULL, TWO, Byte("Y", 247), End, Byte("Y", 0), End, End];
    expect_read(&rt, rt.alloc(), two.as_slice())?;
    Ok(())
}

/// A chunk that ends in section 0, with `block_states` of these parts.
fn with_states(alloc: Global, inner: &[Part]) -> Result<Vec<u8>, AllocError> {
    let head = [X, Z, FULL, ONE, Byte("Y", 0), Compound("block_states")];
    let mut bytes = document(alloc, head.as_slice())?;
    push_all(&mut bytes, inner)?;
    push_all(&mut bytes, &[End, End, End])?;
    Ok(bytes)
}

/// A chunk with `block_states` of these parts is refused with this fault.
fn expect_bad(
    rt: &impl Abort,
    alloc: Global,
    inner: &[Part],
    want: &Fault,
) -> Result<(), AllocError> {
    let payload = with_states(alloc, inner)?;
    let fault = fault_of(alloc, &payload)?;
    expect_equal(rt, fault.as_ref(), Some(want));
    Ok(())
}

const PALETTE: Part<'static> = List("palette", 10, 1);

const AIR: Part<'static> = Text("Name", "minecraft:air");

#[test]
fn block_states_are_a_compound(rt: HostRuntime) -> Result<(), Fail> {
    let byte = Byte("block_states", 0);
    let parts = [X, Z, FULL, ONE, Byte("Y", 0), byte, End, End];
    expect_fault(&rt, rt.alloc(), parts.as_slice(), &Fault::BadChunk)?;
    Ok(())
}

#[test]
fn a_palette_entry_has_a_name_and_perhaps_properties(rt: HostRuntime) -> Result<(), Fail> {
    let alloc = rt.alloc();
    let payload = with_states(alloc, &[PALETTE, AIR, Compound("Properties"), End, End])?;
    expect_equal(&rt, fault_of(alloc, &payload)?, None);
    let byte = [PALETTE, Byte("Name", 0), End];
    expect_bad(&rt, alloc, byte.as_slice(), &Fault::BadPalette)?;
    let listed = [PALETTE, AIR, List("Properties", 10, 0), End];
    expect_bad(&rt, alloc, listed.as_slice(), &Fault::BadPalette)?;
    Ok(())
}

#[test]
fn a_palette_entry_has_no_other_tag(rt: HostRuntime) -> Result<(), Fail> {
    let properties = Compound("Properties");
    let parts = [PALETTE, AIR, properties, End, Byte("a", 1), End];
    expect_bad(&rt, rt.alloc(), parts.as_slice(), &Fault::BadPalette)?;
    Ok(())
}

#[test]
fn a_palette_is_a_list_and_not_empty(rt: HostRuntime) -> Result<(), Fail> {
    let alloc = rt.alloc();
    expect_bad(&rt, alloc, &[Compound("palette"), End], &Fault::BadPalette)?;
    expect_bad(&rt, alloc, &[List("palette", 10, 0)], &Fault::BadPalette)?;
    Ok(())
}

#[test]
fn data_are_longs(rt: HostRuntime) -> Result<(), Fail> {
    let parts = [PALETTE, AIR, End, Ints("data")];
    expect_bad(&rt, rt.alloc(), parts.as_slice(), &Fault::BadPacked)?;
    Ok(())
}

/// A chunk whose section 0 has a palette of so many entries of one name.
fn with_entries(alloc: Global, count: i32) -> Result<Vec<u8>, AllocError> {
    let head = [X, Z, FULL, ONE, Byte("Y", 0), Compound("block_states")];
    let mut payload = document(alloc, head.as_slice())?;
    push_all(&mut payload, &[List("palette", 10, count)])?;
    for _ in 0..count {
        push_all(&mut payload, &[Text("Name", "a"), End])?;
    }
    push_all(&mut payload, &[End, End, End])?;
    Ok(payload)
}

#[test]
fn a_palette_has_4096_entries_at_most(rt: HostRuntime) -> Result<(), Fail> {
    let most = with_entries(rt.alloc(), 4096)?;
    expect_equal(&rt, fault_of(rt.alloc(), &most)?, Some(Fault::BadPacked));
    let more = with_entries(rt.alloc(), 4097)?;
    expect_equal(&rt, fault_of(rt.alloc(), &more)?, Some(Fault::BadPalette));
    Ok(())
}
