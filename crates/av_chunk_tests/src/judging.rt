//! What a chunk's root must have.
use crate::parts::Part::{Byte, Element, End, Int, List, Long, Text};
use crate::parts::{FULL, NONE, X, Z, expect_fault, expect_read};
use av_types::Fault;
use std::test::Fail;

#[test]
fn both_coordinates_are_judged(rt: HostRuntime) -> Result<(), Fail> {
    let alloc = rt.alloc();
    expect_read(&rt, alloc, &[X, Z, FULL, NONE, End])?;
    let z = [X, Int("zPos", -2), FULL, NONE, End];
    expect_fault(&rt, alloc, z.as_slice(), &Fault::WrongPlace)?;
    let x = [Int("xPos", -2), Z, FULL, NONE, End];
    expect_fault(&rt, alloc, x.as_slice(), &Fault::WrongPlace)?;
    Ok(())
}

#[test]
fn both_coordinates_are_ints(rt: HostRuntime) -> Result<(), Fail> {
    let alloc = rt.alloc();
    expect_fault(&rt, alloc, &[Z, FULL, NONE, End], &Fault::BadChunk)?;
    expect_fault(&rt, alloc, &[X, FULL, NONE, End], &Fault::BadChunk)?;
    let long = [Long("xPos"), Z, FULL, NONE, End];
    expect_fault(&rt, alloc, long.as_slice(), &Fault::BadChunk)?;
    Ok(())
}

#[test]
fn a_status_is_a_text_and_level_comes_before_it(rt: HostRuntime) -> Result<(), Fail> {
    let alloc = rt.alloc();
    expect_fault(&rt, alloc, &[Byte("Status", 0), End], &Fault::BadChunk)?;
    expect_read(&rt, alloc, &[Text("Status", "empty"), End])?;
    let old = [Byte("Level", 0), Text("Status", "empty"), End];
    expect_fault(&rt, alloc, old.as_slice(), &Fault::OldLayout)?;
    Ok(())
}

#[test]
fn sections_are_a_list_of_compounds(rt: HostRuntime) -> Result<(), Fail> {
    let alloc = rt.alloc();
    let byte = [X, Z, FULL, Byte("sections", 0), End];
    expect_fault(&rt, alloc, byte.as_slice(), &Fault::BadChunk)?;
    let ints = [X, Z, FULL, List("sections", 3, 1), Element(1), End];
    expect_fault(&rt, alloc, ints.as_slice(), &Fault::BadChunk)?;
    let none = [X, Z, FULL, List("sections", 3, 0), End];
    expect_read(&rt, alloc, none.as_slice())?;
    expect_fault(&rt, alloc, &[X, Z, FULL, End], &Fault::BadChunk)?;
    Ok(())
}

#[test]
fn ticks_are_a_list_of_compounds(rt: HostRuntime) -> Result<(), Fail> {
    let alloc = rt.alloc();
    let byte = [X, Z, FULL, NONE, Byte("fluid_ticks", 0), End];
    expect_fault(&rt, alloc, byte.as_slice(), &Fault::BadChunk)?;
    let ints = [X, Z, FULL, NONE, List("fluid_ticks", 3, 1), Element(1), End];
    expect_fault(&rt, alloc, ints.as_slice(), &Fault::BadChunk)?;
    let none = [X, Z, FULL, NONE, List("fluid_ticks", 3, 0), End];
    expect_read(&rt, alloc, none.as_slice())?;
    Ok(())
}

#[test]
fn each_tick_has_a_fluid(rt: HostRuntime) -> Result<(), Fail> {
    let one = List("fluid_ticks", 10, 1);
    let parts = [X, Z, FULL, NONE, one, Int("x", 1), End, End];
    expect_fault(&rt, rt.alloc(), parts.as_slice(), &Fault::BadTick)?;
    Ok(())
}
