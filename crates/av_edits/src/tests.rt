//! Lines of edits by hand.
use crate::words::line_edit;
use std::alloc::{AllocError, Global};
use std::test::Fail;

/// The tick and the position that a line states, if it is of the form.
fn position(alloc: Global, line: &str) -> Result<Option<(u64, i32, i32, i32)>, AllocError> {
    Ok(match line_edit(alloc, line.as_bytes())? {
        None => None,
        Some(edit) => Some((edit.tick, edit.pos.x, edit.pos.y, edit.pos.z)),
    })
}

#[test]
fn lines_of_the_form(rt: HostRuntime) -> Result<(), Fail> {
    let cases = [
        ("1 8 64 8 minecraft:stone", Some((1, 8, 64, 8))),
        ("007 -0 007 -007 a:b", Some((7, 0, 7, -7))),
        (
            "9999999999 2147483647 0 -2147483648 a.b-c_1:d/e.f-g_2",
            Some((9999999999, 2147483647, 0, -2147483648)),
        ),
        ("0 0 0 0 minecraft:water[level=15]", Some((0, 0, 0, 0))),
    ];
    for (line, meant) in cases {
        assert_eq!(rt; position(rt.alloc(), line)?, meant);
    }
    Ok(())
}

#[test]
fn lines_of_another_form(rt: HostRuntime) -> Result<(), Fail> {
    let lines = [
        "1 8 64 8",
        "1 8  64 8 a:b",
        " 1 8 64 8 a:b",
        "1 8 64 8 a:b ",
        "1 +8 64 8 a:b",
        "1 - 64 8 a:b",
        "-1 8 64 8 a:b",
        "1 2147483648 64 8 a:b",
        "1 -2147483649 64 8 a:b",
        "00000000001 8 64 8 a:b",
        "1 8 64 8 Stone",
        "1 8 64 8 stone",
        "1 8 64 8 a/b:c",
        "1 8 64 8 a:b:c",
        "1 8 64 8 a:b[]",
        "1 8 64 8 a:b[k=v",
        "1 8 64 8 a:b[k=v]]",
        "1 8 64 8 a:b[k=v,k=w]",
        "1 8 64 8 a:b[k=v.w]",
        "1 8 64 8 minecraft:water[level=16]",
        "1 8 64 8 a:b\r",
    ];
    for line in lines {
        assert_eq!(rt; position(rt.alloc(), line)?, None);
    }
    Ok(())
}

#[test]
fn states_in_the_form_that_they_take(rt: HostRuntime) -> Result<(), Fail> {
    let cases = [
        ("1 0 0 0 a:b[z=2,y=1]", "a:b[y=1,z=2]"),
        ("1 0 0 0 minecraft:water", "minecraft:water[level=0]"),
        (
            "1 0 0 0 minecraft:water[level=12,a=b]",
            "minecraft:water[level=8]",
        ),
        ("1 0 0 0 minecraft:air[a=b]", "minecraft:air"),
    ];
    let alloc = rt.alloc();
    for (line, text) in cases {
        let edit = line_edit(alloc, line.as_bytes())?.ok_or("of another form")?;
        assert_eq!(rt; edit.state.text(alloc)?.as_slice(), text.as_bytes());
    }
    Ok(())
}
