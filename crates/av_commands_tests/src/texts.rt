//! Texts that may be left out.
use crate::expecting::expect_equal;
use av_commands::tables::read_table;
use av_commands::texts::read_text_or;
use std::test::Fail;

#[test]
fn texts_that_are_left_out(rt: HostRuntime) -> Result<(), Fail> {
    let text = read_text_or(&rt, None, "1 0 64 0 a:b\n")
        .ok()
        .ok_or("no text")?;
    expect_equal(&rt, text.as_slice(), b"1 0 64 0 a:b\n");
    let table = read_table(&rt, None).ok().ok_or("no table")?;
    expect_equal(&rt, &table.as_slice()[..26], b"# What water and light ask");
    expect_equal(&rt, table.len(), 1395);
    expect_equal(&rt, read_table(&rt, Some("no such file")).is_err(), true);
    Ok(())
}
