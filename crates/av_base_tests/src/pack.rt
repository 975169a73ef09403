//! Entries and half bytes by hand, with the counts of the format's description.
ghost use Rattle.std.specs.Prelude.{◌≡◌, ◌<◌, ◌^◌, IfOk, length, All};

use crate::expecting::expect_equal;
use av_pack::{
    bits_for, cleaned, entries_below, get_at, longs_for, nibble, pack, set_at, set_nibble, unpack,
    used_in_order,
};
use av_types::{Fault, Place};
use std::alloc::{AllocError, Global};
use std::test::Fail;

/// The remainder by 17 at each place of a section.
fn remainders(alloc: Global) -> Result<Vec<u16>, AllocError>
    ensures count { IfOk result (λ values. length values.items ≡ 4096) }
    ensures fit { IfOk result (λ values. All (λ value. value < 2 ^ 5) values.items) }
{
    let mut values = Vec::new(alloc);
    for i in 0u16..4096 {
        values.push(i % 17)?;
    }
    Ok(values)
}

#[test]
fn bits_of_palettes(rt: HostRuntime) {
    let palettes = [
        (1, 4),
        (16, 4),
        (17, 5),
        (32, 5),
        (33, 6),
        (4096, 12),
        (4097, 13),
        (65536, 16),
    ];
    for (len, bits) in palettes {
        assert_eq!(rt; bits_for(len), bits, "for {len}");
    }
}

#[test]
fn longs_of_bits(rt: HostRuntime) {
    let counts = [
        256, 342, 410, 456, 512, 586, 683, 820, 820, 1024, 1024, 1024, 1024,
    ];
    for bits in 4..17 {
        assert_eq!(rt; longs_for(bits), counts[bits as usize - 4], "for {bits}");
    }
}

#[test]
fn seventeen_values_take_342_longs(rt: HostRuntime) -> Result<(), Fail> {
    let values = remainders(rt.alloc())?;
    let longs = pack(rt.alloc(), &values, 5)?;
    expect_equal(&rt, longs.len(), 342);
    let unpacked = unpack(rt.alloc(), &longs, 5)?;
    expect_equal(&rt, unpacked.as_slice(), values.as_slice());
    Ok(())
}

#[test]
fn first_entries_stand_lowest(rt: HostRuntime) -> Result<(), Fail> {
    let longs = pack(rt.alloc(), &remainders(rt.alloc())?, 5)?;
    assert_eq!(rt; longs.len(), 342);
    // place 12 is the first entry of the second long
    expect_equal(&rt, longs[1].cast_unsigned() % 32, 12);
    // the places 4092 to 4095 have the values 12 to 15: 12 + 13 * 32 + 14 * 1,024 + 15 * 32,768
    expect_equal(&rt, longs[341], 506284);
    Ok(())
}

#[test]
fn an_entry_is_set_beside_another(rt: HostRuntime) -> Result<(), Fail> {
    let mut longs = pack(rt.alloc(), &remainders(rt.alloc())?, 5)?;
    assert_eq!(rt; longs.len(), 342);
    let place = Place::new(12);
    expect_equal(&rt, get_at(&longs, 5, place), 12);
    set_at(&mut longs, 5, place, 31);
    expect_equal(&rt, get_at(&longs, 5, place), 31);
    expect_equal(&rt, get_at(&longs, 5, Place::new(13)), 13);
    Ok(())
}

/// The entries of four bits at x 15, y 0, z 15 and before it, of longs of which the sixteenth alone is not 0.
fn entries_of(alloc: Global, long: i64) -> Result<(Option<u16>, Option<u16>), Fault> {
    let mut longs = vec![in alloc; 0; 256]?;
    longs[15] = long;
    let values = unpack(alloc, &longs, 4)?;
    Ok((values.get(255).copied(), values.get(254).copied()))
}

#[test]
fn highest_bits_of_a_long(rt: HostRuntime) -> Result<(), Fail> {
    let one = entries_of(rt.alloc(), 0x1000_0000_0000_0000)?;
    expect_equal(&rt, one, (Some(1), Some(0)));
    let all = entries_of(rt.alloc(), -1)?;
    expect_equal(&rt, all, (Some(15), Some(15)));
    Ok(())
}

#[test]
fn longs_that_are_too_few(rt: HostRuntime) -> Result<(), Fail> {
    let longs = vec![in rt.alloc(); -1; 255]?;
    let short = unpack(rt.alloc(), &longs, 4);
    assert!(rt; matches!(short, Err(Fault::BadPacked)));
    Ok(())
}

/// The longs of the remainders, but that the four highest bits of the first are set, and all above the four entries of
/// the last.
#[test]
fn bits_that_hold_no_entry_are_ignored(rt: HostRuntime) -> Result<(), Fail> {
    let values = remainders(rt.alloc())?;
    let mut longs = pack(rt.alloc(), &values, 5)?;
    assert_eq!(rt; longs.len(), 342);
    longs[0] |= 0xF << 60;
    longs[341] |= -1 << 20;
    let unpacked = unpack(rt.alloc(), &longs, 5)?;
    expect_equal(&rt, unpacked.as_slice(), values.as_slice());
    expect_equal(&rt, get_at(&longs, 5, Place::new(11)), 11);
    expect_equal(&rt, get_at(&longs, 5, Place::new(4095)), 15);
    Ok(())
}

#[test]
fn bits_that_hold_no_entry_stay(rt: HostRuntime) -> Result<(), Fail> {
    let mut longs = pack(rt.alloc(), &remainders(rt.alloc())?, 5)?;
    assert_eq!(rt; longs.len(), 342);
    longs[0] |= 0xF << 60;
    longs[341] |= -1 << 20;
    set_at(&mut longs, 5, Place::new(4095), 0);
    expect_equal(
        &rt,
        longs.last().copied(),
        Some((-1 << 20) + 12 + 13 * 32 + 14 * 1024),
    );
    Ok(())
}

#[test]
fn unused_bits_are_cleared(rt: HostRuntime) -> Result<(), Fail> {
    let longs = pack(rt.alloc(), &remainders(rt.alloc())?, 5)?;
    let mut others = Vec::from_slice(rt.alloc(), &longs)?;
    assert_eq!(rt; others.len(), 342);
    others[0] |= 0xF << 60;
    others[341] |= -1 << 20;
    let same = cleaned(rt.alloc(), &others, 5)?;
    expect_equal(&rt, same.as_slice(), longs.as_slice());
    Ok(())
}

#[test]
fn sixteen_is_the_greatest_remainder(rt: HostRuntime) -> Result<(), Fail> {
    let mut longs = pack(rt.alloc(), &remainders(rt.alloc())?, 5)?;
    assert_eq!(rt; longs.len(), 342);
    // 31 in place 4096, which is none
    longs[341] |= 31 << 20;
    expect_equal(&rt, entries_below(&longs, 5, 17), true);
    expect_equal(&rt, entries_below(&longs, 5, 16), false);
    Ok(())
}

/// Longs of 16 entries of 4 bits each, from 0 up in the first one where `rising`, and else 1 before 0.
fn digits(alloc: Global, rising: bool) -> Result<Vec<i64>, AllocError>
    ensures { IfOk result (λ longs. length longs.items ≡ 256) }
{
    let first = if rising {
        0xFEDC_BA98_7654_3210u64
    } else {
        0xFEDC_BA98_7654_3201
    };
    vec![in alloc; first.cast_signed(); 256]
}

#[test]
fn digits_come_in_order(rt: HostRuntime) -> Result<(), Fail> {
    let longs = digits(rt.alloc(), true)?;
    expect_equal(&rt, used_in_order(&longs, 4, 16), true);
    Ok(())
}

#[test]
fn one_before_zero_is_out_of_order(rt: HostRuntime) -> Result<(), Fail> {
    let longs = digits(rt.alloc(), false)?;
    expect_equal(&rt, used_in_order(&longs, 4, 16), false);
    Ok(())
}

#[test]
fn unused_number_is_out_of_order(rt: HostRuntime) -> Result<(), Fail> {
    let longs = digits(rt.alloc(), true)?;
    expect_equal(&rt, used_in_order(&longs, 4, 17), false);
    Ok(())
}

#[test]
fn fifteen_is_the_greatest_digit(rt: HostRuntime) -> Result<(), Fail> {
    let longs = digits(rt.alloc(), true)?;
    expect_equal(&rt, entries_below(&longs, 4, 16), true);
    expect_equal(&rt, entries_below(&longs, 4, 15), false);
    Ok(())
}

#[test]
fn half_bytes_are_read(rt: HostRuntime) -> Result<(), Fail> {
    let mut bytes = vec![in rt.alloc(); 0; 2048]?;
    bytes[64] = 0xDE;
    expect_equal(&rt, nibble(&bytes, Place::new(128)), 0xE);
    expect_equal(&rt, nibble(&bytes, Place::new(129)), 0xD);
    Ok(())
}

#[test]
fn half_bytes_are_set(rt: HostRuntime) -> Result<(), Fail> {
    let mut bytes = vec![in rt.alloc(); 0; 2048]?;
    bytes[64] = 0xDE;
    set_nibble(&mut bytes, Place::new(128), 1);
    set_nibble(&mut bytes, Place::new(141), 2);
    expect_equal(&rt, bytes.get(64).copied(), Some(0xD1));
    expect_equal(&rt, bytes.get(70).copied(), Some(0x20));
    Ok(())
}
