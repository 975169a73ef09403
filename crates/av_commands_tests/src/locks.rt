//! Locks, by lines as Linux writes them in `/proc/locks`.
use crate::expecting::expect_equal;
use av_folders::{FileNumbers, Lock, lock_in};
use std::alloc::{AllocError, Global};
use std::test::Fail;

const POSIX: &[u8] = b"1: POSIX  ADVISORY  WRITE 4711 fe:00:131077 0 EOF";

const FLOCK: &[u8] = b"2: FLOCK  ADVISORY  WRITE 8714 08:13:42 0 EOF";

/// A lock that goes with an open file of a file system in memory.
const OFDLCK: &[u8] = b"3: OFDLCK ADVISORY  READ  -1 00:2f:7 0 1073741825";

#[test]
fn locks_of_lines(rt: HostRuntime) -> Result<(), Fail> {
    for (line, process, [major, minor, number]) in [
        (POSIX, "4711", ["fe", "00", "131077"]),
        (FLOCK, "8714", ["08", "13", "42"]),
        (OFDLCK, "-1", ["00", "2f", "7"]),
    ] {
        let want = Lock {
            process: process.as_bytes(),
            major: major.as_bytes(),
            minor: minor.as_bytes(),
            number: number.as_bytes(),
        };
        expect_equal(&rt, lock_in(rt.alloc(), line)?, Some(want));
    }
    Ok(())
}

/// A lock that is waited for is none, and so is a lease.
#[test]
fn lines_without_a_lock(rt: HostRuntime) -> Result<(), Fail> {
    for line in [
        "1: -> POSIX  ADVISORY  WRITE 4712 fe:00:131077 0 EOF",
        "4: LEASE  ACTIVE    READ  12 fe:00:5 0 EOF",
        "5: FLOCK  ADVISORY  WRITE 12",
        "6: FLOCK  ADVISORY  WRITE 12 fe:00 0 EOF",
        "",
    ] {
        expect_equal(&rt, lock_in(rt.alloc(), line.as_bytes())?, None);
    }
    Ok(())
}

fn may_be_on(
    alloc: Global,
    line: &[u8],
    device: u64,
    number: u64,
) -> Result<Option<bool>, AllocError> {
    let file = FileNumbers::new(alloc, device, number)?;
    Ok(lock_in(alloc, line)?.map(|lock| lock.may_be_on(&file)))
}

/// The system packs the device 254:0 as 0xfe00, 8:3 as 0x803 and 0:25 as 0x19. Devices of two disks are compared, and no others.
#[test]
fn files_of_locks(rt: HostRuntime) -> Result<(), Fail> {
    for (line, device, number, want) in [
        (POSIX, 0xfe00, 131077, true),
        (POSIX, 0xfe00, 13107, false),
        (POSIX, 0x803, 131077, false),
        (FLOCK, 0x813, 42, true),
        (FLOCK, 0x803, 42, false),
        (FLOCK, 0x19, 42, true),
        (OFDLCK, 0x19, 7, true),
        (OFDLCK, 0x803, 7, true),
        (OFDLCK, 0x2f, 8, false),
    ] {
        expect_equal(
            &rt,
            may_be_on(rt.alloc(), line, device, number)?,
            Some(want),
        );
    }
    Ok(())
}

/// 0x103 and 0x12c are packed as 0x11032c: 8 bits of the second, 12 of the first, and the other 12 of the second. Behind them stand the other
/// bits of the first: 0x1234 and 5 are 0x100000023405.
#[test]
fn numbers_of_devices(rt: HostRuntime) -> Result<(), Fail> {
    for (device, major, minor) in [
        (0x11032c, "103", "12c"),
        (0x1000_0002_3405, "1234", "05"),
        (0, "00", "00"),
    ] {
        let numbers = FileNumbers::new(rt.alloc(), device, 1)?;
        expect_equal(&rt, numbers.major.as_str(), major);
        expect_equal(&rt, numbers.minor.as_str(), minor);
        expect_equal(&rt, numbers.number.as_str(), "1");
    }
    Ok(())
}
