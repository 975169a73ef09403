//! Pictures as PNG files.
use crate::expecting::expect_equal;
use av_png::{Picture, Pixel, write_png};
use std::process::Abort;
use std::test::Fail;

/// The file of a red pixel and of one of (1, 2, 3) with alpha 4, side by side. Lengths and numbers are worked out by hand, the
/// checksums of the five chunks and of the stream by Python's zlib (`crc32`, `adler32`), whose `decompress` gives the rows back.
const TWO_PIXELS: &[u8] = b"\x89PNG\r\n\x1a\n\
\x00\x00\x00\x0dIHDR\x00\x00\x00\x02\x00\x00\x00\x01\x08\x06\x00\x00\x00\xf4\x22\x7f\x8a\
\x00\x00\x00\x02IDAT\x78\x01\xec\x1a\x7e\xd2\
\x00\x00\x00\x13IDAT\x00\x09\x00\xf6\xff\x00\xff\x00\x00\xff\x01\x02\x03\x04\x00\x00\x00\xff\xff\x23\x55\xce\xd2\
\x00\x00\x00\x09IDAT\x01\x00\x00\xff\xff\x0d\x10\x02\x09\x3d\x4d\x68\xdb\
\x00\x00\x00\x00IEND\xae\x42\x60\x82";

#[test]
fn two_pixels(rt: HostRuntime) -> Result<(), Fail> {
    let alloc = rt.alloc();
    let mut row = Vec::new(alloc);
    row.push(Pixel {
        red: 255,
        green: 0,
        blue: 0,
        alpha: 255,
    })?;
    row.push(Pixel {
        red: 1,
        green: 2,
        blue: 3,
        alpha: 4,
    })?;
    let mut rows = Vec::new(alloc);
    rows.push(row)?;
    let picture = Picture::new(2, rows);
    let mut file = Vec::new(alloc);
    write_png(alloc, &mut file, &picture)?;
    expect_equal(&rt, file.as_slice(), TWO_PIXELS);
    expect_equal(&rt, picture.height(), 1);
    Ok(())
}
