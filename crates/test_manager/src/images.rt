//! The bytes that an image opens with.

use crate::parts::{Piece, image_with, memory_of, region};
use ffm_model::{Class, System};
use memory_image::Image;
use std::alloc::Global;
use std::process::Abort;
use std::test::Fail;

const MMIO: Class = Class::Mmio {
    owner: 0,
    writable: true,
};

// Two RAM regions that are neighbours, those of clients and of a device, and one without a byte.
fn system(rt: &impl Abort, alloc: Global) -> Result<System, Fail> {
    let regions = [
        region(0x3000_0000, 0x400, Class::Ram { domain: 0 }),
        region(0x3000_0400, 0x100, Class::Ram { domain: 1 }),
        region(0x2000_0000, 0x1_0000, Class::NonSecure),
        region(0x3000_0400, 0, MMIO),
        region(0xffff_fff0, 0x10, MMIO),
    ];
    memory_of(rt, alloc, &[0, 1], &regions)
}

// The client's bytes from 0x20000020 on are 68 ee 11 6c 6f, since the later piece wins.
const OPENING: &[Piece] = &[(0x2000_0020, b"hello"), (0xffff_ffff, &[0x7f]), (0, &[])];

const LATER: &[Piece] = &[(0x2000_0021, &[0xee, 0x11]), (0x3000_0400, &[0x01])];

/// An address, the place of its region and its own in that, and its byte.
struct ByteRow(u32, Option<(u32, u32)>, u32);

const BYTES: [ByteRow; 14] = [
    ByteRow(0x0000_0000, None, 0),
    ByteRow(0x2000_001f, Some((2, 0x1f)), 0),
    ByteRow(0x2000_0020, Some((2, 0x20)), 0x68),
    ByteRow(0x2000_0021, Some((2, 0x21)), 0xee),
    ByteRow(0x2000_0022, Some((2, 0x22)), 0x11),
    ByteRow(0x2000_0023, Some((2, 0x23)), 0x6c),
    ByteRow(0x2000_ffff, Some((2, 0xffff)), 0),
    ByteRow(0x2fff_ffff, None, 0),
    ByteRow(0x3000_0000, Some((0, 0)), 0),
    ByteRow(0x3000_03ff, Some((0, 0x3ff)), 0),
    ByteRow(0x3000_0400, Some((1, 0)), 0x01),
    ByteRow(0x3000_0500, None, 0),
    ByteRow(0xffff_fff0, Some((4, 0)), 0),
    ByteRow(0xffff_ffff, Some((4, 0xf)), 0x7f),
];

fn assert_bytes(rt: &impl Abort, image: &Image) {
    for ByteRow(address, place, byte) in &BYTES {
        let found = image.locate(*address);
        assert!(rt; found == *place, "{address:#x}");
        if found.is_some() {
            assert!(rt; image.load(*address, 1) == *byte, "{address:#x}");
        }
    }
}

#[test]
fn images_open_and_are_copied(rt: HostRuntime) -> Result<(), Fail> {
    let alloc = rt.alloc();
    let system = system(&rt, alloc)?;
    let image = image_with(&rt, alloc, &system, OPENING, LATER)?;
    assert_bytes(&rt, &image);
    assert_bytes(&rt, &image.copy_of(alloc)?);
    Ok(())
}
