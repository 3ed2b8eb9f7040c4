//! Where two images differ, and in how many places. They are compared 32 bytes at a time, the rest of a region one by
//! one.

use crate::parts::{Piece, image_with, memory_of, region};
use ffm_model::{Class, Region, System};
use memory_image::{count_differences, first_difference, first_difference_outside};
use std::alloc::Global;
use std::process::Abort;
use std::test::Fail;

const MMIO: Class = Class::Mmio {
    owner: 0,
    writable: true,
};

// Their order is not by address, some are neighbours, one has no byte and lies amid another, and one ends at 2^32.
fn system(rt: &impl Abort, alloc: Global) -> Result<System, Fail> {
    let regions = [
        region(0x3000_0000, 1_000, Class::Ram { domain: 0 }),
        region(0x2000_0000, 65, Class::NonSecure),
        region(0x4000_0010, 0, MMIO),
        region(0x4000_0000, 1, MMIO),
        region(0x4000_0001, 31, MMIO),
        region(0x4000_0020, 32, MMIO),
        region(0x4000_0100, 33, MMIO),
        region(0x1000_0000, 63, MMIO),
        region(0xffff_ffc0, 64, MMIO),
    ];
    memory_of(rt, alloc, &[0], &regions)
}

// What both images of a pair begin with.
const OPENING: &[Piece] = &[(0x3000_0020, &[0xff; 32]), (0xffff_ffc0, &[0x5a; 64])];

/// The least address where two images differ, their number, and the least one outside of a range.
type Compared = (Option<u32>, u32, Option<u32>);

// Two images, of which the second one opens with these changes too.
fn compared(
    rt: &impl Abort,
    alloc: Global,
    system: &System,
    changes: &[(u32, &[u8])],
    skip: Region,
) -> Result<Compared, Fail> {
    let one = image_with(rt, alloc, system, OPENING, &[])?;
    let other = image_with(rt, alloc, system, OPENING, changes)?;
    Ok((
        first_difference(&one, &other),
        count_differences(&one, &other),
        first_difference_outside(&one, &other, skip),
    ))
}

/// Changes of the second image of a pair, the least address where the two differ, and how many there are.
struct Changes(&'static [Piece], Option<u32>, u32);

const NONE: Changes = Changes(&[], None, 0);

// The bytes are what they were.
const SAME: Changes = Changes(&[(0x3000_0020, &[0xff; 32])], None, 0);

// Two of the three are what they were.
const PART: Changes = Changes(&[(0x3000_001f, &[0x00, 0xff, 0x00])], Some(0x3000_0021), 1);

// The last byte of a region, and the first of the next one.
const NEIGHBOURS: Changes = Changes(
    &[(0x4000_0020, &[0x01]), (0x4000_001f, &[0x01])],
    Some(0x4000_001f),
    2,
);

// Two bytes among the second 32 of the region of 1,000 bytes, and one after the last 32.
const THREE: Changes = Changes(
    &[
        (0x3000_0021, &[0x7f]),
        (0x3000_003f, &[0xfe]),
        (0x3000_03e5, &[0x01]),
    ],
    Some(0x3000_0021),
    3,
);

// In the region that ends at 2^32.
const LAST: Changes = Changes(
    &[
        (0xffff_ffc0, &[0x01]),
        (0xffff_ffef, &[0x01]),
        (0xffff_ffff, &[0x01]),
    ],
    Some(0xffff_ffc0),
    3,
);

// In three regions, of which the first one has the greatest address.
const APART: Changes = Changes(
    &[
        (0x3000_0000, &[0x01]),
        (0x2000_0040, &[0x01]),
        (0x1000_0000, &[0x01]),
    ],
    Some(0x1000_0000),
    3,
);

// All bytes of three regions, and the first of one more.
const WHOLE: Changes = Changes(
    &[
        (0x2000_0000, &[0x01; 65]),
        (0x4000_0001, &[0x01; 31]),
        (0x1000_0000, &[0x01; 63]),
        (0x4000_0100, &[0x01]),
    ],
    Some(0x1000_0000),
    160,
);

/// The changes, a range, and the least address outside of it where the images differ.
struct SkipRow(&'static Changes, u32, u32, Option<u32>);

const SKIPS: [SkipRow; 36] = [
    SkipRow(&NONE, 0, 0, None),
    SkipRow(&SAME, 0, 0, None),
    SkipRow(&PART, 0, 0, Some(0x3000_0021)),
    SkipRow(&NEIGHBOURS, 0x4000_0001, 31, Some(0x4000_0020)),
    SkipRow(&THREE, 0, 0, Some(0x3000_0021)),
    SkipRow(&THREE, 0x3000_0021, 0, Some(0x3000_0021)),
    SkipRow(&THREE, 0x3000_0021, 1, Some(0x3000_003f)),
    SkipRow(&THREE, 0x3000_0000, 0x21, Some(0x3000_0021)),
    SkipRow(&THREE, 0x3000_0000, 0x22, Some(0x3000_003f)),
    SkipRow(&THREE, 0x3000_0022, 0x3c6, Some(0x3000_0021)),
    SkipRow(&THREE, 0x3000_0021, 0x1e, Some(0x3000_003f)),
    SkipRow(&THREE, 0x3000_0021, 0x1f, Some(0x3000_03e5)),
    SkipRow(&THREE, 0x3000_0021, 0x3c4, Some(0x3000_03e5)),
    SkipRow(&THREE, 0x3000_0021, 0x3c5, None),
    SkipRow(&THREE, 0x3000_0000, 1_000, None),
    SkipRow(&THREE, 0x2fff_ff00, 0x150, Some(0x3000_03e5)),
    SkipRow(&THREE, 0x3000_0050, 0xffff_ffff, Some(0x3000_0021)),
    SkipRow(&THREE, 0x3000_03e8, 0x100, Some(0x3000_0021)),
    SkipRow(&THREE, 0x2000_0000, 65, Some(0x3000_0021)),
    SkipRow(&LAST, 0xffff_ffc0, 1, Some(0xffff_ffef)),
    SkipRow(&LAST, 0xffff_ffc0, 0x30, Some(0xffff_ffff)),
    SkipRow(&LAST, 0xffff_ffc0, 0x3f, Some(0xffff_ffff)),
    SkipRow(&LAST, 0xffff_ffc0, 0x40, None),
    SkipRow(&LAST, 0xffff_ffc1, 0x3f, Some(0xffff_ffc0)),
    SkipRow(&LAST, 0xffff_ffff, 1, Some(0xffff_ffc0)),
    SkipRow(&LAST, 0xffff_ffc0, 0xffff_ffff, None),
    SkipRow(&LAST, 0, 0xffff_ffff, Some(0xffff_ffff)),
    SkipRow(&LAST, 1, 0xffff_ffff, None),
    SkipRow(&APART, 0, 0, Some(0x1000_0000)),
    SkipRow(&APART, 0x2000_0000, 65, Some(0x1000_0000)),
    SkipRow(&APART, 0x1000_0000, 1, Some(0x2000_0040)),
    SkipRow(&APART, 0x1000_0000, 63, Some(0x2000_0040)),
    SkipRow(&APART, 0x1000_0000, 0x1000_0041, Some(0x3000_0000)),
    SkipRow(&APART, 0x1000_0000, 0x2000_0001, None),
    SkipRow(&APART, 0x2000_0040, 0x1000_0001, Some(0x1000_0000)),
    SkipRow(&WHOLE, 0x1000_0000, 0x3000_001f, Some(0x4000_001f)),
];

#[test]
fn images_are_compared(rt: HostRuntime) -> Result<(), Fail> {
    let alloc = rt.alloc();
    let system = system(&rt, alloc)?;
    for (k, SkipRow(changes, base, size, outside)) in SKIPS.iter().enumerate() {
        let skip = region(*base, *size, MMIO);
        let found = compared(&rt, alloc, &system, changes.0, skip)?;
        assert!(rt; found == (changes.1, changes.2, *outside), "at {k}");
    }
    Ok(())
}

/// Where bytes of a region begin, and how many of them are tried.
struct RegionRow(u32, u32);

const REGIONS: [RegionRow; 10] = [
    RegionRow(0x1000_0000, 63),
    RegionRow(0x2000_0000, 65),
    RegionRow(0x3000_0000, 100),
    RegionRow(0x3000_01f4, 1),
    RegionRow(0x3000_03c0, 40),
    RegionRow(0x4000_0000, 1),
    RegionRow(0x4000_0001, 31),
    RegionRow(0x4000_0020, 32),
    RegionRow(0x4000_0100, 33),
    RegionRow(0xffff_ffc0, 64),
];

// Where one of these bytes is the only one that differs, it is the one that is found.
fn assert_each_byte(
    rt: &impl Abort,
    alloc: Global,
    system: &System,
    row: &RegionRow,
) -> Result<(), Fail> {
    for place in 0..row.1 {
        let address = row.0.wrapping_add(place);
        let changes: &[(u32, &[u8])] = &[(address, &[0x80])];
        let found = compared(rt, alloc, system, changes, region(address, 1, MMIO))?;
        assert!(rt; found == (Some(address), 1, None), "{address:#x}");
    }
    Ok(())
}

#[test]
fn each_byte_is_compared(rt: HostRuntime) -> Result<(), Fail> {
    let alloc = rt.alloc();
    let system = system(&rt, alloc)?;
    for row in &REGIONS {
        assert_each_byte(&rt, alloc, &system, row)?;
    }
    Ok(())
}
