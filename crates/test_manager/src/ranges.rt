//! Which ranges an actor may name, read and write.

use crate::parts::{memory_of, region};
use ffm_model::{ActorId, Class, System};
use memory_image::{may_read, may_write, valid_buffer};
use std::alloc::Global;
use std::process::Abort;
use std::test::Fail;

const VAULT: ActorId = ActorId(0);

const SPY: ActorId = ActorId(1);

const CLIENT: ActorId = ActorId(2);

const NOBODY: ActorId = ActorId(3);

const READ_ONLY: Class = Class::Mmio {
    owner: 0,
    writable: false,
};

const WRITABLE: Class = Class::Mmio {
    owner: 0,
    writable: true,
};

// Two partitions whose RAM regions are neighbours, MMIO of the first one, a client, and a region without a byte.
fn system(rt: &impl Abort, alloc: Global, spy_domain: u32) -> Result<System, Fail> {
    let regions = [
        region(0x3000_0000, 0x400, Class::Ram { domain: 0 }),
        region(0x3000_0400, 0x100, Class::Ram { domain: spy_domain }),
        region(0x2000_0000, 0x1_0000, Class::NonSecure),
        region(0x4000_0000, 0x20, READ_ONLY),
        region(0xffff_fff0, 0x10, WRITABLE),
        region(0x3000_0400, 0, WRITABLE),
    ];
    memory_of(rt, alloc, &[0, spy_domain], &regions)
}

/// Whether a range is a valid buffer, readable and writable.
struct Rights {
    valid: bool,
    read: bool,
    write: bool,
}

const ALL: Rights = Rights {
    valid: true,
    read: true,
    write: true,
};

const READ_AND_WRITE: Rights = Rights {
    valid: false,
    read: true,
    write: true,
};

const READ: Rights = Rights {
    valid: false,
    read: true,
    write: false,
};

const NONE: Rights = Rights {
    valid: false,
    read: false,
    write: false,
};

/// An actor, where a range begins and how long it is, and what the actor may do with it.
struct RangeRow(ActorId, u32, u32, Rights);

const RANGES: [RangeRow; 19] = [
    RangeRow(CLIENT, 0, 0, ALL),
    RangeRow(CLIENT, 0x2000_fff8, 8, ALL),
    RangeRow(CLIENT, 0x2000_fff9, 8, NONE),
    RangeRow(CLIENT, 0xffff_fff0, 32, NONE),
    RangeRow(CLIENT, 0x2000_0000, 0x1_0000, ALL),
    RangeRow(CLIENT, 0x2000_0000, 0x1_0001, NONE),
    RangeRow(CLIENT, 0x2000_ffff, 1, ALL),
    RangeRow(CLIENT, 0x1fff_ffff, 1, NONE),
    RangeRow(CLIENT, 0x3000_0000, 4, NONE),
    RangeRow(CLIENT, 0x4000_0000, 4, NONE),
    RangeRow(VAULT, 0x3000_0000, 0x400, ALL),
    RangeRow(VAULT, 0x3000_03ff, 2, NONE),
    RangeRow(VAULT, 0x2000_0000, 1, NONE),
    RangeRow(VAULT, 0x4000_0000, 0x20, READ),
    RangeRow(VAULT, 0xffff_fff0, 0x10, READ_AND_WRITE),
    RangeRow(VAULT, 0xffff_fff0, 0x20, NONE),
    RangeRow(SPY, 0x3000_0000, 4, NONE),
    RangeRow(SPY, 0x4000_0000, 4, NONE),
    RangeRow(NOBODY, 0x2000_0000, 1, NONE),
];

// The same where both partitions are in one domain.
const SHARED: [RangeRow; 5] = [
    RangeRow(SPY, 0x3000_0000, 4, ALL),
    RangeRow(VAULT, 0x3000_0400, 0x100, ALL),
    RangeRow(VAULT, 0x3000_03ff, 2, NONE),
    RangeRow(SPY, 0x4000_0000, 4, NONE),
    RangeRow(CLIENT, 0x3000_0000, 4, NONE),
];

fn assert_ranges(rt: &impl Abort, system: &System, rows: &[RangeRow]) {
    for RangeRow(actor, base, len, rights) in rows {
        let named = valid_buffer(system, *actor, *base, *len) == rights.valid;
        let reads = may_read(system, *actor, *base, *len) == rights.read;
        let writes = may_write(system, *actor, *base, *len) == rights.write;
        assert!(rt; named && reads && writes, "{actor:?} {base:#x} {len:#x}");
    }
}

#[test]
fn actors_name_their_ranges(rt: HostRuntime) -> Result<(), Fail> {
    let alloc = rt.alloc();
    assert_ranges(&rt, &system(&rt, alloc, 1)?, &RANGES);
    assert_ranges(&rt, &system(&rt, alloc, 0)?, &SHARED);
    Ok(())
}
