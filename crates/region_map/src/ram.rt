//! The RAM of partitions, and of non-secure clients.
ghost use Rattle.std.specs.Prelude.{◌≡◌, ◌+◌, ◌*◌, ◌++◌, ◌≤◌, length, sum_by, OnOk};
ghost use Rattle.ffm_model.specs.Layout.{rounded, ram_needed, domain_at, rams_from};

use ffm_model::{Class, Manifest, NON_SECURE_RAM_BASE, RAM_BASE, Region, RotType};
use std::alloc::AllocError;

/// Up to a multiple of 32.
pub fn rounded(size: u64) -> u64
    requires { size ≤ 8589934592 }
    ensures size { result ≡ rounded size }
    ensures bound { result ≤ 8589934623 }
{
    (size + 31) / 32 * 32
}

/// How many bytes of RAM the partition of a manifest has.
pub fn ram_needed(manifest: &Manifest) -> u64
    ensures size { result ≡ ram_needed manifest.now }
    ensures bound { result ≤ 8589934623 }
{
    rounded(u64::from(manifest.stack_size) + u64::from(manifest.heap_size))
}

/// How many bytes of RAM all partitions have.
pub fn ram_total(manifests: &[Manifest]) -> u64
    requires { length manifests.now ≤ 256 }
    ensures total { result ≡ sum_by ram_needed manifests.now }
    ensures bound { result ≤ 256 * 8589934623 }
{
    let mut total = 0;
    for manifest in manifests {
        total += ram_needed(manifest);
    }
    total
}

/// The isolation domain of a partition with an ID, 1 and up: at level 1 all have domain 1, at level 2 those
/// of the PSA Root of Trust have 1 and the others 2, and at level 3 each has its ID.
///
/// Source: FF-M 1.0, isolation levels.
pub fn domain_at(level: u32, rot: RotType, id: u32) -> u32
    ensures { result ≡ domain_at level rot id }
{
    match level {
        1 => 1,
        2 => match rot {
            RotType::PsaRot => 1,
            RotType::ApplicationRot => 2,
        },
        _ => id,
    }
}

/// Adds the RAM of each partition, one after the other.
pub fn add_rams(
    regions: &mut Vec<Region>,
    level: u32,
    manifests: &[Manifest],
) -> Result<(), AllocError>
    requires count { length manifests.now ≤ 256 }
    requires total { sum_by ram_needed manifests.now ≤ 16777216 }
    ensures { OnOk result
        (regions.new.items ≡ regions.old.items ++ rams_from level 0 RAM_BASE manifests.now) }
{
    let mut base = RAM_BASE;
    for (place, manifest) in manifests.iter().enumerate() {
        let size = ram_needed(manifest) as u32;
        let domain = domain_at(level, manifest.rot, place as u32 + 1);
        regions.push(Region {
            base,
            size,
            class: Class::Ram { domain },
        })?;
        base += size;
    }
    Ok(())
}

/// The RAM of non-secure clients, where so many bytes are asked for.
pub fn non_secure_ram(size: u32) -> Region
    requires { size ≤ 1048576 }
    ensures { result ≡ record
        { base = NON_SECURE_RAM_BASE; size = rounded size; class = Class.NonSecure } }
{
    Region {
        base: NON_SECURE_RAM_BASE,
        size: rounded(u64::from(size)) as u32,
        class: Class::NonSecure,
    }
}
