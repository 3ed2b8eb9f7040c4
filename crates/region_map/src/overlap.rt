//! MMIO regions that share a byte with other regions.
ghost use Rattle.std.specs.Prelude.{◌≡◌, ◌∷◌, [], ◌++◌, ◌≤◌, ◌⊎◌, ◌||◌, IsTrue, None, false, map, not, option_map, IfOk};
ghost use Rattle.ffm_model.specs.Layout.{rams_of, non_secure_of, overlapping};
ghost use Rattle.ffm_model.specs.Repeats.{first};
ghost use Rattle.ffm_model.specs.WellFormed.{apart};
ghost use Rattle.region_map.specs.Seen.{spot};
ghost use Rattle.region_map.specs.Directories.{IsRange};
ghost use Rattle.region_map.specs.Placements.{located_of};
ghost use Rattle.region_map.specs.Overlaps.{extent, meets_ram, IsDisjoint, MeetsSome, MeetsNone};

use crate::place::Placed;
use crate::ram::{ram_total, rounded};
use ffm_model::{NON_SECURE_RAM_BASE, Parts, RAM_BASE, Region};
use std::alloc::{AllocError, Global};
use std::collections::BTreeMap;

// Whether a region shares a byte with the `size` bytes from `base` on.
fn meets(base: u32, size: u64, region: &Region) -> bool
    requires { size ≤ 2199023263488 }
    ensures { result ≡ not (apart (extent base size) region.now) }
{
    let first = u64::from(base);
    let other = u64::from(region.base);
    size != 0 && region.size != 0 && other < first + size && first < other + u64::from(region.size)
}

// Whether a region shares a byte with one of the earlier regions, whose sizes stand by their bases. Of
// these only the last one that begins before the region's end can reach into it.
fn meets_earlier(earlier: &BTreeMap<u32, u32>, region: &Region) -> bool
    requires earlier { IsDisjoint earlier.now }
    requires region { IsRange (region.now.base, region.now.size) }
    ensures hit { IsTrue result → MeetsSome earlier.now region.now }
    ensures miss { result ≡ false → MeetsNone earlier.now region.now }
{
    let last = region.base + (region.size - 1);
    match earlier.range(..=last).next_back() {
        Some((base, size)) => u64::from(region.base) < u64::from(*base) + u64::from(*size),
        None => false,
    }
}

// Whether a region shares a byte with RAM or with one of the earlier regions.
fn meets_any(ram: u64, non_secure: u64, earlier: &BTreeMap<u32, u32>, region: &Region) -> bool
    requires sizes { (ram ≤ 2199023263488) × (non_secure ≤ 2199023263488) }
    requires earlier { IsDisjoint earlier.now }
    requires region { IsRange (region.now.base, region.now.size) }
    ensures hit { IsTrue result
        → IsTrue (meets_ram ram non_secure region.now) ⊎ MeetsSome earlier.now region.now }
    ensures miss { result ≡ false
        → (meets_ram ram non_secure region.now ≡ false) × MeetsNone earlier.now region.now }
{
    meets(RAM_BASE, ram, region)
        || meets(NON_SECURE_RAM_BASE, non_secure, region)
        || meets_earlier(earlier, region)
}

// Whether each MMIO region lies after the one before it, and none shares a byte with RAM: the usual
// case, which needs no map.
fn follow_each_other(parts: &Parts, placed: &[Placed]) -> bool
    ensures { IsTrue result
        → first (overlapping (rams_of parts.now ++ non_secure_of parts.now ∷ [])
        (map located_of placed.now)) ≡ None }
{
    let ram = ram_total(parts.manifests.as_slice());
    let non_secure = rounded(u64::from(parts.non_secure_ram));
    let mut end = 0;
    for at in placed {
        let region = &at.region;
        if u64::from(region.base) < end
            || meets(RAM_BASE, ram, region)
            || meets(NON_SECURE_RAM_BASE, non_secure, region)
        {
            return false;
        }
        end = u64::from(region.base) + u64::from(region.size);
    }
    true
}

/// The place of the first MMIO region that shares a byte with RAM or with an earlier MMIO region.
pub fn first_overlap(
    alloc: Global,
    parts: &Parts,
    placed: &[Placed],
) -> Result<Option<(u32, u32)>, AllocError>
    ensures { IfOk result (λ found.
        found ≡ option_map spot (first (overlapping
        (rams_of parts.now ++ non_secure_of parts.now ∷ []) (map located_of placed.now)))) }
{
    if follow_each_other(parts, placed) {
        return Ok(None);
    }
    let ram = ram_total(parts.manifests.as_slice());
    let non_secure = rounded(u64::from(parts.non_secure_ram));
    let mut earlier = BTreeMap::new(alloc);
    for at in placed {
        if meets_any(ram, non_secure, &earlier, &at.region) {
            return Ok(Some((at.manifest, at.item)));
        }
        earlier.insert(at.region.base, at.region.size)?;
    }
    Ok(None)
}
