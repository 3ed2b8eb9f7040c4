//! Regions that are too large.
ghost use Rattle.std.specs.Prelude.{◌≡◌, ◌+◌, ◌≤◌, length, map, find, nat_lt, option_map, sum_by};
ghost use Rattle.std.specs.List.{position_from};
ghost use Rattle.ffm_model.specs.Layout.{is_large, mmio_of, too_large};
ghost use Rattle.ffm_model.specs.Repeats.{first};
ghost use Rattle.region_map.specs.Seen.{spot};
ghost use Rattle.region_map.specs.Layouts.{large_error};
ghost use Rattle.region_map.specs.Placements.{located_of};
ghost use Rattle.region_map.specs.Sizes.{has_large_ram, is_large_region, earlier_of};

use crate::error::LayoutError;
use crate::place::Placed;
use crate::ram::{ram_needed, ram_total, rounded};
use ffm_model::{MAX_IMAGE_BYTES, MAX_REGION_BYTES, Manifest, Parts};

fn is_large(size: u64) -> bool
    ensures { result ≡ is_large size }
{
    size > u64::from(MAX_REGION_BYTES)
}

// The first manifest whose partition's RAM is too large.
fn first_large_ram(manifests: &[Manifest]) -> Option<u32>
    requires { length manifests.now ≤ 256 }
    ensures { result ≡ position_from has_large_ram 0 manifests.now }
{
    for (place, manifest) in manifests.iter().enumerate() {
        if is_large(ram_needed(manifest)) {
            return Some(place as u32);
        }
    }
    None
}

// The place of the first MMIO region that is too large.
fn first_large_item(placed: &[Placed]) -> Option<(u32, u32)>
    ensures { result ≡ option_map spot (find is_large_region (map located_of placed.now)) }
{
    for at in placed {
        if is_large(u64::from(at.region.size)) {
            return Some((at.manifest, at.item));
        }
    }
    None
}

// The error for the first of the two: the RAM of a manifest's partition comes before its items.
fn earlier_of(ram: Option<u32>, item: Option<(u32, u32)>) -> Option<LayoutError>
    ensures { result ≡ option_map large_error (earlier_of ram item) }
{
    let large = |manifest: u32, item: Option<u32>| LayoutError::TooLarge {
        manifest: Some(manifest),
        item,
        total: false,
    };
    match (ram, item) {
        (Some(manifest), Some((other, item))) => {
            if manifest <= other {
                Some(large(manifest, None))
            } else {
                Some(large(other, Some(item)))
            }
        }
        (Some(manifest), None) => Some(large(manifest, None)),
        (None, Some((manifest, item))) => Some(large(manifest, Some(item))),
        (None, None) => None,
    }
}

// Whether the regions have more bytes than all regions may have, `start` bytes of RAM with them.
fn exceeds_image(start: u64, placed: &[Placed]) -> bool
    requires { start ≤ 4398046526976 }
    ensures { result ≡ nat_lt MAX_IMAGE_BYTES (start + sum_by (λ x. x.region.size) placed.now) }
{
    let limit = u64::from(MAX_IMAGE_BYTES);
    let mut total = start;
    for at in placed {
        if total > limit {
            return true;
        }
        total += u64::from(at.region.size);
    }
    total > limit
}

fn without_place(total: bool) -> LayoutError
    ensures { result ≡ LayoutError.TooLarge None None total }
{
    LayoutError::TooLarge {
        manifest: None,
        item: None,
        total,
    }
}

/// The error for the first that is too large. None exactly where nothing is.
pub fn first_too_large(parts: &Parts, placed: &[Placed]) -> Option<LayoutError>
    requires { map located_of placed.now ≡ mmio_of parts.now }
    ensures { result ≡ option_map large_error (first (too_large parts.now)) }
{
    let manifests = parts.manifests.as_slice();
    let non_secure = rounded(u64::from(parts.non_secure_ram));
    let found = earlier_of(first_large_ram(manifests), first_large_item(placed));
    if found.is_some() {
        return found;
    }
    if is_large(non_secure) {
        return Some(without_place(false));
    }
    if exceeds_image(ram_total(manifests) + non_secure, placed) {
        return Some(without_place(true));
    }
    None
}
