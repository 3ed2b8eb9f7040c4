//! The layout of a system.
ghost use Rattle.std.specs.Prelude.{◌≡◌, [], ◌++◌, map, IfOk, OnOk};
ghost use Rattle.ffm_model.specs.Layout.{mmio_of, regions_laid_out, too_large};
ghost use Rattle.region_map.specs.Layouts.{LaysOut};
ghost use Rattle.region_map.specs.Placements.{located_of};

use crate::at::{MmioRegions, located};
use crate::directory::Directory;
use crate::error::LayoutError;
use crate::large::first_too_large;
use crate::overlap::first_overlap;
use crate::place::Placed;
use crate::placed::place_all;
use crate::ram::{add_rams, non_secure_ram};
use ffm_model::{List, Parts, Region};
use std::alloc::{AllocError, Global};

// Adds the MMIO regions.
fn add_placed(regions: &mut Vec<Region>, placed: &[Placed]) -> Result<(), AllocError>
    ensures { OnOk result
        (regions.new.items ≡ regions.old.items ++ map (λ x. x.value) (map located_of placed.now)) }
{
    for at in placed {
        regions.push(at.region)?;
    }
    Ok(())
}

// The regions, where none is too large.
#[tactic(auto, using(crate::proofs::FitLemmas::ram_fits, crate::proofs::FitLemmas::non_secure_fits))]
fn regions_laid_out(
    alloc: Global,
    parts: &Parts,
    placed: &[Placed],
) -> Result<List<Region>, AllocError>
    requires placed { map located_of placed.now ≡ mmio_of parts.now }
    requires fits { too_large parts.now ≡ [] }
    ensures { IfOk result (λ regions. regions ≡ regions_laid_out parts.now) }
{
    let mut regions = Vec::new(alloc);
    add_rams(&mut regions, parts.level, parts.manifests.as_slice())?;
    regions.push(non_secure_ram(parts.non_secure_ram))?;
    add_placed(&mut regions, placed)?;
    Ok(List::of(regions))
}

/// The regions of the system that the parts of a system file make: the RAM of each partition in
/// manifest order from 0x30000000 on, non-secure RAM at 0x20000000, and then the MMIO regions in
/// manifest order. `base` is an address and `size` a number of bytes.
///
/// Refused for the first of these that holds, and there for the first item or manifest: an MMIO item
/// names no region of the system file; an MMIO region shares a byte with RAM or with an earlier MMIO
/// region; too many bytes, which is manifest by manifest RAM above 1 MiB and then MMIO regions above
/// 1 MiB, then non-secure RAM above 1 MiB, then all together above 16 MiB. Memory where no memory was
/// found.
pub fn lay_out(alloc: Global, parts: &Parts) -> Result<List<Region>, LayoutError>
    ensures { LaysOut parts.now result }
{
    let items = located::<MmioRegions>(alloc, parts.manifests.as_slice())?;
    let directory = Directory::of(alloc, parts.regions.as_slice(), items.as_slice().len())?;
    let placed = place_all(alloc, &directory, items.as_slice())?;
    if let Some((manifest, item)) = first_overlap(alloc, parts, placed.as_slice())? {
        return Err(LayoutError::Overlap { manifest, item });
    }
    if let Some(error) = first_too_large(parts, placed.as_slice()) {
        return Err(error);
    }
    Ok(regions_laid_out(alloc, parts, placed.as_slice())?)
}
