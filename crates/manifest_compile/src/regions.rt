//! The regions of a system, or why it has none.
ghost use Rattle.std.specs.Prelude.{◌≡◌, ◌++◌, IfOk};
ghost use Rattle.ffm_model.specs.Layout.{regions_laid_out};
ghost use Rattle.ffm_model.specs.PartsItems.{PartsRecord};
ghost use Rattle.ffm_model.specs.Rules.{unknown_regions, overlapping_regions, memory_too_large};
ghost use Rattle.manifest_compile.specs.Keeps.{Keeps};
ghost use Rattle.manifest_compile.specs.Sizes.{HasSizes, large_steps};

use crate::refusals::{at_item, refused};
use ffm_model::{
    Key, List, MEMORY_TOO_LARGE, Parts, PathStep, REGION_OVERLAP, REGION_UNKNOWN, ReadError, Region,
};
use region_map::{LayoutError, lay_out};
use std::alloc::{AllocError, Global};

// The place of what is too large.
fn steps_of_large(
    alloc: Global,
    manifest: Option<u32>,
    item: Option<u32>,
    total: bool,
) -> Result<List<PathStep>, AllocError>
    ensures { IfOk result (λ steps. steps ≡ large_steps manifest item total) }
{
    let steps = match (manifest, item) {
        (Some(k), Some(i)) => Vec::from_slice(alloc, &at_item(Key::MmioRegions, (k, i)))?,
        (Some(k), None) => Vec::from_slice(
            alloc,
            &[
                PathStep::Key(Key::Manifests),
                PathStep::Index(k),
                PathStep::Key(Key::StackSize),
            ],
        )?,
        (None, _) if total => Vec::from_slice(alloc, &[PathStep::Key(Key::Manifests)])?,
        (None, _) => Vec::from_slice(alloc, &[PathStep::Key(Key::NonSecureRam)])?,
    };
    Ok(List::of(steps))
}

/// The regions of the system, or the place of the first one that is too large. Refused where an MMIO
/// item names no region, and otherwise where an MMIO region shares a byte with another region.
pub fn regions(
    alloc: Global,
    parts: &Parts,
) -> Result<Result<List<Region>, List<PathStep>>, ReadError>
    ensures keeps { Keeps result (unknown_regions parts.now ++ overlapping_regions parts.now) }
    ensures sizes { IfOk result (HasSizes parts.now) }
{
    match lay_out(alloc, parts) {
        Ok(regions) => Ok(Ok(regions)),
        Err(LayoutError::Unknown { manifest, item }) => refused(
            alloc,
            REGION_UNKNOWN,
            &at_item(Key::MmioRegions, (manifest, item)),
        ),
        Err(LayoutError::Overlap { manifest, item }) => refused(
            alloc,
            REGION_OVERLAP,
            &at_item(Key::MmioRegions, (manifest, item)),
        ),
        Err(
            LayoutError::TooLarge {
                manifest,
                item,
                total,
            },
        ) => Ok(Err(steps_of_large(alloc, manifest, item, total)?)),
        Err(LayoutError::Memory) => Err(ReadError::Memory),
    }
}

/// The regions of the system, or the refusal of the first one that is too large.
pub fn small_regions(
    alloc: Global,
    regions: Result<List<Region>, List<PathStep>>,
) -> Result<List<Region>, ReadError>
    ensures keeps { (p : PartsRecord) → HasSizes p regions → Keeps result (memory_too_large p) }
    ensures regions { (p : PartsRecord) → HasSizes p regions
        → IfOk result (λ made. made ≡ regions_laid_out p) }
{
    match regions {
        Ok(regions) => Ok(regions),
        Err(steps) => refused(alloc, MEMORY_TOO_LARGE, steps.as_slice()),
    }
}
