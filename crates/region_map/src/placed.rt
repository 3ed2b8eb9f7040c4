//! The MMIO regions of a system.
ghost use Rattle.std.specs.Prelude.{◌≡◌, [], map, option_map, IfOk, IfErr};
ghost use Rattle.std.specs.List.{filter_map};
ghost use Rattle.ffm_model.specs.Layout.{mmio_placed};
ghost use Rattle.region_map.specs.Seen.{seen};
ghost use Rattle.region_map.specs.Placements.{located_of, unknown_in, IsUnknown};

use crate::at::At;
use crate::directory::Directory;
use crate::error::LayoutError;
use crate::place::Placed;
use ffm_model::{Class, MmioItem, Region};
use std::alloc::Global;

// The region of an item. None exactly where it names no region.
fn placed(directory: &Directory, at: &At<MmioItem>) -> Option<Placed>
    ensures { option_map located_of result ≡ mmio_placed directory.now.regions.now (seen at.now) }
{
    let item = at.value;
    match directory.range(item) {
        Some((base, size)) => Some(Placed {
            manifest: at.manifest,
            item: at.item,
            region: Region {
                base,
                size,
                class: Class::Mmio {
                    owner: at.manifest,
                    writable: item.writable,
                },
            },
        }),
        None => None,
    }
}

/// The regions of the items, in order. Refused for the first item that names no region.
pub fn place_all(
    alloc: Global,
    directory: &Directory,
    items: &[At<MmioItem>],
) -> Result<Vec<Placed>, LayoutError>
    ensures placed { IfOk result (λ found.
        map located_of found.items
        ≡ filter_map (mmio_placed directory.now.regions.now) (map seen items.now)) }
    ensures known { IfOk result (λ _.
        unknown_in directory.now.regions.now (map seen items.now) ≡ []) }
    ensures unknown { IfErr result
        (IsUnknown (unknown_in directory.now.regions.now (map seen items.now))) }
{
    let mut found = Vec::new(alloc);
    for at in items {
        match placed(directory, at) {
            Some(region) => found.push(region)?,
            None => {
                return Err(LayoutError::Unknown {
                    manifest: at.manifest,
                    item: at.item,
                });
            }
        }
    }
    Ok(found)
}
