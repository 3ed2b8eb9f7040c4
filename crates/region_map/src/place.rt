//! An MMIO region with its item's place.
ghost use Rattle.region_map.specs.Directories.{IsRange};

use ffm_model::Region;

/// The region of an MMIO item, and the item's place: its manifest's number, and its own in that
/// manifest's list, each from 0. The region has at least one byte and ends by 2^32.
#[derive(Clone, Copy, Debug)]
pub struct Placed {
    pub manifest: u32,
    pub item: u32,
    pub region: Region,
    pub ghost filled: { IsRange (region.base, region.size) },
}
