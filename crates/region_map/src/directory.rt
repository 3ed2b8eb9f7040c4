//! The regions of a system file by their names.
ghost use Rattle.std.specs.Prelude.{◌≡◌, find, IfSome, IfOk};
ghost use Rattle.std.specs.Option.{ForSome, option_copied};
ghost use Rattle.std.specs.Str.{bytes_eq};
ghost use Rattle.ffm_model.specs.Layout.{range_named};
ghost use Rattle.region_map.specs.Directories.{TellsFirst, IsRange};

use ffm_model::{Location, MmioItem, RegionItem};
use std::alloc::{AllocError, Global};
use std::collections::BTreeMap;

// The most look-ups for which the regions themselves are searched.
const FEW: usize = 16;

/// The regions that manifests may name, with the place of the first one of each name where many are looked up.
#[derive(Drop)]
pub struct Directory<'a> {
    regions: &'a [RegionItem],
    places: Option<BTreeMap<&'a str, usize>>,
    ghost first: { ForSome places (λ places. TellsFirst places regions.now) },
}

// The place of the first region of each name.
fn places_of(alloc: Global, regions: &[RegionItem]) -> Result<BTreeMap<&str, usize>, AllocError>
    ensures { IfOk result (λ places. TellsFirst places regions.now) }
{
    let mut places = BTreeMap::new(alloc);
    for (place, region) in regions.iter().enumerate() {
        places.entry(region.name.as_str())?.or_insert(place);
    }
    Ok(places)
}

impl<'a> Directory<'a> {
    /// The regions, by their names. `count` is how many of them are to be looked up, which decides how.
    pub fn of(
        alloc: Global,
        regions: &'a [RegionItem],
        count: usize,
    ) -> Result<Directory<'a>, AllocError>
        ensures { IfOk result (λ directory. directory.regions.now ≡ regions.now) }
    {
        if count <= FEW {
            return Ok(Directory {
                regions,
                places: None,
            });
        }
        match places_of(alloc, regions) {
            Ok(places) => Ok(Directory {
                regions,
                places: Some(places),
            }),
            Err(e) => Err(e),
        }
    }

    // The first region of a name.
    fn find(&self, name: &str) -> Option<&RegionItem>
        ensures { option_copied result ≡ find (λ r. bytes_eq r.name name.now) self.now.regions.now }
    {
        let Some(places) = &self.places else {
            return self.regions.iter().find(|r| r.name.as_str() == name);
        };
        match places.get(name) {
            Some(place) => self.regions.get(*place),
            None => None,
        }
    }

    /// The base and the size of an MMIO item's region. None exactly where it names no region.
    pub fn range(&self, item: &MmioItem) -> Option<(u32, u32)>
        ensures named { result ≡ range_named self.now.regions.now item.now.location }
        ensures fits { IfSome result IsRange }
    {
        match &item.location {
            Location::Named(name) => match self.find(name.as_str()) {
                Some(region) => Some((region.base, region.size)),
                None => None,
            },
            Location::Numbered { base, size } => Some((*base, *size)),
        }
    }
}
