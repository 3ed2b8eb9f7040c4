//! Items of manifests with their places.
ghost use Rattle.std.specs.Prelude.{◌≡◌, ◌++◌, map, List, IfOk, OnOk};
ghost use Rattle.ffm_model.specs.ManifestItems.{ManifestRecord};
ghost use Rattle.ffm_model.specs.Layout.{located_in, located_from};
ghost use Rattle.region_map.specs.Seen.{seen};

use ffm_model::{IrqItem, Manifest, MmioItem, Name, ServiceItem};
use std::alloc::{AllocError, Global};

/// An item of a manifest's list, lent, with its place: the manifest's number, and the item's in the
/// list, each from 0.
#[derive(Drop)]
pub struct At<'a, T> {
    pub manifest: u32,
    pub item: u32,
    pub value: &'a T,
}

/// A list of items that each manifest has.
pub trait ItemList {
    type Item;

    ghost items: { ManifestRecord → List Self.Item };

    /// The items of a manifest, in the file's order.
    fn items(manifest: &Manifest) -> &[Self::Item]
        ensures { result.now ≡ items manifest.now };
}

/// The manifest's `mmio_regions`.
pub struct MmioRegions;

impl ItemList for MmioRegions {
    type Item = MmioItem;

    ghost items = { λ m. m.mmio };

    fn items(manifest: &Manifest) -> &[MmioItem] {
        manifest.mmio.as_slice()
    }
}

/// The manifest's `services`.
pub struct Services;

impl ItemList for Services {
    type Item = ServiceItem;

    ghost items = { λ m. m.services };

    fn items(manifest: &Manifest) -> &[ServiceItem] {
        manifest.services.as_slice()
    }
}

/// The manifest's `dependencies`.
pub struct Dependencies;

impl ItemList for Dependencies {
    type Item = Name;

    ghost items = { λ m. m.dependencies };

    fn items(manifest: &Manifest) -> &[Name] {
        manifest.dependencies.as_slice()
    }
}

/// The manifest's `irqs`.
pub struct Irqs;

impl ItemList for Irqs {
    type Item = IrqItem;

    ghost items = { λ m. m.irqs };

    fn items(manifest: &Manifest) -> &[IrqItem] {
        manifest.irqs.as_slice()
    }
}

// The number of an item. Err where it doesn't fit 32 bits, for which a list would need 2^32 items.
fn number(index: usize) -> Result<u32, AllocError>
    ensures { IfOk result (λ n. n ≡ index) }
{
    u32::try_from(index).map_err(|_| AllocError)
}

// Adds the items of one manifest.
fn add<'a, T>(found: &mut Vec<At<'a, T>>, manifest: u32, items: &'a [T]) -> Result<(), AllocError>
    ensures { OnOk result
        (map seen found.new.items ≡ map seen found.old.items ++ located_in manifest 0 items.now) }
{
    for i in 0..items.len() {
        let item = number(i)?;
        found.push(At {
            manifest,
            item,
            value: &items[i],
        })?;
    }
    Ok(())
}

/// The items of all manifests, in manifest order and then in item order. Err where no memory was found
/// or a list has more than 2^32 items.
pub fn located<'a, K: ItemList>(
    alloc: Global,
    manifests: &'a [Manifest],
) -> Result<Vec<At<'a, K::Item>>, AllocError>
    ensures { IfOk result (λ found. map seen found.items ≡ located_from K.items 0 manifests.now) }
{
    let mut found = Vec::new(alloc);
    for k in 0..manifests.len() {
        let manifest = number(k)?;
        add(&mut found, manifest, K::items(&manifests[k]))?;
    }
    Ok(found)
}
