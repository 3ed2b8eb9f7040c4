//! The regions of a system, as its files lay them out.

use crate::names::object_with;
use ffm_model::{Key, NON_SECURE_RAM_BASE, RAM_BASE, Root};
use file_places::{Shown, Sources, Spot, number_of};
use std::alloc::AllocError;

const DEFAULT_NON_SECURE_RAM: u32 = 65536;

fn number(object: Spot<'_>, key: Key) -> u32 {
    number_of(object.value(key)).unwrap_or(0)
}

fn rounded(size: u32) -> u32 {
    size.saturating_add(31) / 32 * 32
}

// Writes the addresses of a region, if it has some, with what stands before them, and whose it is.
fn put_region(
    text: &mut String,
    before: &str,
    base: u32,
    size: u32,
    owner: &[u8],
) -> Result<(), AllocError> {
    if size == 0 {
        return Ok(());
    }
    let (last, owner) = (base.saturating_add(size - 1), Shown(owner));
    write!(text, "{before}{base:#010x} to {last:#010x} ({owner})")
}

// The MMIO regions of a partition, of which the system's named ones stand in the system file.
fn put_mmio(
    text: &mut String,
    sources: &Sources<'_>,
    manifest: Spot<'_>,
) -> Result<(), AllocError> {
    let named = sources.items(Key::Regions)?;
    for item in &manifest.items(sources.alloc, Key::MmioRegions)? {
        let name = item.value(Key::Name);
        let region = match object_with(&named, Key::Name, name) {
            Some(region) if !name.is_empty() => region,
            _ => *item,
        };
        let (base, size) = (number(region, Key::Base), number(region, Key::Size));
        put_region(text, ", ", base, size, manifest.value(Key::Name))?;
    }
    Ok(())
}

/// Writes the regions of the system: the partitions' RAM, their MMIO regions, and the clients' RAM.
pub fn put_regions(text: &mut String, sources: &Sources<'_>) -> Result<(), AllocError> {
    let manifests = sources.manifests()?;
    let (mut base, mut before) = (RAM_BASE, "");
    for manifest in &manifests {
        let stack = number(*manifest, Key::StackSize);
        let size = rounded(stack.saturating_add(number(*manifest, Key::HeapSize)));
        put_region(text, before, base, size, manifest.value(Key::Name))?;
        base = base.saturating_add(size);
        before = ", ";
    }
    for manifest in &manifests {
        put_mmio(text, sources, *manifest)?;
    }
    let stated = match sources.root(Root::System) {
        Some(system) => number_of(system.value(Key::NonSecureRam)),
        None => None,
    };
    let size = rounded(stated.unwrap_or(DEFAULT_NON_SECURE_RAM));
    put_region(text, ", ", NON_SECURE_RAM_BASE, size, b"clients")
}
