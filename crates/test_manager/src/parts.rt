//! Systems put together of their parts, and images of their memory.
ghost use Rattle.std.specs.Prelude.{◌≡◌, IfOk};
ghost use Rattle.ffm_model.specs.Ranges.{ranges_of};
ghost use Rattle.memory_image.specs.Pieces.{regions_of};

use ffm_model::{
    Budget, Bytes, Class, List, Name, Partition, Priority, Region, RotType, Service, System,
};
use memory_image::{Image, open_within};
use std::alloc::{AllocError, Global};
use std::process::Abort;
use std::test::Fail;

/// An address, and the bytes from there on.
pub(crate) type Piece = (u32, &'static [u8]);

pub(crate) fn region(base: u32, size: u32, class: Class) -> Region {
    Region { base, size, class }
}

pub(crate) fn unnamed(alloc: Global) -> Name {
    Name::of(String::new(alloc))
}

// A partition in each domain, whose RAM is the region at the same place.
fn partitions(alloc: Global, domains: &[u32]) -> Result<List<Partition>, AllocError> {
    let mut partitions = Vec::new(alloc);
    for (ram, domain) in (0..32).zip(domains) {
        partitions.push(Partition {
            name: unnamed(alloc),
            rot: RotType::ApplicationRot,
            priority: Priority::Normal,
            domain: *domain,
            ram,
            sfn: false,
            heap: 0,
        })?;
    }
    Ok(List::of(partitions))
}

/// A system of these regions, with a partition in each domain, whose RAM is the region at the same place, and one
/// client.
pub(crate) fn system_of(
    rt: &impl Abort,
    alloc: Global,
    domains: &[u32],
    regions: &[Region],
    services: List<Service>,
    budgets: List<Budget>,
) -> Result<System, Fail> {
    assert!(rt; regions.len() < 100 && services.len() < 100 && budgets.len() < 100);
    let system = System::new(
        3,
        partitions(alloc, domains)?,
        services,
        List::of(Vec::new(alloc)),
        List::of(regions.to_vec(alloc)?),
        List::of(vec![in alloc; unnamed(alloc)]?),
        budgets,
    );
    Ok(system.ok_or("the parts don't fit")?.in_order(alloc)?)
}

/// A system of these regions without a service.
pub(crate) fn memory_of(
    rt: &impl Abort,
    alloc: Global,
    domains: &[u32],
    regions: &[Region],
) -> Result<System, Fail> {
    let services = List::of(Vec::new(alloc));
    let budgets = List::of(Vec::new(alloc));
    system_of(rt, alloc, domains, regions, services, budgets)
}

// Adds the pieces to those that an image opens with.
fn add_pieces(
    alloc: Global,
    opening: &mut Vec<Bytes>,
    pieces: &[(u32, &[u8])],
) -> Result<(), AllocError> {
    for (address, bytes) in pieces {
        let content = List::of(bytes.to_vec(alloc)?);
        opening.push(Bytes {
            address: *address,
            content,
        })?;
    }
    Ok(())
}

/// The image of a system that opens with these pieces and then those, of which the later ones win.
#[tactic(auto, using(memory_image::proofs::Systems::system_fits, ffm_model::proofs::RangeLemmas::regions_few))]
pub(crate) fn image_with(
    rt: &impl Abort,
    alloc: Global,
    system: &System,
    first: &[(u32, &[u8])],
    later: &[(u32, &[u8])],
) -> Result<Image, Fail>
    ensures { IfOk result (λ image. regions_of image ≡ ranges_of system.now.regions) }
{
    let mut opening = Vec::new(alloc);
    add_pieces(alloc, &mut opening, first)?;
    add_pieces(alloc, &mut opening, later)?;
    let opening = List::of(opening);
    assert!(rt; open_within(system.regions.as_slice(), opening.as_slice()));
    Ok(Image::new(alloc, system.regions.list(), &opening)?)
}
