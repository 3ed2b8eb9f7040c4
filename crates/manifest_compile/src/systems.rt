//! A system out of what a system file says.
ghost use Rattle.std.specs.Prelude.{◌≡◌, ℕ, ◌+◌, ◌++◌, ◌<◌, ◌≤◌, [], length, map, All, IfOk, OnOk};
ghost use Rattle.std.specs.List.{flat_map, enumerate_from};
ghost use Rattle.ffm_model.specs.Compiled.{partition_of, service_of, services_from, services_of, source_of, sources_of_manifest, system_parts};
ghost use Rattle.ffm_model.specs.Layout.{domain_at, located_from, regions_laid_out};
ghost use Rattle.ffm_model.specs.Parts.{parts_of_system};
ghost use Rattle.ffm_model.specs.PartsItems.{PartsRecord};
ghost use Rattle.ffm_model.specs.Permissions.{budgets_of};
ghost use Rattle.ffm_model.specs.Rules.{broken};
ghost use Rattle.region_map.specs.Seen.{seen};

use crate::indices::{index_for, stated_indices};
use ffm_model::{
    Budget, FRAMEWORK_1_0, IrqItem, List, Manifest, Name, Partition, Parts, Region, Regions,
    RotType, Service, ServiceItem, Source, System,
};
use region_map::{At, Services, domain_at, located};
use signal_alloc::{SignalMap, signal_of};
use std::alloc::{AllocError, Global};

// The partition with this place. The regions begin with the RAM of the partitions, in their order.
fn partition_of(level: u32, place: u32, manifest: &Manifest) -> Result<Partition, AllocError>
    requires { place < 256 }
    ensures { IfOk result (λ p. p ≡ partition_of level (place, manifest.now)) }
{
    let name = manifest.name.clone()?;
    Ok(Partition {
        name,
        rot: manifest.rot,
        priority: manifest.priority,
        domain: domain_at(level, manifest.rot, place + 1),
        ram: place,
        sfn: manifest.sfn,
        heap: manifest.heap_size,
    })
}

fn partitions_of(
    alloc: Global,
    level: u32,
    manifests: &[Manifest],
) -> Result<List<Partition>, AllocError>
    requires { length manifests.now ≤ 256 }
    ensures { IfOk result (λ partitions.
        partitions ≡ map (partition_of level) (enumerate_from 0 manifests.now)) }
{
    let mut partitions = Vec::new(alloc);
    for (k, manifest) in manifests.iter().enumerate() {
        partitions.push(partition_of(level, k as u32, manifest)?)?;
    }
    Ok(List::of(partitions))
}

fn signals_of(manifest: &Manifest) -> SignalMap
    requires { length manifest.now.services + length manifest.now.irqs ≤ 28 }
    ensures services { result.services ≡ length manifest.now.services }
    ensures irqs { result.irqs ≡ length manifest.now.irqs }
{
    SignalMap {
        services: manifest.services.len() as u32,
        irqs: manifest.irqs.len() as u32,
    }
}

fn service_of(
    index: u32,
    signals: SignalMap,
    at: &At<'_, ServiceItem>,
) -> Result<Service, AllocError>
    requires { at.now.item < signals.services + signals.irqs }
    ensures { IfOk result (λ v. v ≡ service_of index (seen at.now)) }
{
    let item = at.value;
    let name = item.name.clone()?;
    Ok(Service {
        name,
        sid: item.sid,
        owner: at.manifest,
        nonsecure: item.nonsecure,
        version: item.version,
        policy: item.policy,
        signal: signal_of(signals, at.item),
        stateless: index,
        mm: item.mm,
    })
}

// The services of these items, where these indices are taken.
fn services_from(
    alloc: Global,
    manifests: &[Manifest],
    taken: Vec<u32>,
    items: &[At<'_, ServiceItem>],
) -> Result<List<Service>, AllocError>
    requires signals { All (λ m. length m.services + length m.irqs ≤ 28) manifests.now }
    requires items { map seen items.now ≡ located_from (λ m. m.services) 0 manifests.now }
    ensures { IfOk result (λ services. services ≡ services_from taken.items (map seen items.now)) }
{
    let mut taken = taken;
    let mut services = Vec::new(alloc);
    for at in items {
        let index = index_for(taken.as_slice(), at.value);
        let signals = signals_of(&manifests[at.manifest as usize]);
        services.push(service_of(index, signals, at)?)?;
        taken.push(index)?;
    }
    Ok(List::of(services))
}

// The services of all partitions. The indices that some state are taken from the start.
fn services_of(alloc: Global, manifests: &[Manifest]) -> Result<List<Service>, AllocError>
    requires { All (λ m. length m.services + length m.irqs ≤ 28) manifests.now }
    ensures { IfOk result (λ services.
        (p : PartsRecord) → p.manifests ≡ manifests.now → services ≡ services_of p) }
{
    let items = located::<Services>(alloc, manifests)?;
    let taken = stated_indices(alloc, items.as_slice())?;
    services_from(alloc, manifests, taken, items.as_slice())
}

fn source_of(
    framework: u32,
    owner: u32,
    signals: SignalMap,
    place: u32,
    item: &IrqItem,
) -> Result<Source, AllocError>
    requires { place < signals.services + signals.irqs }
    ensures { IfOk result (λ s. s ≡ source_of framework owner (place, item.now)) }
{
    let name = item.source.clone()?;
    let signal_name = item.signal.clone()?;
    Ok(Source {
        name,
        signal_name,
        owner,
        signal: signal_of(signals, place),
        flih: item.flih,
        enabled: framework == FRAMEWORK_1_0,
    })
}

// Adds the interrupts of one partition.
fn add_sources(sources: &mut Vec<Source>, owner: u32, manifest: &Manifest) -> Result<(), AllocError>
    requires { length manifest.now.services + length manifest.now.irqs ≤ 28 }
    ensures { OnOk result
        (sources.new.items ≡ sources.old.items ++ sources_of_manifest (owner, manifest.now)) }
{
    let signals = signals_of(manifest);
    for (place, item) in manifest.irqs.as_slice().iter().enumerate() {
        let place = signals.services + place as u32;
        sources.push(source_of(manifest.framework, owner, signals, place, item)?)?;
    }
    Ok(())
}

fn sources_of(alloc: Global, manifests: &[Manifest]) -> Result<List<Source>, AllocError>
    requires few { length manifests.now ≤ 256 }
    requires signals { All (λ m. length m.services + length m.irqs ≤ 28) manifests.now }
    ensures { IfOk result (λ sources.
        sources ≡ flat_map sources_of_manifest (enumerate_from 0 manifests.now)) }
{
    let mut sources = Vec::new(alloc);
    for (k, manifest) in manifests.iter().enumerate() {
        add_sources(&mut sources, k as u32, manifest)?;
    }
    Ok(List::of(sources))
}

fn names_of(alloc: Global, names: &[Name]) -> Result<List<Name>, AllocError>
    ensures { IfOk result (λ copies. copies ≡ names.now) }
{
    let mut copies = Vec::new(alloc);
    for name in names {
        copies.push(name.clone()?)?;
    }
    Ok(List::of(copies))
}

/// The system of parts that break no rule, with its regions and budgets, kept by SID and by address too
/// (`System::in_order`). `AllocError` where memory is wanting.
pub fn system_of(
    alloc: Global,
    parts: &Parts,
    regions: List<Region>,
    budgets: List<Budget>,
) -> Result<System, AllocError>
    requires none { broken parts.now ≡ [] }
    requires regions { regions ≡ regions_laid_out parts.now }
    requires budgets { budgets ≡ budgets_of parts.now }
    ensures { IfOk result (λ s. parts_of_system s ≡ system_parts parts.now) }
{
    let manifests = parts.manifests.as_slice();
    let partitions = partitions_of(alloc, parts.level, manifests)?;
    let services = services_of(alloc, manifests)?;
    let sources = sources_of(alloc, manifests)?;
    let clients = names_of(alloc, parts.clients.as_slice())?;
    let system = System {
        level: parts.level,
        partitions,
        services: ffm_model::Services::of(services),
        sources,
        regions: Regions::of(regions),
        clients,
        budgets,
    };
    let ordered = system.in_order(alloc)?;
    Ok(ordered)
}
