//! Actors and the services that they may use.
ghost use Rattle.std.specs.Prelude.{◌≡◌, ◌++◌, ◌≤◌, [], length, map, IfOk, OnOk};
ghost use Rattle.std.specs.List.{enumerate_from, flat_map};
ghost use Rattle.ffm_model.specs.Permissions.{permitted, permitted_to_partition, permitted_to_client};
ghost use Rattle.ffm_model.specs.Rules.{too_many_signals, too_many_partitions};
ghost use Rattle.region_map.specs.Seen.{seen};
ghost use Rattle.manifest_compile.specs.Pairs.{pair_seen, HasNames};

use ffm_model::{Manifest, Name, Parts, ServiceItem};
use region_map::{At, Named, Services, located};
use std::alloc::{AllocError, Global};
use std::collections::BTreeSet;

/// An actor that may use a service, by their places and their names.
#[derive(Drop)]
pub struct Pair<'a> {
    pub client: u32,
    pub client_name: &'a str,
    pub service: u32,
    pub service_name: &'a str,
    /// Whether it connects to the service; else it calls it by a stateless handle.
    pub connects: bool,
}

fn set_of<'a>(alloc: Global, names: &'a [Name]) -> Result<BTreeSet<&'a str>, AllocError>
    ensures { IfOk result (λ set. HasNames set names.now) }
{
    let mut set = BTreeSet::new(alloc);
    for name in names {
        set.insert(name.as_str())?;
    }
    Ok(set)
}

fn is_for_clients(service: &ServiceItem) -> bool
    ensures { result ≡ service.now.nonsecure }
{
    service.nonsecure
}

fn is_connection_based(service: &ServiceItem) -> bool
    ensures { result ≡ service.now.connection_based }
{
    service.connection_based
}

// Adds the services that a partition depends on.
fn add_dependencies<'a>(
    alloc: Global,
    found: &mut Vec<Pair<'a>>,
    client: u32,
    manifest: &'a Manifest,
    services: &[At<'a, ServiceItem>],
) -> Result<(), AllocError>
    requires { length services.now ≤ 896 }
    ensures { OnOk result (map pair_seen found.new.items
        ≡ map pair_seen found.old.items
        ++ permitted_to_partition (map seen services.now) (client, manifest.now)) }
{
    let client_name = manifest.name.as_str();
    let dependencies = set_of(alloc, manifest.dependencies.as_slice())?;
    for (place, at) in services.iter().enumerate() {
        let service_name = at.value.name();
        if dependencies.contains(service_name) {
            found.push(Pair {
                client,
                client_name,
                service: place as u32,
                service_name,
                connects: is_connection_based(at.value),
            })?;
        }
    }
    Ok(())
}

// Adds the services for non-secure clients.
fn add_non_secure<'a>(
    found: &mut Vec<Pair<'a>>,
    client: u32,
    client_name: &'a Name,
    services: &[At<'a, ServiceItem>],
) -> Result<(), AllocError>
    requires { length services.now ≤ 896 }
    ensures { OnOk result (map pair_seen found.new.items
        ≡ map pair_seen found.old.items
        ++ permitted_to_client (map seen services.now) (client, client_name.now)) }
{
    let client_name = client_name.as_str();
    for (place, at) in services.iter().enumerate() {
        if is_for_clients(at.value) {
            found.push(Pair {
                client,
                client_name,
                service: place as u32,
                service_name: at.value.name(),
                connects: is_connection_based(at.value),
            })?;
        }
    }
    Ok(())
}

// Adds the pairs of all partitions.
fn add_partitions<'a>(
    alloc: Global,
    found: &mut Vec<Pair<'a>>,
    manifests: &'a [Manifest],
    services: &[At<'a, ServiceItem>],
) -> Result<(), AllocError>
    requires manifests { length manifests.now ≤ 32 }
    requires services { length services.now ≤ 896 }
    ensures { OnOk result (map pair_seen found.new.items
        ≡ map pair_seen found.old.items
        ++ flat_map (permitted_to_partition (map seen services.now))
        (enumerate_from 0 manifests.now)) }
{
    for (k, manifest) in manifests.iter().enumerate() {
        add_dependencies(alloc, found, k as u32, manifest, services)?;
    }
    Ok(())
}

// Adds the pairs of all clients, whose places are after those of so many partitions.
fn add_clients<'a>(
    found: &mut Vec<Pair<'a>>,
    partitions: u32,
    clients: &'a [Name],
    services: &[At<'a, ServiceItem>],
) -> Result<(), AllocError>
    requires partitions { partitions ≤ 32 }
    requires clients { length clients.now ≤ 16 }
    requires services { length services.now ≤ 896 }
    ensures { OnOk result (map pair_seen found.new.items
        ≡ map pair_seen found.old.items
        ++ flat_map (permitted_to_client (map seen services.now))
        (enumerate_from partitions clients.now)) }
{
    for (k, client) in clients.iter().enumerate() {
        add_non_secure(found, partitions + k as u32, client, services)?;
    }
    Ok(())
}

/// All pairs of an actor and a service that it may use. No partition may have too many signals, and
/// there may not be too many partitions.
pub fn pairs(alloc: Global, parts: &Parts) -> Result<Vec<Pair<'_>>, AllocError>
    requires signals { too_many_signals parts.now ≡ [] }
    requires partitions { too_many_partitions parts.now ≡ [] }
    ensures { IfOk result (λ pairs. map pair_seen pairs.items ≡ permitted parts.now) }
{
    let manifests = parts.manifests.as_slice();
    let services = located::<Services>(alloc, manifests)?;
    let mut found = Vec::new(alloc);
    add_partitions(alloc, &mut found, manifests, services.as_slice())?;
    add_clients(
        &mut found,
        manifests.len() as u32,
        parts.clients.as_slice(),
        services.as_slice(),
    )?;
    Ok(found)
}
