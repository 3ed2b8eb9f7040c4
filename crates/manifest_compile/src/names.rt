//! Names and SIDs that differ.
ghost use Rattle.std.specs.Prelude.{◌≡◌, ◌==◌, ◌++◌, ◌≤◌, length, map, option_map, IfOk, OnOk};
ghost use Rattle.std.specs.List.{enumerate_from};
ghost use Rattle.std.specs.Str.{bytes_eq};
ghost use Rattle.ffm_model.specs.Repeats.{first, repeated};
ghost use Rattle.ffm_model.specs.Rules.{titles, partition_title, client_title, duplicate_partitions, duplicate_services, duplicate_sids, duplicate_sources};
ghost use Rattle.region_map.specs.Seen.{seen, spot};
ghost use Rattle.manifest_compile.specs.Keeps.{Keeps};
ghost use Rattle.manifest_compile.specs.Names.{steps_of, title_seen};

use crate::refusals::{at_part, refused};
use ffm_model::{
    DUPLICATE_IRQ_SOURCE, DUPLICATE_PARTITION, DUPLICATE_SERVICE, DUPLICATE_SID, Key, Manifest,
    Name, Parts, PathStep, ReadError, ServiceItem,
};
use region_map::{At, Irqs, Services, located, repeated_name};
use std::alloc::{AllocError, Global};
use std::collections::BTreeSet;

/// Whose name it is: the partition's or the client's with this number.
#[derive(Clone, Copy, Debug, PartialEq, Eq)]
enum Titled {
    Partition(u32),
    Client(u32),
}

/// The name of a partition or a client, lent.
#[derive(Drop)]
struct LentTitle<'a> {
    name: &'a str,
    titled: Titled,
}

// Adds the names of the partitions.
fn add_partitions<'a>(
    found: &mut Vec<LentTitle<'a>>,
    manifests: &'a [Manifest],
) -> Result<(), AllocError>
    requires { length manifests.now ≤ 256 }
    ensures { OnOk result (map title_seen found.new.items
        ≡ map title_seen found.old.items ++ map partition_title (enumerate_from 0 manifests.now)) }
{
    for (k, manifest) in manifests.iter().enumerate() {
        found.push(LentTitle {
            name: manifest.name.as_str(),
            titled: Titled::Partition(k as u32),
        })?;
    }
    Ok(())
}

// Adds the names of the clients.
fn add_clients<'a>(found: &mut Vec<LentTitle<'a>>, clients: &'a [Name]) -> Result<(), AllocError>
    requires { length clients.now ≤ 16 }
    ensures { OnOk result (map title_seen found.new.items
        ≡ map title_seen found.old.items ++ map client_title (enumerate_from 0 clients.now)) }
{
    for (k, client) in clients.iter().enumerate() {
        found.push(LentTitle {
            name: client.as_str(),
            titled: Titled::Client(k as u32),
        })?;
    }
    Ok(())
}

fn titles(alloc: Global, parts: &Parts) -> Result<Vec<LentTitle<'_>>, AllocError>
    ensures { IfOk result (λ found. map title_seen found.items ≡ titles parts.now) }
{
    let mut found = Vec::new(alloc);
    add_partitions(&mut found, parts.manifests.as_slice())?;
    add_clients(&mut found, parts.clients.as_slice())?;
    Ok(found)
}

// Whose name is the first that an earlier one has.
fn repeated_title(alloc: Global, titles: &[LentTitle<'_>]) -> Result<Option<Titled>, AllocError>
    ensures { IfOk result (λ found.
        option_map steps_of found
        ≡ option_map (λ x. x.steps)
        (first (repeated (λ x y. bytes_eq x.name y.name) (map title_seen titles.now)))) }
{
    let mut names = BTreeSet::new(alloc);
    for title in titles {
        if !names.insert(title.name)? {
            return Ok(Some(title.titled));
        }
    }
    Ok(None)
}

/// Refuses the first partition or client that has an earlier one's name.
pub fn partitions_differ(alloc: Global, parts: &Parts) -> Result<(), ReadError>
    ensures { Keeps result (duplicate_partitions parts.now) }
{
    let titles = titles(alloc, parts)?;
    match repeated_title(alloc, titles.as_slice())? {
        Some(Titled::Partition(k)) => refused(
            alloc,
            DUPLICATE_PARTITION,
            &[
                PathStep::Key(Key::Manifests),
                PathStep::Index(k),
                PathStep::Key(Key::Name),
            ],
        ),
        Some(Titled::Client(k)) => refused(
            alloc,
            DUPLICATE_PARTITION,
            &[PathStep::Key(Key::Clients), PathStep::Index(k)],
        ),
        None => Ok(()),
    }
}

/// Refuses the first service that has an earlier one's name.
pub fn services_differ(alloc: Global, parts: &Parts) -> Result<(), ReadError>
    ensures { Keeps result (duplicate_services parts.now) }
{
    let services = located::<Services>(alloc, parts.manifests.as_slice())?;
    match repeated_name(alloc, services.as_slice())? {
        Some(at) => refused(
            alloc,
            DUPLICATE_SERVICE,
            &at_part(Key::Services, Key::Name, at),
        ),
        None => Ok(()),
    }
}

fn sid_of(service: &ServiceItem) -> u32
    ensures { result ≡ service.now.sid.0 }
{
    service.sid.0
}

// The place of the first service that has an earlier one's SID.
fn repeated_sid(
    alloc: Global,
    services: &[At<'_, ServiceItem>],
) -> Result<Option<(u32, u32)>, AllocError>
    ensures { IfOk result (λ found.
        found ≡ option_map spot
        (first (repeated (λ x y. x.value.sid.0 == y.value.sid.0) (map seen services.now)))) }
{
    let mut sids = BTreeSet::new(alloc);
    for at in services {
        if !sids.insert(sid_of(at.value))? {
            return Ok(Some((at.manifest, at.item)));
        }
    }
    Ok(None)
}

/// Refuses the first service that has an earlier one's SID.
pub fn sids_differ(alloc: Global, parts: &Parts) -> Result<(), ReadError>
    ensures { Keeps result (duplicate_sids parts.now) }
{
    let services = located::<Services>(alloc, parts.manifests.as_slice())?;
    match repeated_sid(alloc, services.as_slice())? {
        Some(at) => refused(alloc, DUPLICATE_SID, &at_part(Key::Services, Key::Sid, at)),
        None => Ok(()),
    }
}

/// Refuses the first interrupt whose source has an earlier one's name.
pub fn sources_differ(alloc: Global, parts: &Parts) -> Result<(), ReadError>
    ensures { Keeps result (duplicate_sources parts.now) }
{
    let irqs = located::<Irqs>(alloc, parts.manifests.as_slice())?;
    match repeated_name(alloc, irqs.as_slice())? {
        Some(at) => refused(
            alloc,
            DUPLICATE_IRQ_SOURCE,
            &at_part(Key::Irqs, Key::Source, at),
        ),
        None => Ok(()),
    }
}
