//! Stateless services and their indices.
ghost use Rattle.std.specs.Prelude.{◌≡◌, ◌==◌, ◌&&◌, not, map, nat_lt, count_by, option_map, IfOk};
ghost use Rattle.std.specs.List.{list_any};
ghost use Rattle.ffm_model.specs.Compiled.{free_index, index_for};
ghost use Rattle.ffm_model.specs.Repeats.{first, repeated};
ghost use Rattle.ffm_model.specs.Rules.{duplicate_indices, too_many_stateless};
ghost use Rattle.region_map.specs.Seen.{seen, spot};
ghost use Rattle.manifest_compile.specs.Keeps.{Keeps};

use crate::refusals::{at_part, refused};
use ffm_model::{
    DUPLICATE_STATELESS_INDEX, Key, MAX_STATELESS, Parts, PathStep, ReadError, ServiceItem,
    TOO_MANY_STATELESS,
};
use region_map::{At, Services, located};
use std::alloc::{AllocError, Global};
use std::collections::BTreeSet;

fn is_stateless(service: &ServiceItem) -> bool
    ensures { result ≡ not service.now.connection_based }
{
    !service.connection_based
}

// The index that a service states, or 0.
fn stated_index(service: &ServiceItem) -> u32
    ensures { result ≡ service.now.stateless_handle }
{
    service.stateless_handle
}

// The place of the first service that states an earlier one's index.
fn repeated_index(
    alloc: Global,
    services: &[At<'_, ServiceItem>],
) -> Result<Option<(u32, u32)>, AllocError>
    ensures { IfOk result (λ found.
        found ≡ option_map spot (first (repeated (λ x y.
        not (y.value.stateless_handle == 0)
        && (x.value.stateless_handle == y.value.stateless_handle)) (map seen services.now)))) }
{
    let mut indices = BTreeSet::new(alloc);
    for at in services {
        let index = stated_index(at.value);
        let is_new = indices.insert(index)?;
        if index != 0 && !is_new {
            return Ok(Some((at.manifest, at.item)));
        }
    }
    Ok(None)
}

/// Refuses the first service that states an earlier one's index.
pub fn indices_differ(alloc: Global, parts: &Parts) -> Result<(), ReadError>
    ensures { Keeps result (duplicate_indices parts.now) }
{
    let services = located::<Services>(alloc, parts.manifests.as_slice())?;
    match repeated_index(alloc, services.as_slice())? {
        Some(at) => refused(
            alloc,
            DUPLICATE_STATELESS_INDEX,
            &at_part(Key::Services, Key::StatelessHandle, at),
        ),
        None => Ok(()),
    }
}

fn are_too_many(services: &[At<'_, ServiceItem>]) -> bool
    ensures { result ≡ nat_lt MAX_STATELESS
        (count_by (λ x. not x.value.connection_based) (map seen services.now)) }
{
    let mut stateless: usize = 0;
    for at in services {
        if is_stateless(at.value) {
            stateless += 1;
        }
    }
    stateless > MAX_STATELESS as usize
}

/// Refuses more stateless services than there are indices.
pub fn stateless_are_few(alloc: Global, parts: &Parts) -> Result<(), ReadError>
    ensures { Keeps result (too_many_stateless parts.now) }
{
    let services = located::<Services>(alloc, parts.manifests.as_slice())?;
    if are_too_many(services.as_slice()) {
        return refused(alloc, TOO_MANY_STATELESS, &[PathStep::Key(Key::Manifests)]);
    }
    Ok(())
}

/// The indices that services state, 0 for each that states none.
pub fn stated_indices(
    alloc: Global,
    services: &[At<'_, ServiceItem>],
) -> Result<Vec<u32>, AllocError>
    ensures { IfOk result (λ indices.
        indices.items ≡ map (λ x. x.value.stateless_handle) (map seen services.now)) }
{
    let mut indices = Vec::new(alloc);
    for at in services {
        indices.push(stated_index(at.value))?;
    }
    Ok(indices)
}

fn is_taken(taken: &[u32], index: u32) -> bool
    ensures { result ≡ list_any (λ t. t == index) taken.now }
{
    taken.contains(&index)
}

// The least index that isn't taken, or 0 where all are.
fn free_index(taken: &[u32]) -> u32
    ensures { result ≡ free_index taken.now }
{
    for index in 1..MAX_STATELESS + 1 {
        if !is_taken(taken, index) {
            return index;
        }
    }
    0
}

/// The index of a service where these are taken: the one that it states, or the least free one, and 0
/// where clients connect to it.
pub fn index_for(taken: &[u32], service: &ServiceItem) -> u32
    ensures { result ≡ index_for taken.now service.now }
{
    if !is_stateless(service) {
        return 0;
    }
    match stated_index(service) {
        0 => free_index(taken),
        stated => stated,
    }
}
