//! Dependencies of partitions.
ghost use Rattle.std.specs.Prelude.{◌≡◌, ℕ, List, IfSome, All, slice_index_or, ◌==◌, ◌+◌, ◌*◌, ◌<◌, ◌≤◌, ◌&&◌, ◌||◌, [], not, false, length, map, filter, is_some, option_map, IfOk};
ghost use Rattle.std.specs.List.{list_any, AllByRecursion as Each};
ghost use Rattle.ffm_model.specs.Circles.{first_circle};
ghost use Rattle.ffm_model.specs.Repeats.{first};
ghost use Rattle.ffm_model.specs.Rules.{dependencies_in, is_known, has_service, depends, duplicate_services, unknown_dependencies, self_dependencies, dependency_cycle, cycle_refusal};
ghost use Rattle.region_map.specs.Seen.{seen, spot};
ghost use Rattle.manifest_compile.specs.Keeps.{Keeps, IsRefused};
ghost use Rattle.manifest_compile.specs.Owners.{Owns, owner_of, is_owner, is_marked};

use crate::refusals::{at_item, place_of, refused};
use dependency_circle::{Graph, first_circle};
use ffm_model::{
    DEPENDENCY_CYCLE, Key, List, Name, Parts, PathStep, ReadError, Refusal, SELF_DEPENDENCY,
    UNKNOWN_DEPENDENCY,
};
use region_map::{At, Dependencies, Named, Services, located};
use std::alloc::{AllocError, Global};
use std::collections::BTreeMap;

/// The services' names, each with its partition. No two services may have one name.
pub fn owners<'a>(alloc: Global, parts: &'a Parts) -> Result<BTreeMap<&'a str, u32>, AllocError>
    requires { duplicate_services parts.now ≡ [] }
    ensures { IfOk result (λ owners. Owns owners parts.now) }
{
    let services = located::<Services>(alloc, parts.manifests.as_slice())?;
    let mut owners = BTreeMap::new(alloc);
    for at in &services {
        owners.insert(at.value.name(), at.manifest)?;
    }
    Ok(owners)
}

fn has_owner(owners: &BTreeMap<&str, u32>, name: &Name) -> bool
    ensures { result ≡ is_some (owner_of owners.now name.now) }
{
    owners.contains_key(name.as_str())
}

fn is_owner(owners: &BTreeMap<&str, u32>, partition: u32, name: &Name) -> bool
    ensures { result ≡ is_owner owners.now partition name.now }
{
    match owners.get(name.as_str()) {
        Some(owner) => *owner == partition,
        None => false,
    }
}

// The place of the first dependency that names no service.
fn first_unknown(
    alloc: Global,
    parts: &Parts,
    owners: &BTreeMap<&str, u32>,
) -> Result<Option<(u32, u32)>, AllocError>
    requires { Owns owners.now parts.now }
    ensures { IfOk result (λ found.
        found ≡ option_map spot
        (first (filter (λ d. not (is_known parts.now d.value)) (dependencies_in parts.now)))) }
{
    let dependencies = located::<Dependencies>(alloc, parts.manifests.as_slice())?;
    for at in &dependencies {
        if !has_owner(owners, at.value) {
            return Ok(Some((at.manifest, at.item)));
        }
    }
    Ok(None)
}

/// Refuses the first dependency that names no service.
pub fn dependencies_are_known(
    alloc: Global,
    parts: &Parts,
    owners: &BTreeMap<&str, u32>,
) -> Result<(), ReadError>
    requires { Owns owners.now parts.now }
    ensures { Keeps result (unknown_dependencies parts.now) }
{
    match first_unknown(alloc, parts, owners)? {
        Some(at) => refused(alloc, UNKNOWN_DEPENDENCY, &at_item(Key::Dependencies, at)),
        None => Ok(()),
    }
}

// The place of the first dependency on a service of the partition itself.
fn first_own(
    alloc: Global,
    parts: &Parts,
    owners: &BTreeMap<&str, u32>,
) -> Result<Option<(u32, u32)>, AllocError>
    requires { Owns owners.now parts.now }
    ensures { IfOk result (λ found.
        found ≡ option_map spot (first
        (filter (λ d. has_service parts.now d.manifest d.value) (dependencies_in parts.now)))) }
{
    let dependencies = located::<Dependencies>(alloc, parts.manifests.as_slice())?;
    for at in &dependencies {
        if is_owner(owners, at.manifest, at.value) {
            return Ok(Some((at.manifest, at.item)));
        }
    }
    Ok(None)
}

/// Refuses the first dependency on a service of the partition itself.
pub fn dependencies_are_others(
    alloc: Global,
    parts: &Parts,
    owners: &BTreeMap<&str, u32>,
) -> Result<(), ReadError>
    requires { Owns owners.now parts.now }
    ensures { Keeps result (self_dependencies parts.now) }
{
    match first_own(alloc, parts, owners)? {
        Some(at) => refused(alloc, SELF_DEPENDENCY, &at_item(Key::Dependencies, at)),
        None => Ok(()),
    }
}

// How many partitions a row of marks has room for.
const ROW: usize = 256;

/// Which partitions depend on services of which others: a row of marks for each partition that there is.
#[derive(Drop)]
struct DependencyGraph {
    marks: Vec<bool>,
}

impl Graph for DependencyGraph {
    ghost edge = { λ g. is_marked g.marks.items };

    fn edge(&self, from: u32, to: u32) -> bool {
        let (from, to) = (from as usize, to as usize);
        from < ROW && to < ROW && is_set(self.marks.as_slice(), from * ROW + to)
    }
}

fn is_set(marks: &[bool], at: usize) -> bool
    ensures { result ≡ slice_index_or marks.now at false }
{
    match marks.get(at) {
        Some(mark) => *mark,
        None => false,
    }
}

// Marks that one partition depends on another.
fn mark(marks: &mut [bool], from: u32, to: u32)
    requires room { from * 256 + 256 ≤ length marks.old }
    requires from { from < 256 }
    requires to { to < 256 }
    ensures { (k j : ℕ)
        → is_marked marks.new k j ≡ (is_marked marks.old k j || ((from == k) && (to == j))) }
{
    marks[from as usize * ROW + to as usize] = true;
}

// Marks a dependency on a service.
fn mark_dependency(marks: &mut [bool], owners: &BTreeMap<&str, u32>, from: u32, name: &Name)
    requires room { from * 256 + 256 ≤ length marks.old }
    requires from { from < 256 }
    requires owners { (service : List ℕ)
        → IfSome (owner_of owners.now service) (λ owner. owner < 256) }
    ensures { (k j : ℕ)
        → is_marked marks.new k j
        ≡ (is_marked marks.old k j || ((from == k) && is_owner owners.now j name.now)) }
{
    if let Some(owner) = owners.get(name.as_str()) {
        mark(marks, from, *owner);
    }
}

fn mark_dependencies(
    marks: &mut [bool],
    owners: &BTreeMap<&str, u32>,
    dependencies: &[At<'_, Name>],
)
    requires room { Each (λ d. d.manifest * 256 + 256 ≤ length marks.old)
        (map seen dependencies.now) }
    requires from { Each (λ d. d.manifest < 256) (map seen dependencies.now) }
    requires owners { (service : List ℕ)
        → IfSome (owner_of owners.now service) (λ owner. owner < 256) }
    ensures { (k j : ℕ)
        → is_marked marks.new k j
        ≡ (is_marked marks.old k j
        || list_any (λ d. (d.manifest == k) && is_owner owners.now j d.value)
        (map seen dependencies.now)) }
{
    for at in dependencies {
        mark_dependency(marks, owners, at.manifest, at.value);
    }
}

fn graph_of(
    alloc: Global,
    parts: &Parts,
    owners: &BTreeMap<&str, u32>,
) -> Result<DependencyGraph, AllocError>
    requires { Owns owners.now parts.now }
    ensures { IfOk result (λ graph.
        (k j : ℕ) → is_marked graph.marks.items k j ≡ depends parts.now k j) }
{
    let dependencies = located::<Dependencies>(alloc, parts.manifests.as_slice())?;
    let mut marks = vec![in alloc; false; parts.manifests.len() * ROW]?;
    mark_dependencies(marks.as_mut_slice(), owners, dependencies.as_slice());
    Ok(DependencyGraph { marks })
}

// The IDs of partitions.
fn ids(alloc: Global, partitions: &[u32]) -> Result<Vec<u32>, AllocError>
    requires { All (λ k. k < 256) partitions.now }
    ensures { IfOk result (λ ids. ids.items ≡ map (λ k. k + 1) partitions.now) }
{
    partitions.iter().map(|k| *k + 1).collect(alloc)
}

// Refuses the dependencies of these partitions, at the first of them.
#[tactic(auto, using(crate::proofs::CycleLemmas::cycle_refusal_at))]
fn refused_cycle(alloc: Global, partitions: &[u32]) -> Result<(), ReadError>
    requires some { 0 < length partitions.now }
    requires numbers { All (λ k. k < 256) partitions.now }
    ensures { IsRefused result (cycle_refusal partitions.now) }
{
    let place = place_of(
        alloc,
        &[
            PathStep::Key(Key::Manifests),
            PathStep::Index(partitions[0]),
            PathStep::Key(Key::Dependencies),
        ],
    )?;
    let cycle = List::of(ids(alloc, partitions)?);
    Err(ReadError::Refused(Refusal {
        code: DEPENDENCY_CYCLE,
        place,
        cycle,
    }))
}

/// Refuses the first circle of partitions that depend on each other.
pub fn dependencies_end(
    alloc: Global,
    parts: &Parts,
    owners: &BTreeMap<&str, u32>,
) -> Result<(), ReadError>
    requires { Owns owners.now parts.now }
    ensures { Keeps result (dependency_cycle parts.now) }
{
    let graph = graph_of(alloc, parts, owners)?;
    match first_circle(alloc, &graph, parts.manifests.len() as u32)? {
        Some(circle) => refused_cycle(alloc, circle.as_slice()),
        None => Ok(()),
    }
}
