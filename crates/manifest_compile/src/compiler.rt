//! The rules in their order, and then the system.
ghost use Rattle.std.specs.Prelude.{◌≡◌, IfOk};
ghost use Rattle.ffm_model.specs.Compiled.{compiled};
ghost use Rattle.ffm_model.specs.Layout.{regions_laid_out};
ghost use Rattle.ffm_model.specs.Permissions.{budgets_of};
ghost use Rattle.ffm_model.specs.Reading.{Reads};
ghost use Rattle.ffm_model.specs.Rules.{broken};
ghost use Rattle.manifest_compile.specs.Keeps.{Keeps};

use crate::budgets::{budgets_are_permitted, pairs_with_budgets};
use crate::dependencies::{
    dependencies_are_known, dependencies_are_others, dependencies_end, owners,
};
use crate::indices::{indices_differ, stateless_are_few};
use crate::limits::{partitions_are_few, signals_are_few};
use crate::names::{partitions_differ, services_differ, sids_differ, sources_differ};
use crate::regions::{regions, small_regions};
use crate::systems::system_of;
use ffm_model::{Budget, List, Parts, ReadError, Region, System};
use std::alloc::Global;

// The regions and the budgets of the system. Refused where a rule is broken, for the first one.
fn keep_rules(alloc: Global, parts: &Parts) -> Result<(List<Region>, List<Budget>), ReadError>
    ensures keeps { Keeps result (broken parts.now) }
    ensures regions { IfOk result (λ made. made.0 ≡ regions_laid_out parts.now) }
    ensures budgets { IfOk result (λ made. made.1 ≡ budgets_of parts.now) }
{
    partitions_differ(alloc, parts)?;
    services_differ(alloc, parts)?;
    sids_differ(alloc, parts)?;
    let owners = owners(alloc, parts)?;
    dependencies_are_known(alloc, parts, &owners)?;
    dependencies_are_others(alloc, parts, &owners)?;
    dependencies_end(alloc, parts, &owners)?;
    signals_are_few(alloc, parts)?;
    let regions = regions(alloc, parts)?;
    partitions_are_few(alloc, parts)?;
    let (pairs, budgets) = pairs_with_budgets(alloc, parts)?;
    budgets_are_permitted(alloc, parts, pairs.as_slice())?;
    sources_differ(alloc, parts)?;
    let regions = small_regions(alloc, regions)?;
    indices_differ(alloc, parts)?;
    stateless_are_few(alloc, parts)?;
    Ok((regions, List::of(budgets)))
}

/// The system that the parts of a system file make.
///
/// Refused exactly where a rule on manifests is broken, with the refusal of the first one: by code,
/// then by manifest, then by item, and clients last. Memory where no memory was found.
pub fn compile(alloc: Global, parts: &Parts) -> Result<System, ReadError>
    ensures { Reads (λ s. s) result (compiled parts.now) }
{
    let (regions, budgets) = keep_rules(alloc, parts)?;
    Ok(system_of(alloc, parts, regions, budgets)?)
}
