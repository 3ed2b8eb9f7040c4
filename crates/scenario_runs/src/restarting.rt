//! Runs that follow each other: after a panic the system is reset and runs again, while a restart is
//! left.

ghost use Rattle.std.specs.Prelude.{◌≡◌, ◌≤◌, ◌∷◌, [], ◌&&◌, IfOk, IfSome, false, is_some, length, map, nat_lt, true};
ghost use Rattle.std.specs.List.{list_all};
ghost use Rattle.ffm_model.specs.Actors.{actor_count, counts_of};
ghost use Rattle.ffm_model.specs.Memory.{opening_memory};
ghost use Rattle.ffm_model.specs.Restarts.{memory_after, memory_reset};
ghost use Rattle.ffm_model.specs.Scenarios.{IsScenarioOf};
ghost use Rattle.ffm_model.specs.Ranges.{ranges_of};
ghost use Rattle.memory_image.specs.Pieces.{byte_at, regions_of};
ghost use Rattle.actor_programs.specs.Programs.{ArePrograms};
ghost use Rattle.actor_programs.specs.declared.program.Program.TheVariants.{Plain};
ghost use Rattle.partition_sim.specs.Driving.{HaveContexts};
ghost use Rattle.scenario_runs.specs.Policy.{runs_again};
ghost use Rattle.scenario_runs.specs.Restarting.{AreRuns, finished, fits_counts};
ghost use Rattle.scenario_runs.specs.Runs.{RanBy};

use crate::opening::next_opening;
use crate::scheduled::{Ran, run_from};
use actor_programs::{Program, scripts_of};
use ffm_model::{List, MAX_ENTRIES, Memory, Scenario, Script, System, Trace};
use memory_image::{Image, opening_image};
use partition_sim::scripts_that_map_nothing;
use std::alloc::{AllocError, Global};

/// The runs of a scenario over a system, from the first to the last. Each has at most 262,144 events,
/// all of actors of the system.
#[derive(Drop)]
pub struct Runs {
    pub system: System,
    pub traces: Vec<Trace>,
    pub ghost fit: { list_all (fits_counts (counts_of system)) traces.items ≡ true },
}

// What is kept of a run: its manager's memory and tables are let go.
fn kept(ran: Ran) -> (System, Trace)
    ensures system { result.0 ≡ ran.spm.opening.system }
    ensures trace { result.1 ≡ record { entries = ran.spm.history; verdict = ran.verdict } }
{
    let Ran { spm, verdict } = ran;
    let (system, history) = spm.into_run();
    let entries = List::of(history);
    (system, Trace { entries, verdict })
}

// The memory of the next run, where a restart is left and the run ended with a panicked partition.
fn next_memory(alloc: Global, left: u32, first: &Image, ran: &Ran) -> Result<Option<Image>, Memory>
    requires { regions_of first.now ≡ ranges_of ran.now.spm.opening.system.regions }
    ensures again { IfOk result (λ next. is_some next ≡ (nat_lt 0 left && runs_again ran.now.spm)) }
    ensures regions { IfOk result (λ next.
        IfSome next (λ image. regions_of image ≡ ranges_of ran.now.spm.opening.system.regions)) }
    ensures bytes { IfOk result (λ next.
        IfSome next (λ image.
        byte_at image ≡ memory_reset ran.now.spm.opening.system (byte_at first.now) (memory_after
        ran.now.spm.opening.system (byte_at ran.now.spm.opening.memory) ran.now.spm.history))) }
{
    if left == 0 {
        return Ok(None);
    }
    next_opening(alloc, first, &ran.spm)
}

// The runs of scripts, one for each actor, over a system, where the first one begins with a memory
// like `first`.
fn runs_from(
    alloc: Global,
    first: &Image,
    system: System,
    memory: Image,
    scenario: &Scenario,
    scripts: &List<Script>,
) -> Result<Runs, Memory>
    requires scenario { IsScenarioOf system scenario.now }
    requires scripts { length scripts.now ≡ actor_count system }
    requires contexts { HaveContexts system scripts.now }
    requires regions { regions_of memory ≡ ranges_of system.regions }
    requires opening { byte_at memory ≡ opening_memory scenario.now.memory }
    requires same { memory ≡ first.now }
    ensures system { IfOk result (λ runs. runs.system ≡ system) }
    ensures ran { IfOk result (λ runs.
        AreRuns system scenario.now (map Plain scripts.now) false scenario.now.restarts
        (map finished runs.traces.items)) }
{
    let mut traces = Vec::new(alloc);
    let (mut system, mut memory) = (system, memory);
    let mut left = scenario.restarts;
    loop {
        let ran = run_from(alloc, system, memory, scenario, scripts)?;
        let next = next_memory(alloc, left, first, &ran)?;
        let (same_system, trace) = kept(ran);
        system = same_system;
        traces.push(trace)?;
        let Some(image) = next else {
            return Ok(Runs { system, traces });
        };
        memory = image;
        left -= 1;
    }
}

/// A run that none follows. It has at most 262,144 events.
pub(crate) fn alone(alloc: Global, ran: Ran) -> Result<Runs, AllocError>
    requires { length ran.spm.history ≤ MAX_ENTRIES }
    ensures system { IfOk result (λ runs. runs.system ≡ ran.spm.opening.system) }
    ensures trace { IfOk result (λ runs.
        runs.traces.items ≡ record { entries = ran.spm.history; verdict = ran.verdict } ∷ []) }
{
    let _length = ran.spm.length();
    let (system, trace) = kept(ran);
    let traces = vec![in alloc; trace]?;
    Ok(Runs { system, traces })
}

/// The runs of programs, one for each actor, over a system, each in the turns of the scenario's
/// schedule: the first one from the scenario's memory, and after a run that came to an end with a
/// panicked partition another one, while a restart is left. Memory where no memory was found.
pub fn run_in_turns(
    alloc: Global,
    system: System,
    scenario: &Scenario,
    programs: List<Program>,
) -> Result<Runs, Memory>
    requires scenario { IsScenarioOf system scenario.now }
    requires programs { length programs ≡ actor_count system }
    requires fit { ArePrograms system programs }
    ensures system { IfOk result (λ runs. runs.system ≡ system) }
    ensures ran { IfOk result (λ runs.
        AreRuns system scenario.now programs false scenario.now.restarts
        (map finished runs.traces.items)) }
{
    scripts_that_map_nothing();
    let scripts = scripts_of(alloc, &system, programs)?;
    let memory = opening_image(alloc, &system, scenario)?;
    if scenario.restarts == 0 {
        let ran = run_from(alloc, system, memory, scenario, &scripts)?;
        return Ok(alone(alloc, ran)?);
    }
    let first = memory.copy_of(alloc)?;
    runs_from(alloc, &first, system, memory, scenario, &scripts)
}
