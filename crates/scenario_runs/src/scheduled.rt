//! Runs in the turns of a schedule.

ghost use Rattle.std.specs.Prelude.{◌≡◌, IfOk, false, length, map};
ghost use Rattle.std.specs.List.{All};
ghost use Rattle.ffm_model.specs.Actors.{actor_count};
ghost use Rattle.ffm_model.specs.Scenarios.{IsScenarioOf};
ghost use Rattle.ffm_model.specs.Memory.{opening_memory};
ghost use Rattle.ffm_model.specs.Ranges.{ranges_of};
ghost use Rattle.memory_image.specs.Pieces.{byte_at, regions_of};
ghost use Rattle.actor_programs.specs.Programs.{ArePrograms};
ghost use Rattle.actor_programs.specs.declared.program.Program.TheVariants.{Plain};
ghost use Rattle.partition_sim.specs.Driving.{HaveContexts};
ghost use Rattle.scenario_runs.specs.Runs.{RanBy};

use actor_programs::{Program, scripts_of};
use ffm_model::{List, Memory, Scenario, Script, System, Verdict};
use memory_image::{Image, opening_image};
use partition_sim::{drive_scheduled, scripts_that_map_nothing};
use spm_core::Spm;
use std::alloc::Global;

/// A run that ended.
#[derive(Drop)]
pub struct Ran {
    pub spm: Spm,
    pub verdict: Verdict,
}

/// The run of scripts, one for each actor, over a system from this memory, in the turns of the
/// scenario's schedule. Memory where no memory was found.
pub(crate) fn run_from(
    alloc: Global,
    system: System,
    memory: Image,
    scenario: &Scenario,
    scripts: &List<Script>,
) -> Result<Ran, Memory>
    requires scenario { IsScenarioOf system scenario.now }
    requires scripts { length scripts.now ≡ actor_count system }
    requires contexts { HaveContexts system scripts.now }
    requires regions { regions_of memory ≡ ranges_of system.regions }
    ensures opening { IfOk result (λ ran.
        ran.spm.opening ≡ record { system = system; memory = memory; limit = scenario.now.limit }) }
    ensures ran { IfOk result (λ ran.
        RanBy system (byte_at memory) scenario.now (map Plain scripts.now)
        false ran.spm.history ran.verdict) }
{
    let mut spm = Spm::new(alloc, system, memory, scenario.limit)?;
    drive_scheduled(alloc, &mut spm, scripts, &scenario.schedule)?;
    let _length = spm.length();
    match spm.verdict() {
        Some(verdict) => Ok(Ran { spm, verdict }),
        None => unreachable!(),
    }
}

/// The first run of programs, one for each actor, over a system, in the turns of the scenario's
/// schedule. None follows it, whatever restarts the scenario has. Memory where no memory was found.
pub fn run_once(
    alloc: Global,
    system: System,
    scenario: &Scenario,
    programs: List<Program>,
) -> Result<Ran, Memory>
    requires scenario { IsScenarioOf system scenario.now }
    requires programs { length programs ≡ actor_count system }
    requires fit { ArePrograms system programs }
    ensures system { IfOk result (λ ran. ran.spm.opening.system ≡ system) }
    ensures ran { IfOk result (λ ran.
        RanBy system (opening_memory scenario.now.memory) scenario.now programs
        false ran.spm.history ran.verdict) }
{
    scripts_that_map_nothing();
    let scripts = scripts_of(alloc, &system, programs)?;
    let memory = opening_image(alloc, &system, scenario)?;
    run_from(alloc, system, memory, scenario, &scripts)
}
