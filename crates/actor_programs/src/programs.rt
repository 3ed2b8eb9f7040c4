//! The programs of all actors.
ghost use Rattle.std.specs.Prelude.{◌≡◌, IfOk, length};
ghost use Rattle.ffm_model.specs.Actors.{actor_count};
ghost use Rattle.ffm_model.specs.Reading.{Reads};
ghost use Rattle.ffm_model.specs.Scenarios.{IsScenarioOf};
ghost use Rattle.actor_programs.specs.Programs.{AreOfScripts, ArePrograms, programs_of};

use crate::joined::all_joined;
use crate::made::made_of;
use crate::program::Program;
use ffm_model::{List, ReadError, Scenario, System};
use std::alloc::Global;

/// The program of each actor: of a partition of the SFN model its functions, of any other actor its
/// script, which for a non-secure client has a part for each of its scripts in the scenario, in order.
/// An actor without a script in the scenario has an empty one, and the device makes the scenario's
/// interrupts in order.
///
/// The first line that is no line of its script is refused at its place with the code
/// SCRIPT_SYNTAX, in the order of the scripts in the file. Memory where no memory was found.
#[tactic(auto, unfolding(crate::specs::Programs::programs_of), using(crate::proofs::ProgramLemmas::joined_long, crate::proofs::ProgramLemmas::joined_fit))]
pub fn programs_of(
    alloc: Global,
    system: &System,
    scenario: &Scenario,
) -> Result<List<Program>, ReadError>
    requires { IsScenarioOf system.now scenario.now }
    ensures reads { Reads (λ p. p) result (programs_of system.now scenario.now) }
    ensures long { IfOk result (λ p. length p ≡ actor_count system.now) }
    ensures fit { IfOk result (ArePrograms system.now) }
    ensures scripts { IfOk result (AreOfScripts system.now scenario.now) }
{
    let made = made_of(alloc, system, scenario)?;
    Ok(all_joined(alloc, system, made)?)
}
