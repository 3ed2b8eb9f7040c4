//! The script by which each program runs.
ghost use Rattle.std.specs.Prelude.{◌≡◌, ◌<◌, ◌≤◌, IfOk, length};
ghost use Rattle.ffm_model.specs.Actors.{actor_count};
ghost use Rattle.actor_programs.specs.Programs.{AreScriptsOf, script_of};

use crate::program::Program;
use ffm_model::{List, Memory, Script, System};
use sfn_calls::expand;
use std::alloc::Global;

// The script by which an actor's program runs.
fn script_of(alloc: Global, system: &System, actor: u32, program: Program) -> Result<Script, Memory>
    ensures { IfOk result (λ s. s ≡ script_of system.now actor program) }
{
    match program {
        Program::Plain(script) => Ok(script),
        Program::Functions(functions) => expand(alloc, &functions, system, actor),
    }
}

/// The scripts by which the programs of a system's actors run: functions as the loop that waits for
/// a message, calls the function of its service and replies. Err where no memory was found.
#[tactic(auto, using(crate::proofs::ProgramLemmas::scripts_none))]
pub fn scripts_of(
    alloc: Global,
    system: &System,
    programs: List<Program>,
) -> Result<List<Script>, Memory>
    requires { length programs ≤ actor_count system.now }
    ensures { IfOk result (AreScriptsOf system.now programs) }
{
    let mut scripts = Vec::with_capacity(alloc, programs.len())?;
    for program in programs.into_vec() {
        let actor = scripts.len() as u32;
        scripts.push_reserved(script_of(alloc, system, actor, program)?);
    }
    Ok(List::of(scripts))
}
