//! The program of one actor.
ghost use Rattle.std.specs.Prelude.{◌≡◌, ◌<◌, IfOk};
ghost use Rattle.ffm_model.specs.Actors.{actor_count};
ghost use Rattle.ffm_model.specs.Reading.{Reads};
ghost use Rattle.sfn_calls.specs.Partitions.{is_sfn};
ghost use Rattle.actor_programs.specs.Programs.{IsOfOneScript, empty_program, program_read};

use ffm_model::{ActorId, Lines, List, Memory, ReadError, Script, SfnScript, System};
use script_asm::assemble;
use sfn_calls::assemble_sfn;
use std::alloc::Global;

/// What an actor runs.
#[derive(Drop)]
pub enum Program {
    /// A script: of a non-secure client it has a part for each of the client's scripts in the
    /// scenario, in order, and of any other actor one part.
    Plain(Script),
    /// The functions of a partition of the SFN model.
    Functions(SfnScript),
}

/// Whether the actor is a partition of the SFN model.
pub fn is_sfn(system: &System, actor: ActorId) -> bool
    ensures { result ≡ is_sfn system.now actor.0 }
{
    match system.partitions.as_slice().get(actor.0 as usize) {
        Some(partition) => partition.sfn,
        None => false,
    }
}

/// The program of an actor for which the scenario has no script.
pub fn empty_program(alloc: Global, system: &System, actor: ActorId) -> Result<Program, Memory>
    ensures { IfOk result (λ p. p ≡ empty_program system.now actor.0) }
{
    if is_sfn(system, actor) {
        let functions = List::of(Vec::new(alloc));
        return Ok(Program::Functions(SfnScript { functions }));
    }
    Ok(Program::Plain(Script::plain(alloc, Vec::new(alloc))?))
}

/// The program that the lines of one script make of an actor, where it has this number in the
/// scenario.
pub fn program_of(
    alloc: Global,
    system: &System,
    actor: ActorId,
    lines: &Lines,
    number: u32,
) -> Result<Program, ReadError>
    requires actor { actor.0 < actor_count system.now }
    ensures reads { Reads (λ p. p) result (program_read system.now number actor.0 lines.now) }
    ensures fits { IfOk result (IsOfOneScript system.now actor.0) }
{
    if is_sfn(system, actor) {
        let functions = assemble_sfn(alloc, lines, system, actor.0, number)?;
        return Ok(Program::Functions(functions));
    }
    let script = assemble(alloc, lines, system.actor_kind(actor), number)?;
    Ok(Program::Plain(script))
}
