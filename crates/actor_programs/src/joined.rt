//! The programs of an actor's scripts as one.
ghost use Rattle.std.specs.Prelude.{◌≡◌, ◌≤◌, IfOk, length, map};
ghost use Rattle.std.specs.List.{AllByRecursion};
ghost use Rattle.ffm_model.specs.Actors.{actor_count};
ghost use Rattle.ffm_model.specs.Scenarios.{most_scripts};
ghost use Rattle.actor_programs.specs.Programs.{AreMade, IsOfOneScript, IsOnePart, all_joined, joined, parts_of};

use crate::program::{Program, empty_program};
use ffm_model::{ActorId, List, Memory, Script, System};
use ns_contexts::join;
use std::alloc::Global;

// The scripts of programs that are scripts of one part.
fn plain_scripts(alloc: Global, programs: Vec<Program>) -> Result<List<Script>, Memory>
    requires { AllByRecursion IsOnePart programs.items }
    ensures { IfOk result (λ scripts. scripts ≡ map parts_of programs.items) }
{
    let mut scripts = Vec::new(alloc);
    for program in programs {
        match program {
            Program::Plain(script) => scripts.push(script)?,
            Program::Functions(_) => unreachable!(),
        }
    }
    Ok(List::of(scripts))
}

// The programs of an actor's scripts as one.
fn joined(
    alloc: Global,
    system: &System,
    actor: ActorId,
    own: List<Program>,
) -> Result<Program, Memory>
    requires each { AllByRecursion (IsOfOneScript system.now actor.0) own }
    requires few { length own ≤ most_scripts system.now actor.0 }
    ensures { IfOk result (λ p. p ≡ joined system.now actor.0 own) }
{
    let mut own = own.into_vec();
    if own.len() > 1 {
        let scripts = plain_scripts(alloc, own)?;
        return Ok(Program::Plain(join(alloc, scripts)?));
    }
    match own.pop() {
        Some(program) => Ok(program),
        None => empty_program(alloc, system, actor),
    }
}

/// The program of each actor, of the programs of its scripts: where there are several, a script with
/// the parts of all. Err where no memory was found.
#[tactic(auto, using(ffm_model::proofs::ActorLemmas::actor_count_le))]
pub fn all_joined(
    alloc: Global,
    system: &System,
    made: Vec<List<Program>>,
) -> Result<List<Program>, Memory>
    requires long { length made.items ≡ actor_count system.now }
    requires each { AreMade system.now made.items }
    ensures { IfOk result (λ programs. programs ≡ all_joined system.now made.items) }
{
    let mut programs = Vec::new(alloc);
    for own in made {
        let actor = ActorId(programs.len() as u32);
        programs.push(joined(alloc, system, actor, own)?)?;
    }
    Ok(List::of(programs))
}
