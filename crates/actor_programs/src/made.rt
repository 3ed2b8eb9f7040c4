//! The scripts of a scenario, assembled in the file's order.
ghost use Rattle.std.specs.Prelude.{◌≡◌, ◌<◌, IfOk, IfSome, OnOk, [], get_or, length, option_map, replicate};
ghost use Rattle.ffm_model.specs.Actors.{actor_count};
ghost use Rattle.ffm_model.specs.Reading.{Reads};
ghost use Rattle.ffm_model.specs.Scenarios.{IsScenarioOf, most_scripts};
ghost use Rattle.actor_programs.specs.Programs.{AreMade, first_made, made_from, made_with, next_lines, with_program};

use crate::program::{Program, program_of};
use ffm_model::{ActorId, Lines, List, Memory, ReadError, Scenario, System};
use script_asm::device_script;
use std::alloc::{AllocError, Global};
use std::mem;

// No programs, of so many actors.
fn no_programs(alloc: Global, count: u32) -> Result<Vec<List<Program>>, Memory>
    ensures { IfOk result (λ v. v.items ≡ replicate count []) }
{
    let mut made = Vec::new(alloc);
    for actor in 0..count {
        made.push(List::of(Vec::new(alloc)))?;
    }
    Ok(made)
}

// The programs before the first script of the file is assembled.
#[tactic(auto, unfolding(crate::specs::Programs::first_made), using(ffm_model::proofs::ActorLemmas::actor_count_le))]
fn first_made(
    alloc: Global,
    system: &System,
    scenario: &Scenario,
) -> Result<Vec<List<Program>>, Memory>
    ensures { IfOk result (λ v. v.items ≡ first_made system.now scenario.now) }
{
    let counts = system.counts();
    let mut made = no_programs(alloc, counts.partitions + counts.clients)?;
    if counts.device {
        let interrupts = Program::Plain(device_script(alloc, &scenario.raises)?);
        made.push(List::of(vec![in alloc; interrupts]?))?;
    }
    Ok(made)
}

// The first of an actor's scripts that isn't assembled yet.
fn next_lines<'a>(
    system: &System,
    scenario: &'a Scenario,
    actor: ActorId,
    made: &[List<Program>],
) -> Option<&'a Lines>
    requires scenario { IsScenarioOf system.now scenario.now }
    requires actor { actor.0 < actor_count system.now }
    requires long { length made.now ≡ actor_count system.now }
    ensures lines { option_map (λ l. l.now) result ≡ next_lines scenario.now actor made.now }
    ensures left { IfSome result (λ l.
        length (get_or made.now actor.0 []) < most_scripts system.now actor.0) }
{
    let own = scenario.lines.as_slice()[actor.0 as usize].as_slice();
    let count = made[actor.0 as usize].len();
    own.get(count)
}

// Puts a program after those of its actor.
fn add_program(
    alloc: Global,
    made: &mut Vec<List<Program>>,
    actor: ActorId,
    program: Program,
) -> Result<(), AllocError>
    requires { actor.0 < length made.old.items }
    ensures { OnOk result (made.new.items ≡ with_program made.old.items actor program) }
{
    let place = actor.0 as usize;
    let none = List::of(Vec::new(alloc));
    let mut own = mem::replace(&mut made[place], none).into_vec();
    own.push(program)?;
    made[place] = List::of(own);
    Ok(())
}

// Assembles one script more of an actor, where one is left. It has this number in the file.
fn make_next(
    alloc: Global,
    system: &System,
    scenario: &Scenario,
    number: u32,
    actor: ActorId,
    made: &mut Vec<List<Program>>,
) -> Result<(), ReadError>
    requires scenario { IsScenarioOf system.now scenario.now }
    requires actor { actor.0 < actor_count system.now }
    requires long { length made.old.items ≡ actor_count system.now }
    requires each { AreMade system.now made.old.items }
    ensures reads { Reads (λ _. made.new.items) result (made_with system.now number actor
        made.old.items (next_lines scenario.now actor made.old.items)) }
    ensures long { OnOk result (length made.new.items ≡ actor_count system.now) }
    ensures each { OnOk result (AreMade system.now made.new.items) }
{
    let Some(lines) = next_lines(system, scenario, actor, made.as_slice()) else {
        return Ok(());
    };
    let program = program_of(alloc, system, actor, lines, number)?;
    add_program(alloc, made, actor, program)?;
    Ok(())
}

/// The programs of each actor's scripts, by actor, or the refusal of the first wrong line in the file's
/// order of scripts. Memory where no memory was found.
#[tactic(auto, using(crate::proofs::MadeLemmas::first_long, crate::proofs::MadeLemmas::first_are))]
pub fn made_of(
    alloc: Global,
    system: &System,
    scenario: &Scenario,
) -> Result<Vec<List<Program>>, ReadError>
    requires { IsScenarioOf system.now scenario.now }
    ensures reads { Reads (λ v. v.items) result (made_from system.now scenario.now 0
        scenario.now.order (first_made system.now scenario.now)) }
    ensures long { IfOk result (λ v. length v.items ≡ actor_count system.now) }
    ensures each { IfOk result (λ v. AreMade system.now v.items) }
{
    let mut made = first_made(alloc, system, scenario)?;
    let order = scenario.order.as_slice();
    for (number, actor) in order.iter().enumerate() {
        make_next(alloc, system, scenario, number as u32, *actor, &mut made)?;
    }
    Ok(made)
}
