//! Runs all scripts in turns.
ghost use Rattle.std.specs.Prelude.{◌≡◌, ◌<◌, ◌≤◌, ℕ, [], IfOk, IsSome, OnErr, OnOk, length};
ghost use Rattle.std.specs.List.{All, list_any};
ghost use Rattle.ffm_model.specs.Actors.{actor_count, kind_of};
ghost use Rattle.ffm_model.specs.Plans.{PlanRun};
ghost use Rattle.ffm_model.specs.Records.{entries_of};
ghost use Rattle.ffm_model.specs.Schedule.{Scheduled};
ghost use Rattle.ffm_model.specs.ScriptRuns.{only_part};
ghost use Rattle.ffm_model.specs.Scripts.{maps};
ghost use Rattle.ffm_model.specs.Verdicts.{verdict_of};
ghost use Rattle.memory_image.specs.Pieces.{byte_at};
ghost use Rattle.partition_sim.specs.ActorPlans.{needs_messages, plan_at};
ghost use Rattle.partition_sim.specs.Driving.{AreNew, Driving, HaveContexts, IsDriven, Turned, Underway};

use crate::client::ClientRunner;
use crate::laws::{one_context_is_a_script, plans_resume_after_blocked, scripts_that_map_nothing};
use crate::partition::PartitionRunner;
use crate::turn_runner::TurnRunner;
use ffm_model::{ActorId, ActorKind, Answer, Instruction, List, Memory, Script, System};
use spm_core::Spm;
use std::alloc::Global;

// No further entry is made: no actor can go on, or the limit is reached.
#[derive(Clone, Copy)]
struct Over;

// Makes the call of an actor's script: whether that made an entry.
#[inline(never)]
fn make_entry(
    spm: &mut Spm,
    runners: &mut [TurnRunner],
    scripts: &[Script],
    actor: ActorId,
) -> Result<bool, Over>
    requires exists { actor.0 < actor_count spm.old.opening.system }
    requires short { length spm.old.history ≤ spm.old.opening.limit }
    requires driving { Driving scripts.now spm.old.opening spm.old.history runners.old }
    ensures opening { spm.new.opening ≡ spm.old.opening }
    ensures driving { Driving scripts.now spm.old.opening spm.new.history runners.new }
    ensures turned { Turned spm.old.opening spm.old.history actor.0 result spm.new.history }
{
    plans_resume_after_blocked();
    let at = actor.0 as usize;
    let runner = &mut runners[at];
    let call = runner.next(&scripts[at]);
    match spm.step(actor, call) {
        Answer::Made { entry, .. } => {
            runner.after(&entry.outcome);
            Ok(true)
        }
        Answer::Gone => Ok(false),
        Answer::NotYet => Ok(false),
        Answer::Over => Err(Over),
        Answer::Full => Err(Over),
    }
}

// One turn of an actor: whether it made an entry. Most turns of a run with many actors end here.
#[inline(always)]
fn take_turn(
    spm: &mut Spm,
    runners: &mut [TurnRunner],
    scripts: &[Script],
    actor: ActorId,
) -> Result<bool, Over>
    requires exists { actor.0 < actor_count spm.old.opening.system }
    requires short { length spm.old.history ≤ spm.old.opening.limit }
    requires driving { Driving scripts.now spm.old.opening spm.old.history runners.old }
    ensures opening { spm.new.opening ≡ spm.old.opening }
    ensures driving { Driving scripts.now spm.old.opening spm.new.history runners.new }
    ensures turned { Turned spm.old.opening spm.old.history actor.0 result spm.new.history }
{
    if !spm.enabled(actor) {
        return Ok(false);
    }
    make_entry(spm, runners, scripts, actor)
}

// All turns of a run.
fn run_turns(
    spm: &mut Spm,
    runners: &mut [TurnRunner],
    scripts: &[Script],
    schedule: &[ActorId],
    count: u32,
)
    requires underway { Underway scripts.now schedule.now spm.old.opening spm.old runners.old 0 }
    requires known { All (λ a. a.0 < actor_count spm.old.opening.system) schedule.now }
    requires counted { count ≡ actor_count spm.old.opening.system }
    ensures opening { spm.new.opening ≡ spm.old.opening }
    ensures driven { IsDriven scripts.now schedule.now spm.old.opening spm.new.history }
{
    'order: for actor in schedule {
        match take_turn(spm, runners, scripts, *actor) {
            Ok(_) => {}
            Err(Over) => return,
        }
    }
    'rounds: loop {
        let mut made = false;
        'round: for a in 0..count {
            match take_turn(spm, runners, scripts, ActorId(a)) {
                Ok(one) => made |= one,
                Err(Over) => return,
            }
        }
        if !made {
            return;
        }
    }
}

// Whether some line of a script of one part maps or unmaps a vector.
fn maps(script: &Script) -> bool
    ensures { result ≡ list_any maps (only_part script.now) }
{
    script
        .instructions()
        .iter()
        .any(|line| matches!(line, Instruction::Map { .. }))
}

// Whether an actor is a partition whose script needs the messages that it holds.
fn holds_messages(system: &System, actor: ActorId, script: &Script) -> bool
    requires { actor.0 < actor_count system.now }
    ensures { result ≡ needs_messages (kind_of system.now actor.0) script.now }
{
    match system.actor_kind(actor) {
        ActorKind::Partition => maps(script),
        ActorKind::Client | ActorKind::Device => false,
    }
}

// A runner for each actor, with as many contexts as its script has parts. Only one whose script maps has room
// for the messages that a partition holds. The vector doesn't grow.
fn new_runners(
    alloc: Global,
    system: &System,
    scripts: &[Script],
) -> Result<Vec<TurnRunner>, Memory>
    requires count { length scripts.now ≡ actor_count system.now }
    requires contexts { HaveContexts system.now scripts.now }
    ensures { IfOk result (λ v. AreNew system.now scripts.now (actor_count system.now) v.items) }
{
    one_context_is_a_script();
    scripts_that_map_nothing();
    let count = system.actor_count();
    let mut runners = Vec::with_capacity(alloc, count as usize)?;
    for a in 0..count {
        let script = &scripts[a as usize];
        if holds_messages(system, ActorId(a), script) {
            let partition = PartitionRunner::new(system, a);
            let runner = TurnRunner::of_partition(alloc, partition)?;
            runners.push_reserved(runner);
        } else {
            let contexts = script.parts.len() as u32;
            runners.push_reserved(TurnRunner::of_contexts(ClientRunner::new(contexts)));
        }
    }
    Ok(runners)
}

/// Runs the scripts, one for each actor, in turns: those of the schedule, then all actors round and
/// round. In its turn an enabled actor makes one event, and an actor that isn't enabled is passed.
/// The run ends when no actor is enabled or the limit is reached. The contexts of a non-secure client
/// are the parts of its script, up to eight; the script of every other actor has one part.
///
/// All memory is taken before the first event. Err where none was found; the manager is then as it
/// was.
pub fn drive_scheduled(
    alloc: Global,
    spm: &mut Spm,
    scripts: &List<Script>,
    schedule: &List<ActorId>,
) -> Result<(), Memory>
    requires scripts { length scripts.now ≡ actor_count spm.old.opening.system }
    requires contexts { HaveContexts spm.old.opening.system scripts.now }
    requires known { All (λ a. a.0 < actor_count spm.old.opening.system) schedule.now }
    requires empty { spm.old.history ≡ [] }
    ensures opening { spm.new.opening ≡ spm.old.opening }

    // From the empty history on, each entry was made in the next turn of an enabled actor.
    ensures scheduled { OnOk result (Scheduled spm.old.opening.system
        (byte_at spm.old.opening.memory) schedule.now spm.new.history) }

    // Each actor's entries are a run of its plan, which its scripts give.
    ensures runs { OnOk result ((a : ℕ) → a < actor_count spm.old.opening.system
        → PlanRun (plan_at spm.old.opening.system scripts.now a) (entries_of a spm.new.history)) }

    // No actor that could go on is left out below the limit.
    ensures ended { OnOk result (IsSome (verdict_of spm.old.opening.system
        (byte_at spm.old.opening.memory) spm.old.opening.limit spm.new.history)) }
    ensures err { OnErr result (spm.new ≡ spm.old) }
{
    let count = spm.actor_count();
    let mut runners = new_runners(alloc, spm.system(), scripts.as_slice())?;
    run_turns(
        spm,
        runners.as_mut_slice(),
        scripts.as_slice(),
        schedule.as_slice(),
        count,
    );
    Ok(())
}
