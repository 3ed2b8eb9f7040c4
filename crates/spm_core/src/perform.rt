//! One event: a call of an actor that can go on.
ghost use Rattle.std.specs.Prelude.{◌≡◌, ◌<◌, IfOk, List, true, false};
ghost use Rattle.ffm_model.specs.declared.groups.Group.TheVariants as group;
ghost use Rattle.ffm_model.specs.declared.scenario.Bytes.{Bytes as BytesSeen};
ghost use Rattle.ffm_model.specs.declared.system.System.{System as SystemSeen};
ghost use Rattle.ffm_model.specs.declared.objects.ActorPhase.{ActorPhase as PhaseSeen};
ghost use Rattle.ffm_model.specs.Actors.{actor_count, kind_of};
ghost use Rattle.ffm_model.specs.Groups.{group_of};
ghost use Rattle.ffm_model.specs.Signals.{may_resume};
ghost use Rattle.ffm_model.specs.State.{phase_of};
ghost use Rattle.ffm_model.specs.Step.{may_call};
ghost use Rattle.memory_image.specs.Pieces.{byte_at, regions_of};
ghost use Rattle.law_calls.specs.Named.{KeepsNames};
ghost use Rattle.law_calls.specs.Premises.{AreLeft, LeavesTakes, Premises, PremisesWithMemory};
ghost use Rattle.spm_tables.specs.TablesView.{spm_of, shape_of};
ghost use Rattle.spm_core.specs.Manager.{is_resume};
ghost use Rattle.spm_core.specs.Performed.{Attempts, Does, IsRefusedCall, ShowsName};

use crate::calls::{client_call, memory_call, service_call, signal_call, transfer};
use crate::returns::resume;
use ffm_model::{
    ActorId, ActorKind, ActorPhase, Call, Fault, Group, Outcome, PSA_ERROR_PROGRAMMER_ERROR,
    System, group_of, has_call, refusal_of,
};
use memory_image::Image;
use panic_state::panic;
use spm_tables::Tables;

// Makes a call that its actor has, or finds it a PROGRAMMER ERROR.
fn attempt(
    system: &System,
    tables: &mut Tables,
    image: &mut Image,
    actor: ActorId,
    call: Call,
) -> Result<Outcome, Fault>
    requires premises { PremisesWithMemory system.now tables.old image.old }
    requires takes { LeavesTakes tables.old }
    requires running { phase_of (spm_of tables.old) actor.0 ≡ PhaseSeen.Running }
    requires no_return { is_resume call ≡ false }
    ensures attempts { Attempts system.now actor.0 call tables.old image.old
        result tables.new image.new }
    ensures shown { IfOk result (ShowsName system.now actor.0 call tables.old (byte_at image.old)) }
    ensures regions { regions_of image.new ≡ regions_of image.old }
    ensures shape { shape_of tables.new ≡ shape_of tables.old }
    ensures names { KeepsNames system.now tables.old tables.new }
{
    match group_of(call) {
        Group::Client => client_call(system, tables, image, actor, call),
        Group::Service => service_call(system, tables, image, actor, call),
        Group::Transfer => transfer(system, tables, image, actor, call),
        Group::Signal => signal_call(system, tables, actor, call),
        Group::Memory => memory_call(system, image, actor, call),
        Group::Actor => end(tables, actor, call),
    }
}

// Ends the actor by its own stop. Its own panic is a PROGRAMMER ERROR.
fn end(tables: &mut Tables, actor: ActorId, call: Call) -> Result<Outcome, Fault>
    requires group { group_of call ≡ group.Actor }
    requires no_return { is_resume call ≡ false }
    ensures attempts { (s : SystemSeen) (bytes : List BytesSeen)
        → Attempts s actor.0 call tables.old bytes result tables.new bytes }
    ensures shape { shape_of tables.new ≡ shape_of tables.old }
    ensures names { (s : SystemSeen) → KeepsNames s tables.old tables.new }
{
    match call {
        Call::Stop { .. } => {
            tables.set_phase(actor, ActorPhase::Ended);
            Ok(Outcome::Done)
        }
        Call::Panic => Err(Fault),
        _ => unreachable!(),
    }
}

// A PROGRAMMER ERROR: a partition panics, and to others nothing happens.
fn refuse(system: &System, tables: &mut Tables, actor: ActorId, call: Call) -> Outcome
    requires exists { actor.0 < actor_count system.now }
    requires premises { Premises system.now tables.old }
    requires takes { AreLeft tables.old.messages.takes }
    requires running { phase_of (spm_of tables.old) actor.0 ≡ PhaseSeen.Running }
    ensures refused { IsRefusedCall system.now actor.0 call tables.old result tables.new }
    ensures shape { shape_of tables.new ≡ shape_of tables.old }
    ensures names { KeepsNames system.now tables.old tables.new }
{
    match system.actor_kind(actor) {
        ActorKind::Partition => {
            panic(system, tables, actor);
            Outcome::Panicked
        }
        ActorKind::Client => refusal_of(call),
        ActorKind::Device => Outcome::Value(PSA_ERROR_PROGRAMMER_ERROR),
    }
}

// Makes a new call of an actor that runs.
fn issue(
    system: &System,
    tables: &mut Tables,
    image: &mut Image,
    actor: ActorId,
    call: Call,
) -> Outcome
    requires exists { actor.0 < actor_count system.now }
    requires premises { PremisesWithMemory system.now tables.old image.old }
    requires takes { LeavesTakes tables.old }
    requires running { phase_of (spm_of tables.old) actor.0 ≡ PhaseSeen.Running }
    requires no_return { is_resume call ≡ false }
    ensures does { Does system.now actor.0 call tables.old image.old result tables.new image.new }
    ensures shown { ShowsName system.now actor.0 call tables.old (byte_at image.old) result }
    ensures regions { regions_of image.new ≡ regions_of image.old }
    ensures shape { shape_of tables.new ≡ shape_of tables.old }
    ensures names { KeepsNames system.now tables.old tables.new }
{
    if !has_call(system.actor_kind(actor), call) {
        return refuse(system, tables, actor, call);
    }
    match attempt(system, tables, image, actor, call) {
        Ok(outcome) => outcome,
        Err(Fault) => refuse(system, tables, actor, call),
    }
}

/// Makes the call of an actor that can go on, and says what it answers.
pub(crate) fn perform(
    system: &System,
    tables: &mut Tables,
    image: &mut Image,
    actor: ActorId,
    call: Call,
) -> Outcome
    requires may { may_call system.now (spm_of tables.old) actor.0 call ≡ true }
    requires premises { PremisesWithMemory system.now tables.old image.old }
    requires takes { LeavesTakes tables.old }
    ensures does { Does system.now actor.0 call tables.old image.old result tables.new image.new }
    ensures shown { ShowsName system.now actor.0 call tables.old (byte_at image.old) result }
    ensures regions { regions_of image.new ≡ regions_of image.old }
    ensures shape { shape_of tables.new ≡ shape_of tables.old }
    ensures names { KeepsNames system.now tables.old tables.new }
{
    if let Call::Resume = call {
        resume(system, tables, actor)
    } else {
        issue(system, tables, image, actor, call)
    }
}
