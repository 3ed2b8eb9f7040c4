//! One entry: whether it is the machine's next step.
ghost use Rattle.std.specs.Prelude.{◌≡◌, ◌+◌, ◌<◌, ◌≤◌, ◌^◌, ◌&&◌, ◌||◌, ℤ, pos, int_le, List, true, not, IfOk, Ok, Some};
ghost use Rattle.std.specs.BTreeSet.{contains};
ghost use Rattle.std.specs.Ordering.{int_cmp, int_eq};
ghost use Rattle.ffm_model.specs.declared.groups.Group.TheVariants as group;
ghost use Rattle.ffm_model.specs.declared.machine.Call.TheVariants as call;
ghost use Rattle.ffm_model.specs.declared.machine.Handle.{Handle as HandleSeen};
ghost use Rattle.ffm_model.specs.Actors.{actor_count};
ghost use Rattle.ffm_model.specs.Groups.{group_of};
ghost use Rattle.ffm_model.specs.Signals.{may_resume};
ghost use Rattle.ffm_model.specs.Step.{handle_shown, may_call, outcome_eq, returns_when_due};
ghost use Rattle.machine_calls.specs.Machine.{spm_of_objects, IsMachineOf};
ghost use Rattle.machine_check.specs.Performed.{gave_handle, is_left, Attempts, Knows, Performs, Refuses, Steps};

use ffm_model::{
    ActorId, ActorKind, ActorPhase, Call, Entry, Group, Handle, Memory, Outcome,
    PSA_ERROR_PROGRAMMER_ERROR, PSA_FRAMEWORK_VERSION, System, group_of, has_call, refusal_of,
};
use machine_calls::{Machine, Objects};
use machine_rules::version;
use std::collections::BTreeSet;

/// The last number that a handle may have.
pub const LAST_HANDLE: i32 = 0x3fff_ffff;

// Makes a call of `psa/client.h`.
fn client_call(
    machine: &mut Machine,
    system: &System,
    actor: ActorId,
    call: Call,
    handle: Handle,
) -> Result<Option<Outcome>, Memory>
    requires group { group_of call ≡ group.Client }
    requires kept { IsMachineOf system.now machine.old }
    requires few { machine.old.objects.connections_made < 2 ^ 31 }
    ensures attempts { Attempts system.now actor.0 call handle machine.old result machine.new }
    ensures made { machine.new.objects.connections_made ≤ machine.old.objects.connections_made + 1 }
    ensures kept { IfOk result (λ o. IsMachineOf system.now machine.new) }
{
    match call {
        Call::FrameworkVersion => Ok(Some(Outcome::Number(PSA_FRAMEWORK_VERSION))),
        Call::Version { sid } => Ok(Some(Outcome::Number(version(system, actor, sid)))),
        Call::Connect { sid, version } => machine.objects.connect(system, actor, sid, version),
        Call::Invoke {
            handle,
            kind,
            in_vec,
            in_len,
            out_vec,
            out_len,
        } => machine.invoke(
            system, actor, handle, kind, in_vec, in_len, out_vec, out_len,
        ),
        Call::Close { handle } => machine.objects.close(actor, handle),
        _ => unreachable!(),
    }
}

// Makes a call of `psa/service.h` that waits for messages, takes or answers them.
fn service_call(
    machine: &mut Machine,
    system: &System,
    actor: ActorId,
    call: Call,
    handle: Handle,
) -> Result<Option<Outcome>, Memory>
    requires group { group_of call ≡ group.Service }
    requires kept { IsMachineOf system.now machine.old }
    ensures attempts { Attempts system.now actor.0 call handle machine.old result machine.new }
    ensures made { machine.new.objects.connections_made ≡ machine.old.objects.connections_made }
    ensures kept { IfOk result (λ o. IsMachineOf system.now machine.new) }
{
    match call {
        Call::Wait { mask, timeout } => Ok(machine.objects.wait(system, actor, mask, timeout)),
        Call::Get { signal, msg } => {
            Ok(
                machine
                    .get(system, actor, signal, msg, handle)
                    .map(Outcome::Got),
            )
        }
        Call::SetRhandle { handle, rhandle } => {
            Ok(
                machine
                    .objects
                    .set_rhandle_of(system, actor, handle, rhandle),
            )
        }
        Call::Reply { handle, status } => machine.reply(system, actor, handle, status),
        _ => unreachable!(),
    }
}

// Moves bytes of a request.
fn transfer(
    machine: &mut Machine,
    system: &System,
    actor: ActorId,
    call: Call,
    handle: Handle,
) -> Option<Outcome>
    requires group { group_of call ≡ group.Transfer }
    requires kept { IsMachineOf system.now machine.old }
    ensures attempts { Attempts system.now actor.0 call handle machine.old (Ok result) machine.new }
    ensures made { machine.new.objects.connections_made ≡ machine.old.objects.connections_made }
    ensures kept { IsMachineOf system.now machine.new }
{
    let _ = handle;
    match call {
        Call::Read {
            handle,
            index,
            buffer,
            len,
        } => machine.read(system, actor, handle, index, buffer, len),
        Call::Skip { handle, index, len } => { machine.skip(system, actor, handle, index, len) }
        Call::Write {
            handle,
            index,
            buffer,
            len,
        } => machine.write(system, actor, handle, index, buffer, len),
        _ => unreachable!(),
    }
}

// Rings or clears a doorbell, or ends, enables, disables, resets, raises or fires an interrupt.
fn signal_call(
    machine: &mut Machine,
    system: &System,
    actor: ActorId,
    call: Call,
    handle: Handle,
) -> Option<Outcome>
    requires group { group_of call ≡ group.Signal }
    requires kept { IsMachineOf system.now machine.old }
    ensures attempts { Attempts system.now actor.0 call handle machine.old (Ok result) machine.new }
    ensures made { machine.new.objects.connections_made ≡ machine.old.objects.connections_made }
    ensures kept { IsMachineOf system.now machine.new }
{
    let _ = handle;
    match call {
        Call::Notify { partition } => machine.objects.notify(system, partition),
        Call::Clear => machine.objects.clear(actor),
        Call::Eoi { signal } => machine.objects.eoi(system, actor, signal),
        Call::IrqEnable { signal } => machine.objects.irq_enable(system, actor, signal),
        Call::IrqDisable { signal } => machine.objects.irq_disable(system, actor, signal),
        Call::ResetSignal { signal } => machine.objects.reset_signal(system, actor, signal),
        Call::Raise { source } => machine.objects.raise(system, source),
        Call::Fire { source, result } => machine.objects.fire(system, source, result),
        _ => unreachable!(),
    }
}

// Loads or stores.
fn memory_call(
    machine: &mut Machine,
    system: &System,
    actor: ActorId,
    call: Call,
    handle: Handle,
) -> Option<Outcome>
    requires group { group_of call ≡ group.Memory }
    requires kept { IsMachineOf system.now machine.old }
    ensures attempts { Attempts system.now actor.0 call handle machine.old (Ok result) machine.new }
    ensures made { machine.new.objects.connections_made ≡ machine.old.objects.connections_made }
    ensures kept { IsMachineOf system.now machine.new }
{
    let _ = handle;
    match call {
        Call::Load { address, size } => machine.load(system, actor, address, size),
        Call::Store {
            address,
            size,
            value,
        } => machine.store(system, actor, address, size, value),
        _ => unreachable!(),
    }
}

// The return of a call that waited.
fn resume(machine: &mut Machine, system: &System, actor: ActorId, handle: Handle) -> Outcome
    requires kept { IsMachineOf system.now machine.old }
    ensures attempts { Attempts system.now actor.0 call.Resume handle machine.old
        (Ok (Some result)) machine.new }
    ensures made { machine.new.objects.connections_made ≡ machine.old.objects.connections_made }
    ensures kept { IsMachineOf system.now machine.new }
{
    match machine.objects.phase(actor.0) {
        ActorPhase::Ready(outcome) => {
            machine.objects.set_phase(actor.0, ActorPhase::Running);
            outcome
        }
        ActorPhase::Connected(serial) => {
            machine.objects.set_connection_handle(serial, handle);
            machine.objects.set_phase(actor.0, ActorPhase::Running);
            Outcome::Value(handle.0)
        }
        ActorPhase::Waiting { mask } => {
            let signals = machine.objects.signals(system, actor.0) & mask;
            machine.objects.set_phase(actor.0, ActorPhase::Running);
            Outcome::Signals(signals)
        }
        _ => Outcome::Done,
    }
}

// An actor's own end, or the return of a call that waited.
fn actor_call(
    machine: &mut Machine,
    system: &System,
    actor: ActorId,
    call: Call,
    handle: Handle,
) -> Option<Outcome>
    requires group { group_of call ≡ group.Actor }
    requires kept { IsMachineOf system.now machine.old }
    ensures attempts { Attempts system.now actor.0 call handle machine.old (Ok result) machine.new }
    ensures made { machine.new.objects.connections_made ≡ machine.old.objects.connections_made }
    ensures kept { IsMachineOf system.now machine.new }
{
    match call {
        Call::Stop { .. } => {
            machine.objects.set_phase(actor.0, ActorPhase::Ended);
            Some(Outcome::Done)
        }
        Call::Panic => None,
        Call::Resume => Some(resume(machine, system, actor, handle)),
        _ => unreachable!(),
    }
}

// Makes a call that its actor has, or finds it a PROGRAMMER ERROR.
fn attempt(
    machine: &mut Machine,
    system: &System,
    actor: ActorId,
    call: Call,
    handle: Handle,
) -> Result<Option<Outcome>, Memory>
    requires kept { IsMachineOf system.now machine.old }
    requires few { machine.old.objects.connections_made < 2 ^ 31 }
    ensures attempts { Attempts system.now actor.0 call handle machine.old result machine.new }
    ensures made { machine.new.objects.connections_made ≤ machine.old.objects.connections_made + 1 }
    ensures kept { IfOk result (λ o. IsMachineOf system.now machine.new) }
{
    match group_of(call) {
        Group::Client => client_call(machine, system, actor, call, handle),
        Group::Service => service_call(machine, system, actor, call, handle),
        Group::Transfer => Ok(transfer(machine, system, actor, call, handle)),
        Group::Signal => Ok(signal_call(machine, system, actor, call, handle)),
        Group::Memory => Ok(memory_call(machine, system, actor, call, handle)),
        Group::Actor => Ok(actor_call(machine, system, actor, call, handle)),
    }
}

// A PROGRAMMER ERROR: a partition panics, and to others nothing happens.
fn refuse(
    machine: &mut Machine,
    system: &System,
    kind: ActorKind,
    actor: ActorId,
    call: Call,
) -> Result<Outcome, Memory>
    requires kept { IsMachineOf system.now machine.old }
    ensures refused { Refuses system.now kind actor.0 call machine.old result machine.new }
    ensures made { machine.new.objects.connections_made ≡ machine.old.objects.connections_made }
    ensures kept { IfOk result (λ o. IsMachineOf system.now machine.new) }
{
    match kind {
        ActorKind::Partition => {
            machine.objects.panic(system, actor)?;
            Ok(Outcome::Panicked)
        }
        ActorKind::Client => Ok(refusal_of(call)),
        ActorKind::Device => Ok(Outcome::Value(PSA_ERROR_PROGRAMMER_ERROR)),
    }
}

/// Makes the call of an actor that can go on, and says what is due. The handle is the one to be given, where the call
/// gives one.
pub fn perform(
    machine: &mut Machine,
    system: &System,
    actor: ActorId,
    call: Call,
    handle: Handle,
) -> Result<Outcome, Memory>
    requires exists { actor.0 < actor_count system.now }
    requires kept { IsMachineOf system.now machine.old }
    requires few { machine.old.objects.connections_made < 2 ^ 31 }
    ensures performs { Performs system.now actor.0 call handle machine.old result machine.new }
    ensures made { machine.new.objects.connections_made ≤ machine.old.objects.connections_made + 1 }
    ensures kept { IfOk result (λ o. IsMachineOf system.now machine.new) }
{
    let kind = system.actor_kind(actor);
    if !has_call(kind, call) {
        return refuse(machine, system, kind, actor, call);
    }
    match attempt(machine, system, actor, call, handle)? {
        Some(outcome) => Ok(outcome),
        None => refuse(machine, system, kind, actor, call),
    }
}

/// Whether an entry is the machine's next step. Where it is, the machine is the one after it, and a handle that it
/// gives is among those given. Where it isn't, the machine is of no more use.
pub fn step(
    machine: &mut Machine,
    system: &System,
    given: &mut BTreeSet<i32>,
    entry: &Entry,
) -> Result<bool, Memory>
    requires kept { IsMachineOf system.now machine.old }
    requires few { machine.old.objects.connections_made < 2 ^ 31 }
    ensures steps { (all : List HandleSeen) → Knows given.old all
        → Steps system.now machine.old all entry.now result machine.new given.new }
    ensures made { machine.new.objects.connections_made ≤ machine.old.objects.connections_made + 1 }
    ensures kept { IfOk result (λ o. IsMachineOf system.now machine.new) }
{
    let actor = entry.actor;
    if !may_call(system, &machine.objects, actor, entry.call) {
        return Ok(false);
    }
    let handle = handle_shown(entry.outcome);
    let phase = machine.objects.phase(actor.0);
    let due = perform(machine, system, actor, entry.call, handle)?;
    if !is_due(due, entry.outcome) {
        return Ok(false);
    }
    if gave_handle(phase, entry.call, due) {
        give(given, handle)
    } else {
        Ok(true)
    }
}

fn may_resume(phase: ActorPhase) -> bool
    ensures { result ≡ may_resume phase }
{
    matches!(
        phase,
        ActorPhase::Ready(_) | ActorPhase::Connected(_) | ActorPhase::Waiting { .. }
    )
}

// A call returns exactly where it is to return.
fn returns_when_due(call: Call, phase: ActorPhase) -> bool
    ensures { result ≡ returns_when_due call phase }
{
    match call {
        Call::Resume => may_resume(phase),
        _ => !may_resume(phase),
    }
}

/// The actor exists, is enabled, and makes no call while one is to return.
pub fn may_call(system: &System, objects: &Objects, actor: ActorId, call: Call) -> bool
    ensures { result ≡ may_call system.now (spm_of_objects objects.now) actor.0 call }
{
    actor.0 < system.actor_count()
        && objects.is_enabled(system, actor.0)
        && returns_when_due(call, objects.phase(actor.0))
}

// The handle that an outcome shows, where it shows one.
fn handle_shown(outcome: Outcome) -> Handle
    ensures { result ≡ handle_shown outcome }
{
    match outcome {
        Outcome::Value(value) => Handle(value),
        Outcome::Got(message) => message.handle,
        _ => Handle(0),
    }
}

// Whether the outcome told is the one that is due.
fn is_due(due: Outcome, told: Outcome) -> bool
    ensures { result ≡ outcome_eq due told }
{
    due == told
}

/// Whether the call gave a handle: `psa_get`, or the return of `psa_connect`.
pub fn gave_handle(phase: ActorPhase, call: Call, outcome: Outcome) -> bool
    ensures { result ≡ gave_handle phase call outcome }
{
    match call {
        Call::Get { .. } => matches!(outcome, Outcome::Got(_)),
        Call::Resume => matches!(phase, ActorPhase::Connected(_)),
        _ => false,
    }
}

// Gives a handle, where it is from 1 to 0x3fffffff and no event gave it before.
fn give(given: &mut BTreeSet<i32>, handle: Handle) -> Result<bool, Memory>
    ensures fresh { IfOk result (λ is_fresh. is_fresh ≡ is_left given.old handle) }
    ensures given { IfOk result (λ is_fresh.
        is_fresh ≡ true → (k : ℤ)
        → contains int_cmp given.new k ≡ (int_eq k handle.0 || contains int_cmp given.old k)) }
{
    if handle.0 < 1 || handle.0 > LAST_HANDLE {
        return Ok(false);
    }
    Ok(given.insert(handle.0)?)
}
