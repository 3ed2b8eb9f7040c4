//! What an entry of a trace sends, by the state before it.
ghost use Rattle.std.specs.Prelude.{◌≡◌, ◌++◌, [], IfOk};
ghost use Rattle.std.specs.List.{cons_option, filter_map};
ghost use Rattle.std.specs.Option.{option_map};
ghost use Rattle.ffm_model.specs.Actors.{owner_of};
ghost use Rattle.ffm_model.specs.SignalCalls.{place_of_id};
ghost use Rattle.machine_calls.specs.Machine.{spm_of_objects};
ghost use Rattle.view_diagram.specs.Arrows.{arrow, arrow_of, arrow_of_call, arrows_of, interrupt_arrow, is_return, issued, message_arrow, panic_arrows, panicking, release_arrow, reply_arrow, sent, service_of_handle};

use ffm_model::{
    ActorId, ActorPhase, Call, Entry, Handle, Memory, Outcome, PSA_IPC_CONNECT, PSA_IPC_DISCONNECT,
    PendingMessage, System,
};
use machine_calls::Objects;
use machine_rules::{is_service_of, owes_panic, stateless_index};
use std::alloc::Global;

/// What an arrow means. Services and sources are given by their places in the system.
#[derive(Clone, Copy, Debug, PartialEq, Eq)]
pub enum Meaning {
    /// A client issues a message to a service: a connection (kind -1), a request (0 or more) or a
    /// disconnection (-2).
    Message {
        service: u32,
        kind: i32,
    },
    /// A partition answers a message of that kind to one of its services.
    Reply {
        service: u32,
        kind: i32,
        status: i32,
    },
    /// The manager answers a call at once: a PROGRAMMER ERROR of a client or of the device, a
    /// connection that is refused or busy, or a request whose service's partition panicked.
    Refusal {
        status: i32,
    },
    /// A partition rings another one's doorbell.
    Notify,
    /// The device interrupts the source's partition. The source becomes pending, or its first-level
    /// handler answered 0 and nothing changes.
    Interrupt {
        source: u32,
        pending: bool,
    },
    /// A call that waited returns.
    Wake {
        outcome: Outcome,
    },
    /// A partition panics.
    Panic,
    /// A partition that panics frees a client that waits for the answer to a message of that kind.
    Release {
        service: u32,
        kind: i32,
    },
}

/// An arrow of a diagram. From an actor to itself it is a mark.
#[derive(Clone, Copy, Debug, PartialEq, Eq)]
pub struct Arrow {
    pub from: ActorId,
    pub to: ActorId,
    pub meaning: Meaning,
}

fn arrow_between(from: ActorId, to: ActorId, meaning: Meaning) -> Arrow
    ensures { result ≡ arrow from.0 to.0 meaning }
{
    Arrow { from, to, meaning }
}

// The partition that a service belongs to.
fn owner_of(system: &System, service: u32) -> Option<u32>
    ensures { result ≡ owner_of system.now service }
{
    let service = system.services.as_slice().get(service as usize)?;
    Some(service.owner)
}

// The service that a handle of the caller names: a stateless handle, or that of a connection.
fn service_of_handle(
    system: &System,
    objects: &Objects,
    actor: ActorId,
    handle: Handle,
) -> Option<u32>
    ensures { result ≡ service_of_handle system.now (spm_of_objects objects.now) actor.0 handle }
{
    match stateless_index(handle) {
        Some(index) => system.stateless_at(index),
        None => match objects.connection_held(actor.0, handle) {
            Some(connection) => Some(connection.service),
            None => None,
        },
    }
}

// A message from an actor to the partition of a service.
fn message_arrow(system: &System, actor: ActorId, kind: i32, service: u32) -> Option<Arrow>
    ensures { result ≡ message_arrow system.now actor.0 kind service }
{
    let owner = owner_of(system, service)?;
    Some(arrow_between(actor, ActorId(owner), Meaning::Message { service, kind }))
}

// The message that a blocked call issues; `psa_wait` issues none.
fn issued(system: &System, objects: &Objects, actor: ActorId, call: Call) -> Option<Arrow>
    ensures { result ≡ issued system.now (spm_of_objects objects.now) actor.0 call }
{
    match call {
        Call::Connect { sid, .. } => {
            let service = system.service_at(sid)?;
            message_arrow(system, actor, PSA_IPC_CONNECT, service)
        }
        Call::Invoke { handle, kind, .. } => {
            let service = service_of_handle(system, objects, actor, handle)?;
            message_arrow(system, actor, kind, service)
        }
        Call::Close { handle } => {
            let connection = objects.connection_held(actor.0, handle)?;
            message_arrow(system, actor, PSA_IPC_DISCONNECT, connection.service)
        }
        _ => None,
    }
}

fn reply_arrow(actor: ActorId, status: i32, message: PendingMessage) -> Arrow
    ensures { result ≡ reply_arrow actor.0 status message }
{
    let meaning = Meaning::Reply {
        service: message.service,
        kind: message.kind,
        status,
    };
    arrow_between(actor, message.client, meaning)
}

fn interrupt_arrow(system: &System, actor: ActorId, source: u32, pending: bool) -> Option<Arrow>
    ensures { result ≡ interrupt_arrow system.now actor.0 source pending }
{
    let owner = system.sources.as_slice().get(source as usize)?.owner;
    Some(arrow_between(
        actor,
        ActorId(owner),
        Meaning::Interrupt { source, pending },
    ))
}

// The actor of the partition with an ID.
fn actor_of_id(id: i32) -> ActorId
    ensures { result.0 ≡ place_of_id id }
{
    match u32::try_from(id) {
        Ok(id) => ActorId(id.saturating_sub(1)),
        Err(_) => ActorId(0),
    }
}

// What a call that is done sends: a message's answer, a doorbell's ring, an interrupt.
fn sent(system: &System, objects: &Objects, actor: ActorId, call: Call) -> Option<Arrow>
    ensures { result ≡ sent system.now (spm_of_objects objects.now) actor.0 call }
{
    match call {
        Call::Reply { handle, status } => {
            let message = objects.message_held(system, actor.0, handle)?;
            Some(reply_arrow(actor, status.0, message))
        }
        Call::Notify { partition } => Some(arrow_between(
            actor,
            actor_of_id(partition),
            Meaning::Notify,
        )),
        Call::Raise { source } => interrupt_arrow(system, actor, source, true),
        Call::Fire { source, result } => interrupt_arrow(system, actor, source, result != 0),
        _ => None,
    }
}

// The arrow of a call that isn't a return.
fn arrow_of_call(
    system: &System,
    objects: &Objects,
    actor: ActorId,
    call: Call,
    outcome: Outcome,
) -> Option<Arrow>
    ensures { result ≡ arrow_of_call system.now (spm_of_objects objects.now) actor.0 call outcome }
{
    match outcome {
        Outcome::Blocked => issued(system, objects, actor, call),
        Outcome::Done => sent(system, objects, actor, call),
        Outcome::Value(status) => Some(arrow_between(actor, actor, Meaning::Refusal { status })),
        _ => None,
    }
}

fn is_return(call: Call) -> bool
    ensures { result ≡ is_return call }
{
    matches!(call, Call::Resume)
}

/// What an entry sends, by the state before it. None where it sends nothing.
///
/// A connection, a request or a disconnection that is issued goes from its client to the partition of its service, and
/// its answer back to the client; so does a request by a stateless handle. A ring goes from partition to partition, and
/// an interrupt from the device to a partition. A return, and a call that the manager answers at once, are marks at
/// their actor.
pub fn arrow_of(system: &System, objects: &Objects, entry: &Entry) -> Option<Arrow>
    ensures { result ≡ arrow_of system.now (spm_of_objects objects.now) entry.now }
{
    let actor = entry.actor;
    if is_return(entry.call) {
        let outcome = entry.outcome;
        return Some(arrow_between(actor, actor, Meaning::Wake { outcome }));
    }
    arrow_of_call(system, objects, actor, entry.call, entry.outcome)
}

// The partition that panics in an entry: the caller, or the client whose request is answered with PROGRAMMER ERROR.
fn panicking(system: &System, objects: &Objects, entry: &Entry) -> Option<ActorId>
    ensures { option_map (λ a. a.0) result
        ≡ panicking system.now (spm_of_objects objects.now) entry.now }
{
    match (entry.outcome, entry.call) {
        (Outcome::Panicked, _) => Some(entry.actor),
        (Outcome::Done, Call::Reply { handle, status }) => {
            let message = objects.message_held(system, entry.actor.0, handle)?;
            if owes_panic(system, message, status.0) {
                Some(message.client)
            } else {
                None
            }
        }
        _ => None,
    }
}

// Frees the client of a message to a service of a partition that panics, where it waits.
fn release_arrow(
    system: &System,
    objects: &Objects,
    partition: ActorId,
    message: &PendingMessage,
) -> Option<Arrow>
    ensures { result ≡ release_arrow system.now
        (spm_of_objects objects.now) partition.0 message.now }
{
    let is_blocked = matches!(objects.phase(message.client.0), ActorPhase::Blocked);
    if !is_service_of(system, partition.0, message.service) || !is_blocked {
        return None;
    }
    let meaning = Meaning::Release {
        service: message.service,
        kind: message.kind,
    };
    Some(arrow_between(partition, message.client, meaning))
}

// Adds an arrow, where there is one.
fn push_arrow(arrows: &mut Vec<Arrow>, arrow: Option<Arrow>) -> Result<(), Memory>
    ensures { IfOk result (λ u. arrows.new.items ≡ arrows.old.items ++ cons_option arrow []) }
{
    if let Some(arrow) = arrow {
        arrows.push(arrow)?;
    }
    Ok(())
}

// Adds the clients that the panic of a partition frees, of these messages.
fn push_releases(
    arrows: &mut Vec<Arrow>,
    system: &System,
    objects: &Objects,
    partition: ActorId,
    messages: &[PendingMessage],
) -> Result<(), Memory>
    ensures { IfOk result (λ u.
        arrows.new.items ≡ arrows.old.items
        ++ filter_map (release_arrow system.now
        (spm_of_objects objects.now) partition.0) messages.now) }
{
    for message in messages {
        let release = release_arrow(system, objects, partition, message);
        push_arrow(arrows, release)?;
    }
    Ok(())
}

// Adds the mark of a panic, and then the clients that it frees, in the order of their messages.
fn push_panic(
    arrows: &mut Vec<Arrow>,
    system: &System,
    objects: &Objects,
    partition: ActorId,
) -> Result<(), Memory>
    ensures { IfOk result (λ u.
        arrows.new.items
        ≡ arrows.old.items ++ panic_arrows system.now (spm_of_objects objects.now) partition.0) }
{
    let messages = objects.messages.as_slice();
    arrows.push(arrow_between(partition, partition, Meaning::Panic))?;
    push_releases(arrows, system, objects, partition, messages)
}

/// All arrows of an entry, by the state before it: what it sends, and where a partition panics in it the mark of the
/// panic and the clients that it frees.
pub fn arrows_of(
    alloc: Global,
    system: &System,
    objects: &Objects,
    entry: &Entry,
) -> Result<Vec<Arrow>, Memory>
    ensures { IfOk result (λ v.
        v.items ≡ arrows_of system.now (spm_of_objects objects.now) entry.now) }
{
    let mut arrows = Vec::new(alloc);
    push_arrow(&mut arrows, arrow_of(system, objects, entry))?;
    if let Some(partition) = panicking(system, objects, entry) {
        push_panic(&mut arrows, system, objects, partition)?;
    }
    Ok(arrows)
}
