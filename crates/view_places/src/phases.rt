//! What an actor does, as a text.
ghost use Rattle.std.specs.Prelude.{◌≡◌, ◌++◌, IfOk, OnOk, bit_and, map};
ghost use Rattle.ffm_model.specs.Signals.{signals_of};
ghost use Rattle.machine_calls.specs.Machine.{spm_of_objects};
ghost use Rattle.view_texts.specs.Columns.{listed};
ghost use Rattle.view_texts.specs.Names.{actor_name};
ghost use Rattle.view_places.specs.StateText.{accepted_text, asserted_text, blocked_text, call_text, came_text, connected_text, phase_text, signal_name, signals_text, waiting_text};

use crate::waits::{Signal, message_awaited, signals_in};
use ffm_model::{ActorPhase, OpenConnection, PendingMessage, System};
use machine_calls::Objects;
use std::alloc::{AllocError, Global};
use text_lines::append;
use view_texts::{actor_name, call_of_kind, put_list, put_outcome, put_service};

/// A signal's name: its service's, its interrupt's, or DOORBELL.
#[tactic(auto, unfolding(crate::specs::StateText::signal_name, view_texts::specs::Names::service_name))]
pub fn signal_name(system: &System, signal: Signal) -> &str
    ensures { result.now ≡ signal_name system.now signal }
{
    match signal {
        Signal::Service(place) => match system.services.as_slice().get(place) {
            Some(service) => service.name.as_str(),
            None => "no service",
        },
        Signal::Source(place) => match system.sources.as_slice().get(place) {
            Some(source) => source.signal_name.as_str(),
            None => "",
        },
        Signal::Doorbell => "DOORBELL",
    }
}

fn names_of<'a>(
    alloc: Global,
    system: &'a System,
    signals: &[Signal],
) -> Result<Vec<&'a str>, AllocError>
    ensures { IfOk result (λ names.
        map (λ n. n.now) names.items ≡ map (signal_name system.now) signals.now) }
{
    let mut names = Vec::new(alloc);
    for signal in signals {
        names.push(signal_name(system, *signal))?;
    }
    Ok(names)
}

// The names of these actors.
fn actor_names<'a>(
    alloc: Global,
    system: &'a System,
    actors: &[u32],
) -> Result<Vec<&'a str>, AllocError>
    ensures { IfOk result (λ names.
        map (λ n. n.now) names.items ≡ map (actor_name system.now) actors.now) }
{
    let mut names = Vec::new(alloc);
    for actor in actors {
        names.push(actor_name(system, *actor))?;
    }
    Ok(names)
}

/// Appends the names of these actors; where there is none, another text.
pub fn put_actor_names(
    alloc: Global,
    text: &mut Vec<u8>,
    system: &System,
    actors: &[u32],
    none: &str,
) -> Result<(), AllocError>
    ensures { OnOk result (text.new.items
        ≡ text.old.items ++ listed none.now (map (actor_name system.now) actors.now)) }
{
    let names = actor_names(alloc, system, actors)?;
    put_list(text, names.as_slice(), none)
}

/// Appends the names of a partition's signals in a mask.
#[tactic(auto, unfolding(crate::specs::StateText::signals_text))]
pub fn put_signals(
    alloc: Global,
    text: &mut Vec<u8>,
    system: &System,
    partition: u32,
    mask: u32,
) -> Result<(), AllocError>
    ensures { OnOk result
        (text.new.items ≡ text.old.items ++ signals_text system.now partition mask) }
{
    let signals = signals_in(alloc, system, partition, mask)?;
    let names = names_of(alloc, system, signals.as_slice())?;
    put_list(text, names.as_slice(), "no signal")
}

/// Appends the call by which a message was made, and its service.
#[tactic(auto, unfolding(crate::specs::StateText::call_text))]
pub fn put_call(
    text: &mut Vec<u8>,
    system: &System,
    message: &PendingMessage,
) -> Result<(), AllocError>
    ensures { OnOk result (text.new.items ≡ text.old.items ++ call_text system.now message.now) }
{
    append(text, call_of_kind(message.kind))?;
    append(text, " at ")?;
    put_service(text, system, message.service)
}

fn put_blocked(
    text: &mut Vec<u8>,
    system: &System,
    awaited: Option<PendingMessage>,
) -> Result<(), AllocError>
    ensures { OnOk result (text.new.items ≡ text.old.items ++ blocked_text system.now awaited) }
{
    match awaited {
        Some(message) => {
            append(text, "blocked in ")?;
            put_call(text, system, &message)
        }
        None => append(text, "blocked"),
    }
}

// Appends which of the signals came.
fn put_came(
    alloc: Global,
    text: &mut Vec<u8>,
    system: &System,
    partition: u32,
    came: u32,
) -> Result<(), AllocError>
    ensures { OnOk result (text.new.items ≡ text.old.items ++ came_text system.now partition came) }
{
    append(text, "; asserted: ")?;
    put_signals(alloc, text, system, partition, came)
}

// Appends which of the signals came, where one did.
#[tactic(auto, unfolding(crate::specs::StateText::asserted_text))]
fn put_asserted(
    alloc: Global,
    text: &mut Vec<u8>,
    system: &System,
    partition: u32,
    came: u32,
) -> Result<(), AllocError>
    ensures { OnOk result
        (text.new.items ≡ text.old.items ++ asserted_text system.now partition came) }
{
    if came == 0 {
        return Ok(());
    }
    put_came(alloc, text, system, partition, came)
}

// Appends which of a partition's signals in a mask came, where one did.
fn put_asserted_in(
    alloc: Global,
    text: &mut Vec<u8>,
    system: &System,
    objects: &Objects,
    partition: u32,
    mask: u32,
) -> Result<(), AllocError>
    ensures { OnOk result (text.new.items ≡ text.old.items ++ asserted_text system.now partition
        (bit_and (signals_of system.now (spm_of_objects objects.now) partition) mask)) }
{
    let came = objects.signals(system, partition) & mask;
    put_asserted(alloc, text, system, partition, came)
}

fn put_waiting(
    alloc: Global,
    text: &mut Vec<u8>,
    system: &System,
    objects: &Objects,
    partition: u32,
    mask: u32,
) -> Result<(), AllocError>
    ensures { OnOk result (text.new.items
        ≡ text.old.items ++ waiting_text system.now (spm_of_objects objects.now) partition mask) }
{
    append(text, "waits for ")?;
    put_signals(alloc, text, system, partition, mask)?;
    put_asserted_in(alloc, text, system, objects, partition, mask)
}

fn put_accepted(
    text: &mut Vec<u8>,
    system: &System,
    connection: &OpenConnection,
) -> Result<(), AllocError>
    ensures { OnOk result
        (text.new.items ≡ text.old.items ++ accepted_text system.now connection.now) }
{
    append(text, "connected to ")?;
    put_service(text, system, connection.service)?;
    append(text, ", returns with a handle")
}

fn put_connected(
    text: &mut Vec<u8>,
    system: &System,
    connection: Option<OpenConnection>,
) -> Result<(), AllocError>
    ensures { OnOk result
        (text.new.items ≡ text.old.items ++ connected_text system.now connection) }
{
    match connection {
        Some(connection) => put_accepted(text, system, &connection),
        None => append(text, "connected"),
    }
}

/// Appends what an actor does.
#[tactic(auto, unfolding(crate::specs::StateText::phase_text))]
pub fn put_phase(
    alloc: Global,
    text: &mut Vec<u8>,
    system: &System,
    objects: &Objects,
    actor: u32,
) -> Result<(), AllocError>
    ensures { OnOk result (text.new.items
        ≡ text.old.items ++ phase_text system.now (spm_of_objects objects.now) actor) }
{
    match objects.phase(actor) {
        ActorPhase::Running => append(text, "runs"),
        ActorPhase::Blocked => put_blocked(text, system, message_awaited(objects, actor)),
        ActorPhase::Waiting { mask } => put_waiting(alloc, text, system, objects, actor, mask),
        ActorPhase::Ready(outcome) => {
            append(text, "returns with ")?;
            put_outcome(text, outcome)
        }
        ActorPhase::Connected(serial) => {
            put_connected(text, system, objects.connection_by_serial(serial))
        }
        ActorPhase::Ended => append(text, "has ended"),
        ActorPhase::Panicked => append(text, "has panicked"),
    }
}
