//! Who waits for whom where no actor can go on, as a text.
ghost use Rattle.std.specs.Prelude.{◌≡◌, ◌++◌, IfOk, OnOk};
ghost use Rattle.std.specs.List.{flat_map};
ghost use Rattle.machine_calls.specs.Machine.{spm_of_objects};
ghost use Rattle.view_places.specs.StateText.{answerer_text, blocked_line, circle_line, disabled_text, givers, hindrance, holding_text, name_column, next_in_circle, other_signal, signal_from, signals_from, stall_line, stall_text, stalled_text, stopped_text, waiting_line};
ghost use Rattle.view_places.specs.Waits.{actors, circle_of, message_awaited, signals_in};

use crate::phases::{put_actor_names, put_call, signal_name};
use crate::waits::{
    Signal, Waits, add_where, could_give, flags_at, is_stalled, message_awaited, owner_of,
    signals_in,
};
use dependency_circle::first_circle;
use ffm_model::{ActorPhase, Handle, PendingMessage, System};
use machine_calls::Objects;
use std::alloc::{AllocError, Global};
use text_lines::{Word, append, append_words};
use view_texts::{actor_name, actor_width, put_left};

// The actors that could give a partition's signal.
fn givers(
    alloc: Global,
    system: &System,
    objects: &Objects,
    partition: u32,
    signal: Signal,
) -> Result<Vec<u32>, AllocError>
    ensures { IfOk result (λ found. found.items
        ≡ givers system.now (spm_of_objects objects.now) partition signal) }
{
    let mut found = Vec::new(alloc);
    for actor in 0..system.actor_count() {
        let is_giver = could_give(system, objects, partition, signal, actor);
        add_where(&mut found, is_giver, actor)?;
    }
    Ok(found)
}

// Appends that a signal's source is disabled, where it is.
fn put_disabled(text: &mut Vec<u8>, objects: &Objects, signal: Signal) -> Result<(), AllocError>
    ensures { OnOk result
        (text.new.items ≡ text.old.items ++ disabled_text (spm_of_objects objects.now) signal) }
{
    match signal {
        Signal::Source(place) if !flags_at(objects, place).enabled => {
            append(text, " while it is disabled")
        }
        _ => Ok(()),
    }
}

// Appends a signal, and who could give it.
#[tactic(auto, unfolding(crate::specs::StateText::signal_from))]
fn put_signal(
    alloc: Global,
    text: &mut Vec<u8>,
    system: &System,
    objects: &Objects,
    partition: u32,
    signal: Signal,
) -> Result<(), AllocError>
    ensures { OnOk result (text.new.items
        ≡ text.old.items ++ signal_from system.now (spm_of_objects objects.now) partition signal) }
{
    append(text, signal_name(system, signal))?;
    append(text, " from ")?;
    let givers = givers(alloc, system, objects, partition, signal)?;
    put_actor_names(alloc, text, system, givers.as_slice(), "nobody")?;
    put_disabled(text, objects, signal)
}

fn put_other_signals(
    alloc: Global,
    text: &mut Vec<u8>,
    system: &System,
    objects: &Objects,
    partition: u32,
    signals: &[Signal],
) -> Result<(), AllocError>
    ensures { OnOk result (text.new.items ≡ text.old.items
        ++ flat_map (other_signal system.now (spm_of_objects objects.now) partition) signals.now) }
{
    for signal in signals {
        append(text, ", or ")?;
        put_signal(alloc, text, system, objects, partition, *signal)?;
    }
    Ok(())
}

// Appends these signals, each with who could give it.
fn put_signals(
    alloc: Global,
    text: &mut Vec<u8>,
    system: &System,
    objects: &Objects,
    partition: u32,
    signals: &[Signal],
) -> Result<(), AllocError>
    ensures { OnOk result (text.new.items ≡ text.old.items
        ++ signals_from system.now (spm_of_objects objects.now) partition signals.now) }
{
    match signals {
        [] => append(text, "no signal"),
        [first, others @ ..] => {
            put_signal(alloc, text, system, objects, partition, *first)?;
            put_other_signals(alloc, text, system, objects, partition, others)
        }
    }
}

// What keeps a partition from answering.
fn hindrance(phase: ActorPhase) -> &'static str
    ensures { result.now ≡ hindrance phase }
{
    match phase {
        ActorPhase::Blocked => "is blocked itself",
        ActorPhase::Waiting { .. } => "waits itself",
        ActorPhase::Ended => "has ended",
        ActorPhase::Panicked => "has panicked",
        _ => "can go on",
    }
}

fn put_holding(text: &mut Vec<u8>, handle: Option<Handle>) -> Result<(), AllocError>
    ensures { OnOk result (text.new.items ≡ text.old.items ++ holding_text handle) }
{
    match handle {
        Some(handle) => append_words(
            text,
            &[Word::Text(" holds message "), Word::Signed(handle.0)],
        ),
        None => append(text, " has to take the message"),
    }
}

// Appends which partition has to answer, and what keeps it from that.
fn put_answerer(
    text: &mut Vec<u8>,
    system: &System,
    objects: &Objects,
    handle: Option<Handle>,
    owner: Option<u32>,
) -> Result<(), AllocError>
    ensures { OnOk result (text.new.items ≡ text.old.items
        ++ answerer_text system.now (spm_of_objects objects.now) handle owner) }
{
    let Some(partition) = owner else {
        return Ok(());
    };
    append(text, "; ")?;
    append(text, actor_name(system, partition))?;
    put_holding(text, handle)?;
    append(text, " and ")?;
    append(text, hindrance(objects.phase(partition)))
}

// Appends the message for whose answer an actor waits, and what keeps its service from it.
fn put_stopped(
    text: &mut Vec<u8>,
    system: &System,
    objects: &Objects,
    awaited: Option<PendingMessage>,
) -> Result<(), AllocError>
    ensures { OnOk result (text.new.items ≡ text.old.items
        ++ stopped_text system.now (spm_of_objects objects.now) awaited) }
{
    let Some(message) = awaited else {
        return append(text, "blocked");
    };
    append(text, "blocked in ")?;
    put_call(text, system, &message)?;
    let owner = owner_of(system, message.service);
    put_answerer(text, system, objects, message.handle, owner)
}

#[tactic(auto, unfolding(crate::specs::StateText::name_column))]
fn put_name(text: &mut Vec<u8>, system: &System, actor: u32) -> Result<(), AllocError>
    ensures { OnOk result (text.new.items ≡ text.old.items ++ name_column system.now actor) }
{
    append(text, "  ")?;
    put_left(
        text,
        Word::Text(actor_name(system, actor)),
        actor_width(system),
    )
}

/// Appends a partition's signals in a mask, each with who could give it.
pub fn put_signals_in(
    alloc: Global,
    text: &mut Vec<u8>,
    system: &System,
    objects: &Objects,
    partition: u32,
    mask: u32,
) -> Result<(), AllocError>
    ensures { OnOk result (text.new.items ≡ text.old.items
        ++ signals_from system.now (spm_of_objects objects.now) partition
        (signals_in system.now partition mask)) }
{
    let signals = signals_in(alloc, system, partition, mask)?;
    put_signals(alloc, text, system, objects, partition, signals.as_slice())
}

fn put_waiting_line(
    alloc: Global,
    text: &mut Vec<u8>,
    system: &System,
    objects: &Objects,
    actor: u32,
    mask: u32,
) -> Result<(), AllocError>
    ensures { OnOk result (text.new.items
        ≡ text.old.items ++ waiting_line system.now (spm_of_objects objects.now) actor mask) }
{
    put_name(text, system, actor)?;
    append(text, "  waits for ")?;
    put_signals_in(alloc, text, system, objects, actor, mask)?;
    append(text, "\n")
}

/// Appends why an actor that is blocked isn't answered.
pub fn put_stop(
    text: &mut Vec<u8>,
    system: &System,
    objects: &Objects,
    actor: u32,
) -> Result<(), AllocError>
    ensures { OnOk result (text.new.items ≡ text.old.items
        ++ stopped_text system.now (spm_of_objects objects.now)
        (message_awaited (spm_of_objects objects.now) actor)) }
{
    put_stopped(text, system, objects, message_awaited(objects, actor))
}

fn put_blocked_line(
    text: &mut Vec<u8>,
    system: &System,
    objects: &Objects,
    actor: u32,
) -> Result<(), AllocError>
    ensures { OnOk result (text.new.items
        ≡ text.old.items ++ blocked_line system.now (spm_of_objects objects.now) actor) }
{
    put_name(text, system, actor)?;
    append(text, "  ")?;
    put_stop(text, system, objects, actor)?;
    append(text, "\n")
}

// Appends what an actor waits for.
#[tactic(auto, unfolding(crate::specs::StateText::stall_line))]
fn put_stall_line(
    alloc: Global,
    text: &mut Vec<u8>,
    system: &System,
    objects: &Objects,
    actor: u32,
) -> Result<(), AllocError>
    ensures { OnOk result (text.new.items
        ≡ text.old.items ++ stall_line system.now (spm_of_objects objects.now) actor) }
{
    match objects.phase(actor) {
        ActorPhase::Waiting { mask } => {
            put_waiting_line(alloc, text, system, objects, actor, mask)
        }
        ActorPhase::Blocked => put_blocked_line(text, system, objects, actor),
        _ => Ok(()),
    }
}

fn put_stall_lines(
    alloc: Global,
    text: &mut Vec<u8>,
    system: &System,
    objects: &Objects,
) -> Result<(), AllocError>
    ensures { OnOk result (text.new.items ≡ text.old.items
        ++ flat_map (stall_line system.now (spm_of_objects objects.now)) (actors system.now)) }
{
    for actor in 0..system.actor_count() {
        put_stall_line(alloc, text, system, objects, actor)?;
    }
    Ok(())
}

fn put_next(text: &mut Vec<u8>, system: &System, actor: u32) -> Result<(), AllocError>
    ensures { OnOk result (text.new.items ≡ text.old.items ++ next_in_circle system.now actor) }
{
    append(text, " -> ")?;
    append(text, actor_name(system, actor))
}

fn put_others(text: &mut Vec<u8>, system: &System, actors: &[u32]) -> Result<(), AllocError>
    ensures { OnOk result
        (text.new.items ≡ text.old.items ++ flat_map (next_in_circle system.now) actors.now) }
{
    for actor in actors {
        put_next(text, system, *actor)?;
    }
    Ok(())
}

// Appends the actors of a circle, and the first again.
fn put_circle(text: &mut Vec<u8>, system: &System, circle: &[u32]) -> Result<(), AllocError>
    ensures { OnOk result
        (text.new.items ≡ text.old.items ++ circle_line system.now (Some circle.now)) }
{
    let [first, others @ ..] = circle else {
        return append(text, NO_CIRCLE);
    };
    append(text, "circle: ")?;
    append(text, actor_name(system, *first))?;
    put_others(text, system, others)?;
    put_next(text, system, *first)?;
    append(text, "\n")
}

const NO_CIRCLE: &str =
    "no circle: they wait for actors that are gone or for signals that nobody gives\n";

// Appends the first circle of those that wait for each other.
#[tactic(auto, unfolding(crate::specs::Waits::circle_of))]
fn put_first_circle(
    alloc: Global,
    text: &mut Vec<u8>,
    system: &System,
    objects: &Objects,
) -> Result<(), AllocError>
    ensures { OnOk result (text.new.items ≡ text.old.items
        ++ circle_line system.now (circle_of system.now (spm_of_objects objects.now))) }
{
    let waits = Waits { system, objects };
    match first_circle(alloc, &waits, system.actor_count())? {
        Some(circle) => put_circle(text, system, circle.as_slice()),
        None => append(text, NO_CIRCLE),
    }
}

fn put_stalled(
    alloc: Global,
    text: &mut Vec<u8>,
    system: &System,
    objects: &Objects,
) -> Result<(), AllocError>
    ensures { OnOk result (text.new.items
        ≡ text.old.items ++ stalled_text system.now (spm_of_objects objects.now)) }
{
    append(text, "stalled: no actor can go on\n")?;
    put_stall_lines(alloc, text, system, objects)?;
    put_first_circle(alloc, text, system, objects)
}

/// Appends who waits for whom, where no actor can go on and some is blocked.
#[tactic(auto, unfolding(crate::specs::StateText::stall_text))]
pub fn put_stall(
    alloc: Global,
    text: &mut Vec<u8>,
    system: &System,
    objects: &Objects,
) -> Result<(), AllocError>
    ensures { OnOk result (text.new.items
        ≡ text.old.items ++ stall_text system.now (spm_of_objects objects.now)) }
{
    if !is_stalled(system, objects) {
        return Ok(());
    }
    put_stalled(alloc, text, system, objects)
}
