//! A state as JSON.
ghost use Rattle.std.specs.Prelude.{◌≡◌, IfOk, map};
ghost use Rattle.std.specs.List.{enumerate_from};
ghost use Rattle.std.specs.Option.{option_map};
ghost use Rattle.serde_json.specs.View.{view};
ghost use Rattle.machine_calls.specs.Machine.{spm_of_objects};
ghost use Rattle.view_places.specs.StateText.{phase_text, rung};
ghost use Rattle.view_json.specs.StateJson.{asserted_json, connection_json, json_of_state, mask_json, members_json, phase_word, source_json, standing_json, state_json};
ghost use Rattle.view_places.specs.Waits.{actors};
ghost use Rattle.view_json.specs.Values.{IsLineOf, actors_json, array_of, text_of};

use crate::actors::{actor_value, actors_value, all_actors, id_value};
use crate::moves::messages_value;
use crate::scripts::scripts_value;
use crate::stall::{circle_value, waits_value};
use crate::values::{handle_value, line_of, place_value, signals_value, text_value};
use ffm_model::{ActorPhase, OpenConnection, Source, System};
use machine_calls::Objects;
use serde_json::{Value, json};
use std::alloc::{AllocError, Global};
use view_places::{StateAfter, connection_word, flags_at, is_stalled, put_phase, rung};
use view_scripts::ScriptRow;
use view_texts::{actor_name, number_at, service_name};

fn phase_word(phase: ActorPhase) -> &'static str
    ensures { result.now ≡ phase_word phase }
{
    match phase {
        ActorPhase::Running => "running",
        ActorPhase::Blocked => "blocked",
        ActorPhase::Waiting { .. } => "waiting",
        ActorPhase::Ready(_) => "ready",
        ActorPhase::Connected(_) => "connected",
        ActorPhase::Ended => "ended",
        ActorPhase::Panicked => "panicked",
    }
}

// What an actor does, as in the text of a state.
fn doing_value(
    alloc: Global,
    system: &System,
    objects: &Objects,
    actor: u32,
) -> Result<Value, AllocError>
    ensures { IfOk result (λ v.
        view v ≡ text_of (phase_text system.now (spm_of_objects objects.now) actor)) }
{
    let mut text = Vec::new(alloc);
    put_phase(alloc, &mut text, system, objects, actor)?;
    text_value(alloc, &text)
}

// The signals that an actor waits for.
fn mask_value(alloc: Global, phase: ActorPhase) -> Result<Value, AllocError>
    ensures { IfOk result (λ v. view v ≡ mask_json phase) }
{
    match phase {
        ActorPhase::Waiting { mask } => signals_value(alloc, mask),
        _ => Ok(Value::Null),
    }
}

// The asserted signals of a partition.
fn asserted_value(
    alloc: Global,
    system: &System,
    objects: &Objects,
    actor: u32,
) -> Result<Value, AllocError>
    ensures { IfOk result (λ v.
        view v ≡ asserted_json system.now (spm_of_objects objects.now) actor) }
{
    if actor < system.counts().partitions {
        signals_value(alloc, objects.signals(system, actor))
    } else {
        Ok(Value::Null)
    }
}

#[tactic(auto, unfolding(crate::specs::StateJson::standing_json))]
fn standing_value(
    alloc: Global,
    system: &System,
    objects: &Objects,
    last: &[u32],
    actor: u32,
) -> Result<Value, AllocError>
    ensures { IfOk result (λ v.
        view v ≡ standing_json system.now (spm_of_objects objects.now) last.now actor) }
{
    let phase = objects.phase(actor);
    let id = id_value(alloc, system, actor)?;
    let doing = doing_value(alloc, system, objects, actor)?;
    let mask = mask_value(alloc, phase)?;
    let asserted = asserted_value(alloc, system, objects, actor)?;
    json!(in alloc; {
        "name": actor_name(system, actor),
        "id": id,
        "last_entry": place_value(number_at(last, actor)),
        "phase": phase_word(phase),
        "doing": doing,
        "mask": mask,
        "asserted": asserted
    })
}

fn standing_list(
    alloc: Global,
    system: &System,
    objects: &Objects,
    last: &[u32],
    all: &[u32],
) -> Result<Vec<Value>, AllocError>
    ensures { IfOk result (λ v. map view v.items
        ≡ map (standing_json system.now (spm_of_objects objects.now) last.now) all.now) }
{
    let mut list = Vec::new(alloc);
    for actor in all {
        list.push(standing_value(alloc, system, objects, last, *actor)?)?;
    }
    Ok(list)
}

fn standings_value(
    alloc: Global,
    system: &System,
    objects: &Objects,
    last: &[u32],
) -> Result<Value, AllocError>
    ensures { IfOk result (λ v. view v ≡ array_of
        (map (standing_json system.now (spm_of_objects objects.now) last.now) (actors system.now))) }
{
    let all = all_actors(alloc, system)?;
    Ok(Value::Array(standing_list(alloc, system, objects, last, &all)?))
}

#[tactic(auto, unfolding(crate::specs::StateJson::connection_json))]
fn connection_value(
    alloc: Global,
    system: &System,
    connection: &OpenConnection,
) -> Result<Value, AllocError>
    ensures { IfOk result (λ v. view v ≡ connection_json system.now connection.now) }
{
    let client = actor_value(alloc, system, connection.client.0)?;
    json!(in alloc; {
        "client": client,
        "service": service_name(system, connection.service),
        "phase": connection_word(connection.phase),
        "handle": handle_value(connection.handle),
        "rhandle": connection.rhandle
    })
}

fn connection_list(
    alloc: Global,
    system: &System,
    connections: &[OpenConnection],
) -> Result<Vec<Value>, AllocError>
    ensures { IfOk result (λ v.
        map view v.items ≡ map (connection_json system.now) connections.now) }
{
    let mut list = Vec::new(alloc);
    for connection in connections {
        list.push(connection_value(alloc, system, connection)?)?;
    }
    Ok(list)
}

fn connections_value(
    alloc: Global,
    system: &System,
    connections: &[OpenConnection],
) -> Result<Value, AllocError>
    ensures { IfOk result (λ v.
        view v ≡ array_of (map (connection_json system.now) connections.now)) }
{
    Ok(Value::Array(connection_list(alloc, system, connections)?))
}

#[tactic(auto, unfolding(crate::specs::StateJson::source_json))]
fn source_value(
    alloc: Global,
    system: &System,
    objects: &Objects,
    place: usize,
    source: &Source,
) -> Result<Value, AllocError>
    ensures { IfOk result (λ v.
        view v ≡ source_json system.now (spm_of_objects objects.now) (place, source.now)) }
{
    let partition = actor_value(alloc, system, source.owner)?;
    let flags = flags_at(objects, place);
    json!(in alloc; {
        "signal": source.signal_name.as_str(),
        "partition": partition,
        "enabled": flags.enabled,
        "pending": flags.pending,
        "asserted": flags.asserted
    })
}

fn source_list(
    alloc: Global,
    system: &System,
    objects: &Objects,
    sources: &[Source],
) -> Result<Vec<Value>, AllocError>
    ensures { IfOk result (λ v. map view v.items
        ≡ map (source_json system.now (spm_of_objects objects.now)) (enumerate_from 0 sources.now)) }
{
    let mut list = Vec::new(alloc);
    for (place, source) in sources.iter().enumerate() {
        list.push(source_value(alloc, system, objects, place, source)?)?;
    }
    Ok(list)
}

fn sources_value(
    alloc: Global,
    system: &System,
    objects: &Objects,
    sources: &[Source],
) -> Result<Value, AllocError>
    ensures { IfOk result (λ v. view v ≡ array_of
        (map (source_json system.now (spm_of_objects objects.now)) (enumerate_from 0 sources.now))) }
{
    Ok(Value::Array(source_list(alloc, system, objects, sources)?))
}

// The partitions whose doorbell is asserted.
fn doorbells_value(alloc: Global, system: &System, doorbells: &[bool]) -> Result<Value, AllocError>
    ensures { IfOk result (λ v. view v ≡ actors_json system.now (rung system.now doorbells.now)) }
{
    let rung = rung(alloc, system, doorbells)?;
    actors_value(alloc, system, &rung)
}

// What the members of a state are made of.
#[derive(Drop)]
struct Members {
    place: u32,
    entries: u32,
    actors: Value,
    connections: Value,
    messages: Value,
    doorbells: Value,
    interrupts: Value,
    stalled: bool,
    waits: Value,
    circle: Value,
    scripts: Value,
}

#[tactic(auto, unfolding(crate::specs::StateJson::members_json))]
fn members_value(alloc: Global, members: Members) -> Result<Value, AllocError>
    ensures { IfOk result (λ v. view v ≡ members_json members.place members.entries
        (view members.actors) (view members.connections) (view members.messages)
        (view members.doorbells) (view members.interrupts) members.stalled (view members.waits)
        (view members.circle) (view members.scripts)) }
{
    json!(in alloc; {
        "place": members.place,
        "entries": members.entries,
        "actors": members.actors,
        "connections": members.connections,
        "messages": members.messages,
        "doorbells": members.doorbells,
        "interrupts": members.interrupts,
        "stalled": members.stalled,
        "waits": members.waits,
        "circle": members.circle,
        "scripts": members.scripts
    })
}

#[tactic(auto, unfolding(crate::specs::StateJson::state_json))]
fn state_value(
    alloc: Global,
    system: &System,
    objects: &Objects,
    count: u32,
    total: u32,
    last: &[u32],
    scripts: Option<&[ScriptRow]>,
) -> Result<Value, AllocError>
    ensures { IfOk result (λ v. view v
        ≡ state_json system.now count total last.now (spm_of_objects objects.now)
        (option_map (λ rows. rows.now) scripts.entry)) }
{
    let members = Members {
        place: count,
        entries: total,
        actors: standings_value(alloc, system, objects, last)?,
        connections: connections_value(alloc, system, &objects.connections)?,
        messages: messages_value(alloc, system, &objects.messages)?,
        doorbells: doorbells_value(alloc, system, &objects.doorbells)?,
        interrupts: sources_value(alloc, system, objects, system.sources.as_slice())?,
        stalled: is_stalled(system, objects),
        waits: waits_value(alloc, system, objects)?,
        circle: circle_value(alloc, system, objects)?,
        scripts: scripts_value(alloc, system, scripts)?,
    };
    members_value(alloc, members)
}

/// A state as JSON: its actors, connections, messages, doorbells and interrupts, at a stall who waits for whom, and where
/// the scripts stand. The only error is want of memory.
pub fn state_json(
    alloc: Global,
    system: &System,
    after: &StateAfter,
    scripts: Option<&[ScriptRow]>,
) -> Result<Vec<u8>, AllocError>
    ensures { IfOk result (λ line. IsLineOf (json_of_state system.now after.now
        (option_map (λ rows. rows.now) scripts.entry)) line.items) }
{
    let objects = &after.checker.machine.objects;
    let last = after.last.as_slice();
    let value = state_value(
        alloc,
        system,
        objects,
        after.checker.count,
        after.total,
        last,
        scripts,
    )?;
    line_of(alloc, &value)
}
