//! Who waits for whom at a stall.
ghost use Rattle.std.specs.Prelude.{◌≡◌, ◌++◌, IfOk, OnOk, filter, map};
ghost use Rattle.std.specs.Option.{option_map};
ghost use Rattle.serde_json.specs.View.{view};
ghost use Rattle.machine_calls.specs.Machine.{spm_of_objects};
ghost use Rattle.view_places.specs.Waits.{actors, waits_for};
ghost use Rattle.view_json.specs.StateJson.{awaited, circle_json, is_stopped, reason_text, stall_circle, wait_json, waits_json};
ghost use Rattle.view_json.specs.Values.{text_of};

use crate::actors::{actor_value, actors_value, all_actors};
use crate::values::text_value;
use dependency_circle::first_circle;
use ffm_model::{ActorPhase, System};
use machine_calls::Objects;
use serde_json::{Value, json};
use std::alloc::{AllocError, Global};
use text_lines::append;
use view_places::{Waits, is_stalled, put_signals_in, put_stop, waits_for};

fn is_stopped(objects: &Objects, actor: u32) -> bool
    ensures { result ≡ is_stopped (spm_of_objects objects.now) actor }
{
    matches!(
        objects.phase(actor),
        ActorPhase::Waiting { .. } | ActorPhase::Blocked
    )
}

// Those of these actors that wait.
fn stopped(alloc: Global, objects: &Objects, actors: &[u32]) -> Result<Vec<u32>, AllocError>
    ensures { IfOk result (λ found.
        found.items ≡ filter (is_stopped (spm_of_objects objects.now)) actors.now) }
{
    let mut found = Vec::new(alloc);
    for actor in actors {
        if is_stopped(objects, *actor) {
            found.push(*actor)?;
        }
    }
    Ok(found)
}

// Those of these actors that one waits for.
fn awaited(
    alloc: Global,
    system: &System,
    objects: &Objects,
    actor: u32,
    others: &[u32],
) -> Result<Vec<u32>, AllocError>
    ensures { IfOk result (λ found. found.items
        ≡ filter (waits_for system.now (spm_of_objects objects.now) actor) others.now) }
{
    let mut found = Vec::new(alloc);
    for other in others {
        if waits_for(system, objects, actor, *other) {
            found.push(*other)?;
        }
    }
    Ok(found)
}

// Appends what an actor waits for.
#[tactic(auto, unfolding(crate::specs::StateJson::reason_text))]
fn put_reason(
    alloc: Global,
    text: &mut Vec<u8>,
    system: &System,
    objects: &Objects,
    actor: u32,
) -> Result<(), AllocError>
    ensures { OnOk result (text.new.items
        ≡ text.old.items ++ reason_text system.now (spm_of_objects objects.now) actor) }
{
    match objects.phase(actor) {
        ActorPhase::Waiting { mask } => {
            append(text, "waits for ")?;
            put_signals_in(alloc, text, system, objects, actor, mask)
        }
        ActorPhase::Blocked => put_stop(text, system, objects, actor),
        _ => Ok(()),
    }
}

fn reason_value(
    alloc: Global,
    system: &System,
    objects: &Objects,
    actor: u32,
) -> Result<Value, AllocError>
    ensures { IfOk result (λ v.
        view v ≡ text_of (reason_text system.now (spm_of_objects objects.now) actor)) }
{
    let mut text = Vec::new(alloc);
    put_reason(alloc, &mut text, system, objects, actor)?;
    text_value(alloc, &text)
}

#[tactic(auto, unfolding(crate::specs::StateJson::wait_json))]
fn wait_value(
    alloc: Global,
    system: &System,
    objects: &Objects,
    actor: u32,
    all: &[u32],
) -> Result<Value, AllocError>
    requires { all.now ≡ actors system.now }
    ensures { IfOk result (λ v. view v ≡ wait_json system.now (spm_of_objects objects.now) actor) }
{
    let name = actor_value(alloc, system, actor)?;
    let awaited = awaited(alloc, system, objects, actor, all)?;
    let others = actors_value(alloc, system, &awaited)?;
    let reason = reason_value(alloc, system, objects, actor)?;
    json!(in alloc; { "actor": name, "for": others, "reason": reason })
}

fn wait_list(
    alloc: Global,
    system: &System,
    objects: &Objects,
    stopped: &[u32],
    all: &[u32],
) -> Result<Vec<Value>, AllocError>
    requires { all.now ≡ actors system.now }
    ensures { IfOk result (λ v. map view v.items
        ≡ map (wait_json system.now (spm_of_objects objects.now)) stopped.now) }
{
    let mut list = Vec::new(alloc);
    for actor in stopped {
        list.push(wait_value(alloc, system, objects, *actor, all)?)?;
    }
    Ok(list)
}

/// Who waits for whom, where no actor can go on.
pub fn waits_value(alloc: Global, system: &System, objects: &Objects) -> Result<Value, AllocError>
    ensures { IfOk result (λ v. view v ≡ waits_json system.now (spm_of_objects objects.now)) }
{
    if !is_stalled(system, objects) {
        return Ok(Value::Array(Vec::new(alloc)));
    }
    let all = all_actors(alloc, system)?;
    let stopped = stopped(alloc, objects, &all)?;
    Ok(Value::Array(wait_list(alloc, system, objects, &stopped, &all)?))
}

// The first circle of those that wait for each other, where no actor can go on.
#[tactic(auto, unfolding(view_places::specs::Waits::circle_of))]
fn stall_circle(
    alloc: Global,
    system: &System,
    objects: &Objects,
) -> Result<Option<Vec<u32>>, AllocError>
    ensures { IfOk result (λ found. option_map (λ v. v.items) found
        ≡ stall_circle system.now (spm_of_objects objects.now)) }
{
    if !is_stalled(system, objects) {
        return Ok(None);
    }
    let waits = Waits { system, objects };
    first_circle(alloc, &waits, system.actor_count())
}

/// The first circle of those that wait for each other, where no actor can go on; null where there is none.
pub fn circle_value(alloc: Global, system: &System, objects: &Objects) -> Result<Value, AllocError>
    ensures { IfOk result (λ v. view v
        ≡ circle_json system.now (stall_circle system.now (spm_of_objects objects.now))) }
{
    match stall_circle(alloc, system, objects)? {
        Some(circle) => actors_value(alloc, system, &circle),
        None => Ok(Value::Null),
    }
}
