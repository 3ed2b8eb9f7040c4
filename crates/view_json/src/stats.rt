//! The counts of a trace as JSON.
ghost use Rattle.std.specs.Prelude.{◌≡◌, ◌<◌, IfOk, map};
ghost use Rattle.std.specs.List.{filter_map};
ghost use Rattle.std.specs.Option.{option_map};
ghost use Rattle.serde_json.specs.View.{view};
ghost use Rattle.view_json.specs.StatsJson.{call_json, calls_json, entries_json, made_call, most_json, moved_json, stats_json, wait_json, wait_of, waits_json};
ghost use Rattle.ffm_model.specs.Names.{capacity};
ghost use Rattle.view_texts.specs.CountsText.{actors, most_messages_declared};
ghost use Rattle.view_json.specs.Values.{IsLineOf, array_of};

use crate::actors::{actor_value, all_actors, id_value};
use crate::values::{add_some, line_of};
use ffm_model::System;
use serde_json::{Value, json};
use std::alloc::{AllocError, Global};
use view_texts::{
    CALL_COUNT, Moved, TraceCounts, Wait, actor_name, connections_declared, count_at,
    messages_declared, name_at, number_at, service_name,
};

#[tactic(auto, unfolding(crate::specs::StatsJson::call_json))]
fn call_value(alloc: Global, call: usize, count: u32) -> Result<Value, AllocError>
    ensures { IfOk result (λ v. view v ≡ call_json call count) }
{
    json!(in alloc; { "call": name_at(call), "count": count })
}

// How often an actor made a call, where it did.
fn made_call(
    alloc: Global,
    calls: &[u32],
    actor: u32,
    call: usize,
) -> Result<Option<Value>, AllocError>
    requires { call < CALL_COUNT }
    ensures { IfOk result (λ made. option_map view made ≡ made_call calls.now actor call) }
{
    let count = count_at(calls, actor, call);
    if count == 0 {
        return Ok(None);
    }
    Ok(Some(call_value(alloc, call, count)?))
}

// The calls that an actor made.
fn call_list(alloc: Global, calls: &[u32], actor: u32) -> Result<Vec<Value>, AllocError>
    ensures { IfOk result (λ v. map view v.items ≡ calls_json calls.now actor) }
{
    let mut list = Vec::new(alloc);
    for call in 0..CALL_COUNT {
        let made = made_call(alloc, calls, actor, call)?;
        add_some(&mut list, made)?;
    }
    Ok(list)
}

#[tactic(auto, unfolding(crate::specs::StatsJson::entries_json))]
fn entries_value(
    alloc: Global,
    system: &System,
    counts: &TraceCounts,
    actor: u32,
) -> Result<Value, AllocError>
    ensures { IfOk result (λ v. view v ≡ entries_json system.now counts.now actor) }
{
    let id = id_value(alloc, system, actor)?;
    let calls = call_list(alloc, &counts.calls, actor)?;
    json!(in alloc; {
        "name": actor_name(system, actor),
        "id": id,
        "entries": number_at(&counts.entries, actor),
        "calls": calls
    })
}

fn entries_list(
    alloc: Global,
    system: &System,
    counts: &TraceCounts,
    all: &[u32],
) -> Result<Vec<Value>, AllocError>
    ensures { IfOk result (λ v.
        map view v.items ≡ map (entries_json system.now counts.now) all.now) }
{
    let mut list = Vec::new(alloc);
    for actor in all {
        list.push(entries_value(alloc, system, counts, *actor)?)?;
    }
    Ok(list)
}

fn all_entries_value(
    alloc: Global,
    system: &System,
    counts: &TraceCounts,
) -> Result<Value, AllocError>
    ensures { IfOk result (λ v.
        view v ≡ array_of (map (entries_json system.now counts.now) (actors system.now))) }
{
    let all = all_actors(alloc, system)?;
    Ok(Value::Array(entries_list(alloc, system, counts, &all)?))
}

#[tactic(auto, unfolding(crate::specs::StatsJson::moved_json))]
fn moved_value(alloc: Global, system: &System, moved: &Moved) -> Result<Value, AllocError>
    ensures { IfOk result (λ v. view v ≡ moved_json system.now moved.now) }
{
    let client = actor_value(alloc, system, moved.client)?;
    json!(in alloc; {
        "client": client,
        "service": service_name(system, moved.service),
        "read": moved.read,
        "skipped": moved.skipped,
        "written": moved.written
    })
}

fn moved_list(alloc: Global, system: &System, all_moved: &[Moved]) -> Result<Vec<Value>, AllocError>
    ensures { IfOk result (λ v. map view v.items ≡ map (moved_json system.now) all_moved.now) }
{
    let mut list = Vec::new(alloc);
    for moved in all_moved {
        list.push(moved_value(alloc, system, moved)?)?;
    }
    Ok(list)
}

fn all_moved_value(alloc: Global, system: &System, all_moved: &[Moved]) -> Result<Value, AllocError>
    ensures { IfOk result (λ v.
        view v ≡ array_of (map (moved_json system.now) all_moved.now)) }
{
    Ok(Value::Array(moved_list(alloc, system, all_moved)?))
}

#[tactic(auto, unfolding(crate::specs::StatsJson::wait_json))]
fn wait_value(alloc: Global, system: &System, actor: u32, wait: &Wait) -> Result<Value, AllocError>
    ensures { IfOk result (λ v. view v ≡ wait_json system.now actor wait.now) }
{
    let name = actor_value(alloc, system, actor)?;
    json!(in alloc; {
        "actor": name,
        "entries": wait.entries,
        "call": name_at(wait.call),
        "place": wait.from,
        "is_over": wait.is_over
    })
}

// The longest wait of an actor, where it ever waited.
fn wait_of(
    alloc: Global,
    system: &System,
    waits: &[Wait],
    actor: u32,
) -> Result<Option<Value>, AllocError>
    ensures { IfOk result (λ found. option_map view found ≡ wait_of system.now waits.now actor) }
{
    match waits.get(actor as usize) {
        Some(wait) if wait.from != 0 => Ok(Some(wait_value(alloc, system, actor, wait)?)),
        _ => Ok(None),
    }
}

// The longest waits of these actors.
fn wait_list(
    alloc: Global,
    system: &System,
    waits: &[Wait],
    all: &[u32],
) -> Result<Vec<Value>, AllocError>
    ensures { IfOk result (λ v.
        map view v.items ≡ filter_map (wait_of system.now waits.now) all.now) }
{
    let mut list = Vec::new(alloc);
    for actor in all {
        let wait = wait_of(alloc, system, waits, *actor)?;
        add_some(&mut list, wait)?;
    }
    Ok(list)
}

fn waits_value(alloc: Global, system: &System, waits: &[Wait]) -> Result<Value, AllocError>
    ensures { IfOk result (λ v. view v ≡ array_of (waits_json system.now waits.now)) }
{
    let all = all_actors(alloc, system)?;
    Ok(Value::Array(wait_list(alloc, system, waits, &all)?))
}

// The most at a time, and as many as are declared.
#[tactic(auto, unfolding(crate::specs::StatsJson::most_json))]
fn most_value(alloc: Global, most: usize, declared: usize) -> Result<Value, AllocError>
    ensures { IfOk result (λ v. view v ≡ most_json most declared) }
{
    json!(in alloc; { "most": most, "declared": declared })
}

fn connections_value(alloc: Global, system: &System, most: usize) -> Result<Value, AllocError>
    ensures { IfOk result (λ v. view v ≡ most_json most (capacity system.now)) }
{
    most_value(alloc, most, connections_declared(system))
}

fn messages_value(alloc: Global, system: &System, most: usize) -> Result<Value, AllocError>
    ensures { IfOk result (λ v. view v ≡ most_json most (most_messages_declared system.now)) }
{
    let declared = messages_declared(alloc, system)?;
    most_value(alloc, most, declared)
}

#[tactic(auto, unfolding(crate::specs::StatsJson::stats_json))]
fn stats_value(alloc: Global, system: &System, counts: &TraceCounts) -> Result<Value, AllocError>
    ensures { IfOk result (λ v. view v ≡ stats_json system.now counts.now) }
{
    let actors = all_entries_value(alloc, system, counts)?;
    let moved = all_moved_value(alloc, system, &counts.moved)?;
    let waits = waits_value(alloc, system, &counts.longest)?;
    let connections = connections_value(alloc, system, counts.most_connections)?;
    let messages = messages_value(alloc, system, counts.most_messages)?;
    json!(in alloc; {
        "legal_entries": counts.count,
        "entries": counts.total,
        "actors": actors,
        "moved": moved,
        "longest_waits": waits,
        "connections": connections,
        "messages": messages
    })
}

/// The counts of a trace as JSON. The only error is want of memory.
pub fn stats_json(
    alloc: Global,
    system: &System,
    counts: &TraceCounts,
) -> Result<Vec<u8>, AllocError>
    ensures { IfOk result (λ line. IsLineOf (stats_json system.now counts.now) line.items) }
{
    let value = stats_value(alloc, system, counts)?;
    line_of(alloc, &value)
}
