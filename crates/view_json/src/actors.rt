//! Actors by their names and their words in a trace.
ghost use Rattle.std.specs.Prelude.{◌≡◌, IfOk, map};
ghost use Rattle.serde_json.specs.View.{view};
ghost use Rattle.view_places.specs.Waits.{actors};
ghost use Rattle.view_json.specs.Values.{actor_json, actors_json, id_json};

use crate::values::text_value;
use ffm_model::System;
use serde_json::{Value, json};
use std::alloc::{AllocError, Global};
use view_texts::{actor_name, put_actor_word};

/// The actors of a system, by their numbers.
pub fn all_actors(alloc: Global, system: &System) -> Result<Vec<u32>, AllocError>
    ensures { IfOk result (λ all. all.items ≡ actors system.now) }
{
    let mut all = Vec::new(alloc);
    for actor in 0..system.actor_count() {
        all.push(actor)?;
    }
    Ok(all)
}

/// The word of an actor in a trace.
pub fn id_value(alloc: Global, system: &System, actor: u32) -> Result<Value, AllocError>
    ensures { IfOk result (λ v. view v ≡ id_json system.now actor) }
{
    let mut word = Vec::new(alloc);
    put_actor_word(&mut word, system, actor)?;
    text_value(alloc, &word)
}

/// An actor by its name and its word in a trace.
#[tactic(auto, unfolding(crate::specs::Values::actor_json))]
pub fn actor_value(alloc: Global, system: &System, actor: u32) -> Result<Value, AllocError>
    ensures { IfOk result (λ v. view v ≡ actor_json system.now actor) }
{
    let id = id_value(alloc, system, actor)?;
    json!(in alloc; { "name": actor_name(system, actor), "id": id })
}

fn actor_list(alloc: Global, system: &System, actors: &[u32]) -> Result<Vec<Value>, AllocError>
    ensures { IfOk result (λ v. map view v.items ≡ map (actor_json system.now) actors.now) }
{
    let mut list = Vec::new(alloc);
    for actor in actors {
        list.push(actor_value(alloc, system, *actor)?)?;
    }
    Ok(list)
}

/// A list of actors.
pub fn actors_value(alloc: Global, system: &System, actors: &[u32]) -> Result<Value, AllocError>
    ensures { IfOk result (λ v. view v ≡ actors_json system.now actors.now) }
{
    Ok(Value::Array(actor_list(alloc, system, actors)?))
}
