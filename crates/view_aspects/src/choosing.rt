//! The actors whose lanes a diagram is asked for.
ghost use Rattle.std.specs.Prelude.{◌≡◌, IfOk, find, map};
ghost use Rattle.std.specs.List.{filter_map};
ghost use Rattle.std.specs.Option.{option_map};
ghost use Rattle.std.specs.Str.{bytes_eq};
ghost use Rattle.view_texts.specs.Names.{actor_name};
ghost use Rattle.view_aspects.specs.Diagrams.{IsChoiceOf, IsNamingOf, actor_named, is_unknown, names_in};

use ffm_model::System;
use std::alloc::{AllocError, Global};
use view_texts::actor_name;

/// The actors that a diagram shows, by their names.
#[derive(Drop)]
pub enum Choice {
    /// These, or all.
    Actors(Option<Vec<u32>>),
    /// None has this name.
    Unknown(String),
}

fn has_name(system: &System, actor: u32, name: &str) -> bool
    ensures { result ≡ bytes_eq (actor_name system.now actor) name.now }
{
    actor_name(system, actor) == name
}

// The actor of a name.
fn actor_named(system: &System, name: &str) -> Option<u32>
    ensures { result ≡ actor_named system.now name.now }
{
    for actor in 0..system.actor_count() {
        if has_name(system, actor, name) {
            return Some(actor);
        }
    }
    None
}

fn is_unknown(system: &System, name: &str) -> bool
    ensures { result ≡ is_unknown system.now name.now }
{
    actor_named(system, name).is_none()
}

// Names that are separated by commas.
fn names_in(alloc: Global, text: &str) -> Result<Vec<&str>, AllocError>
    ensures { IfOk result (λ names. map (λ n. n.now) names.items ≡ names_in text.now) }
{
    text.split(',').collect(alloc)
}

// The first of these names that no actor has.
fn unknown_in<'a>(system: &System, names: &[&'a str]) -> Option<&'a str>
    ensures { option_map (λ n. n.now) result
        ≡ find (is_unknown system.now) (map (λ n. n.now) names.now) }
{
    for name in names {
        if is_unknown(system, *name) {
            return Some(*name);
        }
    }
    None
}

// The actors of these names.
fn actors_of(alloc: Global, system: &System, names: &[&str]) -> Result<Vec<u32>, AllocError>
    ensures { IfOk result (λ actors.
        actors.items ≡ filter_map (actor_named system.now) (map (λ n. n.now) names.now)) }
{
    let mut actors = Vec::new(alloc);
    for name in names {
        if let Some(actor) = actor_named(system, *name) {
            actors.push(actor)?;
        }
    }
    Ok(actors)
}

// The actors of these names, or the first name that none has.
fn actors_named(alloc: Global, system: &System, names: &[&str]) -> Result<Choice, AllocError>
    ensures { IfOk result (IsNamingOf system.now (map (λ n. n.now) names.now)) }
{
    match unknown_in(system, names) {
        Some(name) => Ok(Choice::Unknown(String::from_str(alloc, name)?)),
        None => Ok(Choice::Actors(Some(actors_of(alloc, system, names)?))),
    }
}

/// The actors that a diagram is asked for, by their names, separated by commas; all, where none are named.
pub fn choice_of(alloc: Global, system: &System, text: Option<&str>) -> Result<Choice, AllocError>
    ensures { IfOk result (IsChoiceOf system.now text.entry) }
{
    let Some(text) = text else {
        return Ok(Choice::Actors(None));
    };
    let names = names_in(alloc, text)?;
    actors_named(alloc, system, &names)
}
