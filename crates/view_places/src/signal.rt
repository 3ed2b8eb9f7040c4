//! The conditions of the calls on doorbells and interrupts.
ghost use Rattle.std.specs.Prelude.{◌≡◌, IfOk, false, get_or, map};
ghost use Rattle.view_places.specs.Conditions.{asserted_condition, clear_conditions, enable_conditions, first_level_condition, notify_conditions, number_condition, second_level_condition, signal_conditions, source_numbered, told};
ghost use Rattle.machine_calls.specs.Machine.{spm_of_objects};

use crate::condition::{Condition, marked};
use ffm_model::{ActorId, Call, System};
use machine_calls::Objects;
use machine_rules::{is_asserted, source_of_signal};
use std::alloc::{AllocError, Global};

fn of_notify(system: &System, partition: i32) -> [Condition; 1]
    ensures { map told result ≡ notify_conditions system.now partition }
{
    let is_there = partition >= 1 && partition as usize <= system.partitions.len();
    [marked("no partition has the ID", !is_there)]
}

fn is_rung(objects: &Objects, actor: ActorId) -> bool
    ensures { result ≡ get_or objects.now.doorbells.items actor.0 false }
{
    match objects.doorbells.as_slice().get(actor.0 as usize) {
        Some(is_rung) => *is_rung,
        None => false,
    }
}

fn of_clear(objects: &Objects, actor: ActorId) -> [Condition; 1]
    ensures { map told result ≡ clear_conditions (spm_of_objects objects.now) actor.0 }
{
    let is_rung = is_rung(objects, actor);
    [marked("the caller's doorbell isn't asserted", !is_rung)]
}

// The place of the source with a number.
fn source_numbered(system: &System, source: u32) -> Option<u32>
    ensures { result ≡ source_numbered system.now source }
{
    if (source as usize) < system.sources.len() {
        Some(source)
    } else {
        None
    }
}

fn of_assertion(objects: &Objects, source: Option<u32>) -> Condition
    ensures { told result ≡ asserted_condition (spm_of_objects objects.now) source }
{
    let is_asserted = match source {
        Some(place) => is_asserted(objects.sources.as_slice(), place as usize),
        None => false,
    };
    marked(
        "the word isn't the asserted signal of one of the caller's sources",
        !is_asserted,
    )
}

fn of_first_level(system: &System, source: Option<u32>) -> Condition
    ensures { told result ≡ first_level_condition system.now source }
{
    let is_first_level = match source {
        Some(place) => system.has_flih(place),
        None => false,
    };
    marked("the source has a first-level handler", is_first_level)
}

fn of_second_level(system: &System, source: Option<u32>) -> Condition
    ensures { told result ≡ second_level_condition system.now source }
{
    let is_second_level = match source {
        Some(place) => !system.has_flih(place),
        None => false,
    };
    marked("the source has a second-level handler", is_second_level)
}

fn of_enable(system: &System, actor: ActorId, signal: u32) -> [Condition; 1]
    ensures { map told result ≡ enable_conditions system.now actor.0 signal }
{
    [marked(
        "the word isn't the signal of one of the caller's sources",
        source_of_signal(system, actor.0, signal).is_none(),
    )]
}

fn of_number(system: &System, source: u32) -> Condition
    ensures { told result ≡ number_condition system.now source }
{
    marked(
        "no source has the number",
        source_numbered(system, source).is_none(),
    )
}

/// Those of a call on the doorbell or on an interrupt.
pub fn signal_conditions(
    alloc: Global,
    system: &System,
    objects: &Objects,
    actor: ActorId,
    call: Call,
) -> Result<Vec<Condition>, AllocError>
    ensures { IfOk result (λ conditions.
        map told conditions.items
        ≡ signal_conditions system.now (spm_of_objects objects.now) actor.0 call) }
{
    match call {
        Call::Notify { partition } => Ok(Vec::from_array(alloc, of_notify(system, partition))?),
        Call::Clear => Ok(Vec::from_array(alloc, of_clear(objects, actor))?),
        Call::Eoi { signal } => {
            let source = source_of_signal(system, actor.0, signal);
            let level = of_first_level(system, source);
            Ok(Vec::from_array(alloc, [of_assertion(objects, source), level])?)
        }
        Call::ResetSignal { signal } => {
            let source = source_of_signal(system, actor.0, signal);
            let level = of_second_level(system, source);
            Ok(Vec::from_array(alloc, [of_assertion(objects, source), level])?)
        }
        Call::IrqEnable { signal } | Call::IrqDisable { signal } => {
            Ok(Vec::from_array(alloc, of_enable(system, actor, signal))?)
        }
        Call::Raise { source } => {
            let level = of_first_level(system, source_numbered(system, source));
            Ok(Vec::from_array(alloc, [of_number(system, source), level])?)
        }
        Call::Fire { source, result } => {
            let level = of_second_level(system, source_numbered(system, source));
            let answer = marked("the result is neither 0 nor 1", result > 1);
            Ok(Vec::from_array(alloc, [of_number(system, source), level, answer])?)
        }
        _ => Ok(Vec::new(alloc)),
    }
}
