//! Where an actor's script stands after the actor's entries.
ghost use Rattle.std.specs.Prelude.{◌≡◌, ◌↔◌, ◌<◌, ◌≤◌, ◌^◌, IfOk, if◌then◌else◌, length, nat_lt, true, false};
ghost use Rattle.std.specs.List.{AllByRecursion};
ghost use Rattle.ffm_model.specs.Actors.{actor_count};
ghost use Rattle.ffm_model.specs.Contexts.{context_engine};
ghost use Rattle.ffm_model.specs.Held.{holder_of};
ghost use Rattle.ffm_model.specs.HeldPlans.{held_engine};
ghost use Rattle.ffm_model.specs.Scripts.{IsPart};
ghost use Rattle.ffm_model.specs.TraceText.{IsActorOf};
ghost use Rattle.script_points.specs.Points.{AreContexts};
ghost use Rattle.view_scripts.specs.Standings.{AreStandings, IsStanding, IsStandingOf, IsTaken, end_by, end_of};

use ffm_model::{Call, Counts, Entry, Instruction, Memory, Outcome, Part, Script, System};
use mm_iovec::Held;
use packed_state::{Contexts, Engine, Holding};
use script_engines::is_blocked;
use script_points::{
    contexts_call, contexts_go_on, holding_call, holding_go_on, holding_none, opening_contexts,
};
use std::alloc::Global;
use trace_print::print;

/// How an actor ended.
#[derive(Clone, Copy)]
pub enum End {
    /// Its script came to its end.
    Stopped,
    /// No more of its local lines may run.
    Spent,
    Panicked,
}

/// Where an actor's script stands after the actor's entries.
#[derive(Drop)]
pub enum Standing {
    /// Each entry's call was the script's, and the script goes on here.
    Follows(Engine),
    /// Each entry's call was the script's, and the actor has ended.
    Ended(End),
    /// The entry at this place, from 1, is the first whose call isn't the script's.
    Left(u32),
}

// The call that is due: the return of a call that is open, or else what the script calls.
fn due(pending: bool, call: Call) -> Call
    ensures { result ≡ (if pending then Call.Resume else call) }
{
    if pending { Call::Resume } else { call }
}

// Whether an entry makes this call: a trace writes it in the same words then.
fn makes(counts: Counts, entry: &Entry, call: Call) -> bool
    requires { IsActorOf counts entry.now.actor.0 }
    ensures { (result ≡ true) ↔ (entry.now.call ≡ call) }
{
    let made = Entry { call, ..*entry };
    let line = print(counts, entry);
    let other = print(counts, &made);
    line.as_slice() == other.as_slice()
}

// Takes an entry of a partition where its call is due, and says whether it is.
fn holding_takes(
    counts: Counts,
    held: &mut Held,
    holding: &mut Holding,
    script: &[Instruction],
    pending: bool,
    entry: &Entry,
) -> Result<bool, Memory>
    requires actor { IsActorOf counts entry.now.actor.0 }
    requires part { IsPart script.now }
    ensures taken { IfOk result (λ taken. IsTaken (held_engine held.old.holder script.now)
        holding.old pending entry.now holding.new taken) }
    ensures holder { held.new.holder ≡ held.old.holder }
{
    let call = holding_call(held, holding, script)?;
    if !makes(counts, entry, due(pending, call)) {
        return Ok(false);
    }
    if is_blocked(&entry.outcome) {
        return Ok(true);
    }
    holding_go_on(held, holding, script, &entry.outcome)?;
    Ok(true)
}

// Takes an entry of a client where its call is due, and says whether it is.
fn contexts_take(
    counts: Counts,
    contexts: &mut Contexts,
    parts: &[Part],
    pending: bool,
    entry: &Entry,
) -> Result<bool, Memory>
    requires actor { IsActorOf counts entry.now.actor.0 }
    requires few { length parts.now ≤ 8 }
    requires fits { AllByRecursion IsPart parts.now }
    requires contexts { AreContexts parts.now contexts.old }
    ensures { IfOk result (λ taken. IsTaken (context_engine parts.now)
        contexts.old pending entry.now contexts.new taken) }
{
    let call = contexts_call(contexts, parts);
    if !makes(counts, entry, due(pending, call)) {
        return Ok(false);
    }
    if is_blocked(&entry.outcome) {
        return Ok(true);
    }
    contexts_go_on(contexts, parts, &entry.outcome)?;
    Ok(true)
}

// Where a partition's script stands.
fn holding_standing(
    alloc: Global,
    system: &System,
    actor: u32,
    script: &Script,
    entries: &[Entry],
) -> Result<Standing, Memory>
    requires partition { actor < length system.now.partitions }
    requires few { length entries.now < 2 ^ 32 }
    ensures { IfOk result (IsStandingOf true (holder_of system.now actor) script.now
        actor entries.now) }
{
    let counts = system.counts();
    let instructions = script.instructions();
    let mut held = Held::new(system, actor);
    let mut holding = holding_none(alloc);
    let mut pending = false;
    for (index, entry) in entries.iter().enumerate() {
        if entry.actor.0 != actor {
            continue;
        }
        if !holding_takes(
            counts,
            &mut held,
            &mut holding,
            instructions,
            pending,
            entry,
        )? {
            return Ok(Standing::Left(index as u32 + 1));
        }
        pending = is_blocked(&entry.outcome);
    }
    Ok(Standing::Follows(Engine::Holding(holding)))
}

// Where the contexts of a client stand, or those of the device.
fn contexts_standing(
    alloc: Global,
    system: &System,
    actor: u32,
    script: &Script,
    entries: &[Entry],
) -> Result<Standing, Memory>
    requires actor { actor < actor_count system.now }
    requires few { length entries.now < 2 ^ 32 }
    ensures { IfOk result (IsStandingOf false (holder_of system.now actor) script.now
        actor entries.now) }
{
    let counts = system.counts();
    let mut contexts = opening_contexts(alloc, script)?;
    let parts = script.parts.as_slice();
    let mut pending = false;
    for (index, entry) in entries.iter().enumerate() {
        if entry.actor.0 != actor {
            continue;
        }
        if !contexts_take(counts, &mut contexts, parts, pending, entry)? {
            return Ok(Standing::Left(index as u32 + 1));
        }
        pending = is_blocked(&entry.outcome);
    }
    Ok(Standing::Follows(Engine::Turning(contexts)))
}

// How an entry ends its actor, where it does.
fn end_by(entry: &Entry) -> Option<End>
    ensures { result ≡ end_by entry.now.outcome entry.now.call }
{
    match (entry.outcome, entry.call) {
        (Outcome::Panicked, _) => Some(End::Panicked),
        (_, Call::Stop { spent: true }) => Some(End::Spent),
        (_, Call::Stop { spent: false }) => Some(End::Stopped),
        _ => None,
    }
}

// How an actor has ended by its entries, where it has.
fn end_of(actor: u32, entries: &[Entry]) -> Option<End>
    ensures { result ≡ end_of actor entries.now }
{
    for entry in entries {
        if entry.actor.0 != actor {
            continue;
        }
        match end_by(entry) {
            Some(end) => return Some(end),
            None => {}
        }
    }
    None
}

// Where an actor's script stands, whether or not the actor has ended.
fn followed(
    alloc: Global,
    system: &System,
    actor: u32,
    script: &Script,
    entries: &[Entry],
) -> Result<Standing, Memory>
    requires actor { actor < actor_count system.now }
    requires few { length entries.now < 2 ^ 32 }
    ensures { IfOk result (IsStandingOf (nat_lt actor (length system.now.partitions))
        (holder_of system.now actor) script.now actor entries.now) }
{
    if (actor as usize) < system.partitions.len() {
        holding_standing(alloc, system, actor, script, entries)
    } else {
        contexts_standing(alloc, system, actor, script, entries)
    }
}

/// Where an actor's script stands after the actor's entries among these. `Memory` where memory is
/// wanting.
pub fn standing_of(
    alloc: Global,
    system: &System,
    actor: u32,
    script: &Script,
    entries: &[Entry],
) -> Result<Standing, Memory>
    requires actor { actor < actor_count system.now }
    requires few { length entries.now < 2 ^ 32 }
    ensures { IfOk result (IsStanding system.now actor script.now entries.now) }
{
    match followed(alloc, system, actor, script, entries)? {
        Standing::Follows(engine) => match end_of(actor, entries) {
            Some(end) => Ok(Standing::Ended(end)),
            None => Ok(Standing::Follows(engine)),
        },
        standing => Ok(standing),
    }
}

/// Where each actor's script stands after the actor's entries among these. `Memory` where memory is
/// wanting.
#[tactic(auto, using(ffm_model::proofs::ActorLemmas::actor_count_le))]
pub(crate) fn standings(
    alloc: Global,
    system: &System,
    scripts: &[Script],
    entries: &[Entry],
) -> Result<Vec<Standing>, Memory>
    requires scripts { length scripts.now ≤ actor_count system.now }
    requires few { length entries.now < 2 ^ 32 }
    ensures { IfOk result (λ standings.
        AreStandings system.now scripts.now entries.now standings.items) }
{
    let mut standings = Vec::new(alloc);
    for (actor, script) in scripts.iter().enumerate() {
        let standing = standing_of(alloc, system, actor as u32, script, entries)?;
        standings.push(standing)?;
    }
    Ok(standings)
}
