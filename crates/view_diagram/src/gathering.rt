//! The arrows of a part of a trace.
ghost use Rattle.std.specs.Prelude.{◌≡◌, ◌<◌, ◌+◌, ◌^◌, IfOk, get_or, length, map, replicate, slice_set};
ghost use Rattle.std.specs.Option.{option_map};
ghost use Rattle.ffm_model.specs.Actors.{actor_count};
ghost use Rattle.ffm_model.specs.Ranges.{ranges_of};
ghost use Rattle.memory_image.specs.Pieces.{byte_at, regions_of};
ghost use Rattle.machine_calls.specs.Machine.{spm_of_objects};
ghost use Rattle.view_diagram.specs.Gathering.{answered_place, arrows_at, arrows_in, entry_at, is_answer, is_in_part, placed};

use crate::arrows::{Arrow, Meaning, arrows_of};
use ffm_model::{ActorId, ActorPhase, Entry, List, Memory, System, Trace};
use machine_calls::Objects;
use machine_check::Checker;
use memory_image::Image;
use std::alloc::Global;

/// A part of a trace: the entries from one place to another, both included. Places are counted from 1.
#[derive(Clone, Copy, Debug, PartialEq, Eq)]
pub struct Part {
    pub from: u32,
    pub to: u32,
}

/// An arrow, and the place of its entry in the trace, counted from 1.
#[derive(Clone, Copy, Debug, PartialEq, Eq)]
pub struct PlacedArrow {
    pub place: u32,
    pub arrow: Arrow,
    /// The place of the call that it answers. None where it answers none, or no one waits.
    pub answers: Option<u32>,
}

/// The entry at a place, counted from 1.
pub fn entry_at(trace: &Trace, place: u32) -> Option<&Entry>
    ensures { option_map (λ e. e.now) result ≡ entry_at trace.now.entries place }
{
    let index = place.checked_sub(1)?;
    trace.entries.as_slice().get(index as usize)
}

fn is_in_part(part: Part, place: u32) -> bool
    ensures { result ≡ is_in_part part place }
{
    part.from <= place && place <= part.to
}

// The place of each actor's last entry, counted from 1, and 0 where it has none.
#[derive(Drop)]
struct LastEntries {
    places: Vec<u32>,
}

impl LastEntries {
    // No actor has an entry.
    fn new(alloc: Global, system: &System) -> Result<LastEntries, Memory>
        ensures { IfOk result (λ last. last.places.items ≡ replicate (actor_count system.now) 0) }
    {
        let mut places = Vec::new(alloc);
        places.resize(system.actor_count() as usize, 0)?;
        Ok(LastEntries { places })
    }

    fn place(&self, actor: ActorId) -> u32
        ensures { result ≡ get_or self.now.places.items actor.0 0 }
    {
        match self.places.as_slice().get(actor.0 as usize) {
            Some(place) => *place,
            None => 0,
        }
    }

    fn note(&mut self, actor: ActorId, place: u32)
        ensures { self.new.places.items ≡ slice_set self.old.places.items actor.0 place }
    {
        let at = actor.0 as usize;
        if at < self.places.len() {
            self.places[at] = place;
        }
    }
}

// A reply, or the release of a client by a panic.
fn is_answer(meaning: Meaning) -> bool
    ensures { result ≡ is_answer meaning }
{
    matches!(meaning, Meaning::Reply { .. } | Meaning::Release { .. })
}

// The place of the call that an arrow answers, by the places of the actors' last entries.
fn answered_place(objects: &Objects, last: &LastEntries, arrow: Arrow) -> Option<u32>
    ensures { result ≡ answered_place (spm_of_objects objects.now) last.now.places.items arrow }
{
    let is_blocked = matches!(objects.phase(arrow.to.0), ActorPhase::Blocked);
    if is_answer(arrow.meaning) && is_blocked {
        Some(last.place(arrow.to))
    } else {
        None
    }
}

// The arrows of the entry at a place, each with the call that it answers.
fn placed_arrows(
    alloc: Global,
    objects: &Objects,
    last: &LastEntries,
    place: u32,
    found: &[Arrow],
) -> Result<Vec<PlacedArrow>, Memory>
    ensures { IfOk result (λ v.
        v.items ≡ map (placed place (spm_of_objects objects.now) last.now.places.items) found.now) }
{
    let mut arrows = Vec::new(alloc);
    for arrow in found {
        let arrow = *arrow;
        let answers = answered_place(objects, last, arrow);
        arrows.push(PlacedArrow {
            place,
            arrow,
            answers,
        })?;
    }
    Ok(arrows)
}

// The arrows of the next entry, where it lies in the part.
fn next_arrows(
    alloc: Global,
    system: &System,
    checker: &Checker,
    last: &LastEntries,
    part: Part,
    entry: &Entry,
) -> Result<Vec<PlacedArrow>, Memory>
    requires { checker.now.count < 2 ^ 31 }
    ensures { IfOk result (λ v.
        v.items ≡ arrows_at system.now part (checker.now.count + 1)
        (spm_of_objects checker.now.machine.objects) last.now.places.items entry.now) }
{
    let place = checker.count + 1;
    if !is_in_part(part, place) {
        return Ok(Vec::new(alloc));
    }
    let objects = &checker.machine.objects;
    let found = arrows_of(alloc, system, objects, entry)?;
    placed_arrows(alloc, objects, last, place, &found)
}

/// Gathers the arrows of a trace's legal entries in a part, in their order, and which call each answer
/// belongs to. The entries before the first that is no step of the machine or exceeds the limit are
/// legal, or all.
///
/// It needs memory for the state, for one copy of the image, for the handles that the trace gives and
/// for the arrows. The memory has the system's regions, and the entries are fewer than 2^31.
pub fn gather(
    alloc: Global,
    system: &System,
    memory: &Image,
    limit: u32,
    entries: &[Entry],
    part: Part,
) -> Result<List<PlacedArrow>, Memory>
    requires regions { regions_of memory.now ≡ ranges_of system.now.regions }
    requires few { length entries.now < 2 ^ 31 }
    ensures { IfOk result (λ arrows.
        arrows ≡ arrows_in system.now (byte_at memory.now) limit part entries.now) }
{
    let mut checker = Checker::new(alloc, system, memory)?;
    let mut last = LastEntries::new(alloc, system)?;
    let mut arrows = Vec::new(alloc);
    for entry in entries {
        let mut found = next_arrows(alloc, system, &checker, &last, part, entry)?;
        if !checker.accept(system, limit, entry)? {
            return Ok(List::of(arrows));
        }
        arrows.append(&mut found)?;
        last.note(entry.actor, checker.count);
    }
    Ok(List::of(arrows))
}
