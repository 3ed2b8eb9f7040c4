//! The state after a part of a trace.
ghost use Rattle.std.specs.Prelude.{◌≡◌, ◌<◌, ◌^◌, IfOk, length, slice_set};
ghost use Rattle.ffm_model.specs.Ranges.{ranges_of};
ghost use Rattle.memory_image.specs.Pieces.{byte_at, regions_of};
ghost use Rattle.view_places.specs.Showing.{AreLastPlaces, IsPlace, IsLastLegal};

use ffm_model::{Entry, Memory, System, Trace};
use machine_check::{Checker, reached};
use memory_image::Image;
use std::alloc::Global;

/// The state after the first entries of a trace.
#[derive(Drop)]
pub struct StateAfter {
    /// The judge's machine there, and how many entries led to it.
    pub checker: Checker,
    /// How many entries the trace has.
    pub total: u32,
    /// The place of each actor's last entry, counted from 1; 0 where it has none.
    pub last: Vec<u32>,
}

/// The state after the entry at a place, or why there is none.
#[derive(Drop)]
pub enum Place {
    State(StateAfter),
    /// The trace has fewer entries.
    Beyond,
    /// An entry up to the place, this one, is no step or exceeds the limit, and so there is no state after it.
    Illegal(u32),
}

fn put_last(last: &mut Vec<u32>, actor: u32, place: u32)
    ensures { last.new.items ≡ slice_set last.old.items actor place }
{
    let at = actor as usize;
    if at < last.len() {
        last[at] = place;
    }
}

// The place of each actor's last entry.
fn last_entries(alloc: Global, system: &System, entries: &[Entry]) -> Result<Vec<u32>, Memory>
    requires few { length entries.now < 2 ^ 31 }
    ensures { IfOk result (λ last. AreLastPlaces system.now entries.now last.items) }
{
    let mut last = Vec::new(alloc);
    last.resize(system.actor_count() as usize, 0)?;
    let mut place = 0;
    for entry in entries {
        place += 1;
        put_last(&mut last, entry.actor.0, place);
    }
    Ok(last)
}

/// The state after the entry at a place, counted from 1. At place 0 it is the opening.
///
/// It needs memory for the state, for one copy of the image and for the handles that the entries give. The memory has
/// the system's regions, and the trace has fewer than 2^31 entries.
#[tactic(auto, using(crate::proofs::Places::place_reached, crate::proofs::Places::place_illegal))]
pub fn after_place(
    alloc: Global,
    system: &System,
    memory: &Image,
    limit: u32,
    trace: &Trace,
    place: u32,
) -> Result<Place, Memory>
    requires regions { regions_of memory.now ≡ ranges_of system.now.regions }
    requires few { length trace.now.entries < 2 ^ 31 }
    ensures found { IfOk result
        (IsPlace system.now (byte_at memory.now) limit trace.now.entries place) }
{
    let entries = trace.entries.as_slice();
    if place as usize > entries.len() {
        return Ok(Place::Beyond);
    }
    let before = &entries[..place as usize];
    let checker = reached(alloc, system, memory, limit, before)?;
    if checker.count != place {
        return Ok(Place::Illegal(checker.count + 1));
    }
    Ok(Place::State(StateAfter {
        checker,
        total: entries.len() as u32,
        last: last_entries(alloc, system, before)?,
    }))
}

/// The state after the last legal entry of a trace.
///
/// It needs what `after_place` does. Where an entry is illegal, those before it are followed twice.
pub fn after_last(
    alloc: Global,
    system: &System,
    memory: &Image,
    limit: u32,
    trace: &Trace,
) -> Result<StateAfter, Memory>
    requires regions { regions_of memory.now ≡ ranges_of system.now.regions }
    requires few { length trace.now.entries < 2 ^ 31 }
    ensures found { IfOk result
        (IsLastLegal system.now (byte_at memory.now) limit trace.now.entries) }
{
    let entries = trace.entries.as_slice();
    let checker = reached(alloc, system, memory, limit, entries)?;
    let legal = (checker.count as usize).min(entries.len());
    Ok(StateAfter {
        checker,
        total: entries.len() as u32,
        last: last_entries(alloc, system, &entries[..legal])?,
    })
}
