//! Calls that are asked about: by their text, or by the place of an entry.
ghost use Rattle.std.specs.Prelude.{◌≡◌, ◌-◌, IfOk, MatchOption, slice_get, Some};
ghost use Rattle.ffm_model.specs.declared.machine.Entry.{Entry as EntrySeen};
ghost use Rattle.ffm_model.specs.Actors.{counts_of};
ghost use Rattle.ffm_model.specs.Ranges.{ranges_of};
ghost use Rattle.memory_image.specs.Pieces.{byte_at, regions_of};
ghost use Rattle.view_aspects.specs.Traces.{AreTraceFiles, memory_of};
ghost use Rattle.view_aspects.specs.Views.{HasEntryAt, IsCallOf, IsCallText, IsView};

use crate::traces::TraceFiles;
use crate::view::{View, finding_of};
use ffm_model::{Entry, Memory, System};
use memory_image::Image;
use program_words::entry_of;
use program_words::view::Aspect;
use std::alloc::Global;
use view_places::{CallAfter, Place, PlaceAsked, after_place, ask};

// The actor and the call that have this text, as an entry with the outcome `done`.
#[tactic(auto, using(crate::proofs::CallTexts::called))]
fn call_of(alloc: Global, system: &System, call: &str) -> Result<Option<Entry>, Memory>
    ensures { IfOk result (λ found. MatchOption found
        ((e : EntrySeen) → IsCallText (counts_of system.now) call.now e → ⊥)
        (IsCallText (counts_of system.now) call.now)) }
{
    let line = format!(in alloc; "{call} -> done")?;
    entry_of(alloc, system, &line)
}

/// What the machine answers to the call that has this text, made after the entry at a place.
pub fn asked(
    alloc: Global,
    files: &TraceFiles,
    image: &Image,
    place: u32,
    call: &str,
) -> Result<View, Memory>
    requires files { AreTraceFiles files.now }
    requires regions { regions_of image.now ≡ ranges_of files.now.work.system.regions }
    requires bytes { byte_at image.now ≡ memory_of files.now }
    ensures { IfOk result (IsView files.now (Aspect.Ask place call.entry)) }
{
    let system = &files.work.system;
    let limit = files.work.scenario.limit;
    let Some(entry) = call_of(alloc, system, call)? else {
        return Ok(View::NoCall);
    };
    match ask(alloc, system, image, limit, &files.trace, place, &entry)? {
        PlaceAsked::Call(call) => Ok(View::Call(call)),
        PlaceAsked::Beyond => Ok(View::NoPlace {
            place,
            total: files.trace.entries.len() as u32,
        }),
        PlaceAsked::Illegal(illegal) => Ok(View::NoState { illegal, place }),
    }
}

// An entry by its call, where the trace is legal up to it, or why it isn't.
fn legal_or_not(
    alloc: Global,
    files: &TraceFiles,
    image: &Image,
    place: u32,
    call: CallAfter,
) -> Result<View, Memory>
    requires files { AreTraceFiles files.now }
    requires regions { regions_of image.now ≡ ranges_of files.now.work.system.regions }
    requires bytes { byte_at image.now ≡ memory_of files.now }
    requires there { HasEntryAt files.now place }
    requires entry { slice_get files.now.trace.entries (place - 1) ≡ Some call.entry }
    requires call { IsCallOf files.now (place - 1) call.entry call }
    ensures { IfOk result (IsView files.now (Aspect.Why (Some place))) }
{
    let system = &files.work.system;
    let limit = files.work.scenario.limit;
    match after_place(alloc, system, image, limit, &files.trace, place)? {
        Place::State(_) => Ok(View::LegalEntry { place, call }),
        _ => Ok(View::Why(finding_of(alloc, files, image)?)),
    }
}

/// The entry at a place by its call, where the trace is legal up to it, or why it isn't.
pub fn reason_at(
    alloc: Global,
    files: &TraceFiles,
    image: &Image,
    place: u32,
) -> Result<View, Memory>
    requires files { AreTraceFiles files.now }
    requires regions { regions_of image.now ≡ ranges_of files.now.work.system.regions }
    requires bytes { byte_at image.now ≡ memory_of files.now }
    ensures { IfOk result (IsView files.now (Aspect.Why (Some place))) }
{
    let system = &files.work.system;
    let limit = files.work.scenario.limit;
    let entries = files.trace.entries.as_slice();
    let total = entries.len() as u32;
    if place == 0 || place > total {
        return Ok(View::NoPlace { place, total });
    }
    let before = place - 1;
    let entry = &entries[before as usize];
    match ask(alloc, system, image, limit, &files.trace, before, entry)? {
        PlaceAsked::Call(call) => legal_or_not(alloc, files, image, place, call),
        _ => Ok(View::Why(finding_of(alloc, files, image)?)),
    }
}
