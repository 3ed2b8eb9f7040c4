//! What is shown of a trace.
ghost use Rattle.std.specs.Prelude.{◌≡◌, IfOk, length};
ghost use Rattle.std.specs.Option.{option_map};
ghost use Rattle.ffm_model.specs.Memory.{opening_memory};
ghost use Rattle.ffm_model.specs.Ranges.{ranges_of};
ghost use Rattle.memory_image.specs.Pieces.{byte_at, regions_of};
ghost use Rattle.view_aspects.specs.Traces.{AreTraceFiles, memory_of};
ghost use Rattle.view_aspects.specs.Diagrams.{format_of};
ghost use Rattle.view_aspects.specs.Views.{IsDiagramOf, IsFindingOf, IsView};

use crate::calls::{asked, reason_at};
use crate::choosing::{Choice, choice_of};
use crate::diagrams::{format_of, part_asked, place_beyond};
use crate::scripts::scripts_after;
use crate::traces::TraceFiles;
use ffm_model::Memory;
use memory_image::{Image, opening_image};
use program_words::view::{Aspect, Format};
use std::alloc::Global;
use view_diagram::{Part, SequenceDiagram, diagram};
use view_places::{CallAfter, Finding, Place, StateAfter, after_last, after_place, why};
use view_scripts::ScriptRow;
use view_texts::{TraceCounts, stats};

/// What is shown.
#[derive(Drop)]
pub enum View {
    /// The state after an entry, and where the scripts stand.
    State(StateAfter, Option<Vec<ScriptRow>>),
    /// That the trace has no such place, but so many entries.
    NoPlace { place: u32, total: u32 },
    /// That there is no state after a place, since an entry up to it is illegal.
    NoState { illegal: u32, place: u32 },
    Why(Finding),
    /// A legal entry at a place, by its call.
    LegalEntry { place: u32, call: CallAfter },
    /// A call that is asked for.
    Call(CallAfter),
    /// That a text is no call.
    NoCall,
    Diagram(SequenceDiagram),
    /// That no actor has this name.
    NoActor(String),
    Stats(TraceCounts),
}

fn state_at(alloc: Global, files: &TraceFiles, image: &Image, place: u32) -> Result<View, Memory>
    requires files { AreTraceFiles files.now }
    requires regions { regions_of image.now ≡ ranges_of files.now.work.system.regions }
    requires bytes { byte_at image.now ≡ memory_of files.now }
    ensures { IfOk result (IsView files.now (Aspect.State (Some place))) }
{
    let system = &files.work.system;
    let limit = files.work.scenario.limit;
    match after_place(alloc, system, image, limit, &files.trace, place)? {
        Place::State(after) => {
            let scripts = scripts_after(alloc, files, after.checker.count)?;
            Ok(View::State(after, scripts))
        }
        Place::Beyond => Ok(View::NoPlace {
            place,
            total: files.trace.entries.len() as u32,
        }),
        Place::Illegal(illegal) => Ok(View::NoState { illegal, place }),
    }
}

fn last_state(alloc: Global, files: &TraceFiles, image: &Image) -> Result<View, Memory>
    requires files { AreTraceFiles files.now }
    requires regions { regions_of image.now ≡ ranges_of files.now.work.system.regions }
    requires bytes { byte_at image.now ≡ memory_of files.now }
    ensures { IfOk result (IsView files.now (Aspect.State None)) }
{
    let system = &files.work.system;
    let limit = files.work.scenario.limit;
    let after = after_last(alloc, system, image, limit, &files.trace)?;
    let scripts = scripts_after(alloc, files, after.checker.count)?;
    Ok(View::State(after, scripts))
}

// How the trace is judged, and why.
pub fn finding_of(alloc: Global, files: &TraceFiles, image: &Image) -> Result<Finding, Memory>
    requires files { AreTraceFiles files.now }
    requires regions { regions_of image.now ≡ ranges_of files.now.work.system.regions }
    requires bytes { byte_at image.now ≡ memory_of files.now }
    ensures { IfOk result (IsFindingOf files.now) }
{
    let system = &files.work.system;
    let limit = files.work.scenario.limit;
    why(alloc, system, image, limit, &files.trace)
}

fn counts_of(alloc: Global, files: &TraceFiles, image: &Image) -> Result<View, Memory>
    requires files { AreTraceFiles files.now }
    requires regions { regions_of image.now ≡ ranges_of files.now.work.system.regions }
    requires bytes { byte_at image.now ≡ memory_of files.now }
    ensures { IfOk result (IsView files.now Aspect.Stats) }
{
    let system = &files.work.system;
    let limit = files.work.scenario.limit;
    Ok(View::Stats(stats(alloc, system, image, limit, &files.trace)?))
}

// The diagram of a part, of some actors or of all.
fn drawn(
    alloc: Global,
    files: &TraceFiles,
    image: &Image,
    part: Part,
    chosen: Option<Vec<u32>>,
    format: Format,
) -> Result<SequenceDiagram, Memory>
    requires files { AreTraceFiles files.now }
    requires regions { regions_of image.now ≡ ranges_of files.now.work.system.regions }
    requires bytes { byte_at image.now ≡ memory_of files.now }
    ensures { IfOk result (IsDiagramOf files.now part
        (option_map (λ actors. actors.items) chosen) (format_of format)) }
{
    let system = &files.work.system;
    let limit = files.work.scenario.limit;
    let format = format_of(format);
    diagram(
        alloc,
        system,
        image,
        limit,
        &files.trace,
        part,
        chosen,
        format,
    )
}

// The diagram between two places, or that the trace has not the second, or not the first, or that no actor has one of the
// names.
fn diagram_of(
    alloc: Global,
    files: &TraceFiles,
    image: &Image,
    from: Option<u32>,
    to: Option<u32>,
    format: Format,
    names: Option<&str>,
) -> Result<View, Memory>
    requires files { AreTraceFiles files.now }
    requires regions { regions_of image.now ≡ ranges_of files.now.work.system.regions }
    requires bytes { byte_at image.now ≡ memory_of files.now }
    ensures { IfOk result (IsView files.now (Aspect.Diagram from to format names.entry)) }
{
    let total = files.trace.entries.len() as u32;
    if let Some(place) = place_beyond(total, from, to) {
        return Ok(View::NoPlace { place, total });
    }
    let part = part_asked(total, from, to);
    match choice_of(alloc, &files.work.system, names)? {
        Choice::Actors(chosen) => {
            Ok(View::Diagram(drawn(alloc, files, image, part, chosen, format)?))
        }
        Choice::Unknown(name) => Ok(View::NoActor(name)),
    }
}

/// What an aspect shows of a trace. Memory where no memory was found.
pub fn view_of(alloc: Global, files: &TraceFiles, aspect: Aspect<'_>) -> Result<View, Memory>
    requires { AreTraceFiles files.now }
    ensures { IfOk result (IsView files.now aspect.entry) }
{
    let image = opening_image(alloc, &files.work.system, &files.work.scenario)?;
    match aspect {
        Aspect::State(Some(place)) => state_at(alloc, files, &image, place),
        Aspect::State(None) => last_state(alloc, files, &image),
        Aspect::Why(Some(place)) => reason_at(alloc, files, &image, place),
        Aspect::Why(None) => Ok(View::Why(finding_of(alloc, files, &image)?)),
        Aspect::Ask { place, call } => asked(alloc, files, &image, place, call),
        Aspect::Diagram {
            from,
            to,
            format,
            actors,
        } => diagram_of(alloc, files, &image, from, to, format, actors),
        Aspect::Stats => counts_of(alloc, files, &image),
    }
}
