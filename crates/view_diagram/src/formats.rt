//! What a diagram shows, and its text.
ghost use Rattle.std.specs.Prelude.{◌≡◌, ◌<◌, ◌^◌, IfOk, length, string_bytes};
ghost use Rattle.std.specs.Option.{option_map};
ghost use Rattle.ffm_model.specs.Ranges.{ranges_of};
ghost use Rattle.memory_image.specs.Pieces.{byte_at, regions_of};
ghost use Rattle.view_diagram.specs.Diagrams.{IsDiagram, IsDiagramText, tail_of};
ghost use Rattle.view_diagram.specs.Ends.{EndsIn};

use crate::choosing::{actors_of, arrows_between};
use crate::gathering::{Part, PlacedArrow, gather};
use crate::html::page;
use crate::labels::end_text;
use crate::lanes::Lanes;
use crate::mermaid::mermaid;
use ffm_model::{List, Memory, System, Trace};
use machine_check::{Checked, check};
use memory_image::Image;
use std::alloc::{AllocError, Global};

/// How a diagram is written.
#[derive(Clone, Copy, Debug, PartialEq, Eq)]
pub enum Format {
    /// A `sequenceDiagram` of Mermaid.
    Mermaid,
    /// A page of HTML that stands alone.
    Html,
}

/// A sequence diagram of a part of a trace: what its text is written of, beside the system and the trace.
#[derive(Drop)]
pub struct SequenceDiagram {
    pub part: Part,
    pub format: Format,
    /// The actors that have lanes; None: those of the arrows.
    pub chosen: Option<Vec<u32>>,
    /// The arrows of the trace's legal entries in the part between these actors, in their order.
    pub arrows: List<PlacedArrow>,
    /// How the whole trace is judged.
    pub judged: Checked,
}

/// The diagram of a trace's legal entries in a part. Its arrows are those of `gather` whose ends were chosen, or all where
/// no actors were.
///
/// It needs what `gather` and then `machine_check::check` need. The memory has the system's regions, and
/// the trace has fewer than 2^31 entries.
pub fn diagram(
    alloc: Global,
    system: &System,
    memory: &Image,
    limit: u32,
    trace: &Trace,
    part: Part,
    chosen: Option<Vec<u32>>,
    format: Format,
) -> Result<SequenceDiagram, Memory>
    requires regions { regions_of memory.now ≡ ranges_of system.now.regions }
    requires few { length trace.now.entries < 2 ^ 31 }
    ensures { IfOk result (IsDiagram system.now (byte_at memory.now) limit trace.now.entries
        trace.now.verdict part (option_map (λ actors. actors.items) chosen) format) }
{
    let entries = trace.entries.as_slice();
    let gathered = gather(alloc, system, memory, limit, entries, part)?;
    let arrows = arrows_between(alloc, gathered.as_slice(), actors_of(&chosen))?;
    let judged = check(alloc, system, memory, limit, trace)?;
    Ok(SequenceDiagram {
        part,
        format,
        chosen,
        arrows,
        judged,
    })
}

// The text of arrows in a format, with its end.
fn written(
    alloc: Global,
    system: &System,
    trace: &Trace,
    format: Format,
    end: &str,
    part: Part,
    lanes: &Lanes,
    arrows: &[PlacedArrow],
) -> Result<String, AllocError>
    ensures { IfOk result (λ text. EndsIn end.now (tail_of format) (string_bytes text)) }
{
    match format {
        Format::Mermaid => mermaid(alloc, system, trace, end, lanes, arrows),
        Format::Html => page(alloc, system, trace, end, part, lanes, arrows),
    }
}

impl SequenceDiagram {
    /// The text of the diagram of a trace over this system, in UTF-8. At its end it says how the trace ended,
    /// the place at which it is illegal, or how far the part goes.
    pub fn text(&self, alloc: Global, system: &System, trace: &Trace) -> Result<Vec<u8>, AllocError>
        ensures { IfOk result (λ text. IsDiagramText self.now
            trace.now.verdict (length trace.now.entries) text.items) }
    {
        let arrows = self.arrows.as_slice();
        let lanes = Lanes::of(alloc, system, actors_of(&self.chosen), arrows)?;
        let end = end_text(alloc, trace, self.judged, self.part)?;
        let text = written(
            alloc,
            system,
            trace,
            self.format,
            end.as_str(),
            self.part,
            &lanes,
            arrows,
        )?;
        Ok(text.into_bytes())
    }
}
