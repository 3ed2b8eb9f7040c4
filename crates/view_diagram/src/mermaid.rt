//! A diagram as a text of Mermaid.

ghost use Rattle.std.specs.Prelude.{IfOk, string_bytes};
ghost use Rattle.view_diagram.specs.Ends.{EndsIn, mermaid_tail};

use crate::arrows::Meaning;
use crate::ends::ended;
use crate::escapes::push_mermaid;
use crate::gathering::{PlacedArrow, entry_at};
use crate::labels::label;
use crate::lanes::{Lanes, push_word};
use ffm_model::{ActorId, Entry, System, Trace};
use std::alloc::{AllocError, Global};
use view_texts::actor_name;

// The line that brings in an actor, under its word in the trace.
fn push_participant(out: &mut String, system: &System, actor: ActorId) -> Result<(), AllocError> {
    out.push_str("    participant ")?;
    push_word(out, system, actor)?;
    out.push_str(" as ")?;
    push_word(out, system, actor)?;
    out.push(' ')?;
    push_mermaid(out, actor_name(system, actor.0))?;
    out.push('\n')
}

// Mermaid's arrow. None where a note stands in its place.
fn arrow_word(meaning: Meaning) -> Option<&'static str> {
    match meaning {
        Meaning::Message { .. } => Some("->>"),
        Meaning::Reply { status, .. } if status < 0 => Some("--x"),
        Meaning::Reply { .. } => Some("-->>"),
        Meaning::Notify | Meaning::Interrupt { .. } => Some("-)"),
        Meaning::Release { .. } => Some("--x"),
        Meaning::Refusal { .. } | Meaning::Wake { .. } | Meaning::Panic => None,
    }
}

// The line of an arrow, with the place of its entry.
fn push_arrow(
    alloc: Global,
    out: &mut String,
    system: &System,
    placed: PlacedArrow,
    entry: &Entry,
) -> Result<(), AllocError> {
    let arrow = placed.arrow;
    let place = placed.place;
    out.push_str("    ")?;
    match arrow_word(arrow.meaning) {
        Some(word) => {
            push_word(out, system, arrow.from)?;
            out.push_str(word)?;
        }
        None => out.push_str("Note over ")?,
    }
    push_word(out, system, arrow.to)?;
    write!(out, ": {place} ")?;
    push_mermaid(out, label(alloc, system, entry, arrow)?.as_str())?;
    out.push('\n')
}

// What stands before the end, which is a note over all actors.
fn push_foot(out: &mut String, system: &System, actors: &[ActorId]) -> Result<(), AllocError> {
    match (actors.first(), actors.last()) {
        (Some(first), Some(last)) => {
            out.push_str("    Note over ")?;
            push_word(out, system, *first)?;
            if first.0 != last.0 {
                out.push(',')?;
                push_word(out, system, *last)?;
            }
            out.push_str(": ")
        }
        _ => out.push_str("%% "),
    }
}

// All but the end.
fn drawn(
    alloc: Global,
    system: &System,
    trace: &Trace,
    lanes: &Lanes,
    arrows: &[PlacedArrow],
) -> Result<String, AllocError> {
    let mut out = String::new(alloc);
    out.push_str("sequenceDiagram\n")?;
    for actor in lanes.actors() {
        push_participant(&mut out, system, *actor)?;
    }
    for placed in arrows {
        if let Some(entry) = entry_at(trace, placed.place) {
            push_arrow(alloc, &mut out, system, *placed, entry)?;
        }
    }
    push_foot(&mut out, system, lanes.actors())?;
    Ok(out)
}

/// A `sequenceDiagram` with a line for each arrow, and then its end.
pub fn mermaid(
    alloc: Global,
    system: &System,
    trace: &Trace,
    end: &str,
    lanes: &Lanes,
    arrows: &[PlacedArrow],
) -> Result<String, AllocError>
    ensures { IfOk result (λ text. EndsIn end.now mermaid_tail (string_bytes text)) }
{
    ended(drawn(alloc, system, trace, lanes, arrows)?, end, "\n")
}
