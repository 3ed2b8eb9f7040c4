//! The drawing of a diagram: a line for each actor, and an arrow for each row, from the top down.

use crate::arrows::{Arrow, Meaning};
use crate::escapes::push_html;
use crate::gathering::{PlacedArrow, entry_at};
use crate::labels::label;
use crate::lanes::{Lanes, push_word};
use ffm_model::{Entry, System, Trace};
use std::alloc::{AllocError, Global};
use trace_print::print;

// How wide the column of the places and of who sends to whom is, in pixels.
const PLACES_WIDTH: u64 = 112;

// How wide it is with the labels of marks.
const MARKS_WIDTH: u64 = 256;

// How high a row is.
const ROW_HEIGHT: u64 = 24;

// Room above the first row and below the last.
const MARGIN: u64 = 12;

// Room at the right for the marks of the last lane.
const RIGHT_MARGIN: u64 = 180;

// Arrows that are longer, in pixels, have their label at both ends.
const LONG_SPAN: u64 = 480;

// How wide a letter of a label is, in pixels, at most.
const LETTER_WIDTH: u64 = 8;

// More lanes than these are narrow.
const FEW_LANES: usize = 12;

// Whether an arrow is a mark at one actor.
fn is_mark(arrow: Arrow) -> bool {
    arrow.from.0 == arrow.to.0
}

/// How wide the column at the left is, in pixels.
pub fn places_width(arrows: &[PlacedArrow]) -> u64 {
    let has_marks = arrows.iter().any(|placed| is_mark(placed.arrow));
    if has_marks { MARKS_WIDTH } else { PLACES_WIDTH }
}

/// How wide a lane is, in pixels, where there are so many.
pub fn lane_width(lanes: usize) -> u64 {
    if lanes > FEW_LANES { 116 } else { 176 }
}

/// How wide the drawing is, in pixels.
pub fn drawing_width(lanes: usize) -> u64 {
    let width = (lanes as u64).saturating_mul(lane_width(lanes));
    width.saturating_add(RIGHT_MARGIN)
}

/// How high the drawing is, in pixels.
pub fn drawing_height(rows: usize) -> u64 {
    row_top(rows).saturating_add(MARGIN)
}

fn row_top(row: usize) -> u64 {
    let top = (row as u64).saturating_mul(ROW_HEIGHT);
    top.saturating_add(MARGIN)
}

// Where the line of a lane is.
fn lane_middle(lanes: usize, place: usize) -> u64 {
    let width = lane_width(lanes);
    let left = (place as u64).saturating_mul(width);
    left.saturating_add(width / 2)
}

// The class by which the page colours an arrow.
fn class_of(meaning: Meaning) -> &'static str {
    match meaning {
        Meaning::Message { .. } => "message",
        Meaning::Reply { status, .. } if status < 0 => "reply bad",
        Meaning::Reply { .. } => "reply",
        Meaning::Refusal { .. } => "bad",
        Meaning::Notify => "notify",
        Meaning::Interrupt { pending: true, .. } => "interrupt",
        Meaning::Interrupt { pending: false, .. } => "interrupt reply",
        Meaning::Wake { .. } => "wake",
        Meaning::Panic => "panic",
        Meaning::Release { .. } => "panic reply",
    }
}

/// The line of each actor, from the top down.
pub fn push_lines(out: &mut String, lanes: usize, rows: usize) -> Result<(), AllocError> {
    let height = drawing_height(rows);
    for place in 0..lanes {
        let x = lane_middle(lanes, place);
        write!(out, "<path class=\"life\" d=\"M{x} 0V{height}\"/>\n")?;
    }
    Ok(())
}

// The trace's line of the entry at a place.
#[tactic(auto, using(view_texts::proofs::Actors::known))]
fn push_line(
    out: &mut String,
    system: &System,
    place: u32,
    entry: &Entry,
) -> Result<(), AllocError> {
    write!(out, "{place}: ")?;
    if entry.actor.0 < system.actor_count() {
        let line = print(system.counts(), entry);
        if let Ok(text) = str::from_utf8(line.as_slice()) {
            push_html(out, text.trim_end())?;
        }
    }
    Ok(())
}

// The lines that the pointer shows: that of the entry, and that of the call that it answers.
fn push_title(
    out: &mut String,
    system: &System,
    trace: &Trace,
    placed: PlacedArrow,
    entry: &Entry,
) -> Result<(), AllocError> {
    out.push_str("<title>")?;
    push_line(out, system, placed.place, entry)?;
    if let Some(place) = placed.answers {
        if let Some(call) = entry_at(trace, place) {
            out.push_str("\nanswers ")?;
            push_line(out, system, place, call)?;
        }
    }
    out.push_str("</title>")
}

// A label, to the right of a place or to its left.
fn push_label(
    out: &mut String,
    is_left: bool,
    x: u64,
    y: u64,
    text: &str,
) -> Result<(), AllocError> {
    let class = if is_left { " class=\"left\"" } else { "" };
    write!(out, "<text{class} x=\"{x}\" y=\"{y}\">")?;
    push_html(out, text)?;
    out.push_str("</text>")
}

// How wide a label is, in pixels, at most.
fn label_width(text: &str) -> u64 {
    (text.len() as u64).saturating_mul(LETTER_WIDTH)
}

fn push_line_to(out: &mut String, from: u64, end: u64, y: u64) -> Result<(), AllocError> {
    let barb = if from < end { "-8" } else { "8" };
    write!(out, "<path class=\"line\" d=\"M{from} {y}H{end}\"/>")?;
    write!(out, "<path class=\"head\" d=\"M{end} {y}l{barb}-4v8z\"/>")
}

// An arrow to the right, with its label next to its actor, and at its head too where it is long.
fn push_right(out: &mut String, from: u64, to: u64, y: u64, text: &str) -> Result<(), AllocError> {
    let label_y = y.saturating_sub(5);
    push_label(out, false, from.saturating_add(7), label_y, text)?;
    if to.saturating_sub(from) > LONG_SPAN {
        push_label(out, true, to.saturating_sub(14), label_y, text)?;
    }
    push_line_to(out, from, to.saturating_sub(2), y)
}

// The same to the left. Where there is no room for the label next to its actor it is at its head alone.
fn push_left(out: &mut String, from: u64, to: u64, y: u64, text: &str) -> Result<(), AllocError> {
    let label_y = y.saturating_sub(5);
    let right = from.saturating_sub(7);
    let has_room = label_width(text) <= right;
    if has_room {
        push_label(out, true, right, label_y, text)?;
    }
    if !has_room || from.saturating_sub(to) > LONG_SPAN {
        push_label(out, false, to.saturating_add(14), label_y, text)?;
    }
    push_line_to(out, from, to.saturating_add(2), y)
}

// A mark at a lane, and its label.
fn push_mark(out: &mut String, at: u64, y: u64, text: &str) -> Result<(), AllocError> {
    write!(out, "<circle cx=\"{at}\" cy=\"{y}\" r=\"4\"/>")?;
    push_label(out, false, at.saturating_add(9), y.saturating_add(4), text)
}

// What an arrow looks like.
fn push_shape(
    out: &mut String,
    lanes: &Lanes,
    arrow: Arrow,
    y: u64,
    text: &str,
) -> Result<(), AllocError> {
    let count = lanes.actors().len();
    let from = lane_middle(count, lanes.place(arrow.from));
    let to = lane_middle(count, lanes.place(arrow.to));
    if from < to {
        push_right(out, from, to, y, text)
    } else if to < from {
        push_left(out, from, to, y, text)
    } else {
        push_mark(out, from, y, text)
    }
}

// The group of an arrow: its trace line, a row that answers to the pointer, its shape and its label.
fn push_group(
    alloc: Global,
    out: &mut String,
    system: &System,
    trace: &Trace,
    lanes: &Lanes,
    row: usize,
    placed: PlacedArrow,
    entry: &Entry,
) -> Result<(), AllocError> {
    let class = class_of(placed.arrow.meaning);
    let top = row_top(row);
    let width = drawing_width(lanes.actors().len());
    let text = label(alloc, system, entry, placed.arrow)?;
    write!(out, "<g class=\"{class}\">")?;
    push_title(out, system, trace, placed, entry)?;
    write!(
        out,
        "<rect y=\"{top}\" width=\"{width}\" height=\"{ROW_HEIGHT}\"/>"
    )?;
    push_shape(
        out,
        lanes,
        placed.arrow,
        top.saturating_add(16),
        text.as_str(),
    )?;
    out.push_str("</g>\n")
}

/// The arrows, one in each row.
pub fn push_arrows(
    alloc: Global,
    out: &mut String,
    system: &System,
    trace: &Trace,
    lanes: &Lanes,
    arrows: &[PlacedArrow],
) -> Result<(), AllocError> {
    for (row, placed) in arrows.iter().enumerate() {
        if let Some(entry) = entry_at(trace, placed.place) {
            push_group(alloc, out, system, trace, lanes, row, *placed, entry)?;
        }
    }
    Ok(())
}

// Who sends an arrow to whom.
fn push_ends(out: &mut String, system: &System, arrow: Arrow) -> Result<(), AllocError> {
    push_word(out, system, arrow.from)?;
    if !is_mark(arrow) {
        out.push_str("&#8594;")?;
        push_word(out, system, arrow.to)?;
    }
    Ok(())
}

// What is written at a mark, for those who don't see its lane.
fn push_mark_label(
    alloc: Global,
    out: &mut String,
    system: &System,
    trace: &Trace,
    placed: PlacedArrow,
) -> Result<(), AllocError> {
    if !is_mark(placed.arrow) {
        return Ok(());
    }
    if let Some(entry) = entry_at(trace, placed.place) {
        let class = class_of(placed.arrow.meaning);
        let text = label(alloc, system, entry, placed.arrow)?;
        write!(out, " <tspan class=\"{class}\">")?;
        push_html(out, text.as_str())?;
        out.push_str("</tspan>")?;
    }
    Ok(())
}

/// The places of the entries, each at its first row, and at each row who sends to whom, or the label of
/// a mark.
pub fn push_places(
    alloc: Global,
    out: &mut String,
    system: &System,
    trace: &Trace,
    arrows: &[PlacedArrow],
) -> Result<(), AllocError> {
    let mut before = 0;
    for (row, placed) in arrows.iter().enumerate() {
        let place = placed.place;
        let y = row_top(row).saturating_add(20);
        if place != before {
            write!(
                out,
                "<text id=\"e{place}\" x=\"44\" y=\"{y}\">{place}</text>"
            )?;
        }
        write!(out, "<text class=\"ends\" x=\"52\" y=\"{y}\">")?;
        push_ends(out, system, placed.arrow)?;
        push_mark_label(alloc, out, system, trace, *placed)?;
        out.push_str("</text>\n")?;
        before = place;
    }
    Ok(())
}
