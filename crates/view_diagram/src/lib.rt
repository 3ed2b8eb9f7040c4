//! Sequence diagrams of traces: the arrows of the entries, and their texts.
//!
//! The arrows are those of a definition over the machine's states (specs/Arrows.antt). The state before each entry is
//! that of the judge's machine. How an arrow is drawn, as a Mermaid text or as a page of HTML, is no part of it.
//! That the arrows of calls and of their answers are pairs is proved of every run (laws.rt).
#![tactic(auto)]

mod arrows;
mod choosing;
mod drawing;
mod ends;
mod escapes;
mod formats;
mod gathering;
mod html;
mod labels;
mod lanes;
mod laws;
mod mermaid;

pub use arrows::{Arrow, Meaning, arrow_of, arrows_of};
pub use formats::{Format, SequenceDiagram, diagram};
pub use gathering::{Part, PlacedArrow, gather};
pub use laws::{
    answers_pair_with_calls, calls_and_replies_have_arrows, calls_are_answered_once,
    freed_clients_have_arrows,
};
