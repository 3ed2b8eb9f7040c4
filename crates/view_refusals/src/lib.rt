//! Refusals of files in words for people: where, what is wrong, and what was expected.
#![tactic(auto)]

mod explain;
mod faults;
mod kinds;
mod lines;
mod names;
mod notes;
mod regions;
mod rules;
mod scripts;
mod special;
mod traces;
mod values;

pub use explain::refusal_words;
pub use notes::note_words;
pub use traces::{illegal_words, wrong_trace_words};
