//! What each aspect of a trace shows: the texts and the statuses.
#![tactic(auto)]

mod calls;
mod choosing;
mod diagrams;
mod scripts;
mod traces;
mod view;
mod written;

pub use traces::TraceFiles;
pub use written::shown;
