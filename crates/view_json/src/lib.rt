//! What ffm_view shows of a trace as JSON: the facts of its texts as one object in a line.
//!
//! Each value is a function of what is shown (specs/), in the words of the texts. Actors are told by their names and
//! by their words in a trace.
#![tactic(auto)]

mod actors;
mod moves;
mod scripts;
mod stall;
mod state;
mod stats;
mod values;
mod why;

pub use state::state_json;
pub use stats::stats_json;
pub use values::error_json;
pub use why::{legal_entry_json, why_json};
