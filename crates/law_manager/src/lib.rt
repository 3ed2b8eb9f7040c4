//! The laws of the manager over its calls: what holds in the middle of a panic (`panics`), and what tables
//! stand for after each event and each run (`standing`).
//!
//! The functions here do nothing. Each one's contract is a law of tables, for every system.
#![tactic(auto)]

mod panics;
mod standing;

pub use panics::panics_fit_midway;
pub use standing::{tables_have_names, tables_stand_after_events, tables_stand_in_runs};
