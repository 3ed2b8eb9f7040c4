//! The laws of programs, in runs of the machine: of the functions of SFN partitions (`functions`), and of
//! mapped vectors (`mapping`).
//!
//! The functions here do nothing. Each one's contract is a law of the machine of `ffm_model`.
#![tactic(auto)]

mod functions;
mod mapping;

pub use functions::loops_are_rounds_in_runs;
pub use mapping::{
    laws_hold_of_each_event, lengths_are_told, runs_keep_windows, windows_are_copied,
};
