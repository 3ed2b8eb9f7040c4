//! The command that judges a trace: what is to be written of its text, and the status.
#![tactic(auto)]

mod changes;
mod judging;
mod report;

pub use judging::judge;
pub use report::TraceReport;
