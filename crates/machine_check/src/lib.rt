//! Judges whether a trace is a run of the FF-M machine, says which bytes each of its entries changed, and
//! shows the state after the first of them and what the machine answers there. And makes a call of the machine from
//! any state (`perform`).
//!
//! Each entry is followed by the machine's own calls, in the crate below; the handles of the past are an ordered set.
//! What an entry changed is looked for in the few ranges that its call may write. Nothing of the manager is used.
#![tactic(auto)]

mod answering;
mod auditing;
mod differences;
mod judging;
mod step;
mod worked;
mod written;

pub use auditing::{AuditReport, Change, audit};
pub use judging::{Checked, Checker, check, is_some_blocked, is_some_enabled, reached};
pub use step::perform;
pub use worked::{changes_of_stores, false_changes};
