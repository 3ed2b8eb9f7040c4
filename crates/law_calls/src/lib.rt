//! The laws that the calls of the manager cite: tables take and put back slots as the machine names them
//! (`slots`), which bytes an event changes and tells (`reach`), and what every run keeps (`headline`).
//!
//! The functions here do nothing. Each one's contract is a law. The modules of `proofs/` offer the same laws
//! to the crates above.
#![tactic(auto)]

mod headline;
mod reach;
mod slots;

pub use headline::runs_keep_the_headline;
pub use reach::{bytes_changed_lie_in_reach, bytes_read_lie_in_reach, vectors_stay_within};
pub use slots::{handles_are_names, handles_stay_given, panics_follow_names, slots_follow_names};
