//! The laws of the runs of scenarios: what fixes a run (`turns`), that a state tells what comes next
//! (`states`), and so do its bytes (`snapshots`), that each number is a value of its field's type
//! (`ranges`), and that priorities change nothing (`priorities`).
//!
//! The functions here do nothing. The contract of each is a law of the machine of `ffm_model` and of the
//! programs of its actors.
#![tactic(auto)]

mod priorities;
mod ranges;
mod snapshots;
mod states;
mod turns;

pub use priorities::priority_changes_nothing;
pub use ranges::{entries_fit_their_fields, files_are_in_range};
pub use snapshots::snapshots_tell_what_is_seen;
pub use states::{
    interleavings_go_by_their_states, past_changes_nothing, programs_interleave_as_scripts,
};
pub use turns::{
    interleavings_end_as_runs, restarted_runs_are_one, runs_follow_their_actors,
    scheduled_runs_are_one, threaded_runs_are_scheduled,
};
