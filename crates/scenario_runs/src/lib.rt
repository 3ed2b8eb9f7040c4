//! Runs of a scenario's programs over a system: in the turns of its schedule, again after a panic
//! while a restart is left, or with a thread for each actor.
#![tactic(auto)]

mod opening;
mod restarting;
mod scheduled;
mod starts;
mod threads;

pub use opening::next_opening;
pub use restarting::{Runs, run_in_turns};
pub use scheduled::{Ran, run_once};
pub use starts::{EveryStart, Starts};
pub use threads::run_in_threads;
