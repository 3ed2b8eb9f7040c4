//! Runs scripts: what each actor calls next, all of them in turns over a manager, and some of them
//! by workers over a manager that is shared. With laws of the plans by which they call.
#![tactic(auto)]

mod client;
mod context;
mod laws;
mod partition;
mod runner;
mod scheduled;
mod turn_runner;
mod workers;

pub use laws::{one_context_is_a_script, plans_resume_after_blocked, scripts_that_map_nothing};
pub use runner::Runner;
pub use scheduled::drive_scheduled;
pub use workers::{Worker, drive};
