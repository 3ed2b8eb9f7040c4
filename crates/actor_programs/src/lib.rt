//! What each actor of a system runs: the programs that a scenario's lines make.
#![tactic(auto)]

mod joined;
mod laws;
mod made;
mod program;
mod programs;
mod scripts;

pub use laws::files_list_their_scripts;
pub use program::Program;
pub use programs::programs_of;
pub use scripts::scripts_of;
