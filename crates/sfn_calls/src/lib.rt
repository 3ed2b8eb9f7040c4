//! SFN partitions: the functions of their scripts, and the loop that means the same.
#![tactic(auto)]

mod assembly;
mod expansion;
mod functions;
mod laws;
mod sections;

pub use assembly::assemble_sfn;
pub use expansion::expand;
pub use laws::loops_are_rounds;
