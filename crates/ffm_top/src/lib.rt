//! The top call: what the words of the command line ask for, done over any files and any sink.
#![tactic(auto)]

mod asked;
mod ends;
mod make;
mod perform;
mod report;
mod run;
mod steady;
mod top;

pub use asked::asks_threads;
pub use ends::program;
pub use run::{InThreads, NoThreads, ThreadedRuns};
pub use steady::ffm_steady;
pub use top::{ffm, ffm_by, ffm_starting};
