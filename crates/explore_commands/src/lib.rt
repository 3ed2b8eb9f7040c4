//! The commands of `ffm_explore`: the files that its words name, the texts and the statuses.
#![tactic(auto)]

mod ends;
mod exploring;
mod progress;
mod rescheduling;
mod targets;
mod texts;
mod top;

pub use ends::program;
pub use exploring::{Findings, found_of};
pub use progress::Progress;
pub use targets::{LinePlace, Missing, Target};
pub use top::ffm_explore;
