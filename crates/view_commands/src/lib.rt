//! The commands of `ffm_view`: the files that its words name, the texts and the statuses.
#![tactic(auto)]

mod ends;
mod files;
mod top;

pub use ends::program;
pub use top::ffm_view;
