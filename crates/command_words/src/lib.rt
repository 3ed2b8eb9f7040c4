//! The words of the command line: which lists are accepted, and the order of each.
#![tactic(auto)]

mod command_line;
mod limits;
mod words;

pub use command_line::confirmed;
pub use limits::{MAX_ROUNDS, value_of_the_rounds_limit};
pub use words::{Command, Inspection, command_of};
