//! Texts of systems: the one that lists a system, and the files of one that is made by numbers, 16
//! partitions with one service each, and 16 clients, each of which asks one of the services so many times.
#![tactic(auto)]

mod items;
mod lines;
mod scenario;
mod system;
mod words;

pub use lines::{admitted, listing};
pub use scenario::scenario_text;
pub use system::system_text;
