//! The words of `ffm_view` and `ffm_explore`, read by `clap`: what they ask for, and what is answered where they
//! ask for nothing.
#![tactic(auto)]

mod answers;
mod arguments;
mod entries;
pub mod explore;
mod explore_line;
pub mod view;
mod view_line;

pub use answers::{Answer, told, write};
pub use arguments::VERSION;
pub use entries::entry_of;
