//! The threads of one non-secure client: their scripts as one script, and the desk that lets one of
//! them at a time into the manager.
#![tactic(auto)]

mod desk;
mod joined;

pub use desk::Desk;
pub use joined::join;
