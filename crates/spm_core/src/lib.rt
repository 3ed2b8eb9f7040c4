//! The Secure Partition Manager: it makes the actors' events one by one, and keeps their history.
#![tactic(auto)]

mod accesses;
mod actors;
mod calls;
mod interrupts;
mod perform;
mod returns;
mod spm;

pub use spm::Spm;
