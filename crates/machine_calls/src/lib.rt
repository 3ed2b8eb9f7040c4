//! The FF-M machine by its definitions: its state, and what each call makes of it.
//!
//! The state is kept as the definitions have it: connections in the order of their making, messages in order of arrival,
//! phases, doorbells, interrupt flags and memory. There is no slot, pool, queue or stored signal, and nothing of the
//! manager is used. A judge of traces stands on it.
#![tactic(auto)]

mod access;
mod client;
mod connections;
mod interrupts;
mod machine;
mod messages;
mod panic;
mod replies;
mod service;
mod signals;

pub use machine::{Machine, Objects};
