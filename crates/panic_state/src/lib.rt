//! What the panic of a partition does to everyone else. No call takes memory.
#![tactic(auto)]

mod client;
mod effect;
mod places;
mod services;

pub use effect::panic;
