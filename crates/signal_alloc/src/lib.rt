//! The signal bits of a partition's services and interrupts.
#![tactic(auto)]

mod signals;

pub use signals::{FIRST_BIT, SignalMap, assign, service_of, signal_of};
