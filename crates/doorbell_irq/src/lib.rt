//! Doorbells and interrupts: the calls of `psa/service.h` on them, and the interrupts that the device
//! raises, over the tables of a manager.
//!
//! Each call answers and leaves what its definition in `ffm_model` says of the tables' state; `raise` of a
//! source with a first-level handler, for which the definition gives nothing, does what `fire` does with the
//! answer 1. None takes memory, a slot or a connection. Tables were made for the system that is passed beside them.
#![tactic(auto)]

mod doorbell;
mod interrupt;

pub use doorbell::{clear, notify};
pub use interrupt::{disable, enable, eoi, fire, raise, reset};
