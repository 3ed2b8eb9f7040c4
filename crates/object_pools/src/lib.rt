//! Pools of a fixed size, whose live items have slots. Only `Pool::boxed` takes memory.
#![tactic(auto)]

mod cells;
mod pool;
mod slot;

pub use pool::Pool;
pub use slot::{Held, Slot};
