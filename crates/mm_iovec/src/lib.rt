//! The messages that a partition got and hasn't answered, and what has become of their vectors: mapped
//! vectors (MM-IOVEC). No call takes memory.
#![tactic(auto)]

mod held;
mod holder;
mod item;
mod line;
mod steps;
mod table;
mod vector;

pub use held::Held;
pub use item::HeldItem;
pub use line::{MmLine, MmStep};
pub use vector::{HeldVector, VectorState};
