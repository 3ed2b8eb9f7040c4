//! Handles, and the connections that they find. No call takes memory.
#![tactic(auto)]

mod connections;
mod handles;
mod names;

pub use connections::{Connection, Connections};
pub use handles::{Family, handle_of, slot_of, stateless_handle, stateless_index};
pub use names::{fresh_law, name_law};
