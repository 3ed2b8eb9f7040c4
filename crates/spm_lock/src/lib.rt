//! One manager that threads share by turns.
//!
//! Each actor has a pass. A call draws a ticket, waits until it is served, and is answered by the
//! manager on the history of that moment. The manager, boxed, stands in the one slot of a table; the
//! table's three words are the length of the history, the tickets drawn, and the tickets served.
#![tactic(auto)]

mod api;
mod pass;
mod shared;
mod table;
mod turn;
mod view;
mod waiting;

pub use pass::Pass;
pub use shared::Shared;
