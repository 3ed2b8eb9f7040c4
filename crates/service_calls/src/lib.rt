//! The calls of `psa/service.h` over a manager's tables: what a partition asks of the messages to its services.
//!
//! No call takes memory. A call answers `Fault` exactly where it is a PROGRAMMER ERROR, and then nothing changed.
//!
//! Tables go with the system that they were made for, and an image with that system's regions. The connections, messages and
//! phases of the tables fit each other as in each run, and no message's vectors reach beyond the regions; the calls keep both,
//! `wait` the fit where its actor is Running; a reply that owes a panic leaves the fit to that panic. No call takes a slot, and
//! each keeps the names of those that are there.
#![tactic(auto)]

mod connection;
mod delivery;
mod replies;
mod transfer;
mod waiting;

pub use delivery::get;
pub use replies::{reply, set_rhandle};
pub use transfer::{read, skip, write};
pub use waiting::wait;
