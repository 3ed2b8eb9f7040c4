//! What the definitions of the machine say of a system, a phase, flags, messages, vectors and the memory, where they
//! need no state of the machine: services and versions, signals, interrupts, the bytes of a request, the words of a
//! `psa_msg_t`.
//!
//! The manager and the judge of traces both stand on it, each with a state of its own. The condition on vectors, which
//! `snapshot` gives and each call keeps: at most four output vectors are given; the bytes of each vector lie in one region of
//! memory, and no more was moved of it than it has; the eight bytes of each given output vector's descriptor lie in one region.
#![tactic(auto)]

mod access;
mod actors;
mod asserted;
mod interrupts;
mod messages;
mod moves;
mod phases;
mod replies;
mod services;
mod signals;
mod vectors;

pub use access::is_access_size;
pub use actors::{client_id_of, is_partition};
pub use asserted::{doorbell_word, is_asserted, is_undelivered, service_word, source_word};
pub use interrupts::forwarded;
pub use messages::{MESSAGE_SIZE, sizes_of, words_of};
pub use moves::{finish, read, skip, write};
pub use phases::{is_busy, is_dead, refuses_requests};
pub use replies::{is_connect_status, owes_panic};
pub use services::{is_service_of, is_stateless, stateless_index, takes_version, version};
pub use signals::{assigned_to, service_of_signal, source_of_signal};
pub use vectors::{NO_VECTORS, are_few, snapshot};
