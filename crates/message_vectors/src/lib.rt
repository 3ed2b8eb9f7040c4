//! What is read, skipped and written of a request's vectors, and what a reply tells its client; and which bytes these
//! calls read and change, as laws over their definitions.
//!
//! The calls and the condition on vectors, which `snapshot` gives and each call keeps, are those of `machine_rules`.
#![tactic(auto)]

mod laws;

pub use laws::{
    buffers_lie_in_ram, copy_changes_target, copy_tells_source, lengths_change_length_words,
    lengths_tell_nothing, load_tells_range, moved_bytes_lie_in_vector, store_changes_range,
    vectors_tell_ram, words_change_range,
};
pub use machine_rules::{finish, read, skip, snapshot, write};
