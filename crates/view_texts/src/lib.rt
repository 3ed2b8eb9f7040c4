//! How texts about a trace name actors, services, signals, calls, entries and outcomes, and their columns;
//! and the counts of a trace with their text.
#![tactic(auto)]

mod calls;
mod columns;
mod counts;
mod counts_text;
mod names;
mod numbers;
mod outcomes;

pub use calls::{CALL_COUNT, call_name, name_at, place_of};
pub use columns::{pad, put_left, put_list, put_right};
pub use counts::{Moved, TraceCounts, Wait, count_at, stats};
pub use counts_text::{connections_declared, messages_declared, number_at, stats_text};
pub use names::{
    actor_name, actor_width, call_of_kind, name_width, put_actor, put_actor_word, put_service,
    service_name,
};
pub use outcomes::{put_entry, put_outcome};
