//! What a script calls next, as functions of where it goes on: with the messages that a partition holds, and
//! without. No call takes memory, and none knows a manager.
#![tactic(auto)]

mod calls;
mod held_lines;
mod held_script;
mod lines;
mod script;

pub use calls::{is_blocked, is_stop, note};
pub use held_lines::note_held;
pub use held_script::{held_arrive, held_call, held_go_on, line_at};
pub use lines::{MOST_LINES, place_after};
pub use script::{arrive, call_at, go_on, run_lines};
