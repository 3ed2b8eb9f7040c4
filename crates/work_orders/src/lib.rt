//! What the words of the command line ask for: the work that an order calls for, read of its
//! files.
#![tactic(auto)]

mod limits;
mod unanswered;
mod work;

pub use limits::{MAX_TRACE_BYTES, value_of_the_trace_limit};
pub use unanswered::Unanswered;
pub use work::{RunWork, TraceWork, Work, system_in, work_of};
