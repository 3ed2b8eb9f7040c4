//! Entries of a trace, and how a run ended, as lines of text, and the trace whose text is read.
#![tactic(auto)]

mod call;
mod error;
mod field;
mod line;
mod line_buffer;
mod number;
mod outcome;
mod read;
mod run_lines;
mod whole;

pub use error::TraceError;
pub use field::hexadecimal;
pub use line::{
    LONGEST_LINE, print, print_into, print_verdict, value_of_the_longest_line, verdict_word,
};
pub use line_buffer::{LINE_CAPACITY, Line};
pub use run_lines::lines_of_runs_are_short;
pub use whole::{one_wrong_line, read_trace, texts_differ};
