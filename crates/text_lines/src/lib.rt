//! Words and lines of texts: how words are appended, the line that refuses a file, the usage line, and what a program
//! says on the standard error.
#![tactic(auto)]

mod problems;
mod refusals;
mod usage;
mod words;

pub use problems::{NO_MEMORY, UNREAD, UNWRITTEN, say_problem};
pub use refusals::{refusal_line, wrong_line};
pub use usage::usage_line;
pub use words::{Word, append, append_number, append_word, append_words};
