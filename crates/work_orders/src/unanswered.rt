//! Why a command has no answer.

/// Why a command has no answer: a file that is asked for can't be read, or no memory was found.
#[derive(Clone, Copy, Debug, PartialEq, Eq)]
pub enum Unanswered {
    File,
    Memory,
}
