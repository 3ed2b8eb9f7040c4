//! Why a text is no trace's.
ghost use Rattle.std.specs.Prelude.{◌≡◌};

use std::alloc::{AllocError, AllocFailed};
use thiserror::Error;

/// Why a text is no trace's. Lines are counted from 1.
#[derive(Clone, Copy, Debug, Drop, PartialEq, Eq, Error)]
pub enum TraceError {
    /// The first wrong line: a line that is neither an entry's nor the verdict's, an entry's line
    /// after as many as a trace may have, or a line after the verdict's. Where each line is right
    /// and the verdict's line or the last line feed is missing, it is the number of line feeds and
    /// one.
    #[error("line {line} is wrong")]
    Syntax { line: u32 },
    #[error("no memory was found")]
    Memory,
}

impl From<AllocError> for TraceError {
    ghost use Rattle.trace_print.specs.declared.error.TraceError.TheVariants as trace_error;

    ghost from_gives = { λ _ e. e ≡ trace_error.Memory };

    fn from(_e: AllocError) -> TraceError {
        TraceError::Memory
    }
}

impl<T: Drop> From<AllocFailed<T>> for TraceError {
    ghost use Rattle.trace_print.specs.declared.error.TraceError.TheVariants as trace_error;

    ghost from_gives = { λ _ e. e ≡ trace_error.Memory };

    fn from(_e: AllocFailed<T>) -> TraceError {
        TraceError::Memory
    }
}
