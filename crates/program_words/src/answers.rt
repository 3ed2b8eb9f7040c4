//! What a program answers: a text, which is written whole, and a status.
ghost use Rattle.std.specs.Prelude.{◌≡◌, ◌≢◌, ◌≤◌, IfOk};
ghost use Rattle.clap.specs.Words.{kind_of};
ghost use Rattle.outside_io.specs.Sink.{Hands};
ghost use Rattle.program_words.specs.Arguments.{told_status};

use clap::Error;
use clap::error::ErrorKind;
use ffm_model::Memory;
use outside_io::{Failed, Sink, put_all};
use std::alloc::Global;

/// A text to be written, and the status to end with.
#[derive(Drop)]
pub struct Answer {
    pub text: Vec<u8>,
    pub status: u8,
}

// The status of help and the version, and of words that are no command.
fn told_status(error: &Error) -> u8
    ensures { result ≡ told_status (kind_of error.now) }
{
    if error.use_stderr() { 2 } else { 0 }
}

/// The answer of `clap` to words that are no command, or that ask for help or the version. `Memory` where no memory
/// is found.
pub fn told(alloc: Global, error: &Error) -> Result<Answer, Memory>
    ensures status { IfOk result (λ answer. answer.status ≡ told_status (kind_of error.now)) }
    ensures few { IfOk result (λ answer. answer.status ≤ 2) }
    ensures kind { IfOk result (λ answer. kind_of error.now ≢ ErrorKind.OutOfMemory) }
{
    if error.kind() == ErrorKind::OutOfMemory {
        return Err(Memory);
    }
    let text = error.to_string(alloc)?.into_bytes();
    let status = told_status(error);
    Ok(Answer { text, status })
}

/// Writes a text whole.
pub fn write<S: Sink>(out: &mut S, text: &[u8]) -> Result<(), Failed>
    ensures { Hands (S.seen out.old) (S.seen out.new) result text.now }
{
    put_all(out, text)?;
    out.flush()
}
