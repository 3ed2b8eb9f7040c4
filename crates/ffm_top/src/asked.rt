//! What the words and the files ask to be done.

ghost use Rattle.std.specs.Prelude.{◌≡◌, IfOk, Some, map, string_bytes};
ghost use Rattle.command_words.specs.Words.{asks_threads, order, order_of};
ghost use Rattle.ffm_top.specs.Asked.{AskedBy, IsAsked, TakesThreads};

use command_words::{Command, command_of, confirmed};
use ffm_model::{PartsError, Refusal};
use outside_io::Files;
use std::alloc::{AllocError, Global};
use work_orders::{Unanswered, Work, work_of};

/// What is to be done.
#[derive(Drop)]
pub enum Asked {
    /// The words are no command.
    Usage,
    /// A file is refused.
    Refused(Refusal),
    Work(Work),
}

// What a command asks for.
fn asked_by<F: Files>(
    alloc: Global,
    command: Command<'_>,
    files: &mut F,
) -> Result<Asked, Unanswered>
    ensures asks { AskedBy (Some (order command.entry))
        (F.seen files.old) (F.seen files.new) result }
    ensures kept { IfOk result IsAsked }
    ensures threads { IfOk result (TakesThreads (asks_threads (Some (order command.entry)))) }
{
    match work_of(alloc, command, files) {
        Ok(work) => Ok(Asked::Work(work)),
        Err(PartsError::Refused(refusal)) => Ok(Asked::Refused(refusal)),
        Err(PartsError::ReadFault) => Err(Unanswered::File),
        Err(PartsError::Memory) => Err(Unanswered::Memory),
    }
}

/// What the words ask for, with what the files that they name hold. The files are read in the order
/// of work, up to the first refusal.
///
/// # Errors
///
/// `File` only where a read failed in this call, of a file that is asked for. `Memory` where no
/// memory is found.
pub fn asked_of<F: Files>(
    alloc: Global,
    words: &Vec<String>,
    files: &mut F,
) -> Result<Asked, Unanswered>
    ensures asks { AskedBy (order_of (map string_bytes words.now.items))
        (F.seen files.old) (F.seen files.new) result }
    ensures kept { IfOk result IsAsked }
    ensures threads { IfOk result
        (TakesThreads (asks_threads (order_of (map string_bytes words.now.items)))) }
{
    match command_of(words) {
        None => Ok(Asked::Usage),
        Some(command) => match confirmed(alloc, words.as_slice(), command) {
            Ok(command) => asked_by(alloc, command, files),
            Err(AllocError) => Err(Unanswered::Memory),
        },
    }
}

/// Whether the words are those of a run with threads.
pub fn asks_threads(words: &Vec<String>) -> bool
    ensures { result ≡ asks_threads (order_of (map string_bytes words.now.items)) }
{
    match command_of(words) {
        Some(Command::Run { threads, .. }) => threads,
        _ => false,
    }
}
