//! How the program ends.

ghost use Rattle.std.specs.Process.{exit_status};
ghost use Rattle.explore_commands.specs.Answers.{EndsWith};

use crate::top::ffm_explore;
use explore_runs::Watch;
use ffm_model::Memory;
use file_places::KeepsFiles;
use outside_io::{Sink, Words, given_words};
use std::alloc::Global;
use std::io::Eprint;
use std::process::ExitCode;
use text_lines::{NO_MEMORY, say_problem};

// The status to end with: the answer to the words, or 9 where no memory was found for them.
fn status_of<W: Words, F: KeepsFiles, S: Sink, L: Watch>(
    alloc: Global,
    words: &W,
    files: &mut F,
    out: &mut S,
    watch: &mut L,
) -> u8
    ensures { EndsWith (W.told words.now) (F.seen files.old) (F.seen files.new)
        (F.kept files.new) (S.seen out.old) (S.seen out.new) result }
{
    match given_words(alloc, words) {
        Ok(words) => ffm_explore(alloc, words.as_slice(), files, out, watch),
        Err(Memory) => NO_MEMORY,
    }
}

/// The program: `ffm_explore` over the words that it was given. It ends with the answer, or with 9 where no
/// memory was found for the words. At 2, 7, 8 and 9 it says a line on the standard error.
pub fn program<R: Eprint, W: Words, F: KeepsFiles, S: Sink, L: Watch>(
    rt: &R,
    alloc: Global,
    words: &W,
    files: &mut F,
    out: &mut S,
    watch: &mut L,
) -> ExitCode
    ensures { EndsWith (W.told words.now) (F.seen files.old) (F.seen files.new)
        (F.kept files.new) (S.seen out.old) (S.seen out.new) (exit_status result) }
{
    let status = status_of(alloc, words, files, out, watch);
    say_problem(rt, "ffm_explore", status, files.last_failed());
    ExitCode::from(status)
}
