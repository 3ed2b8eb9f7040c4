//! The top call.
ghost use Rattle.std.specs.Prelude.{IfOk, map, string_bytes};
ghost use Rattle.program_words.specs.declared.view.Asked.TheVariants as asked;
ghost use Rattle.view_explaining.specs.Explains.{IsShownStatus};
ghost use Rattle.view_commands.specs.Answers.{Answered, AnswersAsked, AnswersWords};

use crate::files::{NoTrace, read_files};
use ffm_model::Memory;
use file_places::KeepsFiles;
use outside_io::{Failed, Files, Sink};
use program_words::view::{Asked, Request, asked_of};
use program_words::{Answer, told, write};
use std::alloc::Global;
use text_lines::{NO_MEMORY, UNREAD, UNWRITTEN};
use view_aspects::shown;
use view_explaining::explained;
use work_orders::Unanswered;

// The answer to what is asked for.
fn answer_of<F: Files>(
    alloc: Global,
    request: Request<'_>,
    files: &mut F,
) -> Result<Answer, Unanswered>
    ensures answers { AnswersAsked (asked.View request.entry) (F.seen files.old)
        (F.seen files.new) result }
    ensures status { IfOk result (λ answer. IsShownStatus answer.status) }
{
    match read_files(alloc, request.names, files) {
        Ok(read) => match shown(alloc, &read, request) {
            Ok(answer) => Ok(answer),
            Err(Memory) => Err(Unanswered::Memory),
        },
        Err(NoTrace::Refused(line)) => Ok(Answer {
            text: line,
            status: 1,
        }),
        Err(NoTrace::File) => Err(Unanswered::File),
        Err(NoTrace::Memory) => Err(Unanswered::Memory),
    }
}

// The answer to what the words ask for.
#[tactic(auto, using(crate::proofs::Answered::explained_answer))]
fn answer_of_asked<F: KeepsFiles>(
    alloc: Global,
    asked: Asked<'_>,
    files: &mut F,
) -> Result<Answer, Unanswered>
    ensures answers { AnswersAsked asked.entry (F.seen files.old) (F.seen files.new) result }
    ensures status { IfOk result (λ answer. IsShownStatus answer.status) }
{
    match asked {
        Asked::View(request) => answer_of(alloc, request, files),
        Asked::Explain(names) => explained(alloc, names, files),
    }
}

// The answer to the words.
fn answer_to<F: KeepsFiles>(
    alloc: Global,
    words: &[String],
    files: &mut F,
) -> Result<Answer, Unanswered>
    ensures answers { AnswersWords (map string_bytes words.now)
        (F.seen files.old) (F.seen files.new) result }
    ensures status { IfOk result (λ answer. IsShownStatus answer.status) }
{
    match asked_of(alloc, words) {
        Ok(asked) => answer_of_asked(alloc, asked, files),
        Err(error) => match told(alloc, &error) {
            Ok(answer) => Ok(answer),
            Err(Memory) => Err(Unanswered::Memory),
        },
    }
}

/// Shows what the words ask for over these files: writes the text, and answers the status to end with.
///
/// 0: the text that was asked for, and for `why` that the trace is legal. 6: the trace is illegal, and so there is
/// no state after the place that was asked for, or `why` says why. 1: a file is refused, by ffm's own line. 2: the
/// words are no command, or name a place that the trace doesn't have, an actor that the system doesn't, or a call that is
/// none. 7: a file that is asked for can't be read, and nothing is written. 8: the text can't be written whole. 9: no memory was found, and nothing is written.
///
/// A status below 7 comes with a text: for words that `clap` doesn't take, or that ask for help or the version, with
/// the status of its answer; for files that are refused with ffm's own line, behind which `explain` tells in words
/// what is wrong; and else there is what is shown: the state after the place, or how the trace is judged and why, or what a call is answered, or counts of its legal entries, or a diagram; or the
/// line that the trace has no such place, or that there is no state after it; with the flag as one line of JSON.
pub fn ffm_view<F: KeepsFiles, S: Sink>(
    alloc: Global,
    words: &[String],
    files: &mut F,
    out: &mut S,
) -> u8
    ensures { Answered (map string_bytes words.now)
        (F.seen files.old) (F.seen files.new) (S.seen out.old) (S.seen out.new) result }
{
    match answer_to(alloc, words, files) {
        Ok(answer) => match write(out, answer.text.as_slice()) {
            Ok(()) => answer.status,
            Err(Failed) => UNWRITTEN,
        },
        Err(Unanswered::File) => UNREAD,
        Err(Unanswered::Memory) => NO_MEMORY,
    }
}
