//! The top call.
ghost use Rattle.std.specs.Prelude.{◌≡◌, Err, IfOk, MatchResult, Ok, map, option_map, string_bytes};
ghost use Rattle.explore_commands.specs.Answers.{Answered, AnswersRequest, AnswersWords, IsFound, IsFoundStatus, bytes_asked};
ghost use Rattle.text_lines.specs.Refusals.{refusal_line};
ghost use Rattle.work_orders.specs.View.{IsRun};

use crate::exploring::found_of;
use crate::rescheduling::bytes_kept;
use command_words::Command;
use explore_runs::Watch;
use ffm_model::{Memory, PartsError, Refusal};
use file_places::{KeepsFiles, KeptFile};
use outside_io::{Failed, Sink};
use program_words::explore::{Request, asked_of};
use program_words::{Answer, told, write};
use std::alloc::Global;
use text_lines::{NO_MEMORY, UNREAD, UNWRITTEN, refusal_line};
use work_orders::{RunWork, Unanswered, Work, work_of};

// The answer to the refusal of a file.
fn refused(alloc: Global, refusal: &Refusal) -> Result<Answer, Memory>
    ensures { IfOk result (λ answer.
        (answer.text.items ≡ refusal_line refusal.now) × (answer.status ≡ 1)) }
{
    Ok(Answer {
        text: refusal_line(alloc, refusal)?,
        status: 1,
    })
}

// The bytes of the scenario's file, where that is to be written again.
fn bytes_asked<'a>(request: Request<'_>, kept: &'a [KeptFile]) -> Option<&'a [u8]>
    ensures { option_map (λ b. b.now) result ≡ bytes_asked request.entry kept.entry.now }
{
    if request.as_scenario {
        bytes_kept(kept, request.names.scenario)
    } else {
        None
    }
}

// What is found of a scenario's interleavings.
#[tactic(auto, using(crate::proofs::Found::is_found))]
fn found<W: Watch>(
    alloc: Global,
    work: RunWork,
    request: Request<'_>,
    kept: &[KeptFile],
    watch: &mut W,
) -> Result<Answer, Memory>
    requires { IsRun work }
    ensures found { IfOk result (λ answer. IsFound work.system work.scenario work.programs
        request.entry kept.now answer.text.items answer.status) }
    ensures status { IfOk result (λ answer. IsFoundStatus answer.status) }
{
    // `clap` takes no 0.
    let states = request.states.max(1);
    let (system, found) = found_of(alloc, work, request.question, watch, states)?;
    Ok(Answer {
        text: found.text(alloc, &system, bytes_asked(request, kept))?,
        status: found.status(),
    })
}

// An answer, or that no memory was found.
fn or_memory(answer: Result<Answer, Memory>) -> Result<Answer, Unanswered>
    ensures { MatchResult answer (λ a. result ≡ Ok a) (λ e. result ≡ Err Unanswered.Memory) }
{
    match answer {
        Ok(answer) => Ok(answer),
        Err(Memory) => Err(Unanswered::Memory),
    }
}

// The answer to what is asked for.
fn answer_of<F: KeepsFiles, W: Watch>(
    alloc: Global,
    request: Request<'_>,
    files: &mut F,
    watch: &mut W,
) -> Result<Answer, Unanswered>
    ensures answers { AnswersRequest request.entry (F.seen files.old) (F.seen files.new)
        (F.kept files.new) result }
    ensures status { IfOk result (λ answer. IsFoundStatus answer.status) }
{
    let command = Command::Run {
        threads: true,
        system: request.names.system,
        scenario: request.names.scenario,
    };
    match work_of(alloc, command, files) {
        Ok(Work::Run(work)) => or_memory(found(alloc, work, request, files.kept(), watch)),
        Ok(_) => unreachable!(),
        Err(PartsError::Refused(refusal)) => or_memory(refused(alloc, &refusal)),
        Err(PartsError::ReadFault) => Err(Unanswered::File),
        Err(PartsError::Memory) => Err(Unanswered::Memory),
    }
}

// The answer to the words.
fn answer_to<F: KeepsFiles, W: Watch>(
    alloc: Global,
    words: &[String],
    files: &mut F,
    watch: &mut W,
) -> Result<Answer, Unanswered>
    ensures answers { AnswersWords (map string_bytes words.now)
        (F.seen files.old) (F.seen files.new) (F.kept files.new) result }
    ensures status { IfOk result (λ answer. IsFoundStatus answer.status) }
{
    match asked_of(alloc, words) {
        Ok(request) => answer_of(alloc, request, files, watch),
        Err(error) => or_memory(told(alloc, &error)),
    }
}

/// Explores what the words ask for over these files: writes the text, and answers the status to end
/// with. The watch is told how far the search has come.
///
/// 0: each run ends and none stalls, no state or event is as sought, or all outcomes of a line are
/// told; or help or the version was asked for. 1: a file is refused, by ffm's own line. 2: the words are
/// no command, or name an event, an actor or a line that isn't there. 4: some run stalls, or what is
/// sought was found. 5: not all is explored, since the limit of states was met or memory was refused. 6:
/// no run stalls, but some goes on for ever, or as far as it may. 7: a file can't be read, and nothing is
/// written. 8: the text can't be written whole. 9: no memory was found, and nothing is written.
pub fn ffm_explore<F: KeepsFiles, S: Sink, W: Watch>(
    alloc: Global,
    words: &[String],
    files: &mut F,
    out: &mut S,
    watch: &mut W,
) -> u8
    ensures { Answered (map string_bytes words.now)
        (F.seen files.old) (F.seen files.new) (F.kept files.new)
        (S.seen out.old) (S.seen out.new) result }
{
    match answer_to(alloc, words, files, watch) {
        Ok(answer) => match write(out, answer.text.as_slice()) {
            Ok(()) => answer.status,
            Err(Failed) => UNWRITTEN,
        },
        Err(Unanswered::File) => UNREAD,
        Err(Unanswered::Memory) => NO_MEMORY,
    }
}
