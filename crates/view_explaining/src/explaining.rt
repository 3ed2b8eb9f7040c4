//! What is told of files: their first refusal, or that nothing is refused.

ghost use Rattle.std.specs.Prelude.{◌≡◌, Err, IfOk, Ok, string_bytes};
ghost use Rattle.ffm_model.specs.Reading.{refused};
ghost use Rattle.command_words.specs.Words.{order};
ghost use Rattle.work_orders.specs.View.{IsTraceWork, IsWork, work as work_seen};
ghost use Rattle.machine_check.specs.Answers.{judgement};
ghost use Rattle.judge_command.specs.Replays.{IsTextOf, judgement_line, judgement_status};
ghost use Rattle.text_lines.specs.Refusals.{refusal_line, wrong_line};
ghost use Rattle.view_explaining.specs.Explains.{AnswersExplained, IsAdmitted, IsExplained, IsFollowed, IsFollowedBy, IsShownStatus, IsTraceTold};
ghost use Rattle.view_explaining.specs.Orders.{order_explained};

use command_words::{Command, Inspection};
use ffm_model::{Memory, PartsError, Refusal, System, Trace};
use file_places::{FileRead, KeepsFiles, KeptFile};
use machine_check::{Checked, check};
use memory_image::opening_image;
use program_words::Answer;
use program_words::view::ExplainedNames;
use std::alloc::{AllocError, Global};
use system_texts::admitted;
use text_lines::{refusal_line, wrong_line};
use trace_print::{TraceError, read_trace};
use view_refusals::{illegal_words, note_words, refusal_words, wrong_trace_words};
use work_orders::{TraceWork, Unanswered, Work, work_of};

// The command of ffm whose refusal is told.
fn command_of<'a>(names: ExplainedNames<'a>) -> Command<'a>
    ensures { order result ≡ order_explained names.entry }
{
    match (names.scenario, names.trace) {
        (None, _) => Command::Compile {
            system: names.system,
        },
        (Some(scenario), None) => Command::Run {
            threads: false,
            system: names.system,
            scenario,
        },
        (Some(scenario), Some(trace)) => Command::Judge {
            inspection: Inspection::Replay,
            system: names.system,
            scenario,
            trace,
        },
    }
}

// A line with words behind it.
fn followed(line: Vec<u8>, words: &str, status: u8) -> Result<Answer, AllocError>
    ensures { IfOk result (IsFollowed line.items words.now status) }
{
    let mut text = line;
    text.extend_from_slice(words.as_bytes())?;
    Ok(Answer { text, status })
}

// The files that were read.
fn files_of(alloc: Global, kept: &[KeptFile]) -> Result<Vec<FileRead<'_>>, AllocError> {
    let mut files = Vec::new(alloc);
    for file in kept {
        files.push(FileRead {
            name: file.name.as_str(),
            bytes: file.bytes.as_slice(),
        })?;
    }
    Ok(files)
}

// The refusal of a file, with words.
#[tactic(auto, using(crate::proofs::ToldLemmas::told_refused))]
fn refused(
    alloc: Global,
    refusal: &Refusal,
    names: ExplainedNames<'_>,
    kept: &[KeptFile],
) -> Result<Answer, Memory>
    ensures text { IfOk result (λ answer.
        IsExplained (Err (refused refusal.now)) answer.text.items answer.status) }
    ensures status { IfOk result (λ answer. answer.status ≡ 1) }
{
    let files = files_of(alloc, kept)?;
    let words = refusal_words(alloc, refusal, names.scenario, &files)?;
    Ok(followed(refusal_line(alloc, refusal)?, &words, 1)?)
}

// That a system is admitted, with what passes unread in its files.
#[tactic(auto, using(crate::proofs::ToldLemmas::told_admitted))]
fn admitted_with_notes(
    alloc: Global,
    system: &System,
    names: ExplainedNames<'_>,
    kept: &[KeptFile],
) -> Result<Answer, Memory>
    ensures text { IfOk result (λ answer. IsAdmitted system.now answer.text.items answer.status) }
    ensures status { IfOk result (λ answer. answer.status ≡ 0) }
{
    let files = files_of(alloc, kept)?;
    let words = note_words(alloc, names.scenario, &files)?;
    Ok(followed(admitted(alloc, system)?, &words, 0)?)
}

// The line that says how a trace of so many entries is judged.
#[tactic(auto, unfolding(judge_command::specs::Replays::judgement_line))]
fn line_of_judgement(alloc: Global, checked: Checked, count: u32) -> Result<String, AllocError>
    ensures { IfOk result (λ line. string_bytes line ≡ judgement_line (judgement checked) count) }
{
    match checked {
        Checked::Legal => format!(in alloc; "legal {count}\n"),
        Checked::IllegalAt(place) => format!(in alloc; "illegal {place}\n"),
    }
}

fn status_of(checked: Checked) -> u8
    ensures { result ≡ judgement_status (judgement checked) }
{
    match checked {
        Checked::Legal => 0,
        Checked::IllegalAt(_) => 6,
    }
}

// What is said behind the judgement of a trace.
fn judgement_words(
    alloc: Global,
    checked: Checked,
    file: FileRead<'_>,
) -> Result<String, AllocError> {
    match checked {
        Checked::Legal => Ok(String::new(alloc)),
        Checked::IllegalAt(place) => illegal_words(alloc, place, file),
    }
}

// How a trace is judged, with words.
#[tactic(auto, using(crate::proofs::ToldLemmas::told_judged))]
fn judged(alloc: Global, work: &TraceWork, trace: &Trace, name: &str) -> Result<Answer, Memory>
    requires kept { IsTraceWork work.now }
    requires read { IsTextOf work.now.system work.now.trace.items
        trace.now.entries trace.now.verdict }
    ensures text { IfOk result (λ answer. IsTraceTold work.now answer.text.items answer.status) }
    ensures status { IfOk result (λ answer. IsShownStatus answer.status) }
{
    let image = opening_image(alloc, &work.system, &work.scenario)?;
    let checked = check(alloc, &work.system, &image, work.scenario.limit, trace)?;
    let line = line_of_judgement(alloc, checked, trace.entries.len() as u32)?;
    let file = FileRead {
        name,
        bytes: &work.trace,
    };
    let words = judgement_words(alloc, checked, file)?;
    Ok(followed(line.into_bytes(), &words, status_of(checked))?)
}

// The refusal of the first wrong line of a text that is no trace, with words.
fn wrong(alloc: Global, work: &TraceWork, place: u32, name: &str) -> Result<Answer, Memory>
    ensures text { IfOk result (IsFollowedBy (refusal_line (wrong_line place)) 1) }
    ensures status { IfOk result (λ answer. answer.status ≡ 1) }
{
    let refusal = wrong_line(alloc, place)?;
    let file = FileRead {
        name,
        bytes: &work.trace,
    };
    let words = wrong_trace_words(alloc, work.system.counts(), place, file)?;
    Ok(followed(refusal_line(alloc, &refusal)?, &words, 1)?)
}

// How a trace's text is judged, or the refusal of its first wrong line, with words.
#[tactic(auto, using(crate::proofs::ToldLemmas::told_wrong))]
fn told(alloc: Global, work: &TraceWork, name: &str) -> Result<Answer, Memory>
    requires { IsTraceWork work.now }
    ensures text { IfOk result (λ answer. IsTraceTold work.now answer.text.items answer.status) }
    ensures status { IfOk result (λ answer. IsShownStatus answer.status) }
{
    match read_trace(alloc, work.system.counts(), &work.trace) {
        Ok(trace) => judged(alloc, work, &trace, name),
        Err(TraceError::Syntax { line }) => wrong(alloc, work, line, name),
        Err(TraceError::Memory) => Err(Memory),
    }
}

// What is said of work that no file refuses.
#[tactic(auto, using(crate::proofs::ToldLemmas::told_listing, crate::proofs::ToldLemmas::told_run, crate::proofs::ToldLemmas::told_trace))]
fn unrefused(
    alloc: Global,
    work: &Work,
    names: ExplainedNames<'_>,
    kept: &[KeptFile],
) -> Result<Answer, Memory>
    requires { IsWork work.now }
    ensures text { IfOk result (λ answer.
        IsExplained (Ok (work_seen work.now)) answer.text.items answer.status) }
    ensures status { IfOk result (λ answer. IsShownStatus answer.status) }
{
    match work {
        Work::Listing(system) => admitted_with_notes(alloc, system, names, kept),
        Work::Run(run) => admitted_with_notes(alloc, &run.system, names, kept),
        Work::Judge(task) => told(alloc, task, names.trace.unwrap_or("")),
        Work::Make(_) => Err(Memory),
    }
}

/// The first refusal of these files, by ffm's own line and in words; or, where nothing is refused, that the system is
/// admitted or how the trace is judged.
#[tactic(auto, using(crate::proofs::ToldLemmas::explained_answer))]
pub fn explained<F: KeepsFiles>(
    alloc: Global,
    names: ExplainedNames<'_>,
    files: &mut F,
) -> Result<Answer, Unanswered>
    ensures answers { AnswersExplained names.entry (F.seen files.old) (F.seen files.new) result }
    ensures status { IfOk result (λ answer. IsShownStatus answer.status) }
{
    match work_of(alloc, command_of(names), files) {
        Ok(work) => match unrefused(alloc, &work, names, files.kept()) {
            Ok(answer) => Ok(answer),
            Err(Memory) => Err(Unanswered::Memory),
        },
        Err(PartsError::Refused(refusal)) => match refused(alloc, &refusal, names, files.kept()) {
            Ok(answer) => Ok(answer),
            Err(Memory) => Err(Unanswered::Memory),
        },
        Err(PartsError::ReadFault) => Err(Unanswered::File),
        Err(PartsError::Memory) => Err(Unanswered::Memory),
    }
}
