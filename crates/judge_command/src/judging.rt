//! Judges the text of a trace, and says which bytes its entries changed.

ghost use Rattle.std.specs.Prelude.{◌≡◌, ◌<◌, ◌^◌, ◌++◌, ◌∷◌, [], IfOk, length};
ghost use Rattle.std.specs.Fmt.{decimal};
ghost use Rattle.ffm_model.specs.Memory.{opening_memory};
ghost use Rattle.machine_check.specs.Answers.{judgement};
ghost use Rattle.machine_check.specs.Auditing.{IsAudit};
ghost use Rattle.judge_command.specs.Audits.{audit_line, AuditedDue};
ghost use Rattle.judge_command.specs.Due.{InspectedDue, TraceDue};
ghost use Rattle.judge_command.specs.Replays.{IsTextOf, judgement_line, judgement_of, JudgedDue};
ghost use Rattle.judge_command.specs.Report.{text_of, status_of};
ghost use Rattle.text_lines.specs.Refusals.{refusal_line, wrong_line};
ghost use Rattle.work_orders.specs.View.{IsTraceWork};

use crate::report::TraceReport;
use command_words::Inspection;
use ffm_model::{Memory, Trace};
use machine_check::{AuditReport, Checked, audit, check};
use memory_image::opening_image;
use std::alloc::{AllocError, Global};
use text_lines::{append, append_number, refusal_line, wrong_line};
use trace_print::{TraceError, read_trace};
use work_orders::TraceWork;

fn line_of(alloc: Global, word: &str, number: u32) -> Result<Vec<u8>, AllocError>
    ensures { IfOk result (λ line. line.items ≡ word.now ++ (decimal number ++ 10 ∷ [])) }
{
    let mut line = Vec::new(alloc);
    append(&mut line, word)?;
    append_number(&mut line, number)?;
    append(&mut line, "\n")?;
    Ok(line)
}

// The line that says how a trace of so many entries is judged.
#[tactic(auto, unfolding(crate::specs::Replays::judgement_line))]
fn judgement_line(alloc: Global, checked: Checked, count: u32) -> Result<Vec<u8>, AllocError>
    ensures { IfOk result (λ line. line.items ≡ judgement_line (judgement checked) count) }
{
    match checked {
        Checked::Legal => line_of(alloc, "legal ", count),
        Checked::IllegalAt(place) => line_of(alloc, "illegal ", place),
    }
}

// The line that says how an audited trace of so many entries is judged.
#[tactic(auto, unfolding(crate::specs::Audits::audit_line))]
fn audit_line(alloc: Global, checked: Checked, count: u32) -> Result<Vec<u8>, AllocError>
    ensures { IfOk result (λ line. line.items ≡ audit_line (judgement checked) count) }
{
    match checked {
        Checked::Legal => line_of(alloc, "clean ", count),
        Checked::IllegalAt(place) => line_of(alloc, "illegal ", place),
    }
}

// How a trace is judged.
fn checked(alloc: Global, work: &TraceWork, trace: &Trace) -> Result<Checked, Memory>
    requires kept { IsTraceWork work.now }
    requires few { length trace.now.entries < 2 ^ 31 }
    ensures { IfOk result (λ checked. judgement checked ≡
        judgement_of work.now.system work.now.scenario trace.now.entries trace.now.verdict) }
{
    let image = opening_image(alloc, &work.system, &work.scenario)?;
    check(alloc, &work.system, &image, work.scenario.limit, trace)
}

// The report of a trace's judgement.
#[tactic(auto, unfolding(crate::specs::Report::text_of), using(crate::proofs::Replays::judged_due))]
fn judged(alloc: Global, work: &TraceWork, trace: &Trace) -> Result<TraceReport, Memory>
    requires kept { IsTraceWork work.now }
    requires read { IsTextOf work.now.system work.now.trace.items
        trace.now.entries trace.now.verdict }
    ensures { IfOk result (λ report.
        JudgedDue work.now.system work.now.scenario work.now.trace.items
        (text_of report) (status_of report)) }
{
    let checked = checked(alloc, work, trace)?;
    let line = judgement_line(alloc, checked, trace.entries.len() as u32)?;
    Ok(TraceReport::Judged { checked, line })
}

// How a trace is judged, and what its entries changed.
fn audited(alloc: Global, work: &TraceWork, trace: &Trace) -> Result<AuditReport, Memory>
    requires kept { IsTraceWork work.now }
    requires few { length trace.now.entries < 2 ^ 31 }
    ensures { IfOk result (λ report.
        IsAudit work.now.system (opening_memory work.now.scenario.memory) work.now.scenario.limit
        trace.now.entries trace.now.verdict report) }
{
    let image = opening_image(alloc, &work.system, &work.scenario)?;
    audit(alloc, &work.system, &image, work.scenario.limit, trace)
}

// The report of a trace's audit.
#[tactic(auto, unfolding(crate::specs::Report::text_of), using(crate::proofs::Audits::audited_due))]
fn inspected(alloc: Global, work: &TraceWork, trace: &Trace) -> Result<TraceReport, Memory>
    requires kept { IsTraceWork work.now }
    requires read { IsTextOf work.now.system work.now.trace.items
        trace.now.entries trace.now.verdict }
    ensures { IfOk result (λ report.
        AuditedDue work.now.system work.now.scenario work.now.trace.items
        (text_of report) (status_of report)) }
{
    let report = audited(alloc, work, trace)?;
    let line = audit_line(alloc, report.result, trace.entries.len() as u32)?;
    Ok(TraceReport::Audited { report, line })
}

// The report of a trace, by how it is to be judged.
fn report_of(alloc: Global, work: &TraceWork, trace: &Trace) -> Result<TraceReport, Memory>
    requires kept { IsTraceWork work.now }
    requires read { IsTextOf work.now.system work.now.trace.items
        trace.now.entries trace.now.verdict }
    ensures { IfOk result (λ report.
        InspectedDue work.now.inspection work.now.system work.now.scenario work.now.trace.items
        (text_of report) (status_of report)) }
{
    match work.inspection {
        Inspection::Replay => judged(alloc, work, trace),
        Inspection::Audit => inspected(alloc, work, trace),
    }
}

// The report of a text that is no trace's.
#[tactic(auto, unfolding(crate::specs::Report::text_of))]
fn refused(alloc: Global, line: u32) -> Result<TraceReport, Memory>
    ensures text { IfOk result (λ report. text_of report ≡ refusal_line (wrong_line line)) }
    ensures status { IfOk result (λ report. status_of report ≡ 1) }
{
    let refusal = wrong_line(alloc, line)?;
    Ok(TraceReport::Wrong(refusal_line(alloc, &refusal)?))
}

/// The report of a trace's text: the judgement of the trace, with the bytes that its entries changed
/// where it is to be audited, or the refusal of the first wrong line. Memory where no memory was found.
#[tactic(auto, using(crate::proofs::Replays::wrong_due))]
pub fn judge(alloc: Global, work: &TraceWork) -> Result<TraceReport, Memory>
    requires { IsTraceWork work.now }
    ensures { IfOk result (λ report.
        TraceDue work.now.inspection work.now.system work.now.scenario work.now.trace.items
        (text_of report) (status_of report)) }
{
    match read_trace(alloc, work.system.counts(), &work.trace) {
        Ok(trace) => report_of(alloc, work, &trace),
        Err(TraceError::Syntax { line }) => refused(alloc, line),
        Err(TraceError::Memory) => Err(Memory),
    }
}
