//! What was asked for, done.

ghost use Rattle.std.specs.Prelude.{◌≡◌, IfOk, OnErr, true};
ghost use Rattle.ffm_top.specs.Asked.{AskedDue, IsAsked, IsToDo, wants_threads};
ghost use Rattle.ffm_top.specs.Due.{LeftBy, ListingDue, WorkDue};
ghost use Rattle.ffm_top.specs.Runs.{RunDue};
ghost use Rattle.ffm_top.specs.Report.{text_of, status_of};
ghost use Rattle.judge_command.specs.Due.{TraceDue};
ghost use Rattle.text_lines.specs.Refusals.{refusal_line};
ghost use Rattle.work_orders.specs.View.{work as work_seen, IsRun, IsTraceWork, IsWork, threads_of};

use crate::asked::Asked;
use crate::make::make;
use crate::report::Report;
use crate::run::{ThreadedRuns, run};
use ffm_model::{Memory, Refusal, System};
use judge_command::judge;
use std::alloc::Global;
use system_texts::listing;
use text_lines::refusal_line;
use work_orders::{RunWork, TraceWork, Work};

// The report of a refusal.
#[tactic(auto, unfolding(crate::specs::Report::text_of))]
fn refused(alloc: Global, refusal: &Refusal) -> Result<Report, Memory>
    ensures text { IfOk result (λ report. text_of report ≡ refusal_line refusal.now) }
    ensures status { IfOk result (λ report. status_of report ≡ 1) }
{
    Ok(Report::Refused(refusal_line(alloc, refusal)?))
}

// The report of a system.
#[tactic(auto, unfolding(crate::specs::Report::text_of))]
fn listed(alloc: Global, system: &System) -> Result<Report, Memory>
    ensures { IfOk result (λ report. ListingDue system.now (text_of report) (status_of report)) }
{
    Ok(Report::Text(listing(alloc, system)?))
}

// The report of a scenario's runs.
#[tactic(auto, using(crate::proofs::Reports::run_due, crate::proofs::Reports::left_text))]
fn ran<T: ThreadedRuns + Drop>(alloc: Global, work: RunWork, threads: T) -> Result<Report, Memory>
    requires work { IsRun work }
    requires may { work.threads ≡ true → T.may_run threads }
    ensures due { IfOk result (λ report. RunDue work.system work.scenario work.programs work.threads
        (text_of report) (status_of report)) }
    ensures left { IfOk result (λ report.
        LeftBy work.threads (T.ended threads) (text_of report) (status_of report)) }
{
    Ok(Report::Ran(run(alloc, work, threads)?))
}

// The report of a trace's text.
#[tactic(auto, unfolding(crate::specs::Report::text_of))]
fn inspected(alloc: Global, work: &TraceWork) -> Result<Report, Memory>
    requires { IsTraceWork work.now }
    ensures { IfOk result (λ report.
        TraceDue work.now.inspection work.now.system work.now.scenario work.now.trace.items
        (text_of report) (status_of report)) }
{
    Ok(Report::Inspected(judge(alloc, work)?))
}

// The report of work.
fn done<T: ThreadedRuns + Drop>(alloc: Global, work: Work, threads: T) -> Result<Report, Memory>
    requires work { IsWork work }
    requires may { threads_of work ≡ true → T.may_run threads }
    ensures due { IfOk result (λ report.
        WorkDue (work_seen work) (text_of report) (status_of report)) }
    ensures left { IfOk result (λ report.
        LeftBy (threads_of work) (T.ended threads) (text_of report) (status_of report)) }
{
    match work {
        Work::Listing(system) => listed(alloc, &system),
        Work::Run(work) => ran(alloc, work, threads),
        Work::Judge(work) => inspected(alloc, &work),
        Work::Make(rounds) => make(alloc, rounds),
    }
}

/// The report of what was asked for; a run with threads is left to `threads`. Memory where no memory
/// was found.
#[tactic(auto, unfolding(crate::specs::Report::text_of))]
pub fn perform<T: ThreadedRuns + Drop>(
    alloc: Global,
    asked: Asked,
    threads: T,
) -> Result<Report, Memory>
    requires asked { IsAsked asked }
    requires may { wants_threads asked ≡ true → T.may_run threads }
    ensures due { IfOk result (λ report.
        AskedDue asked (T.ended threads) (text_of report) (status_of report)) }

    // That the words are no command is told without memory.
    ensures usage { OnErr result (IsToDo asked) }
{
    match asked {
        Asked::Usage => Ok(Report::Usage),
        Asked::Refused(refusal) => refused(alloc, &refusal),
        Asked::Work(work) => done(alloc, work, threads),
    }
}
