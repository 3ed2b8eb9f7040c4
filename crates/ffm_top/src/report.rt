//! What is written at the end.

ghost use Rattle.std.specs.Prelude.{◌≡◌, map, true};
ghost use Rattle.outside_io.specs.Sink.{Hands, Writes};
ghost use Rattle.ffm_model.specs.Actors.{counts_of};
ghost use Rattle.ffm_model.specs.TraceText.{IsActorOf, entry_text, line, trace_text, verdict_text};
ghost use Rattle.scenario_runs.specs.Restarting.{finished, fits_counts};
ghost use Rattle.ffm_top.specs.Runs.{last_status, restart_line, run_text, runs_text, verdict_status};
ghost use Rattle.ffm_top.specs.Report.{text_of, status_of};

use ffm_model::{Counts, Entry, Trace, Verdict};
use itoa::Buffer;
use judge_command::TraceReport;
use outside_io::{Failed, Sink, put_all};
use scenario_runs::Runs;
use text_lines::usage_line;
use trace_print::{Line, print_into, print_verdict};

/// What is to be written.
#[derive(Drop)]
pub enum Report {
    /// The words are no command.
    Usage,
    /// A file is refused, by this line.
    Refused(Vec<u8>),
    /// A system is listed, or a generated run is summed up: this text.
    Text(Vec<u8>),
    /// The runs of a scenario ended.
    Ran(Runs),
    /// A trace is judged, or its text is no trace's.
    Inspected(TraceReport),
}

// Puts the line of an entry. The line's own room holds it.
fn put_entry<S: Sink>(
    out: &mut S,
    room: &mut Line,
    counts: Counts,
    entry: &Entry,
) -> Result<(), Failed>
    requires { IsActorOf counts entry.now.actor.0 }
    ensures { Writes (S.seen out.old) (S.seen out.new) result (line (entry_text counts entry.now)) }
{
    print_into(room, counts, entry);
    put_all(out, room.as_slice())
}

// Puts the last line of a run's trace.
fn put_verdict<S: Sink>(out: &mut S, verdict: Verdict, count: u32) -> Result<(), Failed>
    ensures { Writes (S.seen out.old) (S.seen out.new) result (line (verdict_text verdict count)) }
{
    let text = print_verdict(verdict, count);
    put_all(out, text.as_slice())
}

// Puts a run's trace, line by line.
fn put_trace<S: Sink>(out: &mut S, counts: Counts, trace: &Trace) -> Result<(), Failed>
    requires { fits_counts counts trace.now ≡ true }
    ensures { Writes (S.seen out.old) (S.seen out.new) result
        (trace_text counts trace.now.entries trace.now.verdict) }
{
    let mut room = Line::new();
    for entry in trace.entries.as_slice() {
        put_entry(out, &mut room, counts, entry)?;
    }
    let count = trace.entries.len() as u32;
    put_verdict(out, trace.verdict, count)
}

// The line before a run that comes after so many others; none before the first.
#[tactic(auto, unfolding(crate::specs::Runs::restart_line), using(crate::proofs::RunTexts::count_length))]
fn restart_line(count: usize) -> Line
    ensures { result.items ≡ restart_line count }
{
    let mut text = Line::new();
    if count > 0 {
        text.append(b"restart ");
        text.append(Buffer::new().format(count).as_bytes());
        text.push(b'\n');
    }
    text
}

// Puts the trace of the run after so many others, and the line before it.
fn put_run<S: Sink>(out: &mut S, counts: Counts, count: usize, trace: &Trace) -> Result<(), Failed>
    requires { fits_counts counts trace.now ≡ true }
    ensures { Writes (S.seen out.old) (S.seen out.new) result
        (run_text counts count (finished trace.now)) }
{
    let line = restart_line(count);
    put_all(out, line.as_slice())?;
    put_trace(out, counts, trace)
}

// Puts the traces of runs, one after the other.
fn put_runs<S: Sink>(out: &mut S, runs: &Runs) -> Result<(), Failed>
    ensures { Writes (S.seen out.old) (S.seen out.new) result
        (runs_text (counts_of runs.now.system) 0 (map finished runs.now.traces.items)) }
{
    let counts = runs.system.counts();
    for (count, trace) in runs.traces.iter().enumerate() {
        put_run(out, counts, count, trace)?;
    }
    Ok(())
}

// Puts the text of a report.
#[tactic(auto, unfolding(crate::specs::Report::text_of))]
fn put_report<S: Sink>(out: &mut S, report: &Report) -> Result<(), Failed>
    ensures { Writes (S.seen out.old) (S.seen out.new) result (text_of report.now) }
{
    match report {
        Report::Usage => put_all(out, usage_line().as_bytes()),
        Report::Refused(line) => put_all(out, line.as_slice()),
        Report::Text(text) => put_all(out, text.as_slice()),
        Report::Ran(runs) => put_runs(out, runs),
        Report::Inspected(report) => report.put(out),
    }
}

/// Writes a report whole. Everything that it says is known by now, and no memory is taken.
pub fn write_report<S: Sink>(out: &mut S, report: &Report) -> Result<(), Failed>
    ensures { Hands (S.seen out.old) (S.seen out.new) result (text_of report.now) }
{
    put_report(out, report)?;
    out.flush()
}

fn verdict_status(verdict: Verdict) -> u8
    ensures { result ≡ verdict_status verdict }
{
    match verdict {
        Verdict::Quiet => 0,
        Verdict::Stalled => 4,
        Verdict::Full => 5,
    }
}

// The status of the last run.
#[tactic(auto, using(crate::proofs::Reports::last_of))]
fn last_status(traces: &[Trace]) -> u8
    ensures { result ≡ last_status (map finished traces.now) }
{
    match traces.last() {
        Some(trace) => verdict_status(trace.verdict),
        None => 0,
    }
}

impl Report {
    /// The status of a report that was written.
    pub fn status(&self) -> u8
        ensures { result ≡ status_of self.now }
    {
        match self {
            Report::Usage => 2,
            Report::Refused(_) => 1,
            Report::Text(_) => 0,
            Report::Ran(runs) => last_status(runs.traces.as_slice()),
            Report::Inspected(report) => report.status(),
        }
    }
}
