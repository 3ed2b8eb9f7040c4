//! What is to be written of a trace's text.

ghost use Rattle.std.specs.Prelude.{◌≡◌, ◌++◌};
ghost use Rattle.outside_io.specs.Sink.{Writes};
ghost use Rattle.machine_check.specs.Answers.{judgement};
ghost use Rattle.judge_command.specs.Audits.{change_lines};
ghost use Rattle.judge_command.specs.Replays.{judgement_status};

use crate::changes::put_changes;
use machine_check::{AuditReport, Checked};
use outside_io::{Failed, Sink, put_all};

/// What is to be written of a trace's text.
#[derive(Drop)]
pub enum TraceReport {
    /// It is no trace's text: this line refuses its first wrong line.
    Wrong(Vec<u8>),
    /// The trace is judged, by this line.
    Judged { checked: Checked, line: Vec<u8> },
    /// The trace is audited: its changes, and then this line.
    Audited { report: AuditReport, line: Vec<u8> },
}

// Puts the lines of an audit, and the last one.
fn put_audit<S: Sink>(out: &mut S, report: &AuditReport, line: &[u8]) -> Result<(), Failed>
    ensures { Writes (S.seen out.old) (S.seen out.new) result
        (change_lines report.now.changes ++ line.now) }
{
    put_changes(out, report.changes.as_slice())?;
    put_all(out, line)
}

fn checked_status(checked: Checked) -> u8
    ensures { result ≡ judgement_status (judgement checked) }
{
    match checked {
        Checked::Legal => 0,
        Checked::IllegalAt(_) => 6,
    }
}

impl TraceReport {
    ghost use Rattle.judge_command.specs.Report.{text_of, status_of};

    /// Puts its lines.
    #[tactic(auto, unfolding(crate::specs::Report::text_of))]
    pub fn put<S: Sink>(&self, out: &mut S) -> Result<(), Failed>
        ensures { Writes (S.seen out.old) (S.seen out.new) result (text_of self.now) }
    {
        match self {
            TraceReport::Wrong(line) => put_all(out, line.as_slice()),
            TraceReport::Judged { line, .. } => put_all(out, line.as_slice()),
            TraceReport::Audited { report, line } => put_audit(out, report, line.as_slice()),
        }
    }

    /// The status that comes with it: 0 for a legal trace, 6 for an illegal one, 1 for no trace's text.
    pub fn status(&self) -> u8
        ensures { result ≡ status_of self.now }
    {
        match self {
            TraceReport::Wrong(_) => 1,
            TraceReport::Judged { checked, .. } => checked_status(*checked),
            TraceReport::Audited { report, .. } => checked_status(report.result),
        }
    }
}
