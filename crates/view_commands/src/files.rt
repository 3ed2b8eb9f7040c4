//! The files of a trace.
ghost use Rattle.std.specs.Prelude.{◌≡◌, IfOk};
ghost use Rattle.text_lines.specs.Refusals.{wrong_line};
ghost use Rattle.view_aspects.specs.Traces.{AreTraceFiles};
ghost use Rattle.view_commands.specs.Files.{FilesRead, IsRefusalBy, TraceRead};
ghost use Rattle.work_orders.specs.View.{IsTraceWork};

use command_words::{Command, Inspection};
use ffm_model::{PartsError, Refusal};
use outside_io::Files;
use program_words::view::FileNames;
use std::alloc::Global;
use text_lines::{refusal_line, wrong_line};
use trace_print::{TraceError, read_trace};
use view_aspects::TraceFiles;
use work_orders::{TraceWork, Work, work_of};

/// Why there is no trace to show.
#[derive(Drop)]
pub enum NoTrace {
    /// A file is refused, by this line.
    Refused(Vec<u8>),
    /// A file can't be read.
    File,
    Memory,
}

fn refused(alloc: Global, refusal: &Refusal) -> NoTrace
    ensures { IsRefusalBy refusal.now result }
{
    match refusal_line(alloc, refusal) {
        Ok(line) => NoTrace::Refused(line),
        Err(_) => NoTrace::Memory,
    }
}

fn wrong_trace(alloc: Global, line: u32) -> NoTrace
    ensures { IsRefusalBy (wrong_line line) result }
{
    match wrong_line(alloc, line) {
        Ok(refusal) => refused(alloc, &refusal),
        Err(_) => NoTrace::Memory,
    }
}

// The trace whose text the bytes are, with what the other files say.
#[tactic(auto, using(crate::proofs::FilesDue::trace_read))]
fn with_trace(alloc: Global, work: TraceWork) -> Result<TraceFiles, NoTrace>
    requires { IsTraceWork work }
    ensures { TraceRead work result }
{
    match read_trace(alloc, work.system.counts(), &work.trace) {
        Ok(trace) => Ok(TraceFiles { work, trace }),
        Err(TraceError::Syntax { line }) => Err(wrong_trace(alloc, line)),
        Err(TraceError::Memory) => Err(NoTrace::Memory),
    }
}

/// Reads the files of a trace, in the order of `ffm replay`.
///
/// # Errors
///
/// `Refused` with ffm's own line, `File` only where a read failed in this call, of a file that is
/// asked for, and `Memory` where no memory is found.
pub fn read_files<F: Files>(
    alloc: Global,
    names: FileNames<'_>,
    files: &mut F,
) -> Result<TraceFiles, NoTrace>
    ensures read { FilesRead names.entry (F.seen files.old) (F.seen files.new) result }
    ensures files { IfOk result AreTraceFiles }
{
    let command = Command::Judge {
        inspection: Inspection::Replay,
        system: names.system,
        scenario: names.scenario,
        trace: names.trace,
    };
    match work_of(alloc, command, files) {
        Ok(Work::Judge(work)) => with_trace(alloc, work),
        Ok(_) => unreachable!(),
        Err(PartsError::Refused(refusal)) => Err(refused(alloc, &refusal)),
        Err(PartsError::ReadFault) => Err(NoTrace::File),
        Err(PartsError::Memory) => Err(NoTrace::Memory),
    }
}
