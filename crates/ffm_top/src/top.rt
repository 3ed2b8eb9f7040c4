//! The top call.

ghost use Rattle.std.specs.Prelude.{◌≡◌, None, map, string_bytes, true};
ghost use Rattle.std.specs.Thread.{IsSync};
ghost use Rattle.work_orders.specs.View.{IsRun};
ghost use Rattle.ffm_top.specs.Answers.{Answered};
ghost use Rattle.ffm_top.specs.Threads.{IsThreadedRun};
ghost use Rattle.command_words.specs.Words.{asks_threads, order_of};

use crate::asked::asked_of;
use crate::perform::perform;
use crate::report::write_report;
use crate::run::{InThreads, ThreadedRuns};
use ffm_model::{Gate, Memory};
use outside_io::{Failed, Files, Sink};
use scenario_runs::{EveryStart, Runs, Starts, run_in_threads};
use std::alloc::Global;
use std::sync::Wait;
use std::thread::Threads;
use text_lines::{NO_MEMORY, UNREAD, UNWRITTEN};
use work_orders::{RunWork, Unanswered};

/// Does what the words ask for over these files, writes the text that is due, and answers the
/// status to end with. A run with threads is left to `threads`, and nothing else is asked of it.
///
/// 0: a system is listed, a run is quiet, a trace is legal or clean, or a generated run is summed up.
/// 4 and 5: a run is stalled, full; of several runs the last one counts. 6: a trace is illegal. 1: a
/// file is refused, by the line written. 2: the words are no command, by the usage line. 7: a file
/// that is asked for can't be read, and nothing is written. 8: the text can't be written whole. 9: no
/// memory was found, and nothing is written.
///
/// The text is for `compile` the listing of the system, for `run` the trace of a run of the FF-M
/// machine in which each actor's events are its script's calls with the machine's answers, without
/// `--threads` in the turns of the schedule, and where a partition panicked and a restart is left,
/// then that of the run after the reset, and so on; for `replay` the judgement of the trace file's
/// trace by that machine, for `audit` with a line for each entry of it that changed a byte, or the
/// refusal of its first wrong line, and for `make` the summary of such a run of the generated system.
#[tactic(auto, using(crate::proofs::Answering::may_want))]
pub fn ffm_by<F: Files, S: Sink, T: ThreadedRuns + Drop>(
    alloc: Global,
    words: &Vec<String>,
    files: &mut F,
    out: &mut S,
    threads: T,
) -> u8
    requires { asks_threads (order_of (map string_bytes words.now.items)) ≡ true →
        T.may_run threads }
    ensures { Answered (map string_bytes words.now.items) (T.ended threads)
        (F.seen files.old) (F.seen files.new) (S.seen out.old) (S.seen out.new) result }
{
    match asked_of(alloc, words, files) {
        Ok(asked) => match perform(alloc, asked, threads) {
            Ok(report) => match write_report(out, &report) {
                Ok(()) => report.status(),
                Err(Failed) => UNWRITTEN,
            },
            Err(Memory) => NO_MEMORY,
        },
        Err(Unanswered::File) => UNREAD,
        Err(Unanswered::Memory) => NO_MEMORY,
    }
}

/// The same, where a run with threads has a thread of the runtime for each actor for which one may be
/// started, and the gate stands before each event. It may wait there, and returns at all other words.
pub fn ffm_starting<R: Threads + Wait + Sync, F: Files, S: Sink, G: Gate + Sync, T: Starts>(
    rt: &R,
    alloc: Global,
    words: &Vec<String>,
    files: &mut F,
    out: &mut S,
    gate: &G,
    starts: &T,
) -> u8
    ensures { Answered (map string_bytes words.now.items) None
        (F.seen files.old) (F.seen files.new) (S.seen out.old) (S.seen out.new) result }
{
    let run = |work: RunWork| -> Result<Runs, Memory>
        requires sync { IsSync R.row × IsSync G.row }
        requires work { IsRun work }
        ensures { IsThreadedRun work result }
    {
        let RunWork {
            system,
            scenario,
            programs,
            ..
        } = work;
        run_in_threads(rt, alloc, gate, starts, system, &scenario, programs)
    };
    ffm_by(alloc, words, files, out, InThreads::new(run))
}

/// The same, where a thread may be started for every actor.
pub fn ffm<R: Threads + Wait + Sync, F: Files, S: Sink, G: Gate + Sync>(
    rt: &R,
    alloc: Global,
    words: &Vec<String>,
    files: &mut F,
    out: &mut S,
    gate: &G,
) -> u8
    ensures { Answered (map string_bytes words.now.items) None
        (F.seen files.old) (F.seen files.new) (S.seen out.old) (S.seen out.new) result }
{
    ffm_starting(rt, alloc, words, files, out, gate, &EveryStart)
}
