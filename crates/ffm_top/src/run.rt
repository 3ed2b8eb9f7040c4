//! The runs that work asks for.

ghost use Rattle.std.specs.Prelude.{◌≡◌, ◌∷◌, [], IfOk, IfSome, List, Option, map, true};
ghost use Rattle.ffm_model.specs.declared.machine.Entry.{Entry};
ghost use Rattle.scenario_runs.specs.Restarting.{AreRuns, finished};
ghost use Rattle.ffm_top.specs.Threads.{IsThreadedRun};
ghost use Rattle.work_orders.specs.View.{IsRun};

use ffm_model::Memory;
use scenario_runs::{Runs, run_in_turns};
use std::alloc::Global;
use work_orders::RunWork;

/// What runs a scenario with a thread for each actor.
pub trait ThreadedRuns {
    /// It may be asked to.
    ghost may_run: { Self → Type 0 };

    /// The entries of the run that it leaves, where they are told.
    ghost ended: { Self → Option (List Entry) };

    /// The one run that the work asks for. Memory where no memory was found.
    fn run(self, work: RunWork) -> Result<Runs, Memory>
        requires may { may_run self }
        requires work { IsRun work }
        requires threads { work.threads ≡ true }
        ensures ran { IsThreadedRun work result }
        ensures ended { IfSome (ended self) (λ es. IfOk result (λ runs.
            map (λ trace. trace.entries) runs.traces.items ≡ es ∷ [])) };
}

/// By a closure that runs it. What a thread may share is known to a function alone, and not to an
/// `impl`, so the threads are the closure's.
#[derive(Drop)]
pub struct InThreads<F> {
    run: F,
}

impl<F> InThreads<F> {
    ghost use Rattle.ffm_top.specs.Threads.{run_by};

    /// What runs it is this closure.
    pub fn new(run: F) -> Self
        ensures { run_by result ≡ run }
    {
        InThreads { run }
    }
}

impl<F: FnOnce(RunWork) -> Result<Runs, Memory>> ThreadedRuns for InThreads<F> {
    ghost use Rattle.std.specs.Prelude.{None};
    ghost use Rattle.ffm_top.specs.Threads.{RunsWork, run_by};

    ghost may_run = { λ threads. RunsWork F.pre F.post (run_by threads) };

    ghost ended = { λ _. None };

    fn run(self, work: RunWork) -> Result<Runs, Memory> {
        (self.run)(work)
    }
}

/// For words that ask for no threads: it is never asked to run.
#[derive(Clone, Copy, Debug, Default)]
pub struct NoThreads;

impl ThreadedRuns for NoThreads {
    ghost use Rattle.std.specs.Prelude.{None};

    ghost may_run = { λ _. ⊥ };

    ghost ended = { λ _. None };

    fn run(self, _work: RunWork) -> Result<Runs, Memory> {
        unreachable!()
    }
}

/// The runs that work asks for: with threads one, by `threads`, and else as many as there are. Memory
/// where no memory was found.
pub fn run<T: ThreadedRuns + Drop>(alloc: Global, work: RunWork, threads: T) -> Result<Runs, Memory>
    requires work { IsRun work }
    requires may { work.threads ≡ true → T.may_run threads }
    ensures system { IfOk result (λ runs. runs.system ≡ work.system) }
    ensures ran { IfOk result (λ runs. AreRuns work.system work.scenario work.programs work.threads
        work.scenario.restarts (map finished runs.traces.items)) }
    ensures ended { work.threads ≡ true → IfSome (T.ended threads) (λ es. IfOk result (λ runs.
        map (λ trace. trace.entries) runs.traces.items ≡ es ∷ [])) }
{
    if work.threads {
        return threads.run(work);
    }
    let RunWork {
        system,
        scenario,
        programs,
        ..
    } = work;
    run_in_turns(alloc, system, &scenario, programs)
}
