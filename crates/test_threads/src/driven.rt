//! All actors of a system, driven by one thread over one shared manager.
ghost use Rattle.std.specs.Prelude.{◌≡◌, IfOk};
ghost use Rattle.std.specs.List.{All};
ghost use Rattle.spm_lock.specs.Passes.{ArePasses, AreNew};
ghost use Rattle.test_threads.specs.Workers.{IsUnstarted, passes_in};

use crate::scripts::script_of;
use crate::setup::{CLIENT, VAULT, shared_manager, system};
use ffm_model::{List, OpenGate, System, Verdict};
use partition_sim::{Runner, Worker, drive};
use spm_core::Spm;
use spm_lock::{Pass, Shared};
use std::alloc::{AllocError, Global};
use std::process::Abort;
use std::sync::Wait;
use std::test::Fail;

// Serves two messages, each answered with 0.
const SERVING: &str = "wait 0x10 0x80000000
get 0x10 0x30000000
reply r2 0
wait 0x10 0x80000000
get 0x10 0x30000000
reply r2 0";

const CONNECTING: &str = "connect 0x40 1
close r0";

const ASKING: &str = "version 0x40";

// A worker of the pass's actor, before its first event.
fn worker_of(
    rt: &impl Abort,
    alloc: Global,
    system: &System,
    pass: Pass,
) -> Result<Worker<Pass>, Fail>
    ensures pass { IfOk result (λ w. w.pass ≡ pass) }
    ensures unstarted { IfOk result IsUnstarted }
{
    let actor = pass.actor();
    assert!(rt; actor.0 < system.actor_count());
    let text = match actor {
        VAULT => SERVING,
        CLIENT => CONNECTING,
        _ => ASKING,
    };
    let script = script_of(rt, alloc, text)?;
    let runner = Runner::new(system, actor, 1);
    Ok(Worker::new(pass, runner, script))
}

// A worker for each pass, in order.
fn workers_of(
    rt: &impl Abort,
    alloc: Global,
    system: &System,
    passes: List<Pass>,
) -> Result<List<Worker<Pass>>, Fail>
    ensures passes { IfOk result (λ ws. passes_in ws ≡ passes) }
    ensures unstarted { IfOk result (λ ws. All IsUnstarted ws) }
{
    let mut workers = Vec::new(alloc);
    for pass in passes.into_vec() {
        workers.push(worker_of(rt, alloc, system, pass)?)?;
    }
    Ok(List::of(workers))
}

// The passes of the workers, in order.
fn passes_of(alloc: Global, workers: List<Worker<Pass>>) -> Result<List<Pass>, AllocError>
    ensures { IfOk result (λ ps. ps ≡ passes_in workers) }
{
    let mut passes = Vec::new(alloc);
    for worker in workers.into_vec() {
        passes.push(worker.pass)?;
    }
    Ok(List::of(passes))
}

// Drives all actors to their ends, and gives their passes back.
fn drive_to_the_end<R: Wait + Abort>(
    rt: &R,
    alloc: Global,
    shared: &Shared,
    passes: List<Pass>,
) -> Result<List<Pass>, Fail>
    requires passes { ArePasses shared.now passes }
    requires fresh { AreNew passes }
    ensures { IfOk result (λ ps. ArePasses shared.now ps) }
{
    let system = system(alloc)?;
    let mut workers = workers_of(rt, alloc, &system, passes)?;
    drive(rt, shared, &mut workers, &OpenGate);
    Ok(passes_of(alloc, workers)?)
}

fn run_of_all<R: Wait + Abort>(rt: &R, alloc: Global) -> Result<Spm, Fail> {
    let (shared, passes) = shared_manager(alloc, 30)?;
    let passes = drive_to_the_end(rt, alloc, &shared, passes)?;
    Ok(shared.finish(passes))
}

// The partition makes 9 events, its client 5, and the other one 2.
#[test]
fn all_actors_in_one_drive(rt: HostRuntime) -> Result<(), Fail> {
    let spm = run_of_all(&rt, rt.alloc())?;
    assert!(rt; spm.length() == 16);
    assert!(rt; spm.verdict() == Some(Verdict::Quiet));
    Ok(())
}
