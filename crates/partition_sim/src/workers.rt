//! Workers, which run scripts over a shared manager.
ghost use Rattle.std.specs.Prelude.{◌≡◌, ◌==◌, length, true, false, not};
ghost use Rattle.std.specs.List.{All, count_by};
ghost use Rattle.ffm_model.specs.Passes.{IsAnswered};
ghost use Rattle.ffm_model.specs.Records.{ends_blocked, outcomes_of};
ghost use Rattle.spm_core.specs.Manager.{is_resume};
ghost use Rattle.partition_sim.specs.Standing.{role_of};
ghost use Rattle.partition_sim.specs.Workers.{IsFinished, IsFresh, IsGood, actors_of, roles_of, scripts_of};

use crate::laws::plans_resume_after_blocked;
use crate::runner::Runner;
use ffm_model::{Answer, Api, Call, Gate, List, Script};
use script_engines::is_stop;
use std::sync::Wait;

/// Runs one actor's script over a shared manager, by the actor's pass.
///
/// `drive` makes its events.
#[derive(Drop)]
pub struct Worker<P> {
    pub pass: P,
    pub runner: Runner,
    pub script: Script,
    /// The worker is finished: its actor makes no further event.
    pub done: bool,
    // The number of its next event, from 1.
    number: u32,
    // The gate was asked for that event.
    arrived: bool,
}

impl<P> Worker<P> {
    ghost use Rattle.std.specs.Prelude.{◌≡◌, false};

    /// A worker that has made no event. The gate counts its next event as the first.
    pub fn new(pass: P, runner: Runner, script: Script) -> Worker<P>
        ensures pass { result.pass ≡ pass }
        ensures runner { result.runner ≡ runner }
        ensures script { result.script ≡ script }
        ensures unfinished { result.done ≡ false }
        ensures first { result.number ≡ 1 }
    {
        Worker {
            pass,
            runner,
            script,
            done: false,
            number: 1,
            arrived: false,
        }
    }
}

// Asks the gate before the first try of an event.
fn arrive<A: Api, G: Gate>(api: &A, worker: &Worker<A::Pass>, gate: &G) {
    if !worker.arrived {
        gate.arrive(api.actor(&worker.pass), worker.number);
    }
}

// Makes a call, or returns from the one that was blocked.
fn ask<A: Api, R: Wait>(rt: &R, api: &A, pass: &mut A::Pass, call: Call) -> Answer
    requires own { A.own api.now pass.old }
    requires due { is_resume call ≡ ends_blocked (outcomes_of (A.record_of pass.old)) }
    ensures own { A.own api.now pass.new }
    ensures actor { A.actor_of pass.new ≡ A.actor_of pass.old }
    ensures answer { IsAnswered (A.actor_of pass.old) call result (A.record_of pass.old)
        (A.record_of pass.new) (A.is_done pass.new) }
{
    match call {
        Call::Resume => api.resume(rt, pass),
        _ => api.issue(rt, pass, call),
    }
}

// One try of a worker's next event, after the gate. Where its actor can't go on yet, a worker that is
// alone rests a while.
fn visit<A: Api, G: Gate, R: Wait>(
    rt: &R,
    api: &A,
    worker: &mut Worker<A::Pass>,
    gate: &G,
    alone: bool,
)
    requires good { IsGood A.own A.record_of A.is_done api.now worker.old }
    requires unfinished { worker.old.done ≡ false }
    ensures good { IsGood A.own A.record_of A.is_done api.now worker.new }
    ensures script { worker.new.script ≡ worker.old.script }
    ensures role { role_of worker.new.runner ≡ role_of worker.old.runner }
    ensures actor { A.actor_of worker.new.pass ≡ A.actor_of worker.old.pass }
{
    arrive(api, worker, gate);
    worker.arrived = true;
    plans_resume_after_blocked();
    let call = worker.runner.next(&worker.script);
    match ask(rt, api, &mut worker.pass, call) {
        Answer::Made { entry, .. } => {
            worker.runner.after(&entry.outcome);
            worker.number = worker.number.saturating_add(1);
            worker.arrived = false;
            worker.done = is_stop(call);
        }
        Answer::Gone => worker.done = true,
        Answer::Over => worker.done = true,
        Answer::Full => worker.done = true,
        Answer::NotYet => {
            if alone {
                api.rest(rt, &worker.pass);
            }
        }
    }
}

// Whether just one worker isn't done.
fn is_one_left<P>(workers: &[Worker<P>]) -> bool
    ensures { result ≡ (count_by (λ w. not w.done) workers.now == 1) }
{
    workers.iter().filter(|worker| !worker.done).count() == 1
}

// One try of each worker that isn't done. Says whether all were done.
fn turn_over<A: Api, G: Gate, R: Wait>(
    rt: &R,
    api: &A,
    workers: &mut [Worker<A::Pass>],
    gate: &G,
) -> bool
    requires good { All (IsGood A.own A.record_of A.is_done api.now) workers.old }
    ensures good { All (IsGood A.own A.record_of A.is_done api.now) workers.new }
    ensures scripts { scripts_of workers.new ≡ scripts_of workers.old }
    ensures roles { roles_of workers.new ≡ roles_of workers.old }
    ensures actors { actors_of A.actor_of workers.new ≡ actors_of A.actor_of workers.old }
    ensures done { result ≡ true → All (λ w. w.done ≡ true) workers.new }
{
    let alone = is_one_left(workers);
    let mut all_done = true;
    for worker in workers.iter_mut() {
        if !worker.done {
            all_done = false;
            visit(rt, api, worker, gate, alone);
        }
    }
    all_done
}

// Rounds, until all workers are done.
fn drive_all<A: Api, G: Gate, R: Wait>(rt: &R, api: &A, workers: &mut [Worker<A::Pass>], gate: &G)
    requires good { All (IsGood A.own A.record_of A.is_done api.now) workers.old }
    ensures finished { All (IsFinished A.own A.record_of A.is_done api.now) workers.new }
    ensures scripts { scripts_of workers.new ≡ scripts_of workers.old }
    ensures roles { roles_of workers.new ≡ roles_of workers.old }
    ensures actors { actors_of A.actor_of workers.new ≡ actors_of A.actor_of workers.old }
{
    'rounds: for _ in rt.forever() {
        if turn_over(rt, api, workers, gate) {
            return;
        }
    }
    unreachable!()
}

/// Drives workers over a shared manager, round and round, until each is finished: its actor has
/// ended or panicked, no actor can go on, the limit is reached, or its script has stopped.
///
/// A try is one call of the worker's script, or the return from its call that was blocked. Where
/// the manager says that the actor waits, the same is tried again in the next round; where only one
/// worker is left, the manager is asked for a rest before. Before an event's first try the gate is
/// asked, with the number of the worker's event, from 1. It may wait, and takes no memory.
///
/// Each worker comes new: its pass is the object's own and was answered no entry, and its runner
/// has seen no outcome.
pub fn drive<A: Api, G: Gate, R: Wait>(
    rt: &R,
    api: &A,
    workers: &mut List<Worker<A::Pass>>,
    gate: &G,
)
    requires { All (IsFresh A.own A.record_of api.now) workers.old }

    // Each has a pass of the object's own that is done, and was answered a run of the plan that its runner's
    // role has with its script.
    ensures finished { All (IsFinished A.own A.record_of A.is_done api.now) workers.new }

    // Each is in its place, with its script, a runner of its role, and for its actor.
    ensures count { length workers.new ≡ length workers.old }
    ensures scripts { scripts_of workers.new ≡ scripts_of workers.old }
    ensures roles { roles_of workers.new ≡ roles_of workers.old }
    ensures actors { actors_of A.actor_of workers.new ≡ actors_of A.actor_of workers.old }
{
    drive_all(rt, api, workers.as_mut_slice(), gate);
}
