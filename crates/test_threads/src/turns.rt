//! What the actors are answered, by threads of their own and by one.
ghost use Rattle.spm_lock.specs.Passes.{IsOwn};
ghost use Rattle.test_threads.specs.Threes.{IsPassOf, AreThree};

use crate::setup::{CLIENT, KEYS, OTHER, VAULT, put_together, shared_by_three};
use ffm_model::{Answer, Call, Entry, Outcome, Verdict};
use spm_core::Spm;
use spm_lock::{Pass, Shared};
use std::alloc::Global;
use std::process::Abort;
use std::sync::Wait;
use std::test::Fail;
use std::thread;
use std::thread::Threads;

const VERSION: Call = Call::Version { sid: KEYS };

const CONNECT: Call = Call::Connect {
    sid: KEYS,
    version: 1,
};

const STOP: Call = Call::Stop { spent: false };

// Makes a call by a pass, or returns from the one that was blocked. None where it isn't the time for it.
fn turn<R: Wait>(rt: &R, shared: &Shared, pass: &mut Pass, call: Call) -> Option<Answer>
    requires { IsOwn shared.now pass.old }
    ensures { IsPassOf shared.now pass.old.actor pass.new }
{
    let returns = matches!(call, Call::Resume);
    if pass.pending() != returns {
        return None;
    }
    Some(match call {
        Call::Resume => shared.resume(rt, pass),
        _ => shared.issue(rt, pass, call),
    })
}

// Asks for the service's version three times. Each call is made: the client with a connection is told the version, and
// the other one 0, since the service isn't there for it.
fn three_versions<R: Wait + Abort>(rt: &R, shared: &Shared, mut pass: Pass) -> Pass
    requires { IsOwn shared.now pass }
    ensures { IsPassOf shared.now pass.actor result }
{
    let actor = pass.actor();
    let version = if actor == CLIENT { 1 } else { 0 };
    let wanted = Entry {
        actor,
        call: VERSION,
        outcome: Outcome::Number(version),
    };
    for _ in 0..3u32 {
        let answer = turn(rt, shared, &mut pass, VERSION);
        assert!(rt;
            matches!(answer, Some(Answer::Made { entry, .. }) if entry == wanted),
            "{answer:?}"
        );
    }
    pass
}

fn both<R: Threads + Wait + Abort + Sync>(rt: &R, shared: &Shared, a: Pass, b: Pass) -> (Pass, Pass)
    requires { IsOwn shared.now a × IsOwn shared.now b }
    ensures { IsPassOf shared.now a.actor result.0 × IsPassOf shared.now b.actor result.1 }
{
    thread::join(
        rt,
        move || -> Pass
            requires { IsOwn shared.now a }
            ensures { IsPassOf shared.entry.now a.actor result }
        { three_versions(rt, shared, a) },
        move || -> Pass
            requires { IsOwn shared.now b }
            ensures { IsPassOf shared.entry.now b.actor result }
        { three_versions(rt, shared, b) },
    )
}

fn run_of_two<R: Threads + Wait + Abort + Sync>(rt: &R, alloc: Global) -> Result<Spm, Fail> {
    let (shared, (vault, a, b)) = shared_by_three(alloc, 6)?;
    let (a, b) = both(rt, &shared, a, b);
    let passes = put_together(alloc, &shared, vault, a, b)?;
    Ok(shared.finish(passes))
}

#[test]
fn two_threads_make_three_calls_each(rt: HostRuntime) -> Result<(), Fail> {
    let spm = run_of_two(&rt, rt.alloc())?;
    assert!(rt; spm.length() == 6);
    assert!(rt; spm.verdict() == Some(Verdict::Full));
    Ok(())
}

// The client waits for the partition, which stops, and so does the other client.
fn six_turns<R: Wait>(
    rt: &R,
    shared: &Shared,
    vault: &mut Pass,
    client: &mut Pass,
    other: &mut Pass,
) -> [Option<Answer>; 6]
    requires { AreThree shared.now vault.old client.old other.old }
    ensures { AreThree shared.now vault.new client.new other.new }
{
    [
        turn(rt, shared, client, CONNECT),
        turn(rt, shared, client, Call::Resume),
        turn(rt, shared, vault, STOP),
        turn(rt, shared, vault, STOP),
        turn(rt, shared, other, STOP),
        turn(rt, shared, client, Call::Resume),
    ]
}

const SIX_ANSWERS: [Option<Answer>; 6] = [
    Some(Answer::Made {
        place: 1,
        entry: Entry {
            actor: CLIENT,
            call: CONNECT,
            outcome: Outcome::Blocked,
        },
    }),
    Some(Answer::NotYet),
    Some(Answer::Made {
        place: 2,
        entry: Entry {
            actor: VAULT,
            call: STOP,
            outcome: Outcome::Done,
        },
    }),
    Some(Answer::Gone),
    Some(Answer::Made {
        place: 3,
        entry: Entry {
            actor: OTHER,
            call: STOP,
            outcome: Outcome::Done,
        },
    }),
    Some(Answer::Over),
];

fn run_of_one<R: Wait + Abort>(rt: &R, alloc: Global) -> Result<Spm, Fail> {
    let (shared, (mut vault, mut client, mut other)) = shared_by_three(alloc, 20)?;
    let answers = six_turns(rt, &shared, &mut vault, &mut client, &mut other);
    assert!(rt; answers == SIX_ANSWERS, "{answers:?}");
    let passes = put_together(alloc, &shared, vault, client, other)?;
    Ok(shared.finish(passes))
}

#[test]
fn one_thread_is_answered_as_by_the_manager(rt: HostRuntime) -> Result<(), Fail> {
    let spm = run_of_one(&rt, rt.alloc())?;
    assert!(rt; spm.length() == 3);
    assert!(rt; spm.verdict() == Some(Verdict::Stalled));
    Ok(())
}
