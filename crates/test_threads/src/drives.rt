//! What a manager and its gate are asked by workers that are driven.
ghost use Rattle.std.specs.Prelude.{◌≡◌, [], IfOk};
ghost use Rattle.std.specs.List.{All};
ghost use Rattle.partition_sim.specs.Workers.{IsFresh};
ghost use Rattle.test_threads.specs.declared.alone.Alone.{Alone};

use crate::alone::{Alone, Log};
use crate::scripts::script_of_threads;
use crate::setup::system;
use ffm_model::{ActorKind, List, Script, System};
use partition_sim::{Runner, Worker, drive};
use std::alloc::Global;
use std::process::Abort;
use std::sync::Wait;
use std::test::Fail;

/// An actor that is driven, how often its return is put off, and the lines of its threads.
struct Driven {
    actor: u32,
    delays: u32,
    first: &'static str,
    second: Option<&'static str>,
}

/// Actors with room for so many entries each, or where `over` is set such that none can go on, and the digits of what
/// is asked.
struct DriveRow {
    over: bool,
    room: usize,
    actors: &'static [Driven],
    digits: u64,
}

const MAPS: &str = "get 0x10 0x30000000
set r6 r2
map_in r6 0
load r0 4
map_out r6 0
store r0 4 7
unmap_in r6 0
unmap_out r6 0 4
reply r6 0
unmap_in r6 0
version 7";

const DRIVES: [DriveRow; 6] = [
    // By turns. The gate isn't asked again where a return is put off, and the manager is asked for a rest as soon as
    // one actor alone is left.
    DriveRow {
        over: false,
        room: 9,
        actors: &[
            Driven {
                actor: 0,
                delays: 3,
                first: "version 7\nwait 1 0x80000000",
                second: None,
            },
            Driven {
                actor: 1,
                delays: 0,
                first: "version 7\nversion 7",
                second: None,
            },
        ],
        digits: 1_11_02_12_03_13_90_90_04,
    },
    // Threads of a client: three calls, and a stop.
    DriveRow {
        over: false,
        room: 9,
        actors: &[Driven {
            actor: 1,
            delays: 0,
            first: "version 1\nversion 2",
            second: Some("version 3"),
        }],
        digits: 11_12_13_14,
    },
    // Of the lines that map, two make a call each. After the answer no message is held, so that the last one panics.
    DriveRow {
        over: false,
        room: 9,
        actors: &[Driven {
            actor: 0,
            delays: 0,
            first: MAPS,
            second: None,
        }],
        digits: 1_02_03_04_05_06_07_08,
    },
    // At the limit.
    DriveRow {
        over: false,
        room: 1,
        actors: &[Driven {
            actor: 0,
            delays: 0,
            first: "version 7\nversion 7",
            second: None,
        }],
        digits: 1_02,
    },
    // After a panic.
    DriveRow {
        over: false,
        room: 9,
        actors: &[Driven {
            actor: 0,
            delays: 0,
            first: "panic\nversion 7",
            second: None,
        }],
        digits: 1_02,
    },
    DriveRow {
        over: true,
        room: 9,
        actors: &[Driven {
            actor: 0,
            delays: 0,
            first: "version 7",
            second: None,
        }],
        digits: 1,
    },
];

// A worker of the log's actor, before its first event. The actor has as many contexts as the script has
// parts.
fn worker(rt: &impl Abort, system: &System, log: Log, script: Script) -> Worker<Log>
    requires { log.entries.items ≡ [] }
    ensures { (a : Alone) → IsFresh (λ s l. Unit {0}) (λ l. l.entries.items) a result }
{
    assert!(rt; log.actor.0 < system.actor_count());
    let contexts = script.parts.len() as u32;
    assert!(rt; contexts == 1 || system.actor_kind(log.actor) == ActorKind::Client);
    let runner = Runner::new(system, log.actor, contexts);
    Worker::new(log, runner, script)
}

// A worker for each actor, in order.
fn workers(
    rt: &impl Abort,
    alloc: Global,
    api: &Alone,
    room: usize,
    actors: &[Driven],
) -> Result<List<Worker<Log>>, Fail>
    ensures { IfOk result (λ ws.
        All (IsFresh (λ s l. Unit {0}) (λ l. l.entries.items) api.now) ws) }
{
    let _ = api;
    let system = system(alloc)?;
    let mut workers = Vec::new(alloc);
    for driven in actors {
        let log = Log::new(alloc, driven.actor, room, driven.delays)?;
        let script = script_of_threads(rt, alloc, driven.first, driven.second)?;
        workers.push(worker(rt, &system, log, script))?;
    }
    Ok(List::of(workers))
}

fn digits_of<R: Abort + Wait>(rt: &R, alloc: Global, row: &DriveRow) -> Result<u64, Fail> {
    let api = Alone::new(row.over);
    let mut workers = workers(rt, alloc, &api, row.room, row.actors)?;
    drive(rt, &api, &mut workers, &api);
    Ok(api.digits())
}

#[test]
fn events_are_asked_in_order(rt: HostRuntime) -> Result<(), Fail> {
    for row in &DRIVES {
        let digits = digits_of(&rt, rt.alloc(), row)?;
        assert!(rt; digits == row.digits, "{digits}");
    }
    Ok(())
}
