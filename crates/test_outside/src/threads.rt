//! Runs with a thread for each actor: that the actors run beside each other, that the trace written is the history that
//! their turns made, and that actors without a thread run all the same.

use crate::told::{Command, Program, Told, assert_told, files_of, run, sink_of, words_of};
use ffm_model::{ActorId, Gate, OpenGate};
use ffm_top::ffm_starting;
use scenario_runs::Starts;
use std::alloc::Global;
use std::hint;
use std::process::Abort;
use std::sync::Wait;
use std::sync::atomic::{AtomicBool, Ordering};
use std::test::Fail;
use std::thread::Threads;

// So often a hold looks before it gives up.
const TRIES: u32 = 10_000_000;

/// A gate with two mutual holds: the first event of one actor is held until another arrives at its third, and that is
/// held until the first has arrived.
#[derive(Drop)]
struct Holds {
    late: ActorId,
    early: ActorId,
    late_arrived: AtomicBool,
    early_arrived: AtomicBool,
    gave_up: AtomicBool,
}

impl Holds {
    /// Nobody has arrived.
    fn new(late: ActorId, early: ActorId) -> Holds {
        Holds {
            late,
            early,
            late_arrived: AtomicBool::new(false),
            early_arrived: AtomicBool::new(false),
            gave_up: AtomicBool::new(false),
        }
    }

    /// Whether a hold ended without the other's arrival.
    fn gave_up(&self) -> bool {
        self.gave_up.load(Ordering::SeqCst)
    }

    fn hold(&self, arrived: &AtomicBool) {
        for _ in 0..TRIES {
            if arrived.load(Ordering::SeqCst) {
                return;
            }
            hint::spin_loop();
        }
        self.gave_up.store(true, Ordering::SeqCst);
    }
}

impl Gate for Holds {
    fn arrive(&self, actor: ActorId, count: u32) {
        if actor == self.late && count == 1 {
            self.late_arrived.store(true, Ordering::SeqCst);
            self.hold(&self.early_arrived);
        }
        if actor == self.early && count == 3 {
            self.early_arrived.store(true, Ordering::SeqCst);
            self.hold(&self.late_arrived);
        }
    }
}

const RUN: Command = Command {
    program: Program::Ffm,
    words: &["ffm", "run", "--threads", "system", "scenario"],
};

const REPLAY: Command = Command {
    program: Program::Ffm,
    words: &["ffm", "replay", "system", "scenario", "trace"],
};

// What a command tells over a system, a scenario and a trace.
fn told_at<R: Threads + Wait + Sync, G: Gate + Sync>(
    rt: &R,
    alloc: Global,
    gate: &G,
    command: Command,
    (system, scenario, trace): (&str, &str, &str),
) -> Result<Told, Fail> {
    let held = [("system", system), ("scenario", scenario), ("trace", trace)];
    let files = files_of(alloc, &held)?;
    let sink = sink_of(alloc, 8192, 256, 0)?;
    Ok(run(rt, alloc, gate, command, files, sink)?)
}

// A partition whose script is empty, and two clients.
const TWO_CLIENTS: &str =
    r#"{"isolation_level":3,"manifests":[{"psa_framework_version":1.0,"name":"VAULT",
"type":"APPLICATION-ROT","priority":"NORMAL","entry_point":"vault_main","stack_size":"0x400",
"services":[{"name":"VAULT","sid":"0x40","non_secure_clients":true}]}],"clients":["NS","NS2"]}"#;

const ASKING: &str = r#"{"scripts":[
{"actor":"NS","lines":["version 0x40","version 0x40","version 0x40"]},
{"actor":"NS2","lines":["version 0x40","version 0x40","version 0x40"]}]}"#;

// How many lines of one actor stand before the first of another.
fn lines_before(text: &str, early: &str, late: &str) -> u32 {
    let mut count: u32 = 0;
    for line in text.lines() {
        if line.starts_with(late) {
            return count;
        }
        if line.starts_with(early) {
            count = count.saturating_add(1);
        }
    }
    count
}

// An actor's first event waits for another's third, and that for the first to come, so neither is made alone.
#[test]
fn turns_are_those_of_the_threads(rt: HostRuntime) -> Result<(), Fail> {
    let alloc = rt.alloc();
    let (first, second) = (ActorId(1), ActorId(2));
    for (late, early, late_name, early_name) in [
        (first, second, "n1 ", "n2 "),
        (second, first, "n2 ", "n1 "),
    ] {
        let gate = Holds::new(late, early);
        let found = told_at(&rt, alloc, &gate, RUN, (TWO_CLIENTS, ASKING, ""))?;
        assert!(rt; !gate.gave_up() && found.status == 0);
        let trace = str::from_utf8(&found.text)?;
        assert!(rt; lines_before(trace, early_name, late_name) >= 2, "{trace}");
        let judged = told_at(&rt, alloc, &OpenGate, REPLAY, (TWO_CLIENTS, ASKING, trace))?;
        assert_told(&rt, REPLAY, &judged, 0, b"legal 9\n");
    }
    Ok(())
}

// A connection with one request, which is read and written in pieces, and its end.
const ONE_REQUEST: &str = r#"{"scripts":[
{"actor":"VAULT","lines":["top:","wait 0xffffffff 0x80000000","get r0 0x30000000","jeq r1 0 req",
"reply r2 0","jmp top","req:","read r2 0 0x30000100 3","read r2 0 0x30000100 3",
"read r2 0 0x30000100 3","write r2 0 0x30000100 4","reply r2 7","jmp top"]},
{"actor":"NS","lines":["connect 0x40 1","set r5 r0","call r5 0 0x20000000 1 0x20000008 1",
"close r5","load 0x2000000c 4"]}],
"memory":[{"address":"0x20000000","bytes":"20000020050000003000002008000000"},
{"address":"0x20000020","bytes":"68656c6c6f"}]}"#;

const ONE_REQUEST_LINES: &str = "p1 wait 0xffffffff 0x80000000 -> blocked
n1 connect 0x00000040 1 -> blocked
p1 resume -> signals 0x00000010
p1 get 0x00000010 0x30000000 -> message -1 1536 -1 0x00000000 0 0 0 0 0 0 0 0
p1 reply 1536 0 -> done
n1 resume -> value 1024
n1 call 1024 0 0x20000000 1 0x20000008 1 -> blocked
p1 get 0x00000010 0x30000000 -> message 0 2560 -1 0x00000000 5 0 0 0 8 0 0 0
p1 read 2560 0 0x30000100 3 -> number 3
p1 read 2560 0 0x30000100 3 -> number 2
p1 read 2560 0 0x30000100 3 -> number 0
p1 write 2560 0 0x30000100 4 -> done
p1 reply 2560 7 -> done
n1 resume -> value 7
n1 close 1024 -> blocked
p1 get 0x00000010 0x30000000 -> message -2 3584 -1 0x00000000 0 0 0 0 0 0 0 0
p1 reply 3584 0 -> done
n1 resume -> done
n1 load 0x2000000c 4 -> number 4
n1 stop end -> done
n2 stop end -> done
quiet 26
";

// A stateless service, whose handle is 0x40000001, and a client that may use it.
const CLOCK: &str =
    r#"{"isolation_level":3,"manifests":[{"psa_framework_version":1.1,"name":"CLOCK",
"type":"PSA-ROT","priority":"NORMAL","entry_point":"main","stack_size":"0x400",
"services":[{"name":"CLOCK","sid":"0x50","non_secure_clients":true,"connection_based":false}]}],
"clients":["NS"]}"#;

// A request to it, by a handle that is no connection and can't be closed.
const STATELESS_REQUEST: &str = r#"{"scripts":[
{"actor":"CLOCK","lines":["wait 0xffffffff 0x80000000","get r0 0x30000000","reply r2 5"]},
{"actor":"NS","lines":["call 0x40000001 0 0 0 0 0","close 0x40000001","connect 0x50 1"]}]}"#;

const STATELESS_LINES: &str = "p1 wait 0xffffffff 0x80000000 -> blocked
p1 resume -> signals 0x00000010
p1 get 0x00000010 0x30000000 -> message 0 1536 -1 0x00000000 0 0 0 0 0 0 0 0
p1 reply 1536 5 -> done
p1 stop end -> done
n1 call 1073741825 0 0x00000000 0 0x00000000 0 -> blocked
n1 resume -> value 5
n1 close 1073741825 -> done
n1 connect 0x00000050 1 -> value -130
n1 stop end -> done
quiet 10
";

/// A system, a scenario, the lines that each order of the actors writes, and how many there are, since some come more
/// than once.
struct Ordered {
    system: &'static str,
    scenario: &'static str,
    lines: &'static str,
    count: usize,
}

const ORDERED: [Ordered; 2] = [
    Ordered {
        system: TWO_CLIENTS,
        scenario: ONE_REQUEST,
        lines: ONE_REQUEST_LINES,
        count: 27,
    },
    Ordered {
        system: CLOCK,
        scenario: STATELESS_REQUEST,
        lines: STATELESS_LINES,
        count: 11,
    },
];

fn has_line(text: &str, line: &str) -> bool {
    text.lines().any(|found| found == line)
}

fn assert_lines(rt: &impl Abort, text: &str, lines: &str, count: usize) {
    assert!(rt; text.lines().count() == count, "{text}");
    for line in lines.lines() {
        assert!(rt; has_line(text, line), "no line {line} in {text}");
    }
}

// Fails unless a run told its lines, and they are judged to be a run.
fn assert_run<R: Threads + Wait + Sync + Abort>(
    rt: &R,
    alloc: Global,
    row: &Ordered,
    found: &Told,
) -> Result<(), Fail> {
    let trace = str::from_utf8(&found.text)?;
    assert!(rt; found.status == 0, "{trace}");
    assert_lines(rt, trace, row.lines, row.count);
    let files = (row.system, row.scenario, trace);
    let judged = told_at(rt, alloc, &OpenGate, REPLAY, files)?;
    assert!(rt; judged.status == 0, "{trace}");
    Ok(())
}

#[test]
fn runs_have_their_lines_in_any_order(rt: HostRuntime) -> Result<(), Fail> {
    for row in &ORDERED {
        let files = (row.system, row.scenario, "");
        let found = told_at(&rt, rt.alloc(), &OpenGate, RUN, files)?;
        assert_run(&rt, rt.alloc(), row, &found)?;
    }
    Ok(())
}

/// Whose threads are refused.
#[derive(Clone, Copy)]
enum Refused {
    Only(ActorId),
    Everyone,
}

impl Starts for Refused {
    fn may_start(&self, actor: ActorId) -> bool {
        match *self {
            Refused::Only(refused) => actor != refused,
            Refused::Everyone => false,
        }
    }
}

// What a run tells whose actors get no thread where it is refused.
fn told_without<R: Threads + Wait + Sync, G: Gate + Sync>(
    rt: &R,
    alloc: Global,
    gate: &G,
    refused: Refused,
    (system, scenario): (&str, &str),
) -> Result<Told, Fail> {
    let words = words_of(alloc, RUN.words)?;
    let mut files = files_of(alloc, &[("system", system), ("scenario", scenario)])?;
    let mut sink = sink_of(alloc, 8192, 256, 0)?;
    let status = ffm_starting(rt, alloc, &words, &mut files, &mut sink, gate, &refused);
    let text = sink.bytes().to_vec(alloc)?;
    Ok(Told { status, text })
}

#[test]
fn threads_refused(rt: HostRuntime) -> Result<(), Fail> {
    let everyone = [
        Refused::Only(ActorId(0)),
        Refused::Only(ActorId(1)),
        Refused::Only(ActorId(2)),
        Refused::Everyone,
    ];
    for row in &ORDERED {
        for refused in everyone {
            let files = (row.system, row.scenario);
            let found = told_without(&rt, rt.alloc(), &OpenGate, refused, files)?;
            assert_run(&rt, rt.alloc(), row, &found)?;
        }
    }
    Ok(())
}

// The mutual holds end where one actor has no thread, since the caller drives it beside the other's; where nobody has
// one, the first hold gives up.
#[test]
fn refused_actors_run_beside_the_threads(rt: HostRuntime) -> Result<(), Fail> {
    for (refused, gives_up) in [
        (Refused::Only(ActorId(1)), false),
        (Refused::Only(ActorId(2)), false),
        (Refused::Everyone, true),
    ] {
        let gate = Holds::new(ActorId(1), ActorId(2));
        let files = (TWO_CLIENTS, ASKING);
        let found = told_without(&rt, rt.alloc(), &gate, refused, files)?;
        assert!(rt; gate.gave_up() == gives_up && found.status == 0);
    }
    Ok(())
}
