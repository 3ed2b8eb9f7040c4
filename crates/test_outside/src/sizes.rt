//! Files and traces that are too large to be stored.

use crate::told::{Command, Program, Told, assert_told, files_of, run, sink_of, status_of};
use ffm_model::OpenGate;
use outside_io::{Gathering, MemorySink, Sink};
use std::alloc::{AllocError, Global};
use std::process::Abort;
use std::sync::Wait;
use std::test::Fail;
use std::thread::Threads;

const VAULT: &str =
    r#"{"isolation_level":3,"manifests":[{"psa_framework_version":1.0,"name":"VAULT","type":"APPLICATION-ROT",
"priority":"NORMAL","entry_point":"main","stack_size":"0x400",
"services":[{"name":"VAULT","sid":"0x40","non_secure_clients":true}]}],"clients":["NS"]}"#;

const RUN: Command = Command {
    program: Program::Ffm,
    words: &["ffm", "run", "system", "scenario"],
};

const REPLAY: Command = Command {
    program: Program::Ffm,
    words: &["ffm", "replay", "system", "scenario", "trace"],
};

const AUDIT: Command = Command {
    program: Program::Ffm,
    words: &["ffm", "audit", "system", "scenario", "trace"],
};

// What a command tells over a system, a scenario and a trace.
fn told_over<R: Threads + Wait + Sync>(
    rt: &R,
    alloc: Global,
    command: Command,
    (system, scenario, trace): (&str, &str, &[u8]),
) -> Result<Told, Fail> {
    let mut files = files_of(alloc, &[("system", system), ("scenario", scenario)])?;
    files.add(alloc, "trace", trace)?;
    let sink = sink_of(alloc, 16_777_216, 4096, 0)?;
    Ok(run(rt, alloc, &OpenGate, command, files, sink)?)
}

// Fails unless a trace is judged to be a run of so many entries, and its audit ends so.
fn assert_legal<R: Threads + Wait + Sync + Abort>(
    rt: &R,
    alloc: Global,
    scenario: &str,
    trace: &[u8],
    entries: u32,
) -> Result<(), Fail> {
    let found = told_over(rt, alloc, REPLAY, (VAULT, scenario, trace))?;
    let wanted = format!(in alloc; "legal {entries}\n")?;
    assert_told(rt, REPLAY, &found, 0, wanted.as_bytes());
    let found = told_over(rt, alloc, AUDIT, (VAULT, scenario, trace))?;
    let wanted = format!(in alloc; "clean {entries}\n")?;
    assert!(rt; found.text.ends_with(wanted.as_bytes()));
    assert!(rt; found.status == 0);
    Ok(())
}

// The client connects and closes 1,100 times: in each round the service makes eight events and the
// client four. Then the client stops, and the service waits.
#[test]
fn more_than_a_thousand_connections(rt: HostRuntime) -> Result<(), Fail> {
    let scenario = r#"{"event_limit":20000,"scripts":[{"actor":"VAULT","lines":["again:",
"wait 0xffffffff 0x80000000","get r0 0x30000000","reply r2 0","jmp again"]},
{"actor":"NS","lines":["set r6 1100","again:","connect 0x40 1","close r0","sub r6 1","jne r6 0 again"]}]}"#;
    let found = told_over(&rt, rt.alloc(), RUN, (VAULT, scenario, b""))?;
    assert!(rt; found.status == 0);
    assert!(rt; found.text.ends_with(b"n1 stop end -> done\nquiet 13202\n"));
    assert_legal(&rt, rt.alloc(), scenario, &found.text, 13202)
}

// The text of a client that asks for a version as often as the limit allows.
fn asked_often(alloc: Global, entries: u32) -> Result<String, AllocError> {
    let mut text = String::from_str(alloc, "p1 stop end -> done\n")?;
    for _ in 1..entries {
        text.push_str("n1 version 0x00000040 -> number 1\n")?;
    }
    text.push_str(&format!(in alloc; "full {entries}\n")?)?;
    Ok(text)
}

fn asking_often(alloc: Global, entries: u32) -> Result<String, AllocError> {
    format!(in alloc;
        r#"{{"event_limit":{entries},"scripts":[{{"actor":"NS","lines":["again:","version 0x40","jmp again"]}}]}}"#
    )
}

#[test]
fn more_than_a_hundred_thousand_entries(rt: HostRuntime) -> Result<(), Fail> {
    let scenario = asking_often(rt.alloc(), 120_000)?;
    let found = told_over(&rt, rt.alloc(), RUN, (VAULT, scenario.as_str(), b""))?;
    let wanted = asked_often(rt.alloc(), 120_000)?;
    assert_told(&rt, RUN, &found, 5, wanted.as_bytes());
    assert_legal(&rt, rt.alloc(), scenario.as_str(), &found.text, 120_000)
}

// A run whose text is gathered before a sink of which a put fails.
fn gathered_run<R: Threads + Wait + Sync>(
    rt: &R,
    alloc: Global,
    sink: &mut Gathering<MemorySink>,
) -> Result<u8, Fail> {
    let scenario = asking_often(alloc, 600)?;
    let files = files_of(alloc, &[("system", VAULT), ("scenario", scenario.as_str())])?;
    Ok(status_of(rt, alloc, &OpenGate, RUN, files, sink)?)
}

// 8 KiB are gathered: the first line and 240 more, then 240 lines, and the rest is handed on at the end. Each of these
// puts fails in turn, and then none. What waits behind a put that failed is the text's too: it goes on where it stopped.
#[test]
fn a_put_fails_behind_what_is_gathered(rt: HostRuntime) -> Result<(), Fail> {
    let text = asked_often(rt.alloc(), 600)?;
    let text = text.as_bytes();
    let rows = [
        (1, 8, 0, 8180),
        (2, 8, 8180, 16340),
        (3, 8, 16340, 20395),
        (4, 5, 20395, 20395),
    ];
    for (failing, status, written, then) in rows {
        let mut sink = Gathering::of(sink_of(rt.alloc(), 65_536, 65_536, failing)?);
        assert!(rt; gathered_run(&rt, rt.alloc(), &mut sink)? == status);
        assert!(rt;
            text.strip_prefix(sink.sink().bytes()).is_some() && sink.sink().bytes().len() == written
        );
        assert!(rt; sink.flush().is_ok());
        assert!(rt;
            text.strip_prefix(sink.sink().bytes()).is_some() && sink.sink().bytes().len() == then
        );
    }
    Ok(())
}

const COMPILE: Command = Command {
    program: Program::Ffm,
    words: &["ffm", "compile", "system"],
};

// A manifest's file of so many blanks is no JSON, and of one more too long.
#[test]
fn the_longest_file(rt: HostRuntime) -> Result<(), Fail> {
    for (length, text) in [
        (1_048_576, "refused 1 Json system /manifests/0\n"),
        (1_048_577, "refused 23 FileTooLong system /manifests/0\n"),
    ] {
        let system = r#"{"isolation_level":1,"manifests":["blanks"]}"#;
        let mut files = files_of(rt.alloc(), &[("system", system)])?;
        files.add(rt.alloc(), "blanks", &vec![in rt.alloc(); b' '; length]?)?;
        let sink = sink_of(rt.alloc(), 1024, 256, 0)?;
        let found = run(&rt, rt.alloc(), &OpenGate, COMPILE, files, sink)?;
        assert_told(&rt, COMPILE, &found, 1, text.as_bytes());
    }
    Ok(())
}

// A system file that is cut anywhere before its last brace.
#[test]
fn each_cut_system(rt: HostRuntime) -> Result<(), Fail> {
    for command in [RUN, REPLAY, AUDIT] {
        for length in 0..VAULT.len() {
            if let Some((cut, _)) = VAULT.split_at_checked(length) {
                let found = told_over(&rt, rt.alloc(), command, (cut, "{}", b"quiet 0\n"))?;
                assert_told(&rt, command, &found, 1, b"refused 1 Json system\n");
            }
        }
    }
    Ok(())
}
