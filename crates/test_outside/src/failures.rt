//! The commands of both programs over reads that fail, and into sinks that fail, take a byte a put, or gather.

use crate::told::{Command, Program, Told, assert_told, files_of, run, sink_of, status_of};
use ffm_model::{List, OpenGate};
use outside_io::{Gathering, MemorySink, Sink};
use std::alloc::Global;
use std::sync::Wait;
use std::test::Fail;
use std::thread::Threads;

const SYSTEM: &str = r#"{"isolation_level":3,"manifests":["manifest"],"clients":["NS"]}"#;

const MANIFEST: &str =
    r#"{"psa_framework_version":1.0,"name":"VAULT","type":"APPLICATION-ROT","priority":"NORMAL",
"entry_point":"main","stack_size":"0x400","services":[{"name":"VAULT","sid":"0x40","non_secure_clients":true}]}"#;

// The service answers that it is busy.
const SCENARIO: &str = r#"{"scripts":[
{"actor":"VAULT","lines":["wait 0x10 0x80000000","get r0 0x30000000","reply r2 -131"]},
{"actor":"NS","lines":["connect 0x40 1"]}]}"#;

const TRACE: &str = "p1 wait 0x00000010 0x80000000 -> blocked
n1 connect 0x00000040 1 -> blocked
p1 resume -> signals 0x00000010
p1 get 0x00000010 0x30000000 -> message -1 1536 -1 0x00000000 0 0 0 0 0 0 0 0
p1 reply 1536 -131 -> done
n1 resume -> value -131
p1 stop end -> done
n1 stop end -> done
quiet 8
";

const FILES: [(&str, &str); 4] = [
    ("system", SYSTEM),
    ("manifest", MANIFEST),
    ("scenario", SCENARIO),
    ("trace", TRACE),
];

/// A command, how many files are read for it, and what it tells over the files.
struct Case {
    command: Command<'static>,
    reads: u32,
    status: u8,
    text: &'static str,
}

const CASES: [Case; 12] = [
    Case {
        command: Command {
            program: Program::Ffm,
            words: &["ffm", "compile", "system"],
        },
        reads: 2,
        status: 0,
        text: "isolation 3
partition 1 VAULT APPLICATION-ROT NORMAL domain 1 ram 0x30000000 0x00000400
service VAULT sid 0x00000040 version 1 STRICT nonsecure yes signal 0x00000010
nonsecure ram 0x20000000 0x00010000
client -1 NS
connections NS VAULT 1
admitted 1 partitions 1 services 1 connections
",
    },
    Case {
        command: Command {
            program: Program::Ffm,
            words: &["ffm", "run", "system", "scenario"],
        },
        reads: 3,
        status: 0,
        text: TRACE,
    },
    Case {
        command: Command {
            program: Program::Ffm,
            words: &["ffm", "replay", "system", "scenario", "trace"],
        },
        reads: 4,
        status: 0,
        text: "legal 8\n",
    },
    Case {
        command: Command {
            program: Program::Ffm,
            words: &["ffm", "audit", "system", "scenario", "trace"],
        },
        reads: 4,
        status: 0,
        text: "4 0x30000000 9 -\nclean 8\n",
    },
    Case {
        command: Command {
            program: Program::Ffm,
            words: &["ffm", "make", "1"],
        },
        reads: 0,
        status: 0,
        text: "make 1 entries 352 bytes 128 quiet\n",
    },
    Case {
        command: Command {
            program: Program::Ffm,
            words: &["ffm", "run", "system"],
        },
        reads: 0,
        status: 2,
        text: "usage: ffm compile SYSTEM | ffm run [--threads] SYSTEM SCENARIO | ffm replay SYSTEM SCENARIO TRACE | ffm audit SYSTEM SCENARIO TRACE | ffm make N\n",
    },
    Case {
        command: Command {
            program: Program::Ffm,
            words: &["ffm", "compile", "manifest"],
        },
        reads: 1,
        status: 1,
        text: "refused 2 MissingAttribute system /isolation_level\n",
    },
    Case {
        command: Command {
            program: Program::View,
            words: &["ffm_view", "state", "system", "scenario", "trace", "0"],
        },
        reads: 4,
        status: 0,
        text: "state at the opening, of 8
actors, each with the place of its last entry
  VAULT  p1      -  runs
  NS     n1      -  runs
no connection
no message
no doorbell asserted
scripts, each with what it calls next and its registers that aren't 0
  VAULT    line 0   wait 0x10 0x80000000                          -
  NS       line 0   connect 0x40 1                                -
",
    },
    Case {
        command: Command {
            program: Program::View,
            words: &["ffm_view", "why", "system", "scenario", "trace"],
        },
        reads: 4,
        status: 0,
        text: "legal 8\n",
    },
    Case {
        command: Command {
            program: Program::View,
            words: &[
                "ffm_view", "diagram", "system", "scenario", "trace", "--to", "3",
            ],
        },
        reads: 4,
        status: 0,
        text: "sequenceDiagram
    participant p1 as p1 VAULT
    participant n1 as n1 NS
    n1->>p1: 2 connect VAULT
    Note over p1: 3 wakes: VAULT
    Note over p1,n1: up to entry 3 of 8
",
    },
    Case {
        command: Command {
            program: Program::View,
            words: &["ffm_view", "stats", "system", "scenario", "trace"],
        },
        reads: 4,
        status: 0,
        text: "8 legal entries of 8
entries by actor and call
  VAULT  p1       5
      psa_wait                   1
      psa_get                    1
      psa_reply                  1
      stop                       1
      resume                     1
  NS     n1       3
      psa_connect                1
      stop                       1
      resume                     1
no bytes moved
longest wait of each actor, in entries
  VAULT  p1       2  psa_wait at entry 1
  NS     n1       4  psa_connect at entry 2
most at a time, of those declared
  connections 1 of 1
  messages    1 of 1
",
    },
    Case {
        command: Command {
            program: Program::View,
            words: &["ffm_view", "--version"],
        },
        reads: 0,
        status: 0,
        text: "ffm_view 1.0.0\n",
    },
];

// What a command tells where the read with this number fails, and the put with this one, each from 1 on, and a put
// takes a byte.
fn told_with<R: Threads + Wait + Sync>(
    rt: &R,
    alloc: Global,
    command: Command,
    failing_read: u32,
    failing_put: u32,
) -> Result<Told, Fail> {
    let mut files = files_of(alloc, &FILES)?;
    files.fail_at(List::of(vec![in alloc; failing_read]?));
    let sink = sink_of(alloc, 1024, 1, failing_put)?;
    Ok(run(rt, alloc, &OpenGate, command, files, sink)?)
}

// A read that fails is told by 7, and nothing is written. One after the last that is made changes nothing.
#[test]
fn each_read_fails(rt: HostRuntime) -> Result<(), Fail> {
    for case in &CASES {
        for failing in 1..6u32 {
            let found = told_with(&rt, rt.alloc(), case.command, failing, 0)?;
            if failing <= case.reads {
                assert_told(&rt, case.command, &found, 7, b"");
            } else {
                assert_told(&rt, case.command, &found, case.status, case.text.as_bytes());
            }
        }
    }
    Ok(())
}

// A put that fails is told by 8, and the bytes before it are written: at the first byte, each 61st and the last.
#[test]
fn puts_that_fail(rt: HostRuntime) -> Result<(), Fail> {
    for case in &CASES {
        let text = case.text.as_bytes();
        let mut failing: u32 = 0;
        for before in 0..text.len() {
            failing = failing.saturating_add(1);
            if before % 61 == 0 || before + 1 == text.len() {
                let found = told_with(&rt, rt.alloc(), case.command, 0, failing)?;
                assert_told(&rt, case.command, &found, 8, &text[..before]);
            }
        }
    }
    Ok(())
}

// The first hand-on fails, which is told by 8. The text waits whole, and the next one hands on nothing else.
#[test]
fn output_that_waits(rt: HostRuntime) -> Result<(), Fail> {
    for case in &CASES {
        let files = files_of(rt.alloc(), &FILES)?;
        let mut sink: Gathering<MemorySink> = Gathering::of(sink_of(rt.alloc(), 1024, 1024, 1)?);
        let command = case.command;
        let status = status_of(&rt, rt.alloc(), &OpenGate, command, files, &mut sink)?;
        assert!(rt; status == 8 && sink.sink().bytes().is_empty());
        assert!(rt; sink.flush().is_ok());
        assert!(rt; sink.sink().bytes() == case.text.as_bytes());
    }
    Ok(())
}
