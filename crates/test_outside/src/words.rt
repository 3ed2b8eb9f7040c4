//! Words as the operating system gives them, and what the programs end with.

use crate::told::{Program, files_of, sink_of};
use ffm_model::OpenGate;
use file_places::KeptFiles;
use outside_io::{MemoryFiles, MemorySink, Words, given_words};
use std::alloc::Global;
use std::env::FillError;
use std::io::Eprint;
use std::process::{Abort, ExitCode};
use std::sync::Wait;
use std::test::Fail;
use std::thread::Threads;

/// Words as the operating system gives them.
#[derive(Clone, Copy)]
struct Given<'a> {
    words: &'a [&'a [u8]],
}

impl Words for Given<'_> {
    ghost use Rattle.std.specs.Prelude.{None};

    ghost told = { λ _. None };

    fn word(&self, number: usize, room: &mut [u8]) -> Result<usize, FillError> {
        let Some(word) = self.words.get(number) else {
            return Err(FillError::NotPresent);
        };
        if word.len() > room.len() {
            return Err(FillError::TooLong);
        }
        room[..word.len()].copy_from_slice(word);
        Ok(word.len())
    }
}

// Words that are given, and the words that the program takes of them.
const WORDS: [(&[&[u8]], &[&str]); 4] = [
    (
        &[b"ffm", b"compile", b"syst\xc3\xa8me.json"],
        &["ffm", "compile", "syst\u{e8}me.json"],
    ),
    // A byte that UTF-8 doesn't have, half of a character, and the code of half of a surrogate pair.
    (&[b"ffm", b"compile", b"syst\xe8me.json"], &[]),
    (&[b"ffm", b"make\xc3", b"1"], &[]),
    (&[b"\xed\xa0\x80", b"make", b"1"], &[]),
];

fn assert_taken(rt: &impl Abort, taken: &[String], wanted: &[&str]) {
    assert!(rt; taken.len() == wanted.len());
    for (place, word) in wanted.iter().enumerate() {
        assert!(rt; taken[place].as_str() == *word);
    }
}

#[test]
fn words_in_utf_8(rt: HostRuntime) -> Result<(), Fail> {
    for (words, wanted) in WORDS {
        let taken = given_words(rt.alloc(), &Given { words })?;
        assert_taken(&rt, &taken, wanted);
    }
    Ok(())
}

// Words of so many bytes: as long as the first room for one, and longer than the first four.
#[test]
fn long_words(rt: HostRuntime) -> Result<(), Fail> {
    for size in [256, 257, 3000] {
        let word = vec![in rt.alloc(); b'a'; size]?;
        let words: [&[u8]; 3] = [b"ffm", word.as_slice(), b"end"];
        let taken = given_words(rt.alloc(), &Given { words: &words })?;
        assert!(rt; taken.len() == 3 && taken[1].as_bytes() == word.as_slice());
    }
    Ok(())
}

const USAGE: &str =
    "usage: ffm compile SYSTEM | ffm run [--threads] SYSTEM SCENARIO | ffm replay SYSTEM SCENARIO TRACE | ffm audit SYSTEM SCENARIO TRACE | ffm make N\n";

const NO_COMMAND: &str = "error: 'ffm_view' requires a subcommand but one was not provided
  [subcommands: state, why, ask, diagram, stats, explain, help]

Usage: ffm_view <COMMAND>

For more information, try '--help'.
";

// The words that a program is given, the room of its sink, the status that it ends with, and its text.
const ENDS: [(Program, &[&[u8]], usize, u8, &str); 11] = [
    (
        Program::Ffm,
        &[b"ffm", b"make", b"1"],
        64,
        0,
        "make 1 entries 352 bytes 128 quiet\n",
    ),
    (Program::Ffm, &[b"ffm", b"make", b"1"], 6, 8, "make 1"),
    (
        Program::Ffm,
        &[b"ffm", b"compile", b"system"],
        64,
        1,
        "refused 1 Json system\n",
    ),
    (Program::Ffm, &[b"ffm", b"compile", b"missing"], 64, 7, ""),
    // No word at all, one that isn't UTF-8, and an empty one where a number or a file is wanted.
    (Program::Ffm, &[], 1024, 2, USAGE),
    (
        Program::Ffm,
        &[b"ffm", b"make", b"1", b"\xff"],
        1024,
        2,
        USAGE,
    ),
    (Program::Ffm, &[b"ffm", b"make", b""], 1024, 2, USAGE),
    (
        Program::Ffm,
        &[b"ffm", b"replay", b"system", b"scenario", b""],
        1024,
        2,
        USAGE,
    ),
    (Program::View, &[], 1024, 2, NO_COMMAND),
    (
        Program::View,
        &[b"ffm_view", b"--version"],
        64,
        0,
        "ffm_view 1.0.0\n",
    ),
    (
        Program::View,
        &[b"ffm_view", b"why", b"missing", b"scenario", b"trace"],
        64,
        7,
        "",
    ),
];

fn ended<R: Threads + Wait + Eprint + Sync>(
    rt: &R,
    alloc: Global,
    program: Program,
    words: &Given,
    files: MemoryFiles,
    sink: &mut MemorySink,
) -> ExitCode {
    let mut files = KeptFiles::of(alloc, files);
    match program {
        Program::Ffm => ffm_top::program(rt, alloc, words, &mut files, sink, &OpenGate),
        Program::View => view_commands::program(rt, alloc, words, &mut files, sink),
    }
}

#[test]
fn exit_codes(rt: HostRuntime) -> Result<(), Fail> {
    for (program, words, room, status, text) in ENDS {
        let files = files_of(rt.alloc(), &[("system", "")])?;
        let mut sink = sink_of(rt.alloc(), room, 256, 0)?;
        let words = Given { words };
        let code = ended(&rt, rt.alloc(), program, &words, files, &mut sink);
        assert!(rt; code == ExitCode::from(status), "{text}");
        assert!(rt; sink.bytes() == text.as_bytes(), "{text}");
    }
    Ok(())
}
