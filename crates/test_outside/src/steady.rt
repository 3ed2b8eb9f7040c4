//! `ffm` over files and a sink that never fail.

use crate::told::{files_of, words_of};
use ffm_top::{asks_threads, ffm_steady};
use outside_io::{SteadyFiles, SteadySink};
use std::alloc::Global;
use std::process::Abort;
use std::test::Fail;

const SYSTEM: &str = r#"{"isolation_level":1,"manifests":[],"clients":["NS"]}"#;

// Fails unless this status comes of the words, the sink keeps this text, and so many files were read.
fn assert_steady(
    rt: &impl Abort,
    alloc: Global,
    words: &[&str],
    room: usize,
    (status, text, reads): (u8, &str, usize),
) -> Result<(), Fail> {
    let words = words_of(alloc, words)?;
    if asks_threads(&words) {
        return Err(Fail::from("a run with threads"));
    }
    let held = files_of(alloc, &[("system", SYSTEM), ("scenario", "{}")])?;
    let mut files = SteadyFiles::new(held);
    let mut sink = SteadySink::new(alloc, room)?;
    assert!(rt; ffm_steady(alloc, &words, &mut files, &mut sink) == status);
    assert!(rt; sink.bytes() == text.as_bytes());
    assert!(rt; files.reads().len() == reads);
    Ok(())
}

// A sink whose room is too small takes the text all the same, and keeps the lines that found room. A name that isn't
// held reads as an empty file.
#[test]
fn steady_pair(rt: HostRuntime) -> Result<(), Fail> {
    let run: &[&str] = &["ffm", "run", "system", "scenario"];
    let compile: &[&str] = &["ffm", "compile", "nothing"];
    for (words, room, told) in [
        (run, 64, (0, "n1 stop end -> done\nquiet 1\n", 2)),
        (run, 20, (0, "n1 stop end -> done\n", 2)),
        (compile, 64, (1, "refused 1 Json system\n", 1)),
    ] {
        assert_steady(&rt, rt.alloc(), words, room, told)?;
    }
    Ok(())
}
