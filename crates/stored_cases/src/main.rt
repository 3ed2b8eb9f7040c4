//! Does the commands of a list, one after the other: each line of the list is written, then all that its
//! command writes, and then the command's status. A heading is written alone.
#![tactic(auto)]

use anyhow::{Context, Result, bail};
use explore_commands::{Progress, ffm_explore};
use ffm_model::OpenGate;
use ffm_top::ffm;
use file_places::KeptFiles;
use outside_io::{HostFiles, StdoutSink};
use sha2::{Digest, Sha256};
use std::alloc::{AllocError, Global};
use std::io::Eprint;
use std::sync::Wait;
use std::thread::Threads;
use std::time::Clock;
use std::{fs, rt};
use view_commands::ffm_view;

// The list, in the folder in which the program runs.
const LIST: &str = "commands.txt";

/// What a line of the list is.
#[derive(Clone, Copy)]
enum Line {
    Heading,

    /// A command of `ffm`.
    Ffm,

    /// A command of `ffm_view`.
    FfmView,

    /// A command of `ffm_explore`.
    FfmExplore,

    /// A command that writes the SHA-256 digests of the files that it names.
    Digests,
}

impl Line {
    // What a line is that begins with this word; `None` for a word with which none begins.
    fn of(word: &str) -> Option<Line> {
        match word {
            "#" => Some(Line::Heading),
            "ffm" => Some(Line::Ffm),
            "ffm_view" => Some(Line::FfmView),
            "ffm_explore" => Some(Line::FfmExplore),
            "sha256sum" => Some(Line::Digests),
            _ => None,
        }
    }
}

// The words of a line. The last one may hold spaces, between single quotation marks.
fn words_of(alloc: Global, line: &str) -> Result<Vec<String>, AllocError> {
    let quoted = line
        .strip_suffix('\'')
        .and_then(|line| line.split_once(" '"));
    let (line, last) = match quoted {
        Some((line, last)) => (line, Some(last)),
        None => (line, None),
    };
    let mut words = Vec::new(alloc);
    for word in line.split(' ') {
        words.push(String::from_str(alloc, word)?)?;
    }
    if let Some(last) = last {
        words.push(String::from_str(alloc, last)?)?;
    }
    Ok(words)
}

// Writes the digest of each file that stands behind the first word, before its name.
fn write_digests<R: rt::Files + Print + AllocGlobal>(rt: &R, words: &[String]) -> Result<()> {
    for name in words.iter().skip(1) {
        let bytes = fs::read(rt, name).context(format_args!("reading {name}"))?;
        let digest = hex::encode(rt.alloc(), Sha256::digest(&bytes))?;
        println!(rt; "{digest}  {name}")?;
    }
    Ok(())
}

// Does what a line asks for, and writes the status after it.
fn do_line<R>(rt: &R, line: &str) -> Result<()>
where
    R: rt::Files + Print + Eprint + Clock + AllocGlobal + Threads + Wait + Sync,
{
    let words = words_of(rt.alloc(), line)?;
    let Some(kind) = words.first().and_then(|word| Line::of(word)) else {
        bail!("no command: {line}");
    };
    let (mut files, mut out) = (HostFiles::new(rt), StdoutSink::new(rt));
    let status = match kind {
        Line::Heading => return Ok(()),
        Line::Ffm => ffm(rt, rt.alloc(), &words, &mut files, &mut out, &OpenGate),
        Line::FfmView => {
            let mut files = KeptFiles::of(rt.alloc(), files);
            ffm_view(rt.alloc(), &words, &mut files, &mut out)
        }
        Line::FfmExplore => {
            let mut files = KeptFiles::of(rt.alloc(), files);
            let mut unsaid = Progress::new(rt, false);
            ffm_explore(rt.alloc(), &words, &mut files, &mut out, &mut unsaid)
        }
        Line::Digests => {
            write_digests(rt, &words)?;
            0
        }
    };
    println!(rt; "status {status}")?;
    Ok(())
}

fn main(rt: HostRuntime) -> Result<()> {
    let list = fs::read_to_string(&rt, LIST).context("reading the list of commands")?;
    for line in list.lines() {
        println!(rt; "{line}")?;
        do_line(&rt, line)?;
    }
    Ok(())
}
