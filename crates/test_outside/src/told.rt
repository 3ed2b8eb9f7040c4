//! Commands over files in memory, and what they tell.

ghost use Rattle.std.specs.Prelude.{◌<◌};

use ffm_model::{Gate, List, Memory};
use ffm_top::ffm;
use file_places::KeptFiles;
use outside_io::{MemoryFiles, MemorySink, Sink};
use std::alloc::{AllocError, Global};
use std::process::Abort;
use std::sync::Wait;
use std::thread::Threads;
use view_commands::ffm_view;

#[derive(Clone, Copy)]
pub(crate) enum Program {
    Ffm,
    View,
}

/// Words, and the program whose they are.
#[derive(Clone, Copy)]
pub(crate) struct Command<'a> {
    pub(crate) program: Program,
    pub(crate) words: &'a [&'a str],
}

/// A status, and the text that was written.
#[derive(Drop)]
pub(crate) struct Told {
    pub(crate) status: u8,
    pub(crate) text: Vec<u8>,
}

/// The words of a command line.
pub(crate) fn words_of(alloc: Global, words: &[&str]) -> Result<Vec<String>, AllocError> {
    let mut list = Vec::new(alloc);
    for word in words {
        list.push(String::from_str(alloc, word)?)?;
    }
    Ok(list)
}

/// Files with these names and texts, of which no read fails.
pub(crate) fn files_of(alloc: Global, held: &[(&str, &str)]) -> Result<MemoryFiles, Memory> {
    let mut files = MemoryFiles::new(alloc);
    for (name, text) in held {
        files.add(alloc, name, text.as_bytes())?;
    }
    Ok(files)
}

/// A sink with room for `room` bytes, of which a put takes `piece` at most. The put with the number
/// `failing` fails, from 1 on; at 0 none does as long as there is room.
pub(crate) fn sink_of(
    alloc: Global,
    room: usize,
    piece: usize,
    failing: u32,
) -> Result<MemorySink, Memory>
    requires { 0 < piece }
{
    MemorySink::new(alloc, room, piece, List::of(vec![in alloc; failing]?))
}

/// The status that comes of a command over these files, into this sink. Each event of a run in threads arrives at the
/// gate.
pub(crate) fn status_of<R: Threads + Wait + Sync, G: Gate + Sync, S: Sink>(
    rt: &R,
    alloc: Global,
    gate: &G,
    command: Command,
    files: MemoryFiles,
    sink: &mut S,
) -> Result<u8, AllocError> {
    let words = words_of(alloc, command.words)?;
    let mut files = KeptFiles::of(alloc, files);
    Ok(match command.program {
        Program::Ffm => ffm(rt, alloc, &words, &mut files, sink, gate),
        Program::View => ffm_view(alloc, &words, &mut files, sink),
    })
}

/// What a command tells over these files, into this sink.
pub(crate) fn run<R: Threads + Wait + Sync, G: Gate + Sync>(
    rt: &R,
    alloc: Global,
    gate: &G,
    command: Command,
    files: MemoryFiles,
    mut sink: MemorySink,
) -> Result<Told, AllocError> {
    let status = status_of(rt, alloc, gate, command, files, &mut sink)?;
    let text = sink.bytes().to_vec(alloc)?;
    Ok(Told { status, text })
}

/// Fails unless a command told this status and this text.
pub(crate) fn assert_told(
    rt: &impl Abort,
    command: Command,
    found: &Told,
    status: u8,
    text: &[u8],
) {
    let words = command.words;
    assert!(rt; found.text.as_slice() == text, "{words:?}");
    assert!(rt; found.status == status, "{words:?}");
}
