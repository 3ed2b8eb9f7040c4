//! Whole traces, read line by line.

ghost use Rattle.std.specs.Prelude.{◌≡◌, ◌≤◌, ℕ, length, IfOk, IfErr};
ghost use Rattle.std.specs.Prelude as prelude;
ghost use Rattle.std.specs.List.{AllByRecursion};
ghost use Rattle.ffm_model.specs.declared.machine.Entry.{Entry};
ghost use Rattle.ffm_model.specs.declared.machine.Verdict.{Verdict};
ghost use Rattle.ffm_model.specs.declared.constants.TheConstants.{MAX_ENTRIES};
ghost use Rattle.ffm_model.specs.TraceText.{trace_text, EntryFits};
ghost use Rattle.trace_print.specs.Answers.{ReadsLine, ReadsTrace, TellsFirstWrong};
ghost use Rattle.trace_print.specs.Lines.{verdict_of, IsFirstWrong};
ghost use Rattle.trace_print.specs.View.{parts};

use crate::error::TraceError;
use crate::line::verdict_text;
use crate::number::split_line;
use crate::read::entry_of;
use ffm_model::{Counts, Entry, List, MAX_ENTRIES, Trace, Verdict};
use std::alloc::Global;

/// A line of a trace: an entry's, with how many bytes it has, or the verdict's.
#[derive(Clone, Copy, Debug)]
pub enum TraceLine {
    Entry { entry: Entry, length: usize },
    Verdict(Verdict),
}

// The verdict whose text this is, after so many entries.
#[tactic(auto, unfolding(crate::specs::Lines::verdict_of))]
fn verdict_of(count: u32, text: &[u8]) -> Option<Verdict>
    ensures { result ≡ verdict_of count text.now }
{
    if verdict_text(Verdict::Quiet, count).as_slice() == text {
        Some(Verdict::Quiet)
    } else if verdict_text(Verdict::Stalled, count).as_slice() == text {
        Some(Verdict::Stalled)
    } else if verdict_text(Verdict::Full, count).as_slice() == text {
        Some(Verdict::Full)
    } else {
        None
    }
}

// The first line of a text, after so many entries, or the number of the line that is wrong.
fn first_line(counts: Counts, count: u32, text: &[u8]) -> Result<TraceLine, u32>
    requires { count ≤ MAX_ENTRIES }
    ensures { ReadsLine counts count text.now result }
{
    let (line, rest) = split_line(text);
    let Some(rest) = rest else {
        return Err(count + 1);
    };
    let length = line.len() + 1;
    let has_room = count < MAX_ENTRIES;
    match entry_of(counts, line) {
        Some(entry) if has_room => Ok(TraceLine::Entry { entry, length }),
        Some(_) => Err(count + 1),
        None => match verdict_of(count, line) {
            Some(verdict) if rest.is_empty() => Ok(TraceLine::Verdict(verdict)),
            Some(_) => Err(count + 2),
            None => Err(count + 1),
        },
    }
}

/// The trace whose text this is: entries in range and of actors that the counts name, at most
/// `MAX_ENTRIES` of them, and the verdict. Of any other text it tells the first wrong line, counted
/// from 1. Its entries are all the memory that it takes, and where none is found it answers
/// `Memory`.
pub fn read_trace(alloc: Global, counts: Counts, bytes: &[u8]) -> Result<Trace, TraceError>
    // The text is that of the trace.
    ensures found { IfOk result (λ t. bytes.now ≡ trace_text counts t.entries t.verdict) }
    ensures fits { IfOk result (λ t. AllByRecursion (EntryFits counts) t.entries) }
    ensures few { IfOk result (λ t. length t.entries ≤ MAX_ENTRIES) }
    // The text of such a trace is read as that trace.
    ensures only { (es : prelude.List Entry) (v : Verdict) → AllByRecursion (EntryFits counts) es
        → length es ≤ MAX_ENTRIES → bytes.now ≡ trace_text counts es v
        → ReadsTrace es v result }
    // Of another text the first wrong line is told.
    ensures wrong { IfErr result (λ e. TellsFirstWrong counts bytes.now e) }
{
    let mut entries = Vec::new(alloc);
    let mut count = 0;
    let mut start = 0;
    while start < bytes.len() {
        match first_line(counts, count, &bytes[start..]) {
            Ok(TraceLine::Entry { entry, length }) => {
                entries.push(entry)?;
                count += 1;
                start += length;
            }
            Ok(TraceLine::Verdict(verdict)) => {
                let entries = List::of(entries);
                return Ok(Trace { entries, verdict });
            }
            Err(line) => return Err(TraceError::Syntax { line }),
        }
    }
    Err(TraceError::Syntax { line: count + 1 })
}

/// Two traces have the same text only where they are the same, with entries in range and of actors
/// that the counts name.
pub fn texts_differ(counts: Counts)
    ensures { (ds es : prelude.List Entry) (v w : Verdict) → AllByRecursion (EntryFits counts) ds
        → AllByRecursion (EntryFits counts) es → trace_text counts ds v ≡ trace_text counts es w
        → (ds ≡ es) × (v ≡ w) }
{
    let _counts = counts;
}

/// A text has at most one first wrong line, so the text alone settles which line `read_trace` tells.
pub fn one_wrong_line(counts: Counts)
    ensures { (bytes : prelude.List ℕ) (j k : ℕ) → IsFirstWrong counts 0 (parts 10 bytes) j
        → IsFirstWrong counts 0 (parts 10 bytes) k
        → j ≡ k }
{
    let _counts = counts;
}
