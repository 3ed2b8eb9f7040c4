//! Entries by their lines.
ghost use Rattle.std.specs.Prelude.{◌≡◌, ◌∷◌, [], IfOk, MatchOption};
ghost use Rattle.ffm_model.specs.declared.machine.Entry.{Entry as EntrySeen};
ghost use Rattle.program_words.specs.Entries.{IsEntryText};

use ffm_model::{Entry, Memory, System, Trace, Verdict};
use std::alloc::Global;
use trace_print::{TraceError, read_trace};

// The entry of a quiet trace that has no other.
fn only_entry(trace: &Trace) -> Option<Entry>
    ensures { MatchOption result
        ((e : EntrySeen) → trace.now.entries ≡ e ∷ [] → trace.now.verdict ≡ Verdict.Quiet → ⊥)
        (λ e. (trace.now.entries ≡ e ∷ []) × (trace.now.verdict ≡ Verdict.Quiet)) }
{
    match (trace.entries.as_slice(), trace.verdict) {
        ([entry], Verdict::Quiet) => Some(*entry),
        _ => None,
    }
}

/// The entry that has this line in a trace. `Memory` where no memory is found.
pub fn entry_of(alloc: Global, system: &System, line: &str) -> Result<Option<Entry>, Memory>
    ensures { IfOk result (λ found. MatchOption found
        ((e : EntrySeen) → IsEntryText system.now line.now e → ⊥)
        (IsEntryText system.now line.now)) }
{
    let text = format!(in alloc; "{line}\nquiet 1\n")?;
    match read_trace(alloc, system.counts(), text.as_bytes()) {
        Ok(trace) => Ok(only_entry(&trace)),
        Err(TraceError::Syntax { .. }) => Ok(None),
        Err(TraceError::Memory) => Err(Memory),
    }
}
