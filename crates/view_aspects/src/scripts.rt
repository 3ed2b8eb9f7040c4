//! Where the scripts stand after entries of a trace.
ghost use Rattle.std.specs.Prelude.{◌≡◌, ◌≤◌, ◌++◌, IfOk, length, take};
ghost use Rattle.std.specs.Option.{option_map};
ghost use Rattle.view_places.specs.StateText.{text_of_state};
ghost use Rattle.view_scripts.specs.ScriptsText.{scripts_text};
ghost use Rattle.view_aspects.specs.Traces.{AreTraceFiles};
ghost use Rattle.view_aspects.specs.Views.{AreScriptsAfter};

use crate::traces::TraceFiles;
use ffm_model::{Entry, Memory, System};
use std::alloc::{AllocError, Global};
use view_places::{StateAfter, state_text};
use view_scripts::{ScriptRow, put_scripts, script_rows};

// The first entries, or all where there are fewer.
#[tactic(auto, using(std::proofs::lemmas::List::take_all))]
fn first_entries(entries: &[Entry], count: u32) -> &[Entry]
    ensures first { result.now ≡ take count entries.now }
    ensures few { length result.now ≤ length entries.now }
{
    let count = count as usize;
    if count < entries.len() {
        &entries[..count]
    } else {
        entries
    }
}

/// Where the scripts stand after so many entries.
pub fn scripts_after(
    alloc: Global,
    files: &TraceFiles,
    count: u32,
) -> Result<Option<Vec<ScriptRow>>, Memory>
    requires { AreTraceFiles files.now }
    ensures { IfOk result (λ rows.
        AreScriptsAfter files.now count (option_map (λ rows. rows.items) rows)) }
{
    let entries = first_entries(files.trace.entries.as_slice(), count);
    script_rows(alloc, &files.work.system, &files.work.scenario, entries)
}

/// The rows, lent.
pub fn rows_of(scripts: &Option<Vec<ScriptRow>>) -> Option<&[ScriptRow]>
    ensures { option_map (λ rows. rows.now) result ≡ option_map (λ rows. rows.items) scripts.now }
{
    match scripts {
        Some(rows) => Some(rows.as_slice()),
        None => None,
    }
}

/// The text of a state, and behind it that of where the scripts stand.
pub fn text_with_scripts(
    alloc: Global,
    system: &System,
    after: &StateAfter,
    scripts: Option<&[ScriptRow]>,
) -> Result<Vec<u8>, AllocError>
    ensures { IfOk result (λ text. text.items ≡ text_of_state system.now after.now
        ++ scripts_text system.now (option_map (λ rows. rows.now) scripts.entry)) }
{
    let mut text = state_text(alloc, system, after)?;
    put_scripts(&mut text, system, scripts)?;
    Ok(text)
}
