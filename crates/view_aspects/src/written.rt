//! The texts of what is shown of a trace, and the statuses.
ghost use Rattle.std.specs.Prelude.{◌≡◌, IfOk, string_bytes};
ghost use Rattle.view_json.specs.Values.{error_json};
ghost use Rattle.view_aspects.specs.Traces.{AreTraceFiles};
ghost use Rattle.view_aspects.specs.Written.{IsViewText, IsWritten, Shows, no_actor_line, no_call_line, no_place_line, no_state_line, status_of};

use crate::scripts::{rows_of, text_with_scripts};
use crate::traces::TraceFiles;
use crate::view::{View, view_of};
use ffm_model::Memory;
use program_words::Answer;
use program_words::view::{Request, Writing};
use std::alloc::{AllocError, Global};
use view_json::{error_json, legal_entry_json, state_json, stats_json, why_json};
use view_places::{Finding, ask_text, legal_entry_text, why_text};
use view_texts::stats_text;

fn no_place(alloc: Global, place: u32, total: u32) -> Result<String, AllocError>
    ensures { IfOk result (λ line. string_bytes line ≡ no_place_line place total) }
{
    format!(in alloc; "no entry {place}: the trace has {total}\n")
}

fn no_state(alloc: Global, illegal: u32, place: u32) -> Result<String, AllocError>
    ensures { IfOk result (λ line. string_bytes line ≡ no_state_line illegal place) }
{
    format!(in alloc;
        "entry {illegal} is illegal: no state after entry {place}; ffm_view why tells more\n"
    )
}

fn no_call(alloc: Global) -> Result<String, AllocError>
    ensures { IfOk result (λ line. string_bytes line ≡ no_call_line) }
{
    format!(in alloc;
        "no call: it takes an actor of the system and a call, in one word, as a trace has them before ->\n"
    )
}

fn no_actor(alloc: Global, name: &str) -> Result<String, AllocError>
    ensures { IfOk result (λ line. string_bytes line ≡ no_actor_line name.now) }
{
    format!(in alloc; "no actor {name}\n")
}

// A line that says why nothing is shown, as it is to be written.
fn line_written(alloc: Global, line: String, writing: Writing) -> Result<Vec<u8>, AllocError>
    ensures { IfOk result (λ text.
        IsWritten writing (string_bytes line) (error_json (string_bytes line)) text.items) }
{
    match writing {
        Writing::Text => Ok(line.into_bytes()),
        Writing::Json => error_json(alloc, line.as_bytes()),
    }
}

impl View {
    /// The text of what is shown of the files of a trace, as it is to be written.
    pub fn text(
        &self,
        alloc: Global,
        files: &TraceFiles,
        writing: Writing,
    ) -> Result<Vec<u8>, AllocError>
        ensures { IfOk result (λ text. IsViewText files.now writing self.now text.items) }
    {
        let system = &files.work.system;
        match (self, writing) {
            (View::State(after, scripts), Writing::Text) => {
                text_with_scripts(alloc, system, after, rows_of(scripts))
            }
            (View::State(after, scripts), Writing::Json) => {
                state_json(alloc, system, after, rows_of(scripts))
            }
            (View::Why(finding), Writing::Text) => why_text(alloc, system, finding),
            (View::Why(finding), Writing::Json) => why_json(alloc, system, finding),
            (View::LegalEntry { place, call }, Writing::Text) => {
                legal_entry_text(alloc, system, *place, call)
            }
            (View::LegalEntry { place, call }, Writing::Json) => {
                legal_entry_json(alloc, system, *place, call)
            }
            (View::Stats(counts), Writing::Text) => stats_text(alloc, system, counts),
            (View::Stats(counts), Writing::Json) => stats_json(alloc, system, counts),
            (View::NoPlace { place, total }, _) => {
                line_written(alloc, no_place(alloc, *place, *total)?, writing)
            }
            (View::NoState { illegal, place }, _) => {
                line_written(alloc, no_state(alloc, *illegal, *place)?, writing)
            }
            (View::Call(call), _) => ask_text(alloc, system, call),
            (View::NoCall, _) => Ok(no_call(alloc)?.into_bytes()),
            (View::NoActor(name), _) => Ok(no_actor(alloc, name.as_str())?.into_bytes()),
            (View::Diagram(drawn), _) => drawn.text(alloc, system, &files.trace),
        }
    }

    /// The status to end with.
    pub fn status(&self) -> u8
        ensures { result ≡ status_of self.now }
    {
        match self {
            View::NoPlace { .. } => 2,
            View::NoState { .. } => 6,
            View::NoCall | View::NoActor(_) => 2,
            View::Why(Finding::Legal(_)) => 0,
            View::Why(_) => 6,
            _ => 0,
        }
    }
}

/// What is asked for of the files of a trace: the text, and the status. `Memory` where no memory was found.
pub fn shown(alloc: Global, files: &TraceFiles, request: Request<'_>) -> Result<Answer, Memory>
    requires { AreTraceFiles files.now }
    ensures { IfOk result (λ answer.
        Shows files.now request.entry answer.text.items answer.status) }
{
    let view = view_of(alloc, files, request.aspect)?;
    let status = view.status();
    let text = view.text(alloc, files, request.writing)?;
    Ok(Answer { text, status })
}
