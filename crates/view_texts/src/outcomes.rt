//! Entries and outcomes as a trace has them.
ghost use Rattle.std.specs.Prelude.{◌≡◌, ◌<◌, ◌++◌, OnOk, map};
ghost use Rattle.std.specs.List.{flat_map};
ghost use Rattle.ffm_model.specs.TraceText.{size_fields, spaced_field};
ghost use Rattle.view_texts.specs.Outcomes.{entry_line, message_words, outcome_text};

use ffm_model::{Entry, Message, Outcome, System};
use std::alloc::AllocError;
use text_lines::{Word, append, append_words};
use trace_print::print;

/// Appends the line of an entry, with its line feed, where the system has its actor; else a line feed.
#[tactic(auto, unfolding(crate::specs::Outcomes::entry_line), using(crate::proofs::Actors::known))]
pub fn put_entry(text: &mut Vec<u8>, system: &System, entry: &Entry) -> Result<(), AllocError>
    ensures { OnOk result (text.new.items ≡ text.old.items ++ entry_line system.now entry.now) }
{
    if entry.actor.0 < system.actor_count() {
        text.extend_from_slice(print(system.counts(), entry).as_slice())
    } else {
        append(text, "\n")
    }
}

fn put_sizes(text: &mut Vec<u8>, sizes: &[u32]) -> Result<(), AllocError>
    ensures { OnOk result
        (text.new.items ≡ text.old.items ++ flat_map spaced_field (size_fields sizes.now)) }
{
    for size in sizes {
        append_words(text, &[Word::Text(" "), Word::Number(*size)])?;
    }
    Ok(())
}

// Appends a message without its sizes.
fn put_message_words(text: &mut Vec<u8>, message: &Message) -> Result<(), AllocError>
    ensures { OnOk result (text.new.items ≡ text.old.items ++ message_words message.now) }
{
    let words = [
        Word::Text("message "),
        Word::Signed(message.kind),
        Word::Text(" "),
        Word::Signed(message.handle.0),
        Word::Text(" "),
        Word::Signed(message.client_id),
        Word::Text(" "),
        Word::Hexadecimal(message.rhandle),
    ];
    append_words(text, &words)
}

fn put_message(text: &mut Vec<u8>, message: &Message) -> Result<(), AllocError>
    ensures { OnOk result
        (text.new.items ≡ text.old.items ++ outcome_text (Outcome.Got message.now)) }
{
    put_message_words(text, message)?;
    put_sizes(text, &message.in_size)?;
    put_sizes(text, &message.out_size)
}

/// Appends an outcome.
#[tactic(auto, unfolding(crate::specs::Outcomes::outcome_text))]
pub fn put_outcome(text: &mut Vec<u8>, outcome: Outcome) -> Result<(), AllocError>
    ensures { OnOk result (text.new.items ≡ text.old.items ++ outcome_text outcome) }
{
    match outcome {
        Outcome::Value(n) => append_words(text, &[Word::Text("value "), Word::Signed(n)]),
        Outcome::Number(n) => append_words(text, &[Word::Text("number "), Word::Number(n)]),
        Outcome::Signals(n) => append_words(text, &[Word::Text("signals "), Word::Hexadecimal(n)]),
        Outcome::Got(message) => put_message(text, &message),
        Outcome::Blocked => append(text, "blocked"),
        Outcome::Done => append(text, "done"),
        Outcome::Panicked => append(text, "panicked"),
    }
}
