//! The text that tells what the machine answers to a call at a place of a trace.
ghost use Rattle.std.specs.Prelude.{◌≡◌, ◌++◌, IfOk, OnOk};
ghost use Rattle.view_places.specs.AskText.{ask_text, legal_entry_text, other_handles, reply_lines, told_lines};

use crate::asking::{CallAfter, Reply};
use crate::reasons_text::{put_actor_line, put_conditions, put_due, put_rule};
use ffm_model::System;
use std::alloc::{AllocError, Global};
use text_lines::{Word, append, append_words};
use view_texts::put_entry;

fn other_handles(gives_handle: bool) -> &'static str
    ensures { result.now ≡ other_handles gives_handle }
{
    if gives_handle {
        "        with this handle or any other fresh one\n"
    } else {
        ""
    }
}

// Appends the answer, or the rule by which the call may not be made.
fn put_reply(text: &mut Vec<u8>, system: &System, call: &CallAfter) -> Result<(), AllocError>
    ensures { OnOk result
        (text.new.items ≡ text.old.items ++ reply_lines system.now call.now call.now.reply) }
{
    match call.reply {
        Reply::Answer {
            outcome,
            gives_handle,
        } => {
            put_due(text, system, &call.entry, outcome)?;
            append(text, other_handles(gives_handle))?;
            put_conditions(
                text,
                call.entry.call,
                call.conditions.as_slice(),
                call.is_refused,
            )
        }
        Reply::Refused(rule) => put_rule(text, rule),
    }
}

#[tactic(auto, unfolding(crate::specs::AskText::told_lines))]
fn put_told(text: &mut Vec<u8>, system: &System, call: &CallAfter) -> Result<(), AllocError>
    ensures { OnOk result (text.new.items ≡ text.old.items ++ told_lines system.now call.now) }
{
    put_actor_line(text, system, call.entry.actor.0, call.doing.as_slice())?;
    put_reply(text, system, call)
}

/// The text of a call that is asked for. The only error is want of memory.
#[tactic(auto, unfolding(crate::specs::AskText::ask_text))]
pub fn ask_text(alloc: Global, system: &System, call: &CallAfter) -> Result<Vec<u8>, AllocError>
    ensures { IfOk result (λ text. text.items ≡ ask_text system.now call.now) }
{
    let mut text = Vec::new(alloc);
    append_words(
        &mut text,
        &[
            Word::Text("after entry "),
            Word::Number(call.count),
            Word::Text(" of "),
            Word::Number(call.total),
            Word::Text("\n"),
        ],
    )?;
    put_told(&mut text, system, call)?;
    Ok(text)
}

/// The text of the legal entry at a place, by its call after those before it. The only error is want of memory.
#[tactic(auto, unfolding(crate::specs::AskText::legal_entry_text))]
pub fn legal_entry_text(
    alloc: Global,
    system: &System,
    place: u32,
    call: &CallAfter,
) -> Result<Vec<u8>, AllocError>
    ensures { IfOk result (λ text. text.items ≡ legal_entry_text system.now place call.now) }
{
    let mut text = Vec::new(alloc);
    append_words(
        &mut text,
        &[
            Word::Text("entry "),
            Word::Number(place),
            Word::Text(" of "),
            Word::Number(call.total),
            Word::Text(" is legal\nentry   "),
        ],
    )?;
    put_entry(&mut text, system, &call.entry)?;
    put_told(&mut text, system, call)?;
    Ok(text)
}
