//! Outcomes, read from the words of a line.

ghost use Rattle.std.specs.Prelude.{◌≡◌};
ghost use Rattle.std.specs.Option.{option_map};
ghost use Rattle.trace_print.specs.Reading.{sizes_at, message_at, value_at, number_at, signals_at, outcome_named, outcome_at};
ghost use Rattle.trace_print.specs.View.{words_of, seen};

use crate::number::{Words, hexadecimal, signed, unsigned, word};
use ffm_model::{Handle, Message, Outcome};

/// An outcome, and the words after it.
pub type OutcomeAndRest<'a> = Option<(Outcome, Words<'a>)>;

#[tactic(auto, unfolding(crate::specs::Reading::sizes_at))]
fn sizes<'a>(words: Words<'a>) -> Option<([u32; 4], Words<'a>)>
    ensures { option_map seen result ≡ sizes_at (words_of words.entry) }
{
    let (first, words) = unsigned(words)?;
    let (second, words) = unsigned(words)?;
    let (third, words) = unsigned(words)?;
    let (fourth, words) = unsigned(words)?;
    Some(([first, second, third, fourth], words))
}

#[tactic(auto, unfolding(crate::specs::Reading::message_at))]
fn message<'a>(words: Words<'a>) -> OutcomeAndRest<'a>
    ensures { option_map seen result ≡ message_at (words_of words.entry) }
{
    let (kind, words) = signed(words)?;
    let (handle, words) = signed(words)?;
    let (client_id, words) = signed(words)?;
    let (rhandle, words) = hexadecimal(words)?;
    let (in_size, words) = sizes(words)?;
    let (out_size, words) = sizes(words)?;
    let message = Message {
        kind,
        handle: Handle(handle),
        client_id,
        rhandle,
        in_size,
        out_size,
    };
    Some((Outcome::Got(message), words))
}

#[tactic(auto, unfolding(crate::specs::Reading::value_at))]
fn value<'a>(words: Words<'a>) -> OutcomeAndRest<'a>
    ensures { option_map seen result ≡ value_at (words_of words.entry) }
{
    let (n, words) = signed(words)?;
    Some((Outcome::Value(n), words))
}

#[tactic(auto, unfolding(crate::specs::Reading::number_at))]
fn amount<'a>(words: Words<'a>) -> OutcomeAndRest<'a>
    ensures { option_map seen result ≡ number_at (words_of words.entry) }
{
    let (n, words) = unsigned(words)?;
    Some((Outcome::Number(n), words))
}

#[tactic(auto, unfolding(crate::specs::Reading::signals_at))]
fn signals<'a>(words: Words<'a>) -> OutcomeAndRest<'a>
    ensures { option_map seen result ≡ signals_at (words_of words.entry) }
{
    let (n, words) = hexadecimal(words)?;
    Some((Outcome::Signals(n), words))
}

/// The outcome that the first words spell, and the words after it.
#[tactic(auto, unfolding(crate::specs::Reading::outcome_named))]
pub fn outcome<'a>(words: Words<'a>) -> OutcomeAndRest<'a>
    ensures { option_map seen result ≡ outcome_at (words_of words.entry) }
{
    let (name, words) = word(words)?;
    if name == b"value".as_slice() {
        value(words)
    } else if name == b"number".as_slice() {
        amount(words)
    } else if name == b"signals".as_slice() {
        signals(words)
    } else if name == b"message".as_slice() {
        message(words)
    } else if name == b"blocked".as_slice() {
        Some((Outcome::Blocked, words))
    } else if name == b"done".as_slice() {
        Some((Outcome::Done, words))
    } else if name == b"panicked".as_slice() {
        Some((Outcome::Panicked, words))
    } else {
        None
    }
}
