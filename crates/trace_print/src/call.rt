//! Calls, read from the words of a line.

ghost use Rattle.std.specs.Prelude.{◌≡◌, ◌≤◌, length};
ghost use Rattle.std.specs.Option.{option_map};
ghost use Rattle.ffm_model.specs.Signatures.{signature_in, signatures};
ghost use Rattle.trace_print.specs.Reading.{call_at, call_with, event_named, first_by, operand_of, operands_at, spent_of, stop_at};
ghost use Rattle.trace_print.specs.View.{words_of, seen};

use crate::number::{Words, hexadecimal, signed, unsigned, word};
use arrayvec::ArrayVec;
use ffm_model::{Call, OperandKind, call_of, signature_of};

/// A call, and the words after it.
pub type CallAndRest<'a> = Option<(Call, Words<'a>)>;

// The 32 bits of an operand, and the words after it.
fn operand<'a>(kind: OperandKind, words: Words<'a>) -> Option<(u32, Words<'a>)>
    ensures { option_map seen result ≡ first_by (operand_of kind) (words_of words.entry) }
{
    match kind {
        OperandKind::Hexadecimal => hexadecimal(words),
        OperandKind::Unsigned => unsigned(words),
        OperandKind::Signed => {
            let (n, words) = signed(words)?;
            Some((n.cast_unsigned(), words))
        }
    }
}

// The bits of an operand of each kind, and the words after them.
#[tactic(auto, unfolding(crate::specs::Reading::operands_at), using(crate::proofs::Operands::goes_on, crate::proofs::Operands::stops, crate::proofs::Operands::ends))]
fn operands<'a>(kinds: &[OperandKind], words: Words<'a>) -> Option<(ArrayVec<u32, 6>, Words<'a>)>
    requires { length kinds.now ≤ 6 }
    ensures { option_map (λ r. (r.0.items, words_of r.1)) result
        ≡ operands_at kinds.now (words_of words.entry) }
{
    let mut operands = ArrayVec::new();
    let mut words = words;
    for kind in kinds {
        let (n, rest) = operand(*kind, words)?;
        operands.push(n);
        words = rest;
    }
    Some((operands, words))
}

// Whether a stop says that the script's steps are spent.
fn spent_of(word: &[u8]) -> Option<bool>
    ensures { result ≡ spent_of word.now }
{
    if word == b"end".as_slice() {
        Some(false)
    } else if word == b"spent".as_slice() {
        Some(true)
    } else {
        None
    }
}

#[tactic(auto, unfolding(crate::specs::Reading::stop_at))]
fn stop<'a>(words: Words<'a>) -> CallAndRest<'a>
    ensures { option_map seen result ≡ stop_at (words_of words.entry) }
{
    let (word, words) = word(words)?;
    let spent = spent_of(word)?;
    Some((Call::Stop { spent }, words))
}

// A stop, or the return of a call that waited.
#[tactic(auto, unfolding(crate::specs::Reading::event_named))]
fn event<'a>(name: &[u8], words: Words<'a>) -> CallAndRest<'a>
    ensures { option_map seen result ≡ event_named name.now (words_of words.entry) }
{
    if name == b"stop".as_slice() {
        stop(words)
    } else if name == b"resume".as_slice() {
        Some((Call::Resume, words))
    } else {
        None
    }
}

// The call of that name.
#[tactic(auto, unfolding(crate::specs::Reading::call_by))]
fn call_named<'a>(name: &[u8], words: Words<'a>) -> CallAndRest<'a>
    ensures { option_map seen result
        ≡ call_with (signature_in signatures name.now) name.now (words_of words.entry) }
{
    match signature_of(name) {
        Some((_, name, kinds)) => {
            let (operands, words) = operands(kinds, words)?;
            Some((call_of(name, operands.as_slice()), words))
        }
        None => event(name, words),
    }
}

/// The call that the first words spell, and the words after it.
pub fn call<'a>(words: Words<'a>) -> CallAndRest<'a>
    ensures { option_map seen result ≡ call_at (words_of words.entry) }
{
    let (name, words) = word(words)?;
    // As many lines as make a call that waits, and no signature has their word.
    if name == b"resume".as_slice() {
        return Some((Call::Resume, words));
    }
    call_named(name, words)
}
