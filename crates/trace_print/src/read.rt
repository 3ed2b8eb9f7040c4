//! The entry whose text a line is.

ghost use Rattle.std.specs.Prelude.{◌≡◌, ◌<◌, ◌==◌, length, IfSome};
ghost use Rattle.ffm_model.specs.TraceText.{EntryFits};
ghost use Rattle.trace_print.specs.Reading.{place_of, actor_of, entry_at, entry_of};
ghost use Rattle.trace_print.specs.View.{words_of};

use crate::call::call;
use crate::number::{Words, unsigned_of, word};
use crate::outcome::outcome;
use ffm_model::{ActorId, Counts, Entry};

// The place of an actor among so many, whose number is one more.
fn place_of(count: u32, digits: &[u8]) -> Option<u32>
    ensures place { result ≡ place_of count digits.now }
    ensures below { IfSome result (λ k. k < count) }
{
    let n = unsigned_of(digits)?;
    if n >= 1 && n <= count {
        Some(n - 1)
    } else {
        None
    }
}

#[tactic(auto, unfolding(crate::specs::Reading::actor_of))]
fn actor_of(counts: Counts, word: &[u8]) -> Option<u32>
    ensures { result ≡ actor_of counts word.now }
{
    let (first, digits) = word.split_first()?;
    if *first == b'p' {
        place_of(counts.partitions, digits)
    } else if *first == b'n' {
        Some(counts.partitions + place_of(counts.clients, digits)?)
    } else if counts.device && word == b"dev".as_slice() {
        Some(counts.partitions + counts.clients)
    } else {
        None
    }
}

#[tactic(auto, using(crate::proofs::Parts::some_word))]
fn has_ended(words: Words<'_>) -> bool
    ensures { result ≡ (length (words_of words.entry) == 0) }
{
    words.is_none()
}

// The entry that words spell: an actor, a call, `->`, and an outcome, with no word after it.
#[tactic(auto, unfolding(crate::specs::Reading::entry_at))]
fn entry_at(counts: Counts, words: Words<'_>) -> Option<Entry>
    ensures { result ≡ entry_at counts (words_of words.entry) }
{
    let (actor, words) = word(words)?;
    let actor = ActorId(actor_of(counts, actor)?);
    let (call, words) = call(words)?;
    let (arrow, words) = word(words)?;
    if arrow != b"->".as_slice() {
        return None;
    }
    let (outcome, words) = outcome(words)?;
    if !has_ended(words) {
        return None;
    }
    Some(Entry {
        actor,
        call,
        outcome,
    })
}

/// The entry whose text this is, without a line feed. It is of an actor that the counts name.
#[tactic(auto, unfolding(crate::specs::Reading::entry_of), using(crate::proofs::Printed::read_fits))]
pub fn entry_of(counts: Counts, text: &[u8]) -> Option<Entry>
    ensures gives { result ≡ entry_of counts text.now }
    ensures fits { IfSome result (EntryFits counts) }
{
    entry_at(counts, Some(text))
}
