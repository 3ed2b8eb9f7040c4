//! The words of the command line.

ghost use Rattle.std.specs.Prelude.{◌≡◌, ℕ, List, Option, IfOk, IfSome, IsNone, IsUtf8, map, slice_get, string_bytes};
ghost use Rattle.std.specs.Io.{WritesAtMost};
ghost use Rattle.std.specs.Option.{option_map};
ghost use Rattle.outside_io.specs.Words.{AreGiven, FillsWord};

use ffm_model::Memory;
use std::alloc::Global;
use std::env::{Env, FillError};

// A word is asked for with this much room, and with twice as much as long as it is too long.
const WORD_BYTES: usize = 256;

const DOUBLINGS: u32 = 55;

/// The words that a program was given, with its own name first.
pub trait Words {
    /// The bytes of each word, in order, where they are told.
    ghost told: { Self → Option (List (List ℕ)) };

    /// Copies the word with this number, counted from 0, to the start of the room, and answers its
    /// length.
    ///
    /// # Errors
    ///
    /// `NotPresent` where there are no more words than that number, and `TooLong` where the word
    /// doesn't fit in the room.
    fn word(&self, number: usize, room: &mut [u8]) -> Result<usize, FillError>
        ensures bound { WritesAtMost result room.new }
        ensures fills { IfSome (told self.now) (λ words.
            FillsWord (slice_get words number) result room.new) };
}

/// The words that the operating system gives a process. It doesn't tell them.
#[derive(Drop)]
pub struct HostWords<'a, R> {
    rt: &'a R,
}

impl<'a, R: Env> HostWords<'a, R> {
    /// The process's words. It keeps the runtime value.
    pub fn new(rt: &'a R) -> Self {
        HostWords { rt }
    }
}

impl<R: Env> Words for HostWords<'_, R> {
    ghost use Rattle.std.specs.Prelude.{None};

    ghost told = { λ _. None };

    fn word(&self, number: usize, room: &mut [u8]) -> Result<usize, FillError> {
        self.rt.arg(number, room)
    }
}

// The word with this number, if there are so many. The only error is want of memory.
fn word_at<W: Words>(alloc: Global, words: &W, number: usize) -> Result<Option<Vec<u8>>, Memory>
    ensures { IfSome (W.told words.now) (λ words. IfOk result (λ word.
        option_map (λ w. w.items) word ≡ slice_get words number)) }
{
    let mut size = WORD_BYTES;
    for _ in 0..DOUBLINGS {
        let mut room = vec![in alloc; 0; size]?;
        match words.word(number, &mut room) {
            Ok(length) => {
                room.truncate(length);
                return Ok(Some(room));
            }
            Err(FillError::NotPresent) => return Ok(None),
            Err(FillError::TooLong) => size = size.saturating_mul(2),
        }
    }
    Err(Memory)
}

// The text that the bytes spell, if they are UTF-8.
fn text_of(bytes: Vec<u8>) -> Option<String>
    ensures text { IfSome result (λ text. string_bytes text ≡ bytes.items) }
    ensures none { IsNone result → IsUtf8 bytes.items → ⊥ }
{
    match String::from_utf8(bytes) {
        Ok(text) => Some(text),
        Err(_) => None,
    }
}

/// The words that a program was given, with its own name first.
///
/// Words of which one isn't UTF-8 are told as none, since no command has such a word. The only error
/// is want of memory.
pub fn given_words<W: Words>(alloc: Global, words: &W) -> Result<Vec<String>, Memory>
    ensures { IfSome (W.told words.now) (λ told. IfOk result (λ given.
        AreGiven told (map string_bytes given.items))) }
{
    let mut given = Vec::new(alloc);
    for number in 0..usize::MAX {
        let Some(bytes) = word_at(alloc, words, number)? else {
            return Ok(given);
        };
        let Some(word) = text_of(bytes) else {
            given.clear();
            return Ok(given);
        };
        given.push(word)?;
    }
    Err(Memory)
}
