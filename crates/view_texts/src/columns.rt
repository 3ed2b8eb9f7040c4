//! Columns and lists of words in a text.
ghost use Rattle.std.specs.Prelude.{◌≡◌, ◌++◌, ◌-◌, OnOk, length, map};
ghost use Rattle.text_lines.specs.Words.{word_text};
ghost use Rattle.std.specs.List.{flat_map};
ghost use Rattle.view_texts.specs.Columns.{after_comma, left, listed, right, spaces};

use itoa::Buffer;
use std::alloc::AllocError;
use text_lines::{Word, append, append_word};

fn put_spaces(text: &mut Vec<u8>, count: usize) -> Result<(), AllocError>
    ensures { OnOk result (text.new.items ≡ text.old.items ++ spaces count) }
{
    match text.len().checked_add(count) {
        Some(len) => text.resize(len, b' '),
        None => Err(AllocError),
    }
}

/// Appends spaces until what stands after a place of the text has so many bytes.
pub fn pad(text: &mut Vec<u8>, start: usize, width: usize) -> Result<(), AllocError>
    ensures { OnOk result
        (text.new.items ≡ text.old.items ++ spaces (width - (length text.old.items - start))) }
{
    let used = text.len().saturating_sub(start);
    put_spaces(text, width.saturating_sub(used))
}

/// Appends a word and spaces, together at least so many bytes.
#[tactic(auto, unfolding(crate::specs::Columns::left))]
pub fn put_left(text: &mut Vec<u8>, word: Word<'_>, width: usize) -> Result<(), AllocError>
    ensures { OnOk result (text.new.items ≡ text.old.items ++ left width (word_text word.entry)) }
{
    let start = text.len();
    append_word(text, word)?;
    pad(text, start, width)
}

/// Appends a number after spaces, together at least so many bytes.
#[tactic(auto, unfolding(crate::specs::Columns::right))]
pub fn put_right(text: &mut Vec<u8>, number: u32, width: usize) -> Result<(), AllocError>
    ensures { OnOk result (text.new.items ≡ text.old.items ++ right width number) }
{
    let mut buffer = Buffer::new();
    let digits = buffer.format(number);
    put_spaces(text, width.saturating_sub(digits.len()))?;
    append(text, digits)
}

fn put_others(text: &mut Vec<u8>, words: &[&str]) -> Result<(), AllocError>
    ensures { OnOk result
        (text.new.items ≡ text.old.items ++ flat_map after_comma (map (λ w. w.now) words.now)) }
{
    for word in words {
        append(text, ", ")?;
        append(text, word)?;
    }
    Ok(())
}

/// Appends words with `, ` between each two; where there is none, another text.
pub fn put_list(text: &mut Vec<u8>, words: &[&str], none: &str) -> Result<(), AllocError>
    ensures { OnOk result
        (text.new.items ≡ text.old.items ++ listed none.now (map (λ w. w.now) words.now)) }
{
    match words {
        [] => append(text, none),
        [first, others @ ..] => {
            append(text, first)?;
            put_others(text, others)
        }
    }
}
