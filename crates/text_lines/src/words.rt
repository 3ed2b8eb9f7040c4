//! Words of a text.

ghost use Rattle.std.specs.Prelude.{◌≡◌, ◌++◌, OnOk, map};
ghost use Rattle.std.specs.Fmt.{decimal};
ghost use Rattle.std.specs.List.{flat_map};
ghost use Rattle.text_lines.specs.Words.{word_text};

use itoa::Buffer;
use std::alloc::AllocError;
use trace_print::hexadecimal;

/// A word of a text.
#[derive(Clone, Copy, Debug)]
pub enum Word<'a> {
    Text(&'a str),
    /// In decimal.
    Number(u32),
    /// In decimal, with a `-` where it is negative.
    Signed(i32),
    /// `0x` and eight digits.
    Hexadecimal(u32),
    /// A byte as it is.
    Byte(u8),
}

/// Appends a text.
pub fn append(text: &mut Vec<u8>, more: &str) -> Result<(), AllocError>
    ensures { OnOk result (text.new.items ≡ text.old.items ++ more.now) }
{
    text.extend_from_slice(more.as_bytes())
}

/// Appends a number in decimal.
pub fn append_number(text: &mut Vec<u8>, number: u32) -> Result<(), AllocError>
    ensures { OnOk result (text.new.items ≡ text.old.items ++ decimal number) }
{
    append(text, Buffer::new().format(number))
}

/// Appends a word.
pub fn append_word(text: &mut Vec<u8>, word: Word<'_>) -> Result<(), AllocError>
    ensures { OnOk result (text.new.items ≡ text.old.items ++ word_text word.entry) }
{
    match word {
        Word::Text(word) => append(text, word),
        Word::Number(number) => append_number(text, number),
        Word::Signed(number) => append(text, Buffer::new().format(number)),
        Word::Hexadecimal(number) => text.extend_from_slice(hexadecimal(number).as_slice()),
        Word::Byte(byte) => text.extend_from_slice(&[byte]),
    }
}

/// Appends words, with nothing between them.
pub fn append_words(text: &mut Vec<u8>, words: &[Word<'_>]) -> Result<(), AllocError>
    ensures { OnOk result (text.new.items ≡ text.old.items ++ flat_map word_text words.now) }
{
    for word in words {
        append_word(text, *word)?;
    }
    Ok(())
}
