//! Words of a line, and the numbers that they spell, each in the one spelling that is printed.

ghost use Rattle.std.specs.Prelude.{◌≡◌, ◌∷◌, ◌++◌, IfSome, Some};
ghost use Rattle.std.specs.Option.{option_map};
ghost use Rattle.trace_print.specs.Numbers.{digit_at, more, with_digit, number_after, unsigned_of, signed_of, hexadecimal_of, negative, positive};
ghost use Rattle.trace_print.specs.Reading.{word_at, unsigned_at, hexadecimal_at, signed_at};
ghost use Rattle.trace_print.specs.View.{parts, parts_left, words_of, seen, seen_word};

use memchr::memchr;

/// The words that are left of a line, as text. `None` is no word, and an empty text is an empty
/// word.
pub type Words<'a> = Option<&'a [u8]>;

/// The bytes before the first separator, and those after it where there is one.
pub fn split_once(separator: u8, text: &[u8]) -> (&[u8], Option<&[u8]>)
    ensures parts { parts separator text.now ≡ result.0.now ∷ parts_left separator result.1 }
    ensures joined { IfSome result.1 (λ rest. text.now ≡ result.0.now ++ separator ∷ rest.now) }
{
    for (end, byte) in text.iter().enumerate() {
        if *byte == separator {
            return (&text[..end], Some(&text[end + 1..]));
        }
    }
    (text, None)
}

/// The bytes before the first line feed, and those after it where there is one.
pub fn split_line(text: &[u8]) -> (&[u8], Option<&[u8]>)
    ensures parts { parts 10 text.now ≡ result.0.now ∷ parts_left 10 result.1 }
    ensures joined { IfSome result.1 (λ rest. text.now ≡ result.0.now ++ 10 ∷ rest.now) }
{
    match memchr(b'\n', text) {
        Some(end) => (&text[..end], Some(&text[end + 1..])),
        None => (text, None),
    }
}

/// The first word, and the words after it.
pub fn word<'a>(words: Words<'a>) -> Option<(&'a [u8], Words<'a>)>
    ensures { option_map seen_word result ≡ word_at (words_of words.entry) }
{
    let text = words?;
    Some(split_once(b' ', text))
}

fn digit_at(byte: u8) -> Option<u8>
    ensures { result ≡ digit_at byte }
{
    match byte {
        b'0'..=b'9' => Some(byte - b'0'),
        b'a'..=b'f' => Some(byte - b'a' + 10),
        _ => None,
    }
}

fn more(base: u8, n: u32, digit: u8) -> Option<u32>
    ensures { result ≡ more base n digit }
{
    if digit < base {
        u32::try_from(u64::from(n) * u64::from(base) + u64::from(digit)).ok()
    } else {
        None
    }
}

fn with_digit(base: u8, n: u32, byte: u8) -> Option<u32>
    ensures { result ≡ with_digit base n byte }
{
    more(base, n, digit_at(byte)?)
}

/// The number below 2^32 that digits spell.
#[tactic(auto, unfolding(crate::specs::Numbers::number_after), using(crate::proofs::Counting::goes_on, crate::proofs::Counting::stops, crate::proofs::Counting::ends))]
pub fn number(base: u8, digits: &[u8]) -> Option<u32>
    ensures { result ≡ number_after base 0 digits.now }
{
    let mut n = 0;
    for byte in digits {
        n = with_digit(base, n, *byte)?;
    }
    Some(n)
}

// `0x` and eight lower-case digits.
fn hexadecimal_of(word: &[u8]) -> Option<u32>
    ensures { result ≡ hexadecimal_of word.now }
{
    if word.len() == 10 && word[0] == b'0' && word[1] == b'x' {
        number(16, &word[2..])
    } else {
        None
    }
}

/// The number below 2^32 that decimal digits spell, with no zero in front of others.
pub fn unsigned_of(word: &[u8]) -> Option<u32>
    ensures { result ≡ unsigned_of word.now }
{
    if word.len() == 1 || word.len() > 1 && word[0] != b'0' {
        number(10, word)
    } else {
        None
    }
}

fn negative(n: u32) -> Option<i32>
    ensures { result ≡ negative n }
{
    if n >= 1 {
        i32::try_from(-i64::from(n)).ok()
    } else {
        None
    }
}

fn positive(n: u32) -> Option<i32>
    ensures { result ≡ positive n }
{
    i32::try_from(n).ok()
}

fn signed_of(word: &[u8]) -> Option<i32>
    ensures { result ≡ signed_of word.now }
{
    let (first, digits) = word.split_first()?;
    if *first == b'-' {
        negative(unsigned_of(digits)?)
    } else {
        positive(unsigned_of(word)?)
    }
}

/// The first word as an unsigned number, and the words after it.
pub fn unsigned<'a>(words: Words<'a>) -> Option<(u32, Words<'a>)>
    ensures { option_map seen result ≡ unsigned_at (words_of words.entry) }
{
    let (word, words) = word(words)?;
    Some((unsigned_of(word)?, words))
}

// The number of a word of ten bytes that others follow, none of which is a space.
fn hexadecimal_and_rest(text: &[u8]) -> Option<(u32, Words<'_>)>
    ensures { IfSome result (λ found. hexadecimal_at (parts 32 text.now) ≡ Some (seen found)) }
{
    if text.len() > 10 && text[10] == b' ' {
        Some((hexadecimal_of(&text[..10])?, Some(&text[11..])))
    } else {
        None
    }
}

/// The first word as a hexadecimal number, and the words after it.
pub fn hexadecimal<'a>(words: Words<'a>) -> Option<(u32, Words<'a>)>
    ensures { option_map seen result ≡ hexadecimal_at (words_of words.entry) }
{
    let text = words?;
    if let Some(found) = hexadecimal_and_rest(text) {
        return Some(found);
    }
    let (word, words) = split_once(b' ', text);
    Some((hexadecimal_of(word)?, words))
}

/// The first word as a signed number, and the words after it.
pub fn signed<'a>(words: Words<'a>) -> Option<(i32, Words<'a>)>
    ensures { option_map seen result ≡ signed_at (words_of words.entry) }
{
    let (word, words) = word(words)?;
    Some((signed_of(word)?, words))
}
