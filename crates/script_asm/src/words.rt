//! Words, and the values that they stand for.
ghost use Rattle.std.specs.Prelude.{◌≡◌, ◌<◌, IfOk, IfSome, codes, map, slice_index};
ghost use Rattle.std.specs.List.{list_all, slice_split};
ghost use Rattle.std.specs.Str.{bytes_eq};
ghost use Rattle.script_asm.specs.Words.{words_of, is_blank, decimal_number, negative_number, number_of, register_of, operand_of};
ghost use Rattle.ffm_model.specs.Texts.{is_word_byte, is_name, hex_number};
ghost use Rattle.ffm_model.specs.Scripts.{IsOperand};

use ffm_model::Operand;
use std::alloc::{AllocError, Global};

fn is_blank(byte: u8) -> bool
    ensures { result ≡ is_blank byte }
{
    byte == b' ' || byte == b'\t'
}

// The parts of a line between blanks, empty ones too.
fn parts_of<'a>(alloc: Global, line: &'a [u8]) -> Result<Vec<&'a [u8]>, AllocError>
    ensures { IfOk result (λ v. map (λ w. w.now) v.items ≡ slice_split is_blank line.now) }
{
    line.split(|byte| is_blank(*byte)).collect(alloc)
}

/// The words of a line. Err where no memory was found.
#[tactic(auto, unfolding(crate::specs::Words::words_of))]
pub fn words_of<'a>(alloc: Global, line: &'a [u8]) -> Result<Vec<&'a [u8]>, AllocError>
    ensures { IfOk result (λ v. map (λ w. w.now) v.items ≡ words_of line.now) }
{
    let parts = parts_of(alloc, line)?;
    let mut words = Vec::new(alloc);
    for part in &parts {
        if !part.is_empty() {
            words.push(*part)?;
        }
    }
    Ok(words)
}

fn is_device(word: &[u8]) -> bool
    ensures { result ≡ bytes_eq word.now (codes "device") }
{
    word == b"device".as_slice()
}

fn is_word_byte(byte: u8) -> bool
    ensures { result ≡ is_word_byte byte }
{
    byte.is_ascii_alphanumeric() || byte == b'_'
}

fn has_word_bytes(word: &[u8]) -> bool
    ensures { result ≡ list_all is_word_byte word.now }
{
    word.iter().all(|byte| is_word_byte(*byte))
}

/// Whether a word is a name.
#[tactic(auto, unfolding(ffm_model::specs::Texts::is_name))]
pub fn is_name(word: &[u8]) -> bool
    ensures { result ≡ is_name word.now }
{
    if word.is_empty() || word.len() > 64 || word[0].is_ascii_digit() || is_device(word) {
        return false;
    }
    has_word_bytes(word)
}

// The number that `0x` and one to eight hexadecimal digits spell.
#[tactic(auto, unfolding(ffm_model::specs::Texts::hex_number))]
fn hex_number(word: &[u8]) -> Option<u32>
    ensures { result ≡ hex_number word.now }
{
    if word.len() <= 2 || word.len() > 10 || word[0] != b'0' || word[1] != b'x' {
        return None;
    }
    let mut number: u32 = 0;
    for digit in &word[2..] {
        number = number * 16 + char::from(*digit).to_digit(16)?;
    }
    Some(number)
}

// The number that one or more decimal digits spell, where it is at most the limit.
#[tactic(auto, unfolding(crate::specs::Words::decimal_number))]
fn decimal_number(limit: u32, digits: &[u8]) -> Option<u32>
    ensures { result ≡ decimal_number limit digits.now }
{
    if digits.is_empty() {
        return None;
    }
    let mut number: u32 = 0;
    for digit in digits {
        let more = u64::from(number) * 10 + u64::from(char::from(*digit).to_digit(10)?);
        if more > u64::from(limit) {
            return None;
        }
        number = more as u32;
    }
    Some(number)
}

// The two's complement of the negative number that a word spells.
#[tactic(auto, unfolding(crate::specs::Words::negative_number))]
fn negative_number(word: &[u8]) -> Option<u32>
    ensures { result ≡ negative_number word.now }
{
    let (sign, digits) = word.split_first()?;
    if *sign != b'-' {
        return None;
    }
    let number = decimal_number(2147483648, digits)?;
    if number == 0 {
        None
    } else {
        Some(u32::MAX - (number - 1))
    }
}

fn byte_at(word: &[u8], at: usize) -> u8
    ensures { result ≡ slice_index word.now at }
{
    match word.get(at) {
        Some(byte) => *byte,
        None => 0,
    }
}

#[tactic(auto, unfolding(crate::specs::Words::number_of))]
fn number_of(word: &[u8]) -> Option<u32>
    ensures { result ≡ number_of word.now }
{
    if byte_at(word, 0) == b'-' {
        return negative_number(word);
    }
    if byte_at(word, 1) == b'x' {
        return hex_number(word);
    }
    decimal_number(u32::MAX, word)
}

/// The register that a word names; None where it names none.
#[tactic(auto, unfolding(crate::specs::Words::register_of))]
pub fn register_of(word: &[u8]) -> Option<u32>
    ensures gives { result ≡ register_of word.now }
    ensures below { IfSome result (λ r. r < 16) }
{
    let (r, digits) = word.split_first()?;
    if *r != b'r' {
        return None;
    }
    let (first, others) = digits.split_first()?;
    match others.split_first() {
        None => char::from(*first).to_digit(10),
        Some((second, rest)) => {
            if *first == b'1' && rest.is_empty() {
                let digit = char::from(*second).to_digit(6)?;
                Some(10 + digit)
            } else {
                None
            }
        }
    }
}

/// The register or the number that a word stands for; None where it is no value.
#[tactic(auto, unfolding(crate::specs::Words::operand_of))]
pub fn operand_of(word: &[u8]) -> Option<Operand>
    ensures gives { result ≡ operand_of word.now }
    ensures operand { IfSome result IsOperand }
{
    if byte_at(word, 0) == b'r' {
        let register = register_of(word)?;
        return Some(Operand::Register(register));
    }
    let number = number_of(word)?;
    Some(Operand::Number(number))
}
