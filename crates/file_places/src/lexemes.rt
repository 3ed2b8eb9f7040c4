//! One text, number or word of JSON at the front of bytes.

use crate::numbers::digits_of;
use crate::outline::{Cause, Kind};
use crate::slices::{front_of, rest_of, word_at};

/// What stands at the front.
#[derive(Clone, Copy)]
pub enum Lexeme {
    Value { kind: Kind, len: usize },
    /// None does, for what stands so many bytes behind.
    Wrong { at: usize, cause: Cause },
}

// The most bytes of a number that stays a number.
const LONGEST_NUMBER: usize = 19;

// The number in the escape `\uXXXX` at the front.
fn unit_at(bytes: &[u8]) -> Option<u32> {
    digits_of(bytes.strip_prefix(b"\\u")?.get(..4)?, 16)
}

// How many bytes the escape at the front has, which begins with a backslash, or why it is none.
fn escape_len(bytes: &[u8]) -> Result<usize, Cause> {
    match bytes.get(1).copied() {
        None => Err(Cause::Ends),
        Some(b'"' | b'\\' | b'/' | b'b' | b'f' | b'n' | b'r' | b't') => Ok(2),
        Some(b'u') => match (unit_at(bytes), unit_at(rest_of(bytes, 6))) {
            (None, _) => Err(Cause::NoEscape),
            (Some(0xd800..=0xdbff), Some(0xdc00..=0xdfff)) => Ok(12),
            (Some(0xd800..=0xdfff), _) => Err(Cause::HalfOfPair),
            (Some(_), _) => Ok(6),
        },
        Some(_) => Err(Cause::NoEscape),
    }
}

// A text, at its opening mark.
fn text(bytes: &[u8]) -> Lexeme {
    let mut at: usize = 1;
    for _ in 0..bytes.len() {
        match bytes.get(at).copied() {
            None => break,
            Some(b'"') => {
                let (kind, len) = (Kind::Text, at.saturating_add(1));
                return Lexeme::Value { kind, len };
            }
            Some(b'\\') => match escape_len(rest_of(bytes, at)) {
                Ok(len) => at = at.saturating_add(len),
                Err(cause) => return Lexeme::Wrong { at, cause },
            },
            Some(0..32) => {
                let cause = Cause::Control;
                return Lexeme::Wrong { at, cause };
            }
            Some(_) => at = at.saturating_add(1),
        }
    }
    let (at, cause) = (bytes.len(), Cause::Ends);
    Lexeme::Wrong { at, cause }
}

// Digits and signs that begin as a number does.
fn number(bytes: &[u8]) -> Lexeme {
    let len = bytes
        .iter()
        .take_while(|b| matches!(**b, b'0'..=b'9' | b'+' | b'-' | b'.' | b'e' | b'E'))
        .count();
    let run = front_of(bytes, len);
    let digits = run.strip_prefix(b"-").unwrap_or(run);
    let is_decimal = run.iter().any(|b| matches!(*b, b'.' | b'e' | b'E'));
    if is_decimal || matches!(run, b"-0") || len > LONGEST_NUMBER {
        let kind = Kind::Decimal;
        return Lexeme::Value { kind, len };
    }
    let is_bare = digits.len() == 1 || !digits.starts_with(b"0");
    if is_bare && !digits.is_empty() && digits.iter().all(|b| b.is_ascii_digit()) {
        let kind = Kind::Whole;
        return Lexeme::Value { kind, len };
    }
    let (at, cause) = (0, Cause::NoNumber);
    Lexeme::Wrong { at, cause }
}

/// The text, number or word at the front of bytes that are UTF-8.
pub fn lexeme_at(bytes: &[u8]) -> Lexeme {
    let word = word_at(bytes);
    let kind = match (bytes.first().copied(), word) {
        (Some(b'"'), _) => return text(bytes),
        (Some(b'-' | b'0'..=b'9'), _) => return number(bytes),
        (_, b"true" | b"false") => Kind::Boolean,
        (_, b"null") => Kind::Null,
        _ => {
            let (at, cause) = (0, Cause::NoValue);
            return Lexeme::Wrong { at, cause };
        }
    };
    let len = word.len();
    Lexeme::Value { kind, len }
}
