//! Lines and columns of a text, and how a place is shown.

ghost use Rattle.std.specs.Prelude.{◌≡◌, ◌+◌, ◌++◌, OnOk, length, not, string_bytes};
ghost use Rattle.std.specs.List.{suffix_len};
ghost use Rattle.file_places.specs.Lines.{begins_character, column_of, is_line_feed, last_line, line_of, place_text};

use crate::shown::Shown;
use crate::slices::{Span, front_of, rest_of};
use std::alloc::{AllocError, Global};

/// The line of the byte at a place, counted from 1: each line feed before it ends one.
pub fn line_of(bytes: &[u8], at: usize) -> usize
    ensures { result ≡ line_of bytes.now at }
{
    1 + front_of(bytes, at).iter().filter(|b| **b == b'\n').count()
}

// Where the last line begins: behind the last line feed.
fn line_start(front: &[u8]) -> usize
    ensures { result + suffix_len (λ b. not (is_line_feed b)) front.now ≡ length front.now }
{
    let mut start = front.len();
    while start > 0 && front[start - 1] != b'\n' {
        start -= 1;
    }
    start
}

// The bytes behind the last line feed.
fn last_line(front: &[u8]) -> &[u8]
    ensures { result.now ≡ last_line front.now }
{
    &front[line_start(front)..]
}

// Whether a character begins with this byte.
fn begins_character(byte: u8) -> bool
    ensures { result ≡ begins_character byte }
{
    byte < 128 || byte > 191
}

/// The column of the byte at a place, counted from 1: in characters behind the last line feed before it.
pub fn column_of(bytes: &[u8], at: usize) -> usize
    ensures { result ≡ column_of bytes.now at }
{
    let line = last_line(front_of(bytes, at)).iter();
    1 + line.filter(|b| begins_character(**b)).count()
}

/// Writes the name of a file with the line and the column of a place.
pub fn put_place(text: &mut String, name: &str, bytes: &[u8], at: usize) -> Result<(), AllocError>
    ensures { OnOk result
        (string_bytes text.new ≡ string_bytes text.old ++ place_text name.now bytes.now at) }
{
    let (line, column) = (line_of(bytes, at), column_of(bytes, at));
    write!(text, "{name}:{line}:{column}")
}

// The most bytes of a line that are shown before a place, and from it on.
const SHOWN: usize = 100;

// The first character that begins at a place or behind it, so that none is cut.
fn whole_from(bytes: &[u8], at: usize) -> usize {
    let more = rest_of(bytes, at).iter();
    at.saturating_add(more.take_while(|b| !begins_character(**b)).count())
}

// Writes a mark below each character; a tab stays one below blanks.
fn put_marks(text: &mut String, bytes: &[u8], mark: char) -> Result<(), AllocError> {
    for byte in bytes {
        if *byte == b'\t' && mark == ' ' {
            text.push('\t')?;
        } else if begins_character(*byte) {
            text.push(mark)?;
        }
    }
    Ok(())
}

/// Writes the line of a place, with carets below what stands there. Of a long line the part around it is shown.
pub fn put_line(text: &mut String, bytes: &[u8], place: Span) -> Result<(), AllocError> {
    let rest = rest_of(bytes, place.from).iter();
    let len = rest.take_while(|b| !matches!(**b, b'\n' | b'\r')).count();
    let mut from = line_start(front_of(bytes, place.from));
    if from < place.from.saturating_sub(SHOWN) {
        from = whole_from(bytes, place.from.saturating_sub(SHOWN));
    }
    let mut to = place.from.saturating_add(len);
    if len > SHOWN {
        to = whole_from(bytes, place.from.saturating_add(SHOWN));
    }
    let (before, to_mark) = (
        Span {
            from,
            to: place.from,
        },
        place.to.min(to),
    );
    let marked = Span {
        from: place.from,
        to: to_mark,
    };
    writeln!(text, "  | {}", Shown(Span { from, to }.part(bytes)))?;
    text.push_str("  | ")?;
    put_marks(text, before.part(bytes), ' ')?;
    text.push('^')?;
    put_marks(text, rest_of(marked.part(bytes), 1), '^')?;
    text.push('\n')
}
