//! Words of a line of a script or a trace, and the forms that such lines have.

use file_places::{Span, nearest};
use std::alloc::{AllocError, Global};
use std::fmt;

/// A word of a line, and where it begins there.
#[derive(Clone, Copy)]
pub struct Word<'a> {
    pub from: usize,
    pub text: &'a [u8],
}

impl Word<'_> {
    /// Where it stands in its line.
    pub fn span(self) -> Span {
        Span::of(self.from, self.text.len())
    }
}

/// The words of a line, between blanks and tabs.
pub fn words_of<'a>(alloc: Global, line: &'a [u8]) -> Result<Vec<Word<'a>>, AllocError> {
    let mut words = Vec::new(alloc);
    let mut from: usize = 0;
    for text in line.split(|b| *b == b' ' || *b == b'\t') {
        if !text.is_empty() {
            words.push(Word { from, text })?;
        }
        from = from.saturating_add(text.len()).saturating_add(1);
    }
    Ok(words)
}

/// A whole line, without a carriage return at its end.
pub fn whole(line: &[u8]) -> Span {
    Span::of(0, line.strip_suffix(b"\r").unwrap_or(line).len())
}

/// A first word, and what stands behind it.
#[derive(Clone, Copy)]
pub struct Form(pub &'static str, pub &'static str);

impl fmt::Display for Form {
    fn fmt<W: fmt::Write>(&self, f: &mut fmt::Formatter<W>) -> fmt::Result {
        f.write_str(self.0)?;
        if !self.1.is_empty() {
            f.write_str(" ")?;
        }
        f.write_str(self.1)
    }
}

/// The form with this first word.
pub fn form_in(forms: &[Form], word: &[u8]) -> Option<Form> {
    forms.iter().find(|form| form.0.as_bytes() == word).copied()
}

/// Which form is meant by a first word that none has; in C a call's name begins with `psa_`.
pub fn nearest_form(
    alloc: Global,
    forms: &[Form],
    word: &[u8],
) -> Result<Option<Form>, AllocError> {
    let words: Vec<&[u8]> = forms.iter().map(|form| form.0.as_bytes()).collect(alloc)?;
    let plain = word.strip_prefix(b"psa_").unwrap_or(word);
    match nearest(alloc, &words, plain)? {
        Some(word) => Ok(form_in(forms, word)),
        None => Ok(None),
    }
}

/// Whether these bytes stand somewhere in a line.
pub fn has_part(line: &[u8], part: &[u8]) -> bool {
    line.windows(part.len().max(1)).any(|window| window == part)
}
