//! Lines.
ghost use Rattle.std.specs.Prelude.{◌≡◌, ◌==◌, IfOk, map, option_map, slice_index};
ghost use Rattle.script_asm.specs.Lines.{label_of, line_of, lines_of};
ghost use Rattle.script_asm.specs.Views.{line_view, lines_view};

use crate::words::{is_name, words_of};
use ffm_model::Name;
use std::alloc::{AllocError, Global};

/// What a line is.
#[derive(Drop)]
pub enum Line<'a> {
    /// It has no words, or is a comment.
    Passed,
    /// It is the label of this name.
    Label(&'a [u8]),
    /// It has the words of an instruction.
    Order(Vec<&'a [u8]>),
}

// The name before the `:` that ends a word.
#[tactic(auto, unfolding(crate::specs::Lines::label_of))]
fn label_of(word: &[u8]) -> Option<&[u8]>
    ensures { option_map (λ n. n.now) result ≡ label_of word.now }
{
    if word.is_empty() {
        return None;
    }
    let last = word.len() - 1;
    let name = &word[..last];
    if word[last] == b':' && is_name(name) {
        Some(name)
    } else {
        None
    }
}

fn starts_comment(word: &[u8]) -> bool
    ensures { result ≡ (slice_index word.now 0 == 35) }
{
    match word.first() {
        Some(byte) => *byte == b'#',
        None => false,
    }
}

#[tactic(auto, unfolding(crate::specs::Lines::line_of))]
fn line_of<'a>(alloc: Global, text: &'a [u8]) -> Result<Line<'a>, AllocError>
    ensures { IfOk result (λ l. line_view l ≡ line_of text.now) }
{
    let words = words_of(alloc, text)?;
    let Some((first, rest)) = words.as_slice().split_first() else {
        return Ok(Line::Passed);
    };
    let first: &'a [u8] = first;
    if starts_comment(first) {
        return Ok(Line::Passed);
    }
    if rest.is_empty() {
        if let Some(name) = label_of(first) {
            return Ok(Line::Label(name));
        }
    }
    Ok(Line::Order(words))
}

/// What the lines are. Err where no memory was found.
pub fn lines_of<'a>(alloc: Global, texts: &'a [Name]) -> Result<Vec<Line<'a>>, AllocError>
    ensures { IfOk result (λ v. lines_view v.items ≡ lines_of texts.now) }
{
    let mut lines = Vec::new(alloc);
    for text in texts {
        lines.push(line_of(alloc, text.as_str().as_bytes())?)?;
    }
    Ok(lines)
}
