//! A refusal in words: where it stands, what is wrong, what was expected.

ghost use Rattle.std.specs.Prelude.{◌≡◌, ◌++◌, IfOk, string_bytes};
ghost use Rattle.view_refusals.specs.Told.{IsFront, IsOfValue, IsPartOf, IsPlaceLine, TellsPlace, no_place};

use crate::faults::put_fault;
use crate::kinds::{Sort, key_at, wanted_at};
use crate::regions::put_regions;
use ffm_model::{
    BAD_VALUE, FILE_TOO_LONG, JSON, Key, MAX_FILE_BYTES, MISSING_ATTRIBUTE, Memory, PathStep,
    Refusal, Root, SCRIPT_SYNTAX, WRONG_TYPE,
};
use file_places::{
    FileRead, Outline, Sources, Span, Spot, number_of, outlined, put_line, put_place, stands,
};
use std::alloc::{AllocError, Global};

/// The value where a refusal is shown.
#[derive(Clone, Copy)]
pub struct Refused<'a> {
    pub sources: &'a Sources<'a>,
    pub code: u8,
    /// The IDs of a dependency circle.
    pub circle: &'a [u32],
    pub steps: &'a [PathStep],
    /// The attribute that the place is of.
    pub key: Option<Key>,
    /// What may stand there.
    pub sort: Sort,
    pub expected: &'static str,
    /// The value of the place, or the object that lacks it, and its text.
    pub spot: Spot<'a>,
    pub word: &'a [u8],
    /// Whether it is the value of the place.
    pub is_there: bool,
}

impl<'a> Refused<'a> {
    // The value of a refusal's place, or the object that lacks an attribute.
    fn of(sources: &'a Sources<'a>, refusal: &'a Refusal) -> Option<Refused<'a>> {
        let steps = refusal.place.steps.as_slice();
        let (spot, is_there) = match sources.spot(refusal.place.root, steps) {
            Some(spot) => (spot, true),
            None => (
                sources.spot(refusal.place.root, steps.split_last()?.1)?,
                false,
            ),
        };
        let (sort, expected) = wanted_at(steps);
        Some(Refused {
            sources,
            code: refusal.code,
            circle: refusal.cycle.as_slice(),
            steps,
            key: key_at(steps),
            sort,
            expected,
            spot,
            word: spot.text(),
            is_there,
        })
    }

    // Writes that the bytes of an item of `memory` lie in no region.
    fn put_address(&self, text: &mut String) -> Result<(), AllocError> {
        let bytes = match self.spot.around() {
            Some(item) => item.value(Key::Bytes).len() / 2,
            None => 0,
        };
        write!(text, "wrong: the {bytes} bytes from this address on")?;
        text.push_str(" lie in no region\nexpected: an address in ")?;
        put_regions(text, self.sources)?;
        text.push('\n')
    }

    // Writes the line of a value, and why it is refused.
    fn put_value(&self, text: &mut String) -> Result<(), AllocError> {
        if self.code == SCRIPT_SYNTAX {
            return self.put_wrong_line(text);
        }
        let (bytes, mut span) = (self.spot.source.bytes, self.spot.node.span);
        // An object or a list that goes on in a later line has a caret at its bracket.
        if span.part(bytes).contains(&b'\n') {
            span = Span::of(span.from, 1);
        }
        put_line(text, bytes, span)?;
        let is_address = self.steps.last() == Some(&PathStep::Key(Key::Address));
        match self.code {
            MISSING_ATTRIBUTE => self.put_missing(text),
            WRONG_TYPE => self.put_kind(text),
            BAD_VALUE if !self.is_there => self.put_missing(text),
            BAD_VALUE if is_address && number_of(self.word).is_some() => self.put_address(text),
            BAD_VALUE => match self.special_words() {
                Some(words) => text.push_str(words),
                None => self.put_bad(text),
            },
            _ => self.put_rule(text),
        }
    }
}

// The part of a refusal's path that leads to the value that is shown: the last step is left out where none is there.
fn shown_path(steps: &[PathStep], is_there: bool) -> &[PathStep]
    ensures { IsFront steps.now result.now }
{
    if is_there {
        steps
    } else {
        &steps[..steps.len().saturating_sub(1)]
    }
}

// The part of a refusal's path that leads to the value that is shown, in the file in which it stands: the first two
// steps lead to a manifest, where that has a file of its own.
#[tactic(auto, using(crate::proofs::ToldLemmas::front_is_part, crate::proofs::ToldLemmas::rest_is_part))]
fn path_in_file(steps: &[PathStep], is_there: bool, is_manifest: bool) -> &[PathStep]
    ensures { IsPartOf steps.now result.now }
{
    let path = shown_path(steps, is_there);
    if is_manifest {
        &path[2.min(path.len())..]
    } else {
        path
    }
}

// The line that tells where a value stands, which is held against the tree that the file spells.
fn place_line(
    alloc: Global,
    file: FileRead<'_>,
    path: &[PathStep],
    span: Span,
) -> Result<String, Memory>
    ensures { IfOk result (λ line. IsPlaceLine file.entry path.now (string_bytes line)) }
{
    if !stands(alloc, file.bytes, path, span)? {
        return Ok(String::from_str(alloc, NO_PLACE)?);
    }
    let mut line = String::from_str(alloc, "--> ")?;
    put_place(&mut line, file.name, file.bytes, span.from)?;
    line.push('\n')?;
    Ok(line)
}

// Where a value stands, with words behind it.
#[tactic(auto, using(crate::proofs::ToldLemmas::told_place, crate::proofs::ToldLemmas::told_none))]
fn value_text(
    sources: &Sources<'_>,
    files: &[FileRead<'_>],
    refusal: &Refusal,
) -> Result<String, Memory>
    ensures { IfOk result (λ text.
        TellsPlace files.now refusal.now.place.steps (string_bytes text)) }
{
    let alloc = sources.alloc;
    let Some(shown) = Refused::of(sources, refusal) else {
        return Ok(no_place(alloc, "")?);
    };
    let mut words = String::new(alloc);
    shown.put_value(&mut words)?;
    let number = shown.spot.source.number;
    let Some(file) = files.get(number) else {
        return Ok(no_place(alloc, &words)?);
    };
    let is_manifest = number > 0 && refusal.place.root == Root::System;
    let path = path_in_file(refusal.place.steps.as_slice(), shown.is_there, is_manifest);
    let mut text = place_line(alloc, *file, path, shown.spot.node.span)?;
    text.push_str(&words)?;
    Ok(text)
}

/// The line in place of one that tells a place.
const NO_PLACE: &str = "--> ?\n";

fn no_place(alloc: Global, words: &str) -> Result<String, Memory>
    ensures { IfOk result (λ text. string_bytes text ≡ no_place ++ words.now) }
{
    let mut text = String::from_str(alloc, NO_PLACE)?;
    text.push_str(words)?;
    Ok(text)
}

// What is wrong with a file as a whole: that of a value, or the file in which it isn't found.
fn file_text(
    sources: &Sources<'_>,
    files: &[FileRead<'_>],
    refusal: &Refusal,
) -> Result<String, AllocError> {
    let root = refusal.place.root;
    let limit = if root == Root::Trace {
        50331648
    } else {
        MAX_FILE_BYTES
    };
    let mut text = String::new(sources.alloc);
    if refusal.code == FILE_TOO_LONG {
        writeln!(text, "wrong: the file has more than {limit} bytes")?;
        return Ok(text);
    }
    let spot = match Refused::of(sources, refusal) {
        Some(shown) => Some(shown.spot),
        None => sources.root(root),
    };
    let Some(spot) = spot else {
        return Ok(text);
    };
    if let Some(file) = files.get(spot.source.number) {
        match outlined(sources.alloc, file.bytes)? {
            Outline::Broken(fault) => put_fault(&mut text, *file, fault)?,
            Outline::Json(_) => text.push_str("wrong: the file is no JSON\n")?,
        }
    }
    Ok(text)
}

/// What is wrong in files that were read, the system file first, where this refusal is the first: the place, and words
/// for people. Memory where no memory was found.
///
/// A place is told as the name of a file that was read, a line and a column. There a value stands that the path of the
/// refusal leads to: its own, or the object that lacks it. Where none is found, the line `--> ?` says so.
pub fn refusal_words(
    alloc: Global,
    refusal: &Refusal,
    scenario: Option<&str>,
    files: &[FileRead<'_>],
) -> Result<String, Memory>
    ensures { IsOfValue refusal.now.code → IfOk result (λ text.
        TellsPlace files.now refusal.now.place.steps (string_bytes text)) }
{
    let sources = Sources::new(alloc, files, scenario)?;
    if refusal.code == JSON || refusal.code == FILE_TOO_LONG {
        return Ok(file_text(&sources, files, refusal)?);
    }
    value_text(&sources, files, refusal)
}
