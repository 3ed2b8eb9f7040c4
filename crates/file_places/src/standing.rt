//! Where a value stands in a text, held against the tree that the text spells.

ghost use Rattle.std.specs.Prelude.{◌≡◌, IfOk, codes, true};
ghost use Rattle.std.specs.Option.{option_map};
ghost use Rattle.serde_json.specs.Data.{boolean, null};
ghost use Rattle.serde_json.specs.View.{view};
ghost use Rattle.ffm_model.specs.Trees.{tree_of};
ghost use Rattle.file_places.specs.Places.{IsAt, Stands, part_at, replaced, value_at};

use crate::slices::{Span, front_of, rest_of};
use ffm_model::{List, Memory, PathStep, Place, ReadError, Root};
use manifest_json::read_tree;
use serde_json::Value;
use std::alloc::{AllocError, Global};

// The value that a step leads to.
fn part_at<'a>(tree: &'a Value, step: PathStep) -> Option<&'a Value>
    ensures { option_map (λ v. view v.now) result ≡ part_at step (view tree.now) }
{
    match step {
        PathStep::Key(key) => tree.get(key.text()),
        PathStep::Index(index) => tree.get(index as usize),
    }
}

// The value at a place.
fn value_at<'a>(tree: &'a Value, steps: &[PathStep]) -> Option<&'a Value>
    ensures { option_map (λ v. view v.now) result ≡ value_at steps.now (view tree.now) }
{
    match steps.split_first() {
        None => Some(tree),
        Some((step, rest)) => value_at(part_at(tree, *step)?, rest),
    }
}

// A text with these bytes in place of a part of it.
fn replaced(alloc: Global, text: &[u8], span: Span, by: &[u8]) -> Result<Vec<u8>, AllocError>
    ensures { IfOk result (λ v. v.items ≡ replaced text.now span.from span.to by.now) }
{
    let mut whole = Vec::new(alloc);
    whole.extend_from_slice(front_of(text, span.from))?;
    whole.extend_from_slice(by)?;
    whole.extend_from_slice(rest_of(text, span.to))?;
    Ok(whole)
}

// The tree that a text spells, where it spells one.
fn tree_in(alloc: Global, text: &[u8]) -> Result<Option<Value>, Memory>
    ensures { IfOk result (λ found. option_map view found ≡ tree_of text.now) }
{
    let place = Place {
        root: Root::System,
        steps: List::of(Vec::new(alloc)),
    };
    match read_tree(alloc, text, place) {
        Ok(tree) => Ok(Some(tree)),
        Err(ReadError::Refused(_)) => Ok(None),
        Err(ReadError::Memory) => Err(Memory),
    }
}

// Whether null stands at a place of a text.
fn is_null_at(alloc: Global, text: &[u8], steps: &[PathStep]) -> Result<bool, Memory>
    ensures { IfOk result (λ is. is ≡ true → IsAt text.now steps.now null) }
{
    let Some(tree) = tree_in(alloc, text)? else {
        return Ok(false);
    };
    match value_at(&tree, steps) {
        Some(value) => Ok(value.is_null()),
        None => Ok(false),
    }
}

// Whether true stands at a place of a text.
fn is_true_at(alloc: Global, text: &[u8], steps: &[PathStep]) -> Result<bool, Memory>
    ensures { IfOk result (λ is. is ≡ true → IsAt text.now steps.now (boolean true)) }
{
    let Some(tree) = tree_in(alloc, text)? else {
        return Ok(false);
    };
    match value_at(&tree, steps) {
        Some(value) => Ok(value.as_bool() == Some(true)),
        None => Ok(false),
    }
}

/// Whether these bytes of a text are the value at a place: with null in place of them null is there, and with true
/// true. Memory where no memory was found.
pub fn stands(alloc: Global, text: &[u8], steps: &[PathStep], span: Span) -> Result<bool, Memory>
    ensures { IfOk result (λ is. is ≡ true → Stands text.now steps.now span.from span.to) }
{
    let with_null = replaced(alloc, text, span, b"null")?;
    let with_true = replaced(alloc, text, span, b"true")?;
    Ok(is_null_at(alloc, &with_null, steps)? && is_true_at(alloc, &with_true, steps)?)
}
