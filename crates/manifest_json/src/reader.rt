//! Readers: how a kind of value is read from a JSON tree.
ghost use Rattle.std.specs.Prelude.{◌≡◌, [], List, ℕ, Option, Result, MatchResult, IfOk, IfSome};
ghost use Rattle.std.specs.List.{AllByRecursion};
ghost use Rattle.ffm_model.specs.declared.place.PartRefusal.{PartRefusal};
ghost use Rattle.ffm_model.specs.Attributes.{required, optional, list_of, list_after, items_after, text_as};
ghost use Rattle.serde_json.specs.Data.{Data};
ghost use Rattle.serde_json.specs.View.{view, items_view};
ghost use Rattle.manifest_json.specs.Gives.{Gives};

use crate::error::{PartError, refused, under};
use ffm_model::{BAD_VALUE, Key, List, MISSING_ATTRIBUTE, PathStep, WRONG_TYPE};
use serde_json::Value;
use std::alloc::Global;

/// A kind of value, and how it is read.
pub trait Reader {
    /// The value that is read.
    type Out: Drop;

    /// What a tree stands for, or its first refusal.
    ghost gives: { Self → Data → Result Self.Out PartRefusal };

    /// The range that each value keeps.
    ghost keeps: { Self → Self.Out → Type 0 } = { λ _ _. Unit {0} };

    /// The value that a tree stands for, or its first refusal, with the place counted from that
    /// tree. Memory where no memory was found.
    fn read(&self, alloc: Global, tree: &Value) -> Result<Self::Out, PartError>
        ensures given { Gives result (gives self.now (view tree.now)) }
        ensures kept { IfOk result (keeps self.now) };
}

/// An attribute that has to be there. One that isn't is refused as a missing attribute.
pub fn required<R: Reader>(
    alloc: Global,
    reader: &R,
    tree: &Value,
    key: Key,
) -> Result<R::Out, PartError>
    ensures given { Gives result (required (R.gives reader.now) key (view tree.now)) }
    ensures kept { IfOk result (R.keeps reader.now) }
{
    let read = match tree.get(key.text()) {
        Some(part) => reader.read(alloc, part),
        None => Err(refused(alloc, MISSING_ATTRIBUTE)),
    };
    under(PathStep::Key(key), read)
}

/// An attribute with a default.
pub fn optional<R: Reader>(
    alloc: Global,
    reader: &R,
    default: R::Out,
    tree: &Value,
    key: Key,
) -> Result<R::Out, PartError>
    requires { R.keeps reader.now default }
    ensures given { Gives result (optional (R.gives reader.now) default key (view tree.now)) }
    ensures kept { IfOk result (R.keeps reader.now) }
{
    let read = match tree.get(key.text()) {
        Some(part) => reader.read(alloc, part),
        None => Ok(default),
    };
    under(PathStep::Key(key), read)
}

/// A kind of item that is read in the knowledge of the items before it.
pub trait ReaderAfter {
    /// The item that is read.
    type Out: Drop;

    /// What a tree stands for after these items, or its first refusal.
    ghost gives: { Self → List Self.Out → Data → Result Self.Out PartRefusal };

    /// The range that each item keeps.
    ghost keeps: { Self → Self.Out → Type 0 } = { λ _ _. Unit {0} };

    /// The item that a tree stands for after `front`, or its first refusal, with the place counted
    /// from that tree. Memory where no memory was found.
    fn read_after(
        &self,
        alloc: Global,
        front: &[Self::Out],
        tree: &Value,
    ) -> Result<Self::Out, PartError>
        ensures given { Gives result (gives self.now front.now (view tree.now)) }
        ensures kept { IfOk result (keeps self.now) };
}

/// A list of items that are read in the knowledge of those before them.
#[derive(Clone, Copy)]
pub struct ListAfter<R>(pub R);

impl<R: ReaderAfter> Reader for ListAfter<R> {
    type Out = List<R::Out>;

    ghost gives = { λ r. list_after (R.gives r.0) };

    ghost keeps = { λ r. AllByRecursion (R.keeps r.0) };

    #[tactic(auto, unfolding(ffm_model::specs::Attributes::list_after))]
    fn read(&self, alloc: Global, tree: &Value) -> Result<List<R::Out>, PartError> {
        let Some(items) = tree.as_array() else {
            return Err(refused(alloc, WRONG_TYPE));
        };
        items_after(alloc, &self.0, items)
    }
}

/// A list of items that stand each for itself.
#[derive(Clone, Copy)]
pub struct ListOf<R>(pub R);

impl<R: Reader> Reader for ListOf<R> {
    type Out = List<R::Out>;

    ghost gives = { λ r. list_of (R.gives r.0) };

    ghost keeps = { λ r. AllByRecursion (R.keeps r.0) };

    #[tactic(auto, unfolding(ffm_model::specs::Attributes::list_after))]
    fn read(&self, alloc: Global, tree: &Value) -> Result<List<R::Out>, PartError> {
        let Some(items) = tree.as_array() else {
            return Err(refused(alloc, WRONG_TYPE));
        };
        items_after(alloc, &Alone { reader: &self.0 }, items)
    }
}

/// A list of items that stand each for itself, and is empty where it isn't there.
pub fn optional_list<R: Reader + Copy>(
    alloc: Global,
    reader: R,
    tree: &Value,
    key: Key,
) -> Result<List<R::Out>, PartError>
    ensures given { Gives result (optional (list_of (R.gives reader)) [] key (view tree.now)) }
    ensures kept { IfOk result (AllByRecursion (R.keeps reader)) }
{
    let none = List::of(Vec::new(alloc));
    optional(alloc, &ListOf(reader), none, tree, key)
}

/// Items that are read without looking at those before them.
#[derive_where(Clone, Copy)]
struct Alone<'a, R> {
    reader: &'a R,
}

impl<R: Reader> ReaderAfter for Alone<'_, R> {
    type Out = R::Out;

    ghost gives = { λ r front. R.gives r.reader.now };

    ghost keeps = { λ r. R.keeps r.reader.now };

    fn read_after(
        &self,
        alloc: Global,
        _front: &[R::Out],
        tree: &Value,
    ) -> Result<R::Out, PartError> {
        self.reader.read(alloc, tree)
    }
}

/// The step to an item. More items than a step can number are more than memory has.
fn step_to(i: usize) -> Result<PathStep, PartError>
    ensures { MatchResult result (λ s. s ≡ PathStep.Index i) (λ e. e ≡ PartError.Memory) }
{
    match u32::try_from(i) {
        Ok(i) => Ok(PathStep::Index(i)),
        Err(_) => Err(PartError::Memory),
    }
}

fn items_after<R: ReaderAfter>(
    alloc: Global,
    reader: &R,
    items: &[Value],
) -> Result<List<R::Out>, PartError>
    ensures given { Gives result (items_after (R.gives reader.now) [] 0 (items_view items.now)) }
    ensures kept { IfOk result (AllByRecursion (R.keeps reader.now)) }
{
    let mut found = Vec::with_capacity(alloc, items.len())?;
    for (i, item) in items.iter().enumerate() {
        let step = step_to(i)?;
        let value = under(step, reader.read_after(alloc, &found, item))?;
        found.push(value)?;
    }
    Ok(List::of(found))
}

/// What a text may stand for.
pub trait Word {
    /// What the text stands for.
    type Meaning: Drop;

    /// What a text of these bytes stands for.
    ghost meaning: { Self → List ℕ → Option Self.Meaning };

    /// The range that each meaning keeps.
    ghost keeps: { Self → Self.Meaning → Type 0 } = { λ _ _. Unit {0} };

    /// None where the text stands for nothing.
    fn meaning(&self, text: &str) -> Option<Self::Meaning>
        ensures told { result ≡ meaning self.now text.now }
        ensures kept { IfSome result (keeps self.now) };
}

/// A text that stands for something. Another text is a bad value.
#[derive(Clone, Copy)]
pub struct Text<W>(pub W);

impl<W: Word> Reader for Text<W> {
    type Out = W::Meaning;

    ghost gives = { λ r. text_as (W.meaning r.0) };

    ghost keeps = { λ r. W.keeps r.0 };

    fn read(&self, alloc: Global, tree: &Value) -> Result<W::Meaning, PartError> {
        let Some(text) = tree.as_str() else {
            return Err(refused(alloc, WRONG_TYPE));
        };
        match self.0.meaning(text) {
            Some(meaning) => Ok(meaning),
            None => Err(refused(alloc, BAD_VALUE)),
        }
    }
}
