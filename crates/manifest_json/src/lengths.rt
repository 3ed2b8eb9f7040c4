//! Readers of lists whose length has a limit.
ghost use Rattle.std.specs.Prelude.{◌<◌, ◌≤◌, length};
ghost use Rattle.std.specs.List.{AllByRecursion};
ghost use Rattle.ffm_model.specs.Attributes.{list_up_to, list_of_some};

use crate::error::{PartError, refused};
use crate::reader::{ListOf, Reader};
use ffm_model::{BAD_VALUE, List, WRONG_TYPE};
use serde_json::Value;
use std::alloc::Global;

/// A list of at most `most` items, which stand each for itself. A longer one is refused before any
/// item is read.
#[derive(Clone, Copy)]
pub struct ListUpTo<R> {
    pub reader: ListOf<R>,
    pub most: usize,
}

impl<R: Reader> Reader for ListUpTo<R> {
    type Out = List<R::Out>;

    ghost gives = { λ r. list_up_to r.most (R.gives r.reader.0) };

    ghost keeps = { λ r items.
        AllByRecursion (R.keeps r.reader.0) items × (length items ≤ r.most) };

    #[tactic(auto, unfolding(ffm_model::specs::Attributes::list_up_to))]
    fn read(&self, alloc: Global, tree: &Value) -> Result<List<R::Out>, PartError> {
        let Some(items) = tree.as_array() else {
            return Err(refused(alloc, WRONG_TYPE));
        };
        if self.most < items.len() {
            return Err(refused(alloc, BAD_VALUE));
        }
        self.reader.read(alloc, tree)
    }
}

/// A list of at least one item, which stand each for itself. An empty one is refused.
#[derive(Clone, Copy)]
pub struct SomeOf<R>(pub ListOf<R>);

impl<R: Reader> Reader for SomeOf<R> {
    type Out = List<R::Out>;

    ghost gives = { λ r. list_of_some (R.gives r.0.0) };

    ghost keeps = { λ r items. AllByRecursion (R.keeps r.0.0) items × (0 < length items) };

    #[tactic(auto, unfolding(ffm_model::specs::Attributes::list_of_some))]
    fn read(&self, alloc: Global, tree: &Value) -> Result<List<R::Out>, PartError> {
        let Some(items) = tree.as_array() else {
            return Err(refused(alloc, WRONG_TYPE));
        };
        if items.is_empty() {
            return Err(refused(alloc, BAD_VALUE));
        }
        self.0.read(alloc, tree)
    }
}
