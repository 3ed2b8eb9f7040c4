//! JSON trees out of a file's bytes.
ghost use Rattle.std.specs.Prelude.{◌≡◌, List, ℕ};
ghost use Rattle.ffm_model.specs.Quote.{quote};
ghost use Rattle.ffm_model.specs.Trees.{tree_of};
ghost use Rattle.manifest_json.specs.Trees.{GivesTree};

use crate::quote::{has_no_decimal, quote_decimals};
use ffm_model::{JSON, List, Place, ReadError, Refusal};
use serde_json::Value;
use std::alloc::Global;

/// The tree that a text spells in which all decimals have their marks.
fn tree_spelled(alloc: Global, text: &[u8], place: Place) -> Result<Value, ReadError>
    ensures { (bytes : List ℕ) → text.now ≡ quote bytes → GivesTree place result (tree_of bytes) }
{
    match Value::from_slice(alloc, text) {
        Ok(tree) => Ok(tree),
        Err(e) => {
            if e.is_memory() {
                return Err(ReadError::Memory);
            }
            Err(ReadError::Refused(Refusal {
                code: JSON,
                place,
                cycle: List::of(Vec::new(alloc)),
            }))
        }
    }
}

/// The JSON tree that a file's bytes spell, with decimals read as texts.
///
/// The bytes are refused at `place` exactly where they aren't UTF-8 or are no JSON text of depth
/// at most 127.
pub fn read_tree(alloc: Global, bytes: &[u8], place: Place) -> Result<Value, ReadError>
    ensures { GivesTree place result (tree_of bytes.now) }
{
    if has_no_decimal(bytes) {
        return tree_spelled(alloc, bytes, place);
    }
    let quoted = quote_decimals(alloc, bytes)?;
    tree_spelled(alloc, &quoted, place)
}
