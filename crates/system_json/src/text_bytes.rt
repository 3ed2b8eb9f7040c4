//! The bytes that the memory begins with, written in hexadecimal digits.
ghost use Rattle.std.specs.Prelude.{◌≡◌, IfOk, Option, length};
ghost use Rattle.std.specs.List.{list_any};
ghost use Rattle.std.specs.Option.{option_map};
ghost use Rattle.ffm_model.specs.Memory.{lies_in};
ghost use Rattle.ffm_model.specs.Scenarios.{hex_byte, hex_bytes, bytes_of};

use ffm_model::{BAD_VALUE, Bytes, Key, List, PathStep, Regions, WRONG_TYPE};
use manifest_json::{NumberReader, PartError, Reader, object, refused, refused_at, required};
use serde_json::Value;
use std::alloc::{AllocError, Global};

/// The byte that two hexadecimal digits spell.
fn hex_byte(high: u8, low: u8) -> Option<u8>
    ensures { result ≡ hex_byte high low }
{
    let high = char::from(high).to_digit(16)?;
    let low = char::from(low).to_digit(16)?;
    Some((high * 16 + low) as u8)
}

/// The bytes that an even number of hexadecimal digits spell. None for any other text.
fn hex_bytes(alloc: Global, text: &str) -> Result<Option<Vec<u8>>, AllocError>
    ensures { IfOk result (λ bytes. option_map (λ v. v.items) bytes ≡ hex_bytes text.now) }
{
    let mut found = Vec::new(alloc);
    let mut digits = text.as_bytes();
    while let Some((high, after)) = digits.split_first() {
        let Some((low, after)) = after.split_first() else {
            return Ok(None);
        };
        let Some(byte) = hex_byte(*high, *low) else {
            return Ok(None);
        };
        found.push(byte)?;
        digits = after;
    }
    Ok(Some(found))
}

/// A text of an even number of hexadecimal digits.
#[derive(Clone, Copy)]
struct HexReader;

impl Reader for HexReader {
    ghost use Rattle.ffm_model.specs.Attributes.{text_as};

    type Out = List<u8>;

    ghost gives = { λ _. text_as hex_bytes };

    fn read(&self, alloc: Global, tree: &Value) -> Result<List<u8>, PartError> {
        let Some(text) = tree.as_str() else {
            return Err(refused(alloc, WRONG_TYPE));
        };
        match hex_bytes(alloc, text)? {
            Some(bytes) => Ok(List::of(bytes)),
            None => Err(refused(alloc, BAD_VALUE)),
        }
    }
}

/// Bytes at an address. Their range lies whole in one of the regions.
#[derive(Clone, Copy)]
pub(crate) struct BytesReader<'a> {
    pub regions: &'a Regions,
}

impl Reader for BytesReader<'_> {
    ghost use Rattle.std.specs.Prelude.{IsTrue};

    type Out = Bytes;

    ghost gives = { λ r. bytes_of r.regions.now };

    ghost keeps = { λ r b. IsTrue (list_any (lies_in b.address (length b.content)) r.regions.now) };

    #[tactic(auto, unfolding(ffm_model::specs::Scenarios::bytes_of))]
    fn read(&self, alloc: Global, tree: &Value) -> Result<Bytes, PartError> {
        object(alloc, tree)?;
        let address = required(alloc, &NumberReader, tree, Key::Address)?;
        let content = required(alloc, &HexReader, tree, Key::Bytes)?;
        if !self.regions.is_inside(address, content.len()) {
            return Err(refused_at(alloc, PathStep::Key(Key::Address), BAD_VALUE));
        }
        Ok(Bytes { address, content })
    }
}
