//! Readers of single values.
ghost use Rattle.std.specs.Prelude.{◌≡◌, ◌≤◌};
ghost use Rattle.std.specs.List.{list_all};
ghost use Rattle.ffm_model.specs.Texts.{is_word_byte, is_name, hex_number};
ghost use Rattle.ffm_model.specs.Attributes.{name_of, number_of, boolean_of, object_of, whole, whole_between, text_as};
ghost use Rattle.ffm_model.specs.ManifestItems.{IsName, IsSource};
ghost use Rattle.ffm_model.specs.Manifests.{signal_text, source_of};
ghost use Rattle.serde_json.specs.View.{view};
ghost use Rattle.manifest_json.specs.Gives.{Gives};

use crate::error::{PartError, refused};
use crate::reader::Reader;
use ffm_model::{BAD_VALUE, Name, WRONG_TYPE};
use serde_json::Value;
use std::alloc::Global;

/// The largest number that a file may write without quotation marks: nineteen nines.
const LARGEST_WHOLE: u64 = 9_999_999_999_999_999_999;

/// The most characters of the name of an interrupt: `_SIGNAL` after it leaves a name.
const LONGEST_INTERRUPT_NAME: usize = 57;

/// Whether a text is a name: 1 to 64 letters, digits and `_`, no digit first, and not `device`.
#[tactic(auto, unfolding(ffm_model::specs::Texts::is_name))]
pub fn is_name(text: &str) -> bool
    ensures { result ≡ is_name text.now }
{
    let bytes = text.as_bytes();
    if bytes.is_empty() || bytes.len() > 64 || bytes[0].is_ascii_digit() || text == "device" {
        return false;
    }
    has_word_bytes(bytes)
}

fn has_word_bytes(bytes: &[u8]) -> bool
    ensures { result ≡ list_all is_word_byte bytes.now }
{
    bytes.iter().all(|b| is_word_byte(*b))
}

fn is_word_byte(b: u8) -> bool
    ensures { result ≡ is_word_byte b }
{
    b.is_ascii_alphanumeric() || b == b'_'
}

/// The number that `0x` and one to eight hexadecimal digits spell. None for any other text.
#[tactic(auto, unfolding(ffm_model::specs::Texts::hex_number))]
pub fn hex_number(text: &str) -> Option<u32>
    ensures { result ≡ hex_number text.now }
{
    let bytes = text.as_bytes();
    if bytes.len() <= 2 || bytes.len() > 10 || bytes[0] != b'0' || bytes[1] != b'x' {
        return None;
    }
    let mut number: u32 = 0;
    for digit in &bytes[2..] {
        number = number * 16 + char::from(*digit).to_digit(16)?;
    }
    Some(number)
}

/// The number that a value is, without sign, fraction or exponent. None for any other value.
#[tactic(auto, unfolding(ffm_model::specs::Attributes::whole))]
pub fn whole(tree: &Value) -> Option<u64>
    ensures { result ≡ whole (view tree.now) }
{
    let number = tree.as_u64()?;
    if number <= LARGEST_WHOLE {
        Some(number)
    } else {
        None
    }
}

/// Refuses what is no object.
#[tactic(auto, unfolding(ffm_model::specs::Attributes::object_of))]
pub fn object(alloc: Global, tree: &Value) -> Result<(), PartError>
    ensures { Gives result (object_of (view tree.now)) }
{
    if tree.is_object() {
        Ok(())
    } else {
        Err(refused(alloc, WRONG_TYPE))
    }
}

/// A name.
#[derive(Clone, Copy)]
pub struct NameReader;

impl Reader for NameReader {
    type Out = Name;

    ghost gives = { λ _. name_of };

    ghost keeps = { λ _. IsName };

    #[tactic(auto, unfolding(ffm_model::specs::Attributes::name_of))]
    fn read(&self, alloc: Global, tree: &Value) -> Result<Name, PartError> {
        let Some(text) = tree.as_str() else {
            return Err(refused(alloc, WRONG_TYPE));
        };
        if !is_name(text) {
            return Err(refused(alloc, BAD_VALUE));
        }
        Ok(Name::of(String::from_str(alloc, text)?))
    }
}

/// A number below 2^32, or a text of `0x` and hexadecimal digits.
#[derive(Clone, Copy)]
pub struct NumberReader;

impl Reader for NumberReader {
    type Out = u32;

    ghost gives = { λ _. number_of };

    #[tactic(auto, unfolding(ffm_model::specs::Attributes::number_of))]
    fn read(&self, alloc: Global, tree: &Value) -> Result<u32, PartError> {
        if let Some(number) = whole(tree) {
            return u32::try_from(number).map_err(|_| refused(alloc, BAD_VALUE));
        }
        let Some(text) = tree.as_str() else {
            return Err(refused(alloc, WRONG_TYPE));
        };
        hex_number(text).ok_or_else(|| refused(alloc, BAD_VALUE))
    }
}

/// A whole number from `least` to `most`.
#[derive(Clone, Copy)]
pub struct WholeReader {
    pub least: u32,
    pub most: u32,
}

impl Reader for WholeReader {
    type Out = u32;

    ghost gives = { λ r. whole_between r.least r.most };

    ghost keeps = { λ r n. (r.least ≤ n) × (n ≤ r.most) };

    #[tactic(auto, unfolding(ffm_model::specs::Attributes::whole_between))]
    fn read(&self, alloc: Global, tree: &Value) -> Result<u32, PartError> {
        let Some(number) = whole(tree) else {
            return Err(refused(alloc, WRONG_TYPE));
        };
        if number < u64::from(self.least) || u64::from(self.most) < number {
            return Err(refused(alloc, BAD_VALUE));
        }
        Ok(number as u32)
    }
}

/// True or false.
#[derive(Clone, Copy)]
pub struct BooleanReader;

impl Reader for BooleanReader {
    type Out = bool;

    ghost gives = { λ _. boolean_of };

    #[tactic(auto, unfolding(ffm_model::specs::Attributes::boolean_of))]
    fn read(&self, alloc: Global, tree: &Value) -> Result<bool, PartError> {
        tree.as_bool().ok_or_else(|| refused(alloc, WRONG_TYPE))
    }
}

/// An interrupt source: a name, or a number below 2^32 that stands for its decimal text.
#[derive(Clone, Copy)]
pub struct SourceReader;

impl Reader for SourceReader {
    type Out = Name;

    ghost gives = { λ _. source_of };

    ghost keeps = { λ _. IsSource };

    #[tactic(auto, unfolding(ffm_model::specs::Manifests::source_of))]
    fn read(&self, alloc: Global, tree: &Value) -> Result<Name, PartError> {
        match whole(tree) {
            Some(number) if number <= 0xFFFF_FFFF => {
                Ok(Name::of(format!(in alloc; "{number}")?))
            }
            Some(_) => Err(refused(alloc, BAD_VALUE)),
            None => NameReader.read(alloc, tree),
        }
    }
}

/// The signal of an interrupt, which is named after it: the name is a text of at most 57 characters.
#[derive(Clone, Copy)]
pub(crate) struct SignalReader;

impl Reader for SignalReader {
    type Out = Name;

    ghost gives = { λ _. text_as signal_text };

    ghost keeps = { λ _. IsName };

    #[tactic(auto, using(crate::proofs::Signals::is_signal_name))]
    fn read(&self, alloc: Global, tree: &Value) -> Result<Name, PartError> {
        let Some(text) = tree.as_str() else {
            return Err(refused(alloc, WRONG_TYPE));
        };
        if !is_name(text) || LONGEST_INTERRUPT_NAME < text.len() {
            return Err(refused(alloc, BAD_VALUE));
        }
        Ok(Name::of(format!(in alloc; "{text}_SIGNAL")?))
    }
}
