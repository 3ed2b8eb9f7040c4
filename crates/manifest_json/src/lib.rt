//! A partition's manifest out of the bytes of a JSON file, and the readers that it is made of.
#![tactic(auto)]

mod error;
mod items;
mod lengths;
mod manifest;
mod quote;
mod reader;
mod trees;
mod values;
mod words;

pub use error::{PartError, placed, refused, refused_at, under};
pub use lengths::ListUpTo;
pub use manifest::{ManifestReader, read_manifest};
pub use quote::quote_decimals;
pub use reader::{
    ListAfter, ListOf, Reader, ReaderAfter, Text, Word, optional, optional_list, required,
};
pub use trees::read_tree;
pub use values::{
    BooleanReader, NameReader, NumberReader, SourceReader, WholeReader, hex_number, is_name,
    object, whole,
};
