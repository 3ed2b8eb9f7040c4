//! The items of the files' lists.

ghost use Rattle.std.specs.Prelude.{◌≡◌, ◌++◌, ◌≤◌, ◌<◌, OnOk};
ghost use Rattle.std.specs.List.{flat_map};
ghost use Rattle.system_texts.specs.Texts.{comma, numbers};
ghost use Rattle.system_texts.specs.View.{item_text};
ghost use Rattle.text_lines.specs.Words.{word_text};

use crate::scenario::{append_memory, append_scripts};
use crate::system::{append_client, append_manifest};
use std::alloc::AllocError;
use text_lines::Word;

/// How many partitions there are, and how many clients.
pub const COUNT: u32 = 16;

/// An item that a list of the files has for each number.
#[derive(Clone, Copy, Debug)]
pub enum Item {
    /// The manifest of a partition.
    Manifest,
    /// The name of a client.
    Client,
    /// The scripts of a client, with so many requests, and of its partition.
    Scripts { rounds: u32 },
    /// The opening memory of a client.
    Memory,
}

/// What stands before an item of a list.
pub fn comma(number: u32) -> Word<'static>
    ensures { word_text result ≡ comma number }
{
    if number == 1 {
        Word::Text("")
    } else {
        Word::Text(",")
    }
}

fn append_item(text: &mut Vec<u8>, item: Item, number: u32) -> Result<(), AllocError>
    requires some { 0 < number }
    requires within { number ≤ COUNT }
    ensures { OnOk result (text.new.items ≡ text.old.items ++ item_text item number) }
{
    match item {
        Item::Manifest => append_manifest(text, number),
        Item::Client => append_client(text, number),
        Item::Scripts { rounds } => append_scripts(text, rounds, number),
        Item::Memory => append_memory(text, number),
    }
}

/// Appends the items of all numbers.
#[tactic(auto, using(crate::proofs::Numbers::left_first))]
pub fn append_items(text: &mut Vec<u8>, item: Item) -> Result<(), AllocError>
    ensures { OnOk result (text.new.items ≡ text.old.items ++ flat_map (item_text item) numbers) }
{
    for number in 1..COUNT + 1 {
        append_item(text, item, number)?;
    }
    Ok(())
}
