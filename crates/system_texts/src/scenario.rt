//! The scenario's file.

ghost use Rattle.std.specs.Prelude.{◌≡◌, ◌++◌, ◌≤◌, ◌<◌, ◌-◌, ◌+◌, ◌^◌, OnOk, IfOk};
ghost use Rattle.ffm_model.specs.TraceText.{hexadecimal_digit};
ghost use Rattle.system_texts.specs.Texts.{client_base, partition_base, client_script, partition_script, scripts_text, descriptors, memory_text, scenario_text};

use crate::items::{COUNT, Item, append_items, comma};
use ffm_model::{Memory, NON_SECURE_RAM_BASE, RAM_BASE};
use std::alloc::{AllocError, Global};
use text_lines::Word::{Byte, Number, Text};
use text_lines::{append, append_words};

// Where a client's part of the non-secure RAM begins.
#[tactic(auto, unfolding(crate::specs::Texts::client_base))]
fn client_base(number: u32) -> u32
    requires some { 0 < number }
    requires within { number ≤ COUNT }
    ensures base { result ≡ client_base number }
    ensures room { result + 8 < 2 ^ 32 }
{
    NON_SECURE_RAM_BASE + 256 * (number - 1)
}

// Where a partition's memory begins.
#[tactic(auto, unfolding(crate::specs::Texts::partition_base))]
fn partition_base(number: u32) -> u32
    requires some { 0 < number }
    requires within { number ≤ COUNT }
    ensures base { result ≡ partition_base number }
    ensures room { result + 256 < 2 ^ 32 }
{
    RAM_BASE + 1024 * (number - 1)
}

// The digit of a client's number in base 16, counted from 0.
fn digit_of(number: u32) -> u8
    requires some { 0 < number }
    requires within { number ≤ COUNT }
    ensures { result ≡ hexadecimal_digit (number - 1) }
{
    let digit = (number - 1) as u8;
    if digit < 10 {
        b'0' + digit
    } else {
        b'a' + (digit - 10)
    }
}

// The script of one of the clients.
#[tactic(auto, unfolding(crate::specs::Texts::client_script))]
fn append_client_script(
    text: &mut Vec<u8>,
    rounds: u32,
    number: u32,
    base: u32,
) -> Result<(), AllocError>
    requires within { number ≤ COUNT }
    requires room { base + 8 < 2 ^ 32 }
    ensures { OnOk result (text.new.items ≡ text.old.items ++ client_script rounds number base) }
{
    let words = [
        comma(number),
        Text(r#"{"actor":"N"#),
        Number(number),
        Text(r#"","lines":["connect "#),
        Number(4096 + number),
        Text(r#" 1","set r5 r0","set r6 "#),
        Number(rounds),
        Text(r#"","again:","call r5 0 "#),
        Number(base),
        Text(" 1 "),
        Number(base + 8),
        Text(r#" 1","sub r6 1","jne r6 0 again","close r5"]}"#),
    ];
    append_words(text, &words)
}

// The script of one of the partitions.
#[tactic(auto, unfolding(crate::specs::Texts::partition_script))]
fn append_partition_script(text: &mut Vec<u8>, number: u32, base: u32) -> Result<(), AllocError>
    requires room { base + 256 < 2 ^ 32 }
    ensures { OnOk result (text.new.items ≡ text.old.items ++ partition_script number base) }
{
    let words = [
        Text(r#",{"actor":"P"#),
        Number(number),
        Text(r#"","lines":["top:","wait 4294967295 2147483648","get r0 "#),
        Number(base),
        Text(r#"","jeq r1 0 req","reply r2 0","jmp top","req:","read r2 0 "#),
        Number(base + 256),
        Text(r#" 4","write r2 0 "#),
        Number(base + 256),
        Text(r#" 4","reply r2 0","jmp top"]}"#),
    ];
    append_words(text, &words)
}

// The descriptors of a client's vectors.
#[tactic(auto, unfolding(crate::specs::Texts::descriptors))]
fn append_descriptors(
    text: &mut Vec<u8>,
    number: u32,
    base: u32,
    digit: u8,
) -> Result<(), AllocError>
    ensures { OnOk result (text.new.items ≡ text.old.items ++ descriptors number base digit) }
{
    let words = [
        comma(number),
        Text(r#"{"address":"#),
        Number(base),
        Text(r#","bytes":"200"#),
        Byte(digit),
        Text("002004000000300"),
        Byte(digit),
        Text(r#"002004000000"}"#),
    ];
    append_words(text, &words)
}

/// Appends the scripts of a client and of the partition that it asks.
#[tactic(auto, unfolding(crate::specs::Texts::scripts_text))]
pub fn append_scripts(text: &mut Vec<u8>, rounds: u32, number: u32) -> Result<(), AllocError>
    requires some { 0 < number }
    requires within { number ≤ COUNT }
    ensures { OnOk result (text.new.items ≡ text.old.items ++ scripts_text rounds number) }
{
    append_client_script(text, rounds, number, client_base(number))?;
    append_partition_script(text, number, partition_base(number))
}

/// Appends the opening memory of a client.
#[tactic(auto, unfolding(crate::specs::Texts::memory_text))]
pub fn append_memory(text: &mut Vec<u8>, number: u32) -> Result<(), AllocError>
    requires some { 0 < number }
    requires within { number ≤ COUNT }
    ensures { OnOk result (text.new.items ≡ text.old.items ++ memory_text number) }
{
    append_descriptors(text, number, client_base(number), digit_of(number))
}

/// The text of the scenario's file, with so many requests of each client.
#[tactic(auto, unfolding(crate::specs::Texts::scenario_text))]
pub fn scenario_text(alloc: Global, rounds: u32) -> Result<Vec<u8>, Memory>
    ensures { IfOk result (λ text. text.items ≡ scenario_text rounds) }
{
    let mut text = Vec::new(alloc);
    append(&mut text, r#"{"event_limit":262144,"scripts":["#)?;
    append_items(&mut text, Item::Scripts { rounds })?;
    append(&mut text, r#"],"memory":["#)?;
    append_items(&mut text, Item::Memory)?;
    append(&mut text, "]}")?;
    Ok(text)
}
