//! The system's file.

ghost use Rattle.std.specs.Prelude.{◌≡◌, ◌++◌, ◌≤◌, OnOk, IfOk};
ghost use Rattle.system_texts.specs.Texts.{manifest_text, client_text, system_text};

use crate::items::{COUNT, Item, append_items, comma};
use ffm_model::Memory;
use std::alloc::{AllocError, Global};
use text_lines::Word::{Number, Text};
use text_lines::{append, append_words};

/// Appends the manifest of one of the partitions.
#[tactic(auto, unfolding(crate::specs::Texts::manifest_text))]
pub fn append_manifest(text: &mut Vec<u8>, number: u32) -> Result<(), AllocError>
    requires { number ≤ COUNT }
    ensures { OnOk result (text.new.items ≡ text.old.items ++ manifest_text number) }
{
    let words = [
        comma(number),
        Text(r#"{"psa_framework_version":"1.0","name":"P"#),
        Number(number),
        Text(
            r#"","type":"APPLICATION-ROT","priority":"NORMAL","entry_point":"main","stack_size":1024,"services":[{"name":"S"#,
        ),
        Number(number),
        Text(r#"","sid":"#),
        Number(4096 + number),
        Text(r#","non_secure_clients":true}]}"#),
    ];
    append_words(text, &words)
}

/// Appends the name of one of the clients.
#[tactic(auto, unfolding(crate::specs::Texts::client_text))]
pub fn append_client(text: &mut Vec<u8>, number: u32) -> Result<(), AllocError>
    ensures { OnOk result (text.new.items ≡ text.old.items ++ client_text number) }
{
    let words = [comma(number), Text("\"N"), Number(number), Text("\"")];
    append_words(text, &words)
}

/// The text of the system's file.
#[tactic(auto, unfolding(crate::specs::Texts::system_text))]
pub fn system_text(alloc: Global) -> Result<Vec<u8>, Memory>
    ensures { IfOk result (λ text. text.items ≡ system_text) }
{
    let mut text = Vec::new(alloc);
    append(&mut text, r#"{"isolation_level":3,"manifests":["#)?;
    append_items(&mut text, Item::Manifest)?;
    append(&mut text, r#"],"clients":["#)?;
    append_items(&mut text, Item::Client)?;
    append(&mut text, "]}")?;
    Ok(text)
}
