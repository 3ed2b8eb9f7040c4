//! Values, and the line that one is written as.
ghost use Rattle.std.specs.Prelude.{◌≡◌, ◌-◌, ◌++◌, [], IfOk, OnOk, length, map, take};
ghost use Rattle.std.specs.List.{cons_option};
ghost use Rattle.std.specs.Option.{option_map};
ghost use Rattle.serde_json.specs.View.{view};
ghost use Rattle.view_json.specs.Values.{IsLineOf, bare, error_json, handle_json, place_json, signals_text, text_of};

use ffm_model::Handle;
use serde_json::{Value, json};
use std::alloc::{AllocError, Global};
use text_lines::{Word, append_word};

/// Bytes as a text: those that aren't UTF-8 are replaced.
pub fn text_value(alloc: Global, bytes: &[u8]) -> Result<Value, AllocError>
    ensures { IfOk result (λ v. view v ≡ text_of bytes.now) }
{
    Ok(Value::String(String::from_utf8_lossy(alloc, bytes)?))
}

/// The place of an entry; null for 0.
pub fn place_value(place: u32) -> Value
    ensures { view result ≡ place_json place }
{
    if place == 0 {
        Value::Null
    } else {
        Value::from(place)
    }
}

/// A handle, or null where there is none.
pub fn handle_value(handle: Option<Handle>) -> Value
    ensures { view result ≡ handle_json handle }
{
    match handle {
        Some(handle) => Value::from(handle.0),
        None => Value::Null,
    }
}

/// A word of signals, as in a trace.
pub fn signals_value(alloc: Global, signals: u32) -> Result<Value, AllocError>
    ensures { IfOk result (λ v. view v ≡ signals_text signals) }
{
    let mut text = Vec::new(alloc);
    append_word(&mut text, Word::Hexadecimal(signals))?;
    text_value(alloc, &text)
}

/// Adds a value, where there is one.
pub fn add_some(list: &mut Vec<Value>, value: Option<Value>) -> Result<(), AllocError>
    ensures { OnOk result (map view list.new.items
        ≡ map view list.old.items ++ cons_option (option_map view value) []) }
{
    if let Some(value) = value {
        list.push(value)?;
    }
    Ok(())
}

/// The text of a value and a line feed.
pub fn line_of(alloc: Global, value: &Value) -> Result<Vec<u8>, AllocError>
    ensures { IfOk result (λ line. IsLineOf (view value.now) line.items) }
{
    let mut line = value.to_string(alloc)?;
    line.push('\n')?;
    Ok(line.into_bytes())
}

/// A line without its line feed.
pub fn bare(line: &[u8]) -> &[u8]
    ensures { result.now ≡ bare line.now }
{
    &line[..line.len().saturating_sub(1)]
}

fn error_value(alloc: Global, line: &[u8]) -> Result<Value, AllocError>
    ensures { IfOk result (λ v. view v ≡ error_json line.now) }
{
    let error = text_value(alloc, bare(line))?;
    json!(in alloc; { "error": error })
}

/// A line that says why nothing is shown, as JSON.
pub fn error_json(alloc: Global, line: &[u8]) -> Result<Vec<u8>, AllocError>
    ensures { IfOk result (λ text. IsLineOf (error_json line.now) text.items) }
{
    let value = error_value(alloc, line)?;
    line_of(alloc, &value)
}
