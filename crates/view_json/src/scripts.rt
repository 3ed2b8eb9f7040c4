//! Where the scripts stand.
ghost use Rattle.std.specs.Prelude.{◌≡◌, IfOk, map};
ghost use Rattle.std.specs.Option.{option_map};
ghost use Rattle.serde_json.specs.View.{view};
ghost use Rattle.view_json.specs.ScriptsJson.{call_json, context_json, ended_json, is_spent, left_json, line_json, line_text_json, register_json, registers_json, registers_of, script_json, scripts_json};
ghost use Rattle.view_json.specs.Values.{array_of};

use crate::actors::actor_value;
use ffm_model::System;
use serde_json::{Value, json};
use std::alloc::{AllocError, Global};
use view_scripts::{NumberedContext, ScriptRow, Told, end_word};
use view_texts::call_name;

// Which context of its client it is, and whether it calls next.
fn context_value(alloc: Global, context: Option<NumberedContext>) -> Result<Value, AllocError>
    ensures { IfOk result (λ v. view v ≡ context_json context) }
{
    match context {
        Some(context) => json!(in alloc; {
            "number": context.number,
            "calls_next": context.is_next
        }),
        None => Ok(Value::Null),
    }
}

// The number of a line.
fn line_value(told: &Told) -> Value
    ensures { view result ≡ line_json told.now }
{
    match told {
        Told::Line { number, .. } => Value::from(*number),
        _ => Value::Null,
    }
}

fn line_text_value(alloc: Global, told: &Told) -> Result<Value, AllocError>
    ensures { IfOk result (λ v. view v ≡ line_text_json told.now) }
{
    match told {
        Told::Line { text, .. } => json!(in alloc; text.as_str()),
        _ => Ok(Value::Null),
    }
}

// The call of functions.
fn call_value(alloc: Global, told: &Told) -> Result<Value, AllocError>
    ensures { IfOk result (λ v. view v ≡ call_json told.now) }
{
    match told {
        Told::Call { call, .. } => json!(in alloc; call_name(*call)),
        _ => Ok(Value::Null),
    }
}

#[tactic(auto, unfolding(crate::specs::ScriptsJson::register_json))]
fn register_value(alloc: Global, register: usize, value: u32) -> Result<Value, AllocError>
    ensures { IfOk result (λ v. view v ≡ register_json (register, value)) }
{
    let name = format!(in alloc; "r{register}")?;
    json!(in alloc; { "register": name, "value": value })
}

// The registers that aren't 0.
fn register_list(alloc: Global, registers: &[u32]) -> Result<Vec<Value>, AllocError>
    ensures { IfOk result (λ v. map view v.items ≡ registers_json registers.now) }
{
    let mut list = Vec::new(alloc);
    for (register, value) in registers.iter().enumerate() {
        if *value != 0 {
            list.push(register_value(alloc, register, *value)?)?;
        }
    }
    Ok(list)
}

// The registers of a script that goes on.
fn registers_value(alloc: Global, told: &Told) -> Result<Value, AllocError>
    ensures { IfOk result (λ v. view v ≡ array_of (registers_of told.now)) }
{
    match told {
        Told::Line { registers, .. } | Told::Call { registers, .. } => {
            Ok(Value::Array(register_list(alloc, registers)?))
        }
        _ => Ok(Value::Array(Vec::new(alloc))),
    }
}

fn is_spent(told: &Told) -> bool
    ensures { result ≡ is_spent told.now }
{
    match told {
        Told::Line { is_spent, .. } => *is_spent,
        _ => false,
    }
}

// How the actor ended, where it did.
fn ended_value(alloc: Global, told: &Told) -> Result<Value, AllocError>
    ensures { IfOk result (λ v. view v ≡ ended_json told.now) }
{
    match told {
        Told::Ended(end) => json!(in alloc; end_word(*end)),
        _ => Ok(Value::Null),
    }
}

// The place of the entry at which the actor left its script.
fn left_value(told: &Told) -> Value
    ensures { view result ≡ left_json told.now }
{
    match told {
        Told::Left(place) => Value::from(*place),
        _ => Value::Null,
    }
}

#[tactic(auto, unfolding(crate::specs::ScriptsJson::script_json))]
fn script_value(alloc: Global, system: &System, row: &ScriptRow) -> Result<Value, AllocError>
    ensures { IfOk result (λ v. view v ≡ script_json system.now row.now) }
{
    let actor = actor_value(alloc, system, row.actor)?;
    let context = context_value(alloc, row.context)?;
    let text = line_text_value(alloc, &row.told)?;
    let call = call_value(alloc, &row.told)?;
    let registers = registers_value(alloc, &row.told)?;
    let ended = ended_value(alloc, &row.told)?;
    json!(in alloc; {
        "actor": actor,
        "context": context,
        "line": line_value(&row.told),
        "text": text,
        "call": call,
        "registers": registers,
        "is_spent": is_spent(&row.told),
        "ended": ended,
        "left_at": left_value(&row.told)
    })
}

fn script_list(alloc: Global, system: &System, rows: &[ScriptRow]) -> Result<Vec<Value>, AllocError>
    ensures { IfOk result (λ v. map view v.items ≡ map (script_json system.now) rows.now) }
{
    let mut list = Vec::new(alloc);
    for row in rows {
        list.push(script_value(alloc, system, row)?)?;
    }
    Ok(list)
}

/// Where the scripts stand; null where there are no rows to be told.
pub fn scripts_value(
    alloc: Global,
    system: &System,
    rows: Option<&[ScriptRow]>,
) -> Result<Value, AllocError>
    ensures { IfOk result (λ v. view v
        ≡ scripts_json system.now (option_map (λ rows. rows.now) rows.entry)) }
{
    match rows {
        Some(rows) => Ok(Value::Array(script_list(alloc, system, rows)?)),
        None => Ok(Value::Null),
    }
}
