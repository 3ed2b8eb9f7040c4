//! Messages, and the bytes moved of their vectors.
ghost use Rattle.std.specs.Prelude.{◌≡◌, ◌++◌, IfOk, OnOk, map};
ghost use Rattle.serde_json.specs.View.{view};
ghost use Rattle.view_json.specs.Values.{array_of};
ghost use Rattle.view_json.specs.StateJson.{holder_json, is_request, message_json, span_json, spans_json, type_json, vectors_json};

use crate::actors::actor_value;
use crate::values::handle_value;
use ffm_model::{Handle, PSA_IPC_CALL, PendingMessage, Span, System};
use serde_json::{Value, json};
use std::alloc::{AllocError, Global};
use view_places::owner_of;
use view_texts::{call_of_kind, service_name};

// The partition that holds a message, where it was taken.
fn holder_value(
    alloc: Global,
    system: &System,
    handle: Option<Handle>,
    owner: Option<u32>,
) -> Result<Value, AllocError>
    ensures { IfOk result (λ v. view v ≡ holder_json system.now handle owner) }
{
    match (handle, owner) {
        (Some(_), Some(owner)) => actor_value(alloc, system, owner),
        _ => Ok(Value::Null),
    }
}

// How many bytes of a vector were moved, of how many.
#[tactic(auto, unfolding(crate::specs::StateJson::span_json))]
fn span_value(alloc: Global, name: &str, place: usize, span: &Span) -> Result<Value, AllocError>
    ensures { IfOk result (λ v. view v ≡ span_json name.now (place, span.now)) }
{
    let vector = format!(in alloc; "{name}{place}")?;
    json!(in alloc; { "vector": vector, "moved": span.moved, "size": span.len })
}

// Adds the vectors that are given.
fn add_spans(
    alloc: Global,
    list: &mut Vec<Value>,
    name: &str,
    spans: &[Span],
) -> Result<(), AllocError>
    ensures { OnOk result (map view list.new.items
        ≡ map view list.old.items ++ spans_json name.now spans.now) }
{
    for (place, span) in spans.iter().enumerate() {
        if span.len != 0 {
            list.push(span_value(alloc, name, place, span)?)?;
        }
    }
    Ok(())
}

fn is_request(message: &PendingMessage) -> bool
    ensures { result ≡ is_request message.now }
{
    message.kind >= PSA_IPC_CALL
}

fn type_value(message: &PendingMessage) -> Value
    ensures { view result ≡ type_json message.now }
{
    if is_request(message) {
        Value::from(message.kind)
    } else {
        Value::Null
    }
}

fn vector_list(alloc: Global, message: &PendingMessage) -> Result<Vec<Value>, AllocError>
    ensures { IfOk result (λ v. map view v.items ≡ vectors_json message.now) }
{
    let mut list = Vec::new(alloc);
    if is_request(message) {
        add_spans(alloc, &mut list, "in", &message.vectors.input)?;
        add_spans(alloc, &mut list, "out", &message.vectors.output)?;
    }
    Ok(list)
}

#[tactic(auto, unfolding(crate::specs::StateJson::message_json))]
fn message_value(
    alloc: Global,
    system: &System,
    message: &PendingMessage,
) -> Result<Value, AllocError>
    ensures { IfOk result (λ v. view v ≡ message_json system.now message.now) }
{
    let client = actor_value(alloc, system, message.client.0)?;
    let owner = owner_of(system, message.service);
    let holder = holder_value(alloc, system, message.handle, owner)?;
    let vectors = vector_list(alloc, message)?;
    json!(in alloc; {
        "client": client,
        "service": service_name(system, message.service),
        "call": call_of_kind(message.kind),
        "held_by": holder,
        "handle": handle_value(message.handle),
        "type": type_value(message),
        "vectors": vectors
    })
}

fn message_list(
    alloc: Global,
    system: &System,
    messages: &[PendingMessage],
) -> Result<Vec<Value>, AllocError>
    ensures { IfOk result (λ v. map view v.items ≡ map (message_json system.now) messages.now) }
{
    let mut list = Vec::new(alloc);
    for message in messages {
        list.push(message_value(alloc, system, message)?)?;
    }
    Ok(list)
}

/// Messages, each with its vectors.
pub fn messages_value(
    alloc: Global,
    system: &System,
    messages: &[PendingMessage],
) -> Result<Value, AllocError>
    ensures { IfOk result (λ v. view v ≡ array_of (map (message_json system.now) messages.now)) }
{
    Ok(Value::Array(message_list(alloc, system, messages)?))
}
