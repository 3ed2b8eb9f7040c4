//! What is written at an arrow.

ghost use Rattle.std.specs.Prelude.{◌≡◌, IfOk, length, string_bytes};
ghost use Rattle.view_diagram.specs.Ends.{end_of_part, end_text};

use crate::arrows::{Arrow, Meaning};
use crate::gathering::Part;
use ffm_model::{
    ActorId, Call, Entry, Outcome, PSA_DOORBELL, PSA_ERROR_COMMUNICATION_FAILURE,
    PSA_ERROR_CONNECTION_BUSY, PSA_ERROR_CONNECTION_REFUSED, PSA_ERROR_PROGRAMMER_ERROR,
    PSA_IPC_CALL, PSA_IPC_CONNECT, System, Trace,
};
use machine_check::Checked;
use std::alloc::{AllocError, Global};
use trace_print::verdict_word;
use view_texts::{call_name, service_name};

fn signal_name(system: &System, source: u32) -> &str {
    match system.sources.as_slice().get(source as usize) {
        Some(source) => source.signal_name.as_str(),
        None => "",
    }
}

// What a message of a kind to a service asks for.
fn push_message(
    out: &mut String,
    system: &System,
    service: u32,
    kind: i32,
) -> Result<(), AllocError> {
    let name = service_name(system, service);
    if kind == PSA_IPC_CONNECT {
        write!(out, "connect {name}")
    } else if kind < PSA_IPC_CALL {
        write!(out, "close {name}")
    } else if kind == PSA_IPC_CALL {
        write!(out, "call {name}")
    } else {
        write!(out, "call {name} kind {kind}")
    }
}

// A status, and what it says where it is one of the manager's.
fn push_status(out: &mut String, status: i32) -> Result<(), AllocError> {
    write!(out, "{status}")?;
    match status {
        PSA_ERROR_PROGRAMMER_ERROR => out.push_str(" PROGRAMMER ERROR"),
        PSA_ERROR_CONNECTION_REFUSED => out.push_str(" refused"),
        PSA_ERROR_CONNECTION_BUSY => out.push_str(" busy"),
        PSA_ERROR_COMMUNICATION_FAILURE => out.push_str(" failure"),
        _ => Ok(()),
    }
}

fn push_reply(
    out: &mut String,
    system: &System,
    service: u32,
    kind: i32,
    status: i32,
) -> Result<(), AllocError> {
    push_message(out, system, service, kind)?;
    out.push_str(": ")?;
    if kind < PSA_IPC_CONNECT {
        out.push_str("done")
    } else {
        push_status(out, status)
    }
}

// What a client is answered whose message is lost in a panic.
fn lost_status(kind: i32) -> i32 {
    if kind == PSA_IPC_CONNECT {
        PSA_ERROR_CONNECTION_REFUSED
    } else {
        PSA_ERROR_COMMUNICATION_FAILURE
    }
}

// The call that is refused.
fn refused_name(call: Call) -> &'static str {
    match call {
        Call::Connect { .. } => "connect",
        Call::Invoke { .. } => "call",
        Call::Load { .. } => "load",
        Call::Store { .. } => "store",
        _ => "not its call",
    }
}

// Appends a name after those that stand there.
fn push_listed(out: &mut String, is_first: &mut bool, name: &str) -> Result<(), AllocError> {
    if !*is_first {
        out.push_str(", ")?;
    }
    *is_first = false;
    out.push_str(name)
}

// The services whose signals are in a word of their partition's signals.
fn push_services(
    out: &mut String,
    is_first: &mut bool,
    system: &System,
    actor: ActorId,
    signals: u32,
) -> Result<(), AllocError> {
    for service in system.services.as_slice() {
        if service.owner == actor.0 && service.signal & signals != 0 {
            push_listed(out, is_first, service.name.as_str())?;
        }
    }
    Ok(())
}

// The sources whose signals are in a word of their partition's signals.
fn push_sources(
    out: &mut String,
    is_first: &mut bool,
    system: &System,
    actor: ActorId,
    signals: u32,
) -> Result<(), AllocError> {
    for source in system.sources.as_slice() {
        if source.owner == actor.0 && source.signal & signals != 0 {
            push_listed(out, is_first, source.signal_name.as_str())?;
        }
    }
    Ok(())
}

// The names of a partition's signals.
fn push_signals(
    out: &mut String,
    system: &System,
    actor: ActorId,
    signals: u32,
) -> Result<(), AllocError> {
    let mut is_first = true;
    push_services(out, &mut is_first, system, actor, signals)?;
    if signals & PSA_DOORBELL != 0 {
        push_listed(out, &mut is_first, "doorbell")?;
    }
    push_sources(out, &mut is_first, system, actor, signals)
}

// The return of a call that waited.
fn push_wake(
    out: &mut String,
    system: &System,
    actor: ActorId,
    outcome: Outcome,
) -> Result<(), AllocError> {
    out.push_str("wakes")?;
    match outcome {
        Outcome::Value(value) => write!(out, ": {value}"),
        Outcome::Signals(signals) => {
            out.push_str(": ")?;
            push_signals(out, system, actor, signals)
        }
        _ => Ok(()),
    }
}

// The call by which a partition panics: its own, or the request that another one answers by PROGRAMMER ERROR.
fn panicked_call(entry: &Entry, arrow: Arrow) -> &'static str {
    if entry.actor.0 == arrow.to.0 {
        call_name(entry.call)
    } else {
        "psa_call"
    }
}

/// What is written at an arrow of an entry.
pub fn label(
    alloc: Global,
    system: &System,
    entry: &Entry,
    arrow: Arrow,
) -> Result<String, AllocError> {
    let mut out = String::new(alloc);
    match arrow.meaning {
        Meaning::Message { service, kind } => push_message(&mut out, system, service, kind)?,
        Meaning::Reply {
            service,
            kind,
            status,
        } => push_reply(&mut out, system, service, kind, status)?,
        Meaning::Refusal { status } => {
            out.push_str(refused_name(entry.call))?;
            out.push_str(": ")?;
            push_status(&mut out, status)?;
        }
        Meaning::Notify => out.push_str("notify")?,
        Meaning::Interrupt { source, pending } => {
            out.push_str("interrupt ")?;
            out.push_str(signal_name(system, source))?;
            if !pending {
                out.push_str(", handled")?;
            }
        }
        Meaning::Wake { outcome } => push_wake(&mut out, system, arrow.to, outcome)?,
        Meaning::Panic => {
            out.push_str("PANIC: ")?;
            out.push_str(panicked_call(entry, arrow))?;
        }
        Meaning::Release { service, kind } => {
            out.push_str("lost: ")?;
            push_reply(&mut out, system, service, kind, lost_status(kind))?;
        }
    }
    Ok(out)
}

// That a part ends before the trace does.
fn end_of_part(alloc: Global, to: u32, count: usize) -> Result<String, AllocError>
    ensures { IfOk result (λ text. string_bytes text ≡ end_of_part to count) }
{
    format!(in alloc; "up to entry {to} of {count}")
}

/// What stands at the end of a diagram of a part of a trace: the place at which the trace is illegal, or
/// how it ended, where the part reaches that; else how far the part goes.
pub fn end_text(
    alloc: Global,
    trace: &Trace,
    judged: Checked,
    part: Part,
) -> Result<String, AllocError>
    ensures { IfOk result (λ text. string_bytes text
        ≡ end_text trace.now.verdict (length trace.now.entries) judged part) }
{
    let count = trace.entries.len();
    let to = part.to;
    let is_whole = count <= to as usize;
    match judged {
        Checked::IllegalAt(place) => {
            if is_whole || place <= to {
                format!(in alloc; "illegal at {place}")
            } else {
                end_of_part(alloc, to, count)
            }
        }
        Checked::Legal => {
            if is_whole {
                let word = verdict_word(trace.verdict);
                format!(in alloc; "{word} {count}")
            } else {
                end_of_part(alloc, to, count)
            }
        }
    }
}
