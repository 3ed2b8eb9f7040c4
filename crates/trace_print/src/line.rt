//! Entries and verdicts as lines.

ghost use Rattle.std.specs.Prelude.{◌≡◌, ◌+◌, ◌*◌, ◌≤◌, ◌<◌, ◌++◌, length, codes};
ghost use Rattle.std.specs.List.{flat_map, sum_by, AllByRecursion};
ghost use Rattle.trace_print.specs.Buffer.{line_len};
ghost use Rattle.ffm_model.specs.TraceText.{call_phrase, outcome_phrase, message_phrase, message_front, spaced, spaced_field, spaced_phrase, actor_word, entry_text, verdict_word, verdict_text, line, FieldFits, CallFits, MessageFits, OutcomeFits, EntryFits, IsActorOf};
ghost use Rattle.trace_print.specs.Fields.{width_of};
ghost use Rattle.trace_print.specs.declared.line.TheConstants.{LONGEST_LINE};

use crate::field::Field::{Hex, Signed, Unsigned};
use crate::field::{append, append_fields, append_phrase, append_sizes, append_unsigned};
use crate::line_buffer::Line;
use ffm_model::{ActorId, Call, Counts, Entry, Handle, Message, Outcome, Verdict};

/// How many bytes the longest line of an entry has, with its line feed.
pub const LONGEST_LINE: usize = 223;

/// The longest line has this number of bytes. All other contracts name the constant. It does nothing.
pub fn value_of_the_longest_line()
    ensures { LONGEST_LINE ≡ 223 }
{}

#[tactic(auto, unfolding(ffm_model::specs::TraceText::actor_word))]
fn append_actor(line: &mut Line, counts: Counts, actor: ActorId)
    requires empty { line_len line.old ≡ 0 }
    requires known { IsActorOf counts actor.0 }
    ensures items { line.new.items ≡ line.old.items ++ actor_word counts actor.0 }
    ensures grows { line_len line.new ≤ 3 }
{
    if actor.0 < counts.partitions {
        append(line, b"p");
        append_unsigned(line, actor.0 + 1);
    } else if actor.0 < counts.partitions + counts.clients {
        append(line, b"n");
        append_unsigned(line, actor.0 - counts.partitions + 1);
    } else {
        append(line, b"dev");
    }
}

// What a call's text begins with: its name, and how it stopped where it is a stop.
fn call_name(call: Call) -> &'static [u8]
    ensures name { spaced result.now ≡ flat_map spaced (call_phrase call).names }
    ensures short { length result.now + sum_by width_of (call_phrase call).fields ≤ 72 }
{
    match call {
        Call::FrameworkVersion => b"framework_version",
        Call::Version { .. } => b"version",
        Call::Connect { .. } => b"connect",
        Call::Invoke { .. } => b"call",
        Call::Close { .. } => b"close",
        Call::Wait { .. } => b"wait",
        Call::Get { .. } => b"get",
        Call::SetRhandle { .. } => b"set_rhandle",
        Call::Read { .. } => b"read",
        Call::Skip { .. } => b"skip",
        Call::Write { .. } => b"write",
        Call::Reply { .. } => b"reply",
        Call::Notify { .. } => b"notify",
        Call::Clear => b"clear",
        Call::Eoi { .. } => b"eoi",
        Call::IrqEnable { .. } => b"irq_enable",
        Call::IrqDisable { .. } => b"irq_disable",
        Call::ResetSignal { .. } => b"reset_signal",
        Call::Panic => b"panic",
        Call::Load { .. } => b"load",
        Call::Store { .. } => b"store",
        Call::Raise { .. } => b"raise",
        Call::Fire { .. } => b"fire",
        Call::Stop { spent: false } => b"stop end",
        Call::Stop { spent: true } => b"stop spent",
        Call::Resume => b"resume",
    }
}

// Appends the numbers of `psa_call`.
fn append_invoke(
    line: &mut Line,
    handle: Handle,
    kind: i32,
    in_vec: u32,
    in_len: u32,
    out_vec: u32,
    out_len: u32,
)
    requires { line_len line.old ≤ 76 }
    ensures items { line.new.items ≡ line.old.items
        ++ flat_map spaced_field
        (call_phrase (Call.Invoke handle kind in_vec in_len out_vec out_len)).fields }
    ensures grows { line_len line.new ≤ line_len line.old + 68 }
    ensures fits { CallFits (Call.Invoke handle kind in_vec in_len out_vec out_len) }
{
    append_fields(
        line,
        &[
            Signed(handle.0),
            Signed(kind),
            Hex(in_vec),
            Unsigned(in_len),
            Hex(out_vec),
            Unsigned(out_len),
        ],
    );
}

// Appends the numbers of `psa_read` or `psa_write`.
fn append_transfer(line: &mut Line, handle: Handle, index: u32, buffer: u32, len: u32)
    requires { line_len line.old ≤ 76 }
    ensures items { line.new.items ≡ line.old.items
        ++ flat_map spaced_field (call_phrase (Call.Read handle index buffer len)).fields }
    ensures grows { line_len line.new ≤ line_len line.old + 45 }
    ensures fits { CallFits (Call.Read handle index buffer len) }
{
    append_fields(
        line,
        &[
            Signed(handle.0),
            Unsigned(index),
            Hex(buffer),
            Unsigned(len),
        ],
    );
}

// Appends the numbers of a call.
fn append_call_fields(line: &mut Line, call: Call)
    requires { line_len line.old ≤ 76 }
    ensures items { line.new.items
        ≡ line.old.items ++ flat_map spaced_field (call_phrase call).fields }
    ensures grows { line_len line.new
        ≤ line_len line.old + sum_by width_of (call_phrase call).fields }
    ensures fits { CallFits call }
{
    match call {
        Call::FrameworkVersion | Call::Clear | Call::Panic | Call::Stop { .. } | Call::Resume => {}
        Call::Version { sid } => append_fields(line, &[Hex(sid.0)]),
        Call::Connect { sid, version } => append_fields(line, &[Hex(sid.0), Unsigned(version)]),
        Call::Invoke {
            handle,
            kind,
            in_vec,
            in_len,
            out_vec,
            out_len,
        } => append_invoke(line, handle, kind, in_vec, in_len, out_vec, out_len),
        Call::Close { handle } => append_fields(line, &[Signed(handle.0)]),
        Call::Wait { mask, timeout } => append_fields(line, &[Hex(mask), Hex(timeout)]),
        Call::Get { signal, msg } => append_fields(line, &[Hex(signal), Hex(msg)]),
        Call::SetRhandle { handle, rhandle } => append_fields(
            line,
            &[Signed(handle.0), Hex(rhandle)],
        ),
        Call::Read {
            handle,
            index,
            buffer,
            len,
        }
        | Call::Write {
            handle,
            index,
            buffer,
            len,
        } => { append_transfer(line, handle, index, buffer, len) }
        Call::Skip { handle, index, len } => append_fields(
            line,
            &[Signed(handle.0), Unsigned(index), Unsigned(len)],
        ),
        Call::Reply { handle, status } => append_fields(
            line,
            &[Signed(handle.0), Signed(status.0)],
        ),
        Call::Notify { partition } => append_fields(line, &[Signed(partition)]),
        Call::Eoi { signal }
        | Call::IrqEnable { signal }
        | Call::IrqDisable { signal }
        | Call::ResetSignal { signal } => append_fields(line, &[Hex(signal)]),
        Call::Load { address, size } => append_fields(line, &[Hex(address), Unsigned(size)]),
        Call::Store {
            address,
            size,
            value,
        } => append_fields(line, &[Hex(address), Unsigned(size), Hex(value)]),
        Call::Raise { source } => append_fields(line, &[Unsigned(source)]),
        Call::Fire { source, result } => append_fields(line, &[Unsigned(source), Unsigned(result)]),
    }
}

fn append_call(line: &mut Line, call: Call)
    requires { line_len line.old ≤ 3 }
    ensures items { line.new.items ≡ line.old.items ++ spaced_phrase (call_phrase call) }
    ensures grows { line_len line.new ≤ line_len line.old + 73 }
    ensures fits { CallFits call }
{
    append(line, b" ");
    append(line, call_name(call));
    append_call_fields(line, call);
}

// Appends a message without its sizes.
fn append_front(line: &mut Line, message: Message)
    requires { line_len line.old ≤ 79 }
    ensures items { line.new.items ≡ line.old.items
        ++ (spaced (codes "message") ++ flat_map spaced_field (message_front message)) }
    ensures grows { line_len line.new ≤ line_len line.old + 55 }
    ensures fits { AllByRecursion FieldFits (message_front message) }
{
    append_phrase(
        line,
        b"message",
        &[
            Signed(message.kind),
            Signed(message.handle.0),
            Signed(message.client_id),
            Hex(message.rhandle),
        ],
    );
}

fn append_message(line: &mut Line, message: Message)
    requires { line_len line.old ≤ 79 }
    ensures items { line.new.items ≡ line.old.items ++ spaced_phrase (message_phrase message) }
    ensures grows { line_len line.new ≤ line_len line.old + 143 }
    ensures fits { MessageFits message }
{
    append_front(line, message);
    append_sizes(line, &message.in_size);
    append_sizes(line, &message.out_size);
}

fn append_outcome(line: &mut Line, outcome: Outcome)
    requires { line_len line.old ≤ 79 }
    ensures items { line.new.items ≡ line.old.items ++ spaced_phrase (outcome_phrase outcome) }
    ensures grows { line_len line.new ≤ line_len line.old + 143 }
    ensures fits { OutcomeFits outcome }
{
    match outcome {
        Outcome::Value(n) => append_phrase(line, b"value", &[Signed(n)]),
        Outcome::Number(n) => append_phrase(line, b"number", &[Unsigned(n)]),
        Outcome::Signals(n) => append_phrase(line, b"signals", &[Hex(n)]),
        Outcome::Got(message) => append_message(line, message),
        Outcome::Blocked => append_phrase(line, b"blocked", &[]),
        Outcome::Done => append_phrase(line, b"done", &[]),
        Outcome::Panicked => append_phrase(line, b"panicked", &[]),
    }
}

// Puts the text of an entry, without the line feed, in a line with no text.
#[tactic(auto, unfolding(ffm_model::specs::TraceText::entry_text))]
fn put_text(out: &mut Line, counts: Counts, entry: &Entry)
    requires empty { line_len out.old ≡ 0 }
    requires known { IsActorOf counts entry.now.actor.0 }
    ensures text { out.new.items ≡ entry_text counts entry.now }
    ensures short { line_len out.new < LONGEST_LINE }
    ensures fits { EntryFits counts entry.now }
{
    append_actor(out, counts, entry.actor);
    append_call(out, entry.call);
    append(out, b" ->");
    append_outcome(out, entry.outcome);
}

/// The text of an entry, without the line feed.
pub fn entry_text(counts: Counts, entry: &Entry) -> Line
    requires { IsActorOf counts entry.now.actor.0 }
    ensures text { result.items ≡ entry_text counts entry.now }
    ensures short { line_len result < LONGEST_LINE }
    ensures fits { EntryFits counts entry.now }
{
    let mut line = Line::new();
    put_text(&mut line, counts, entry);
    line
}

/// Puts the line of an entry in the place of what a line had: `ACTOR CALL -> OUTCOME` and a line
/// feed, with the arguments in the order of `psa/client.h` and `psa/service.h`. The actor is one
/// that the counts name: partitions are `p1` to `p32`, non-secure clients `n1` to `n16`, and the
/// device is `dev`.
pub fn print_into(out: &mut Line, counts: Counts, entry: &Entry)
    requires { IsActorOf counts entry.now.actor.0 }
    ensures text { out.new.items ≡ line (entry_text counts entry.now) }
    ensures fits { EntryFits counts entry.now }
    ensures short { line_len out.new ≤ LONGEST_LINE }
{
    out.clear();
    put_text(out, counts, entry);
    out.push(b'\n');
}

/// The line of an entry, as `print_into` puts it.
pub fn print(counts: Counts, entry: &Entry) -> Line
    requires { IsActorOf counts entry.now.actor.0 }
    ensures text { result.items ≡ line (entry_text counts entry.now) }
    ensures fits { EntryFits counts entry.now }
    ensures short { line_len result ≤ LONGEST_LINE }
{
    let mut line = Line::new();
    print_into(&mut line, counts, entry);
    line
}

/// The word of a verdict in a trace.
pub fn verdict_word(verdict: Verdict) -> &'static str
    ensures word { result.now ≡ verdict_word verdict }
    ensures short { length result.now ≤ 7 }
{
    match verdict {
        Verdict::Quiet => "quiet",
        Verdict::Stalled => "stalled",
        Verdict::Full => "full",
    }
}

/// The text of a verdict, without the line feed.
#[tactic(auto, unfolding(ffm_model::specs::TraceText::verdict_text))]
pub fn verdict_text(verdict: Verdict, count: u32) -> Line
    ensures text { result.items ≡ verdict_text verdict count }
    ensures short { line_len result ≤ 18 }
{
    let mut line = Line::new();
    append(&mut line, verdict_word(verdict).as_bytes());
    append(&mut line, b" ");
    append_unsigned(&mut line, count);
    line
}

/// The last line of a trace: the verdict, the number of the trace's entries, and a line feed.
pub fn print_verdict(verdict: Verdict, count: u32) -> Line
    ensures text { result.items ≡ line (verdict_text verdict count) }
    ensures short { line_len result ≤ LONGEST_LINE }
{
    let mut text = verdict_text(verdict, count);
    text.push(b'\n');
    text
}
