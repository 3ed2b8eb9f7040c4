//! The text of a state.
ghost use Rattle.std.specs.Prelude.{◌≡◌, ◌++◌, IfOk, OnOk, false, get_or, length, map};
ghost use Rattle.std.specs.List.{enumerate_from, flat_map};
ghost use Rattle.machine_calls.specs.Machine.{spm_of_objects};
ghost use Rattle.view_places.specs.StateText.{actor_line, actor_lines, connection_line, connection_lines, connection_word, flag_word, flags_text, handle_text, holder_text, last_column, message_line, message_lines, request_text, rhandle_text, rung, rung_line, some_connections, some_messages, some_rung, some_sources, source_at, source_line, source_lines, source_words, span_text, spans_text, state_line, text_of_state, way_text};
ghost use Rattle.view_places.specs.Waits.{actors};
ghost use Rattle.view_texts.specs.Columns.{widest};

use crate::behind::StateAfter;
use crate::phases::{put_actor_names, put_phase};
use crate::stall::put_stall;
use crate::waits::{add_where, flags_at, owner_of};
use ffm_model::{
    ConnPhase, Handle, OpenConnection, PSA_IPC_CALL, PendingMessage, Source, SourceFlags, Span,
    System,
};
use machine_calls::Objects;
use std::alloc::{AllocError, Global};
use text_lines::{Word, append, append_words};
use view_texts::{
    actor_name, actor_width, call_of_kind, name_width, pad, put_actor, put_left, put_list,
    put_right, service_name,
};

#[tactic(auto, unfolding(crate::specs::StateText::state_line))]
fn put_place(text: &mut Vec<u8>, count: u32, total: u32) -> Result<(), AllocError>
    ensures { OnOk result (text.new.items ≡ text.old.items ++ state_line count total) }
{
    if count == 0 {
        return append_words(
            text,
            &[
                Word::Text("state at the opening, of "),
                Word::Number(total),
                Word::Text("\n"),
            ],
        );
    }
    append_words(
        text,
        &[
            Word::Text("state after entry "),
            Word::Number(count),
            Word::Text(" of "),
            Word::Number(total),
            Word::Text("\n"),
        ],
    )
}

fn last_place(last: &[u32], actor: u32) -> u32
    ensures { result ≡ get_or last.now actor 0 }
{
    match last.get(actor as usize) {
        Some(place) => *place,
        None => 0,
    }
}

// Appends the place of an actor's last entry, 0 where it has none.
fn put_last(text: &mut Vec<u8>, place: u32) -> Result<(), AllocError>
    ensures { OnOk result (text.new.items ≡ text.old.items ++ last_column place) }
{
    if place == 0 {
        return append(text, "     -");
    }
    put_right(text, place, 6)
}

#[tactic(auto, unfolding(crate::specs::StateText::actor_line))]
fn put_actor_line(
    alloc: Global,
    text: &mut Vec<u8>,
    system: &System,
    objects: &Objects,
    last: &[u32],
    actor: u32,
) -> Result<(), AllocError>
    ensures { OnOk result (text.new.items
        ≡ text.old.items ++ actor_line system.now (spm_of_objects objects.now) last.now actor) }
{
    append(text, "  ")?;
    put_actor(text, system, actor, actor_width(system))?;
    put_last(text, last_place(last, actor))?;
    append(text, "  ")?;
    put_phase(alloc, text, system, objects, actor)?;
    append(text, "\n")
}

fn put_actor_lines(
    alloc: Global,
    text: &mut Vec<u8>,
    system: &System,
    objects: &Objects,
    last: &[u32],
) -> Result<(), AllocError>
    ensures { OnOk result (text.new.items ≡ text.old.items
        ++ flat_map (actor_line system.now (spm_of_objects objects.now) last.now)
        (actors system.now)) }
{
    for actor in 0..system.actor_count() {
        put_actor_line(alloc, text, system, objects, last, actor)?;
    }
    Ok(())
}

fn put_actors(
    alloc: Global,
    text: &mut Vec<u8>,
    system: &System,
    objects: &Objects,
    last: &[u32],
) -> Result<(), AllocError>
    ensures { OnOk result (text.new.items
        ≡ text.old.items ++ actor_lines system.now (spm_of_objects objects.now) last.now) }
{
    append(text, "actors, each with the place of its last entry\n")?;
    put_actor_lines(alloc, text, system, objects, last)
}

/// The phase of a connection in a word.
pub fn connection_word(phase: ConnPhase) -> &'static str
    ensures { result.now ≡ connection_word phase }
{
    match phase {
        ConnPhase::Opening => "opening",
        ConnPhase::Idle => "idle",
        ConnPhase::Busy => "busy",
        ConnPhase::Error => "error",
        ConnPhase::Closing => "closing",
        ConnPhase::Dead => "dead",
    }
}

// Appends a client's name and a service's, and spaces.
#[tactic(auto, unfolding(crate::specs::StateText::way_text))]
fn put_way(text: &mut Vec<u8>, system: &System, client: u32, service: u32) -> Result<(), AllocError>
    ensures { OnOk result (text.new.items ≡ text.old.items ++ way_text system.now client service) }
{
    let width = name_width(system);
    put_left(text, Word::Text(actor_name(system, client)), width)?;
    append(text, " -> ")?;
    put_left(text, Word::Text(service_name(system, service)), width)
}

fn put_handle(text: &mut Vec<u8>, handle: Option<Handle>) -> Result<(), AllocError>
    ensures { OnOk result (text.new.items ≡ text.old.items ++ handle_text handle) }
{
    match handle {
        Some(handle) => append_words(text, &[Word::Text("  handle "), Word::Signed(handle.0)]),
        None => append(text, "  no handle yet"),
    }
}

fn put_rhandle(text: &mut Vec<u8>, rhandle: u32) -> Result<(), AllocError>
    ensures { OnOk result (text.new.items ≡ text.old.items ++ rhandle_text rhandle) }
{
    if rhandle == 0 {
        return Ok(());
    }
    append_words(
        text,
        &[Word::Text("  rhandle "), Word::Hexadecimal(rhandle)],
    )
}

#[tactic(auto, unfolding(crate::specs::StateText::connection_line))]
fn put_connection(
    text: &mut Vec<u8>,
    system: &System,
    connection: &OpenConnection,
) -> Result<(), AllocError>
    ensures { OnOk result
        (text.new.items ≡ text.old.items ++ connection_line system.now connection.now) }
{
    append(text, "  ")?;
    put_way(text, system, connection.client.0, connection.service)?;
    append(text, "  ")?;
    put_left(text, Word::Text(connection_word(connection.phase)), 7)?;
    put_handle(text, connection.handle)?;
    put_rhandle(text, connection.rhandle)?;
    append(text, "\n")
}

fn put_connection_lines(
    text: &mut Vec<u8>,
    system: &System,
    connections: &[OpenConnection],
) -> Result<(), AllocError>
    ensures { OnOk result
        (text.new.items ≡ text.old.items ++ flat_map (connection_line system.now) connections.now) }
{
    for connection in connections {
        put_connection(text, system, connection)?;
    }
    Ok(())
}

fn put_some_connections(
    text: &mut Vec<u8>,
    system: &System,
    connections: &[OpenConnection],
) -> Result<(), AllocError>
    ensures { OnOk result
        (text.new.items ≡ text.old.items ++ some_connections system.now connections.now) }
{
    append(text, "connections\n")?;
    put_connection_lines(text, system, connections)
}

#[tactic(auto, unfolding(crate::specs::StateText::connection_lines))]
fn put_connections(
    text: &mut Vec<u8>,
    system: &System,
    connections: &[OpenConnection],
) -> Result<(), AllocError>
    ensures { OnOk result
        (text.new.items ≡ text.old.items ++ connection_lines system.now connections.now) }
{
    if connections.is_empty() {
        return append(text, "no connection\n");
    }
    put_some_connections(text, system, connections)
}

// Appends how many bytes of a vector were moved.
fn put_span(text: &mut Vec<u8>, name: &str, place: u32, span: &Span) -> Result<(), AllocError>
    ensures { OnOk result
        (text.new.items ≡ text.old.items ++ span_text name.now (place, span.now)) }
{
    if span.len == 0 {
        return Ok(());
    }
    append_words(
        text,
        &[
            Word::Text("  "),
            Word::Text(name),
            Word::Number(place),
            Word::Text(" "),
            Word::Number(span.moved),
            Word::Text("/"),
            Word::Number(span.len),
        ],
    )
}

// Appends how many bytes of each vector of a request were moved.
fn put_spans(text: &mut Vec<u8>, name: &str, spans: &[Span]) -> Result<(), AllocError>
    requires { length spans.now ≡ 4 }
    ensures { OnOk result (text.new.items ≡ text.old.items ++ spans_text name.now spans.now) }
{
    for (place, span) in spans.iter().enumerate() {
        put_span(text, name, place as u32, span)?;
    }
    Ok(())
}

// Appends who holds a message, or that it is still to be taken.
fn put_holder(
    text: &mut Vec<u8>,
    system: &System,
    handle: Option<Handle>,
    owner: Option<u32>,
) -> Result<(), AllocError>
    ensures { OnOk result (text.new.items ≡ text.old.items ++ holder_text system.now handle owner) }
{
    match (handle, owner) {
        (Some(handle), Some(owner)) => append_words(
            text,
            &[
                Word::Text("held by "),
                Word::Text(actor_name(system, owner)),
                Word::Text(" as "),
                Word::Signed(handle.0),
            ],
        ),
        _ => append(text, "queued"),
    }
}

// Appends a request's type and vectors.
fn put_request(text: &mut Vec<u8>, message: &PendingMessage) -> Result<(), AllocError>
    ensures { OnOk result (text.new.items ≡ text.old.items ++ request_text message.now) }
{
    if message.kind < PSA_IPC_CALL {
        return Ok(());
    }
    append_words(text, &[Word::Text("  type "), Word::Signed(message.kind)])?;
    put_spans(text, "in", &message.vectors.input)?;
    put_spans(text, "out", &message.vectors.output)
}

#[tactic(auto, unfolding(crate::specs::StateText::message_line))]
fn put_message(
    text: &mut Vec<u8>,
    system: &System,
    message: &PendingMessage,
) -> Result<(), AllocError>
    ensures { OnOk result (text.new.items ≡ text.old.items ++ message_line system.now message.now) }
{
    append(text, "  ")?;
    put_way(text, system, message.client.0, message.service)?;
    append(text, "  ")?;
    put_left(text, Word::Text(call_of_kind(message.kind)), 12)?;
    put_holder(
        text,
        system,
        message.handle,
        owner_of(system, message.service),
    )?;
    put_request(text, message)?;
    append(text, "\n")
}

fn put_message_lines(
    text: &mut Vec<u8>,
    system: &System,
    messages: &[PendingMessage],
) -> Result<(), AllocError>
    ensures { OnOk result
        (text.new.items ≡ text.old.items ++ flat_map (message_line system.now) messages.now) }
{
    for message in messages {
        put_message(text, system, message)?;
    }
    Ok(())
}

fn put_some_messages(
    text: &mut Vec<u8>,
    system: &System,
    messages: &[PendingMessage],
) -> Result<(), AllocError>
    ensures { OnOk result
        (text.new.items ≡ text.old.items ++ some_messages system.now messages.now) }
{
    append(
        text,
        "messages, oldest first, with the bytes moved of each vector\n",
    )?;
    put_message_lines(text, system, messages)
}

#[tactic(auto, unfolding(crate::specs::StateText::message_lines))]
fn put_messages(
    text: &mut Vec<u8>,
    system: &System,
    messages: &[PendingMessage],
) -> Result<(), AllocError>
    ensures { OnOk result
        (text.new.items ≡ text.old.items ++ message_lines system.now messages.now) }
{
    if messages.is_empty() {
        return append(text, "no message\n");
    }
    put_some_messages(text, system, messages)
}

fn is_rung(doorbells: &[bool], partition: u32) -> bool
    ensures { result ≡ get_or doorbells.now partition false }
{
    match doorbells.get(partition as usize) {
        Some(set) => *set,
        None => false,
    }
}

/// The partitions whose doorbell is asserted.
pub fn rung(alloc: Global, system: &System, doorbells: &[bool]) -> Result<Vec<u32>, AllocError>
    ensures { IfOk result (λ partitions. partitions.items ≡ rung system.now doorbells.now) }
{
    let mut partitions = Vec::new(alloc);
    for partition in 0..system.counts().partitions {
        add_where(&mut partitions, is_rung(doorbells, partition), partition)?;
    }
    Ok(partitions)
}

fn put_some_rung(
    alloc: Global,
    text: &mut Vec<u8>,
    system: &System,
    partitions: &[u32],
) -> Result<(), AllocError>
    ensures { OnOk result
        (text.new.items ≡ text.old.items ++ some_rung system.now partitions.now) }
{
    append(text, "doorbells asserted: ")?;
    put_actor_names(alloc, text, system, partitions, "")?;
    append(text, "\n")
}

#[tactic(auto, unfolding(crate::specs::StateText::rung_line))]
fn put_rung(
    alloc: Global,
    text: &mut Vec<u8>,
    system: &System,
    partitions: &[u32],
) -> Result<(), AllocError>
    ensures { OnOk result
        (text.new.items ≡ text.old.items ++ rung_line system.now partitions.now) }
{
    if partitions.is_empty() {
        return append(text, "no doorbell asserted\n");
    }
    put_some_rung(alloc, text, system, partitions)
}

fn add_flag<'a>(words: &mut Vec<&'a str>, is_set: bool, word: &'a str) -> Result<(), AllocError>
    ensures { OnOk result (map (λ w. w.now) words.new.items
        ≡ map (λ w. w.now) words.old.items ++ flag_word is_set word.now) }
{
    if is_set {
        words.push(word)?;
    }
    Ok(())
}

fn put_flags(alloc: Global, text: &mut Vec<u8>, flags: SourceFlags) -> Result<(), AllocError>
    ensures { OnOk result (text.new.items ≡ text.old.items ++ flags_text flags) }
{
    let mut words = Vec::new(alloc);
    words.push(if flags.enabled { "enabled" } else { "disabled" })?;
    add_flag(&mut words, flags.pending, "pending")?;
    add_flag(&mut words, flags.asserted, "asserted")?;
    put_list(text, words.as_slice(), "")
}

fn source_words<'a>(
    alloc: Global,
    system: &'a System,
    source: &'a Source,
) -> Result<Vec<u8>, AllocError>
    ensures { IfOk result (λ text. text.items ≡ source_words system.now source.now) }
{
    let mut text = Vec::new(alloc);
    append_words(
        &mut text,
        &[
            Word::Text(source.signal_name.as_str()),
            Word::Text(" of "),
            Word::Text(actor_name(system, source.owner)),
        ],
    )?;
    Ok(text)
}

// How many bytes the longest name of an interrupt with its partition's has.
fn source_width(alloc: Global, system: &System, sources: &[Source]) -> Result<usize, AllocError>
    ensures { IfOk result (λ width. width ≡ widest 0 (map (source_words system.now) sources.now)) }
{
    let mut width = 0usize;
    for source in sources {
        width = width.max(source_words(alloc, system, source)?.len());
    }
    Ok(width)
}

#[tactic(auto, unfolding(crate::specs::StateText::source_line, view_texts::specs::Columns::left))]
fn put_source(
    alloc: Global,
    text: &mut Vec<u8>,
    system: &System,
    source: &Source,
    flags: SourceFlags,
    width: usize,
) -> Result<(), AllocError>
    ensures { OnOk result
        (text.new.items ≡ text.old.items ++ source_line system.now width source.now flags) }
{
    append(text, "  ")?;
    let start = text.len();
    text.extend_from_slice(source_words(alloc, system, source)?.as_slice())?;
    pad(text, start, width)?;
    append(text, "  ")?;
    put_flags(alloc, text, flags)?;
    append(text, "\n")
}

fn put_source_lines(
    alloc: Global,
    text: &mut Vec<u8>,
    system: &System,
    objects: &Objects,
    sources: &[Source],
    width: usize,
) -> Result<(), AllocError>
    ensures { OnOk result (text.new.items ≡ text.old.items
        ++ flat_map (source_at system.now (spm_of_objects objects.now) width)
        (enumerate_from 0 sources.now)) }
{
    for (place, source) in sources.iter().enumerate() {
        put_source(alloc, text, system, source, flags_at(objects, place), width)?;
    }
    Ok(())
}

// Appends the lines of interrupts, in columns of their widest.
fn put_in_columns(
    alloc: Global,
    text: &mut Vec<u8>,
    system: &System,
    objects: &Objects,
    sources: &[Source],
) -> Result<(), AllocError>
    ensures { OnOk result (text.new.items ≡ text.old.items
        ++ flat_map (source_at system.now (spm_of_objects objects.now)
        (widest 0 (map (source_words system.now) sources.now))) (enumerate_from 0 sources.now)) }
{
    let width = source_width(alloc, system, sources)?;
    put_source_lines(alloc, text, system, objects, sources, width)
}

fn put_some_sources(
    alloc: Global,
    text: &mut Vec<u8>,
    system: &System,
    objects: &Objects,
    sources: &[Source],
) -> Result<(), AllocError>
    ensures { OnOk result (text.new.items
        ≡ text.old.items ++ some_sources system.now (spm_of_objects objects.now) sources.now) }
{
    append(text, "interrupts\n")?;
    put_in_columns(alloc, text, system, objects, sources)
}

#[tactic(auto, unfolding(crate::specs::StateText::source_lines))]
fn put_sources(
    alloc: Global,
    text: &mut Vec<u8>,
    system: &System,
    objects: &Objects,
    sources: &[Source],
) -> Result<(), AllocError>
    ensures { OnOk result (text.new.items
        ≡ text.old.items ++ source_lines system.now (spm_of_objects objects.now) sources.now) }
{
    if sources.is_empty() {
        return Ok(());
    }
    put_some_sources(alloc, text, system, objects, sources)
}

/// The text of a state: its actors, connections, messages, doorbells and interrupts, and at a stall who waits
/// for whom. The only error is want of memory.
#[tactic(auto, unfolding(crate::specs::StateText::state_text))]
pub fn state_text(
    alloc: Global,
    system: &System,
    behind: &StateAfter,
) -> Result<Vec<u8>, AllocError>
    ensures { IfOk result (λ text. text.items ≡ text_of_state system.now behind.now) }
{
    let mut text = Vec::new(alloc);
    let objects = &behind.checker.machine.objects;
    put_place(&mut text, behind.checker.count, behind.total)?;
    put_actors(alloc, &mut text, system, objects, behind.last.as_slice())?;
    put_connections(&mut text, system, objects.connections.as_slice())?;
    put_messages(&mut text, system, objects.messages.as_slice())?;
    let rung = rung(alloc, system, objects.doorbells.as_slice())?;
    put_rung(alloc, &mut text, system, rung.as_slice())?;
    put_sources(alloc, &mut text, system, objects, system.sources.as_slice())?;
    put_stall(alloc, &mut text, system, objects)?;
    Ok(text)
}
