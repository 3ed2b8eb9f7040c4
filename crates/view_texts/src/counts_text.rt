//! The text of a trace's counts.
ghost use Rattle.std.specs.Prelude.{◌≡◌, ◌++◌, ◌==◌, ◌&&◌, ◌≤◌, ◌<◌, IfOk, OnOk, filter, get_or, max, sum_by};
ghost use Rattle.std.specs.Fmt.{decimal};
ghost use Rattle.std.specs.List.{flat_map};
ghost use Rattle.ffm_model.specs.Actors.{is_stateless};
ghost use Rattle.ffm_model.specs.Names.{capacity};
ghost use Rattle.view_texts.specs.CountsText.{actor_line, actor_lines, actors, bytes_text, call_line, call_line_at, call_lines, calls_text, counts_text, legal_line, most_messages_declared, most_text, moved_line, moved_text, of_text, over_words, some_calls, some_moved, some_wait, uses_stateless, wait_at, wait_line, wait_words, waits_text, way_text};
ghost use Rattle.view_texts.specs.Calls.{name_at};
ghost use Rattle.view_texts.specs.Columns.{left};
ghost use Rattle.view_texts.specs.Names.{actor_column, actor_width};

use crate::calls::{CALL_COUNT, name_at};
use crate::columns::{put_left, put_right};
use crate::counts::{Moved, TraceCounts, Wait, count_at};
use crate::names::{actor_name, actor_width, name_width, put_actor, service_name};
use crate::numbers::add_where;
use ffm_model::{Budget, System};
use itoa::Buffer;
use machine_rules::is_stateless;
use std::alloc::{AllocError, Global};
use text_lines::{Word, append, append_words};

fn put_size(text: &mut Vec<u8>, number: usize) -> Result<(), AllocError>
    ensures { OnOk result (text.new.items ≡ text.old.items ++ decimal number) }
{
    append(text, Buffer::new().format(number))
}

fn put_number(text: &mut Vec<u8>, number: u64) -> Result<(), AllocError>
    ensures { OnOk result (text.new.items ≡ text.old.items ++ decimal number) }
{
    append(text, Buffer::new().format(number))
}

// Appends a call's name, in a column.
fn put_call_name(text: &mut Vec<u8>, system: &System, call: usize) -> Result<(), AllocError>
    ensures { OnOk result (text.new.items
        ≡ text.old.items ++ left (max (actor_width system.now) 21) (name_at call)) }
{
    put_left(text, Word::Text(name_at(call)), actor_width(system).max(21))
}

fn put_some_calls(
    text: &mut Vec<u8>,
    system: &System,
    call: usize,
    count: u32,
) -> Result<(), AllocError>
    ensures { OnOk result (text.new.items ≡ text.old.items ++ some_calls system.now call count) }
{
    append(text, "      ")?;
    put_call_name(text, system, call)?;
    put_right(text, count, 7)?;
    append(text, "\n")
}

// Appends how often a call was made, where it was.
#[tactic(auto, unfolding(crate::specs::CountsText::call_line))]
fn put_call(text: &mut Vec<u8>, system: &System, call: usize, count: u32) -> Result<(), AllocError>
    ensures { OnOk result (text.new.items ≡ text.old.items ++ call_line system.now call count) }
{
    if count == 0 {
        return Ok(());
    }
    put_some_calls(text, system, call, count)
}

fn put_call_at(
    text: &mut Vec<u8>,
    system: &System,
    calls: &[u32],
    actor: u32,
    call: usize,
) -> Result<(), AllocError>
    requires { call < CALL_COUNT }
    ensures { OnOk result
        (text.new.items ≡ text.old.items ++ call_line_at system.now calls.now actor call) }
{
    put_call(text, system, call, count_at(calls, actor, call))
}

fn put_actor_calls(
    text: &mut Vec<u8>,
    system: &System,
    calls: &[u32],
    actor: u32,
) -> Result<(), AllocError>
    ensures { OnOk result
        (text.new.items ≡ text.old.items ++ call_lines system.now calls.now actor) }
{
    for call in 0..CALL_COUNT {
        put_call_at(text, system, calls, actor, call)?;
    }
    Ok(())
}

/// The number at a place of a list; 0 where it has none.
pub fn number_at(numbers: &[u32], place: u32) -> u32
    ensures { result ≡ get_or numbers.now place 0 }
{
    match numbers.get(place as usize) {
        Some(number) => *number,
        None => 0,
    }
}

// Appends an actor's name and word, in columns.
fn put_columns(text: &mut Vec<u8>, system: &System, actor: u32) -> Result<(), AllocError>
    ensures { OnOk result (text.new.items
        ≡ text.old.items ++ actor_column system.now (actor_width system.now) actor) }
{
    put_actor(text, system, actor, actor_width(system))
}

fn put_actor_line(
    text: &mut Vec<u8>,
    system: &System,
    actor: u32,
    count: u32,
) -> Result<(), AllocError>
    ensures { OnOk result (text.new.items ≡ text.old.items ++ actor_line system.now actor count) }
{
    append(text, "  ")?;
    put_columns(text, system, actor)?;
    put_right(text, count, 7)?;
    append(text, "\n")
}

fn put_entries(
    text: &mut Vec<u8>,
    system: &System,
    entries: &[u32],
    actor: u32,
) -> Result<(), AllocError>
    ensures { OnOk result (text.new.items
        ≡ text.old.items ++ actor_line system.now actor (get_or entries.now actor 0)) }
{
    put_actor_line(text, system, actor, number_at(entries, actor))
}

#[tactic(auto, unfolding(crate::specs::CountsText::actor_lines))]
fn put_actor_lines(
    text: &mut Vec<u8>,
    system: &System,
    counts: &TraceCounts,
    actor: u32,
) -> Result<(), AllocError>
    ensures { OnOk result
        (text.new.items ≡ text.old.items ++ actor_lines system.now counts.now actor) }
{
    put_entries(text, system, counts.entries.as_slice(), actor)?;
    put_actor_calls(text, system, counts.calls.as_slice(), actor)
}

fn put_all_actors(
    text: &mut Vec<u8>,
    system: &System,
    counts: &TraceCounts,
) -> Result<(), AllocError>
    ensures { OnOk result (text.new.items
        ≡ text.old.items ++ flat_map (actor_lines system.now counts.now) (actors system.now)) }
{
    for actor in 0..system.actor_count() {
        put_actor_lines(text, system, counts, actor)?;
    }
    Ok(())
}

// Appends how often each actor made each call.
fn put_calls(text: &mut Vec<u8>, system: &System, counts: &TraceCounts) -> Result<(), AllocError>
    ensures { OnOk result (text.new.items ≡ text.old.items ++ calls_text system.now counts.now) }
{
    append(text, "entries by actor and call\n")?;
    put_all_actors(text, system, counts)
}

#[tactic(auto, unfolding(crate::specs::CountsText::way_text))]
fn put_way(text: &mut Vec<u8>, system: &System, client: u32, service: u32) -> Result<(), AllocError>
    ensures { OnOk result (text.new.items ≡ text.old.items ++ way_text system.now client service) }
{
    let width = name_width(system);
    append(text, "  ")?;
    put_left(text, Word::Text(actor_name(system, client)), width)?;
    append(text, " -> ")?;
    put_left(text, Word::Text(service_name(system, service)), width)
}

fn put_bytes(text: &mut Vec<u8>, moved: &Moved) -> Result<(), AllocError>
    ensures { OnOk result (text.new.items ≡ text.old.items ++ bytes_text moved.now) }
{
    append(text, "  read ")?;
    put_number(text, moved.read)?;
    append(text, "  skipped ")?;
    put_number(text, moved.skipped)?;
    append(text, "  written ")?;
    put_number(text, moved.written)?;
    append(text, "\n")
}

#[tactic(auto, unfolding(crate::specs::CountsText::moved_line))]
fn put_moved(text: &mut Vec<u8>, system: &System, moved: &Moved) -> Result<(), AllocError>
    ensures { OnOk result (text.new.items ≡ text.old.items ++ moved_line system.now moved.now) }
{
    put_way(text, system, moved.client, moved.service)?;
    put_bytes(text, moved)
}

fn put_moved_lines(
    text: &mut Vec<u8>,
    system: &System,
    all_moved: &[Moved],
) -> Result<(), AllocError>
    ensures { OnOk result
        (text.new.items ≡ text.old.items ++ flat_map (moved_line system.now) all_moved.now) }
{
    for moved in all_moved {
        put_moved(text, system, moved)?;
    }
    Ok(())
}

fn put_some_moved(
    text: &mut Vec<u8>,
    system: &System,
    all_moved: &[Moved],
) -> Result<(), AllocError>
    ensures { OnOk result
        (text.new.items ≡ text.old.items ++ some_moved system.now all_moved.now) }
{
    append(text, "bytes moved by client and service\n")?;
    put_moved_lines(text, system, all_moved)
}

#[tactic(auto, unfolding(crate::specs::CountsText::moved_text))]
fn put_all_moved(text: &mut Vec<u8>, system: &System, all_moved: &[Moved]) -> Result<(), AllocError>
    ensures { OnOk result
        (text.new.items ≡ text.old.items ++ moved_text system.now all_moved.now) }
{
    if all_moved.is_empty() {
        return append(text, "no bytes moved\n");
    }
    put_some_moved(text, system, all_moved)
}

fn over_words(is_over: bool) -> &'static str
    ensures { result.now ≡ over_words is_over }
{
    if is_over { "\n" } else { ", not over\n" }
}

#[tactic(auto, unfolding(crate::specs::CountsText::wait_words))]
fn put_wait_words(text: &mut Vec<u8>, wait: &Wait) -> Result<(), AllocError>
    ensures { OnOk result (text.new.items ≡ text.old.items ++ wait_words wait.now) }
{
    append_words(
        text,
        &[
            Word::Text("  "),
            Word::Text(name_at(wait.call)),
            Word::Text(" at entry "),
            Word::Number(wait.from),
            Word::Text(over_words(wait.is_over)),
        ],
    )
}

fn put_some_wait(
    text: &mut Vec<u8>,
    system: &System,
    actor: u32,
    wait: &Wait,
) -> Result<(), AllocError>
    ensures { OnOk result
        (text.new.items ≡ text.old.items ++ some_wait system.now actor wait.now) }
{
    append(text, "  ")?;
    put_columns(text, system, actor)?;
    put_right(text, wait.entries, 7)?;
    put_wait_words(text, wait)
}

#[tactic(auto, unfolding(crate::specs::CountsText::wait_line))]
fn put_wait(text: &mut Vec<u8>, system: &System, actor: u32, wait: &Wait) -> Result<(), AllocError>
    ensures { OnOk result
        (text.new.items ≡ text.old.items ++ wait_line system.now actor wait.now) }
{
    if wait.from == 0 {
        return Ok(());
    }
    put_some_wait(text, system, actor, wait)
}

fn put_wait_at(
    text: &mut Vec<u8>,
    system: &System,
    waits: &[Wait],
    actor: u32,
) -> Result<(), AllocError>
    ensures { OnOk result (text.new.items ≡ text.old.items ++ wait_at system.now waits.now actor) }
{
    match waits.get(actor as usize) {
        Some(wait) => put_wait(text, system, actor, wait),
        None => Ok(()),
    }
}

fn put_all_waits(text: &mut Vec<u8>, system: &System, waits: &[Wait]) -> Result<(), AllocError>
    ensures { OnOk result (text.new.items
        ≡ text.old.items ++ flat_map (wait_at system.now waits.now) (actors system.now)) }
{
    for actor in 0..system.actor_count() {
        put_wait_at(text, system, waits, actor)?;
    }
    Ok(())
}

fn put_waits(text: &mut Vec<u8>, system: &System, waits: &[Wait]) -> Result<(), AllocError>
    ensures { OnOk result (text.new.items ≡ text.old.items ++ waits_text system.now waits.now) }
{
    append(text, "longest wait of each actor, in entries\n")?;
    put_all_waits(text, system, waits)
}

// How many connections these budgets declare.
fn sum_of(budgets: &[Budget]) -> usize
    requires { sum_by (λ b. b.count) budgets.now ≤ 256 }
    ensures { result ≡ sum_by (λ b. b.count) budgets.now }
{
    let mut count = 0usize;
    for budget in budgets {
        count += budget.count as usize;
    }
    count
}

/// How many connections there may be at a time.
#[tactic(auto, using(ffm_model::proofs::WellFormedLemmas::few_connections))]
pub fn connections_declared(system: &System) -> usize
    ensures result { result ≡ capacity system.now }
    ensures few { result ≤ 256 }
{
    sum_of(system.budgets.as_slice())
}

fn is_stateless_budget(system: &System, budget: &Budget, actor: u32) -> bool
    ensures { result
        ≡ ((budget.now.client.0 == actor) && is_stateless system.now budget.now.service) }
{
    budget.client.0 == actor && is_stateless(system, budget.service)
}

fn uses_stateless(system: &System, actor: u32) -> bool
    ensures { result ≡ uses_stateless system.now actor }
{
    let budgets = system.budgets.as_slice();
    budgets
        .iter()
        .any(|budget| is_stateless_budget(system, budget, actor))
}

// The actors that may call a stateless service.
fn stateless_users(alloc: Global, system: &System) -> Result<Vec<u32>, AllocError>
    ensures { IfOk result (λ users.
        users.items ≡ filter (uses_stateless system.now) (actors system.now)) }
{
    let mut users = Vec::new(alloc);
    for actor in 0..system.actor_count() {
        add_where(&mut users, uses_stateless(system, actor), actor)?;
    }
    Ok(users)
}

fn put_of(text: &mut Vec<u8>, number: usize, total: usize) -> Result<(), AllocError>
    ensures { OnOk result (text.new.items ≡ text.old.items ++ of_text number total) }
{
    put_size(text, number)?;
    append(text, " of ")?;
    put_size(text, total)?;
    append(text, "\n")
}

fn put_most_connections(text: &mut Vec<u8>, system: &System, most: usize) -> Result<(), AllocError>
    ensures { OnOk result
        (text.new.items ≡ text.old.items ++ of_text most (capacity system.now)) }
{
    put_of(text, most, connections_declared(system))
}

/// How many messages there may be at a time: one for each connection, and a request by a stateless handle for each actor
/// that may call such a service.
pub fn messages_declared(alloc: Global, system: &System) -> Result<usize, AllocError>
    ensures { IfOk result (λ most. most ≡ most_messages_declared system.now) }
{
    let users = stateless_users(alloc, system)?;
    Ok(connections_declared(system) + users.len())
}

fn put_most_messages(
    alloc: Global,
    text: &mut Vec<u8>,
    system: &System,
    most: usize,
) -> Result<(), AllocError>
    ensures { OnOk result
        (text.new.items ≡ text.old.items ++ of_text most (most_messages_declared system.now)) }
{
    put_of(text, most, messages_declared(alloc, system)?)
}

fn put_most(
    alloc: Global,
    text: &mut Vec<u8>,
    system: &System,
    counts: &TraceCounts,
) -> Result<(), AllocError>
    ensures { OnOk result (text.new.items ≡ text.old.items ++ most_text system.now counts.now) }
{
    append(text, "most at a time, of those declared\n  connections ")?;
    put_most_connections(text, system, counts.most_connections)?;
    append(text, "  messages    ")?;
    put_most_messages(alloc, text, system, counts.most_messages)
}

#[tactic(auto, unfolding(crate::specs::CountsText::legal_line))]
fn put_legal(text: &mut Vec<u8>, count: u32, total: u32) -> Result<(), AllocError>
    ensures { OnOk result (text.new.items ≡ text.old.items ++ legal_line count total) }
{
    append_words(
        text,
        &[
            Word::Number(count),
            Word::Text(" legal entries of "),
            Word::Number(total),
            Word::Text("\n"),
        ],
    )
}

/// The text of a trace's counts. The only error is want of memory.
#[tactic(auto, unfolding(crate::specs::CountsText::counts_text))]
pub fn stats_text(
    alloc: Global,
    system: &System,
    counts: &TraceCounts,
) -> Result<Vec<u8>, AllocError>
    ensures { IfOk result (λ text. text.items ≡ counts_text system.now counts.now) }
{
    let mut text = Vec::new(alloc);
    put_legal(&mut text, counts.count, counts.total)?;
    put_calls(&mut text, system, counts)?;
    put_all_moved(&mut text, system, counts.moved.as_slice())?;
    put_waits(&mut text, system, counts.longest.as_slice())?;
    put_most(alloc, &mut text, system, counts)?;
    Ok(text)
}
