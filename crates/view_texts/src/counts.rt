//! Counts of a trace: calls, bytes moved, waits and live objects.
ghost use Rattle.std.specs.Prelude.{◌≡◌, ◌+◌, ◌*◌, ◌<◌, ◌^◌, [], IfOk, OnOk, get_or, length, max, replicate, slice_set};
ghost use Rattle.std.specs.List.{position};
ghost use Rattle.ffm_model.specs.Actors.{actor_count};
ghost use Rattle.ffm_model.specs.Ranges.{ranges_of};
ghost use Rattle.memory_image.specs.Pieces.{byte_at, regions_of};
ghost use Rattle.machine_calls.specs.Machine.{spm_of_objects};
ghost use Rattle.view_texts.specs.Counted.{IsCounted, IsTallied, connection_count, count_at, message_count, one_more};
ghost use Rattle.view_texts.specs.Moves.{bytes_moved, handle_in, is_same_way, move_of, row, together, with_move, with_row};
ghost use Rattle.view_texts.specs.Waited.{all_closed, begun, closed, longer, no_waits, noted, up_to, waits_in, waits_of, with_wait};
ghost use Rattle.view_texts.specs.Calls.{place_of};

use crate::calls::{CALL_COUNT, place_of};
use ffm_model::{Call, Entry, Handle, Memory, Outcome, PendingMessage, System, Trace};
use machine_calls::Objects;
use machine_check::Checker;
use memory_image::Image;
use std::alloc::{AllocError, Global};

/// The bytes that were moved between a client and a service, over all their connections.
#[derive(Clone, Copy, Debug, PartialEq, Eq)]
pub struct Moved {
    pub client: u32,
    pub service: u32,
    /// By psa_read, from the client to the service.
    pub read: u64,
    /// By psa_skip.
    pub skipped: u64,
    /// By psa_write, from the service to the client.
    pub written: u64,
}

/// A call that returned later, or that didn't return yet.
#[derive(Clone, Copy, Debug, PartialEq, Eq)]
pub struct Wait {
    /// The place of the entry that made the call; 0 where there is none.
    pub from: u32,
    /// How many entries later it returned, or how many entries came after it.
    pub entries: u32,
    pub is_over: bool,
    /// The place of the call's name among the names.
    pub call: usize,
}

const NO_WAIT: Wait = Wait {
    from: 0,
    entries: 0,
    is_over: true,
    call: 0,
};

/// The counts of the legal entries of a trace.
#[derive(Drop)]
pub struct TraceCounts {
    /// How many entries are legal.
    pub count: u32,
    /// How many the trace has.
    pub total: u32,
    /// By actor.
    pub entries: Vec<u32>,
    /// By actor and then by call.
    pub calls: Vec<u32>,
    pub moved: Vec<Moved>,
    /// By actor, the longest.
    pub longest: Vec<Wait>,
    /// By actor, the one that isn't over.
    pub pending: Vec<Wait>,
    pub most_connections: usize,
    pub most_messages: usize,
}

// The handle of the message whose bytes a call moves.
fn handle_in(call: Call) -> Option<Handle>
    ensures { result ≡ handle_in call }
{
    match call {
        Call::Read { handle, .. } | Call::Skip { handle, .. } | Call::Write { handle, .. } => {
            Some(handle)
        }
        _ => None,
    }
}

fn row(message: &PendingMessage, read: u32, skipped: u32, written: u32) -> Moved
    ensures { result ≡ row message.now read skipped written }
{
    Moved {
        client: message.client.0,
        service: message.service,
        read: u64::from(read),
        skipped: u64::from(skipped),
        written: u64::from(written),
    }
}

// The bytes of a message that a call moves with this outcome.
fn bytes_moved(message: &PendingMessage, call: Call, outcome: Outcome) -> Option<Moved>
    ensures { result ≡ bytes_moved message.now call outcome }
{
    match (call, outcome) {
        (Call::Read { .. }, Outcome::Number(read)) => Some(row(message, read, 0, 0)),
        (Call::Skip { .. }, Outcome::Number(skipped)) => Some(row(message, 0, skipped, 0)),
        (Call::Write { len, .. }, Outcome::Done) => Some(row(message, 0, 0, len)),
        _ => None,
    }
}

// The bytes that an entry moves, where it is a step after this state.
fn move_of(system: &System, objects: &Objects, entry: &Entry) -> Option<Moved>
    ensures { result ≡ move_of system.now (spm_of_objects objects.now) entry.now }
{
    let handle = handle_in(entry.call)?;
    let message = objects.message_held(system, entry.actor.0, handle)?;
    bytes_moved(&message, entry.call, entry.outcome)
}

fn is_same_way(row: &Moved, more: &Moved) -> bool
    ensures { result ≡ is_same_way more.now row.now }
{
    row.client == more.client && row.service == more.service
}

fn together(row: &Moved, more: &Moved) -> Moved
    ensures { result ≡ together row.now more.now }
{
    Moved {
        read: row.read.saturating_add(more.read),
        skipped: row.skipped.saturating_add(more.skipped),
        written: row.written.saturating_add(more.written),
        ..*row
    }
}

// The row of a client and a service.
fn row_of(rows: &[Moved], more: &Moved) -> Option<usize>
    ensures { result ≡ position (is_same_way more.now) rows.now }
{
    rows.iter().position(|row| is_same_way(row, more))
}

// Adds bytes to the row of their client and service.
#[tactic(auto, unfolding(crate::specs::Moves::with_row))]
fn add_row(rows: &mut Vec<Moved>, more: Moved) -> Result<(), AllocError>
    ensures { OnOk result (rows.new.items ≡ with_row rows.old.items more) }
{
    match row_of(rows.as_slice(), &more) {
        Some(place) => {
            rows[place] = together(&rows[place], &more);
        }
        None => rows.push(more)?,
    }
    Ok(())
}

// Adds what an entry moved, where it moved bytes.
fn add_move(rows: &mut Vec<Moved>, step: Option<Moved>) -> Result<(), AllocError>
    ensures { OnOk result (rows.new.items ≡ with_move rows.old.items step) }
{
    match step {
        Some(more) => add_row(rows, more),
        None => Ok(()),
    }
}

fn add_one(counts: &mut [u32], place: usize)
    ensures { counts.new ≡ one_more counts.old place }
{
    if place < counts.len() {
        counts[place] = counts[place].saturating_add(1);
    }
}

/// How often an actor made the call at a place, out of the table of all.
pub fn count_at(calls: &[u32], actor: u32, call: usize) -> u32
    requires { call < CALL_COUNT }
    ensures { result ≡ count_at calls.now actor call }
{
    match calls.get(actor as usize * CALL_COUNT + call) {
        Some(count) => *count,
        None => 0,
    }
}

fn put_wait(waits: &mut [Wait], actor: usize, wait: Wait)
    ensures { waits.new ≡ slice_set waits.old actor wait }
{
    if actor < waits.len() {
        waits[actor] = wait;
    }
}

fn wait_at(waits: &[Wait], actor: usize) -> Wait
    ensures { result ≡ get_or waits.now actor NO_WAIT }
{
    match waits.get(actor) {
        Some(wait) => *wait,
        None => NO_WAIT,
    }
}

// The longer one of two waits, and the first where both are as long.
fn longer(longest: Wait, wait: Wait) -> Wait
    ensures { result ≡ longer longest wait }
{
    if wait.from > 0 && (longest.from == 0 || wait.entries > longest.entries) {
        wait
    } else {
        longest
    }
}

// A wait up to this place.
fn up_to(place: u32, is_over: bool, wait: Wait) -> Wait
    ensures { result ≡ up_to place is_over wait }
{
    Wait {
        entries: place.saturating_sub(wait.from),
        is_over,
        ..wait
    }
}

impl TraceCounts {
    // Before the first of so many entries.
    fn new(alloc: Global, system: &System, total: u32) -> Result<TraceCounts, Memory>
        ensures count { IfOk result (λ counts. counts.count ≡ 0) }
        ensures total { IfOk result (λ counts. counts.total ≡ total) }
        ensures entries { IfOk result (λ counts.
            counts.entries.items ≡ replicate (actor_count system.now) 0) }
        ensures calls { IfOk result (λ counts.
            counts.calls.items ≡ replicate (actor_count system.now * CALL_COUNT) 0) }
        ensures moved { IfOk result (λ counts. counts.moved.items ≡ []) }
        ensures waits { IfOk result (λ counts. waits_of counts ≡ no_waits (actor_count system.now)) }
        ensures connections { IfOk result (λ counts. counts.most_connections ≡ 0) }
        ensures messages { IfOk result (λ counts. counts.most_messages ≡ 0) }
    {
        let actors = system.actor_count() as usize;
        let mut entries = Vec::new(alloc);
        entries.resize(actors, 0)?;
        let mut calls = Vec::new(alloc);
        calls.resize(actors * CALL_COUNT, 0)?;
        let mut longest = Vec::new(alloc);
        longest.resize(actors, NO_WAIT)?;
        let mut pending = Vec::new(alloc);
        pending.resize(actors, NO_WAIT)?;
        Ok(TraceCounts {
            count: 0,
            total,
            entries,
            calls,
            moved: Vec::new(alloc),
            longest,
            pending,
            most_connections: 0,
            most_messages: 0,
        })
    }

    // Counts an entry at this place, after which the state has these objects.
    fn add(&mut self, place: u32, entry: &Entry, objects: &Objects)
        ensures count { self.new.count ≡ place }
        ensures total { self.new.total ≡ self.old.total }
        ensures entries { self.new.entries.items
            ≡ one_more self.old.entries.items entry.now.actor.0 }
        ensures calls { self.new.calls.items ≡ one_more self.old.calls.items
            (entry.now.actor.0 * CALL_COUNT + place_of entry.now.call) }
        ensures moved { self.new.moved ≡ self.old.moved }
        ensures waits { waits_of self.new ≡ noted (waits_of self.old) place entry.now }
        ensures connections { self.new.most_connections
            ≡ max self.old.most_connections (connection_count (spm_of_objects objects.now)) }
        ensures messages { self.new.most_messages
            ≡ max self.old.most_messages (message_count (spm_of_objects objects.now)) }
    {
        let actor = entry.actor.0 as usize;
        self.count = place;
        add_one(self.entries.as_mut_slice(), actor);
        add_one(
            self.calls.as_mut_slice(),
            actor * CALL_COUNT + place_of(entry.call),
        );
        self.most_connections = self.most_connections.max(objects.connections.len());
        self.most_messages = self.most_messages.max(objects.messages.len());
        self.note_wait(place, actor, entry);
    }

    // Notes that a call waits, or that it returned.
    fn note_wait(&mut self, place: u32, actor: usize, entry: &Entry)
        requires { actor ≡ entry.now.actor.0 }
        ensures rest { self.new
            ≡ record self.old { longest = self.new.longest; pending = self.new.pending } }
        ensures waits { waits_of self.new ≡ noted (waits_of self.old) place entry.now }
    {
        if entry.outcome == Outcome::Blocked {
            self.begin_wait(place, actor, entry.call);
        } else if entry.call == Call::Resume {
            self.close_wait(place, actor, true);
        }
    }

    // A call of an actor waits from this place on.
    #[tactic(auto, unfolding(crate::specs::Waited::with_wait))]
    fn begin_wait(&mut self, place: u32, actor: usize, call: Call)
        ensures rest { self.new
            ≡ record self.old { longest = self.new.longest; pending = self.new.pending } }
        ensures waits { waits_of self.new
            ≡ with_wait (waits_of self.old) actor (begun place call) }
    {
        let wait = Wait {
            from: place,
            entries: 0,
            is_over: false,
            call: place_of(call),
        };
        put_wait(self.pending.as_mut_slice(), actor, wait);
    }

    // The call of an actor that waits is over, or the trace is.
    #[tactic(auto, unfolding(crate::specs::Waited::closed))]
    fn close_wait(&mut self, place: u32, actor: usize, is_over: bool)
        ensures rest { self.new
            ≡ record self.old { longest = self.new.longest; pending = self.new.pending } }
        ensures waits { waits_of self.new ≡ closed (waits_of self.old) place actor is_over }
    {
        let wait = up_to(place, is_over, wait_at(self.pending.as_slice(), actor));
        let longest = longer(wait_at(self.longest.as_slice(), actor), wait);
        put_wait(self.longest.as_mut_slice(), actor, longest);
        put_wait(self.pending.as_mut_slice(), actor, NO_WAIT);
    }

    // No call that still waits is over.
    fn close_waits(&mut self, actors: u32)
        ensures rest { self.new
            ≡ record self.old { longest = self.new.longest; pending = self.new.pending } }
        ensures waits { waits_of self.new
            ≡ all_closed (waits_of self.old) self.old.count actors }
    {
        let place = self.count;
        for actor in 0..actors as usize {
            self.close_wait(place, actor, false);
        }
    }
}

// The counts of the entries before the first illegal one.
fn legal_entries(
    alloc: Global,
    system: &System,
    memory: &Image,
    limit: u32,
    entries: &[Entry],
) -> Result<TraceCounts, Memory>
    requires regions { regions_of memory.now ≡ ranges_of system.now.regions }
    requires few { length entries.now < 2 ^ 31 }
    ensures tallied { IfOk result
        (IsTallied system.now (byte_at memory.now) limit entries.now) }
    ensures waits { IfOk result (λ counts.
        waits_of counts ≡ waits_in system.now entries.now counts.count) }
{
    let mut checker = Checker::new(alloc, system, memory)?;
    let mut counts = TraceCounts::new(alloc, system, entries.len() as u32)?;
    for entry in entries {
        let step = move_of(system, &checker.machine.objects, entry);
        if !checker.accept(system, limit, entry)? {
            return Ok(counts);
        }
        counts.add(checker.count, entry, &checker.machine.objects);
        add_move(&mut counts.moved, step)?;
    }
    Ok(counts)
}

/// The counts of a trace's entries before the first one that is illegal or exceeds the limit.
///
/// It needs memory for the state, for one copy of the image, for the handles that the entries give and for the counts.
/// The memory has the system's regions, and the trace has fewer than 2^31 entries.
#[tactic(auto, using(crate::proofs::Followed::all_counted))]
pub fn stats(
    alloc: Global,
    system: &System,
    memory: &Image,
    limit: u32,
    trace: &Trace,
) -> Result<TraceCounts, Memory>
    requires regions { regions_of memory.now ≡ ranges_of system.now.regions }
    requires few { length trace.now.entries < 2 ^ 31 }
    ensures { IfOk result (IsCounted system.now (byte_at memory.now) limit trace.now.entries) }
{
    let mut counts = legal_entries(alloc, system, memory, limit, trace.entries.as_slice())?;
    counts.close_waits(system.actor_count());
    Ok(counts)
}
