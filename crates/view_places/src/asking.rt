//! What the machine answers to a call at a place of a trace.
ghost use Rattle.std.specs.Prelude.{◌≡◌, ◌<◌, ◌^◌, IfOk, length};
ghost use Rattle.std.specs.Prelude as prelude;
ghost use Rattle.ffm_model.specs.declared.machine.Handle.{Handle as HandleSeen};
ghost use Rattle.ffm_model.specs.Ranges.{ranges_of};
ghost use Rattle.machine_calls.specs.Machine.{IsMachineOf, state_of};
ghost use Rattle.machine_check.specs.Performed.{Knows};
ghost use Rattle.memory_image.specs.Pieces.{byte_at, regions_of};
ghost use Rattle.view_places.specs.Asking.{IsAsked, IsReply, TellsAfter, error_shown};

use crate::behind::{Place, StateAfter, after_place};
use crate::calls::conditions;
use crate::condition::Condition;
use crate::reasons::{Rule, broken_before, doing, gave_handle, is_refusal};
use ffm_model::{Call, Entry, Memory, Outcome, System, Trace};
use machine_check::Checker;
use memory_image::Image;
use std::alloc::Global;

/// What the machine answers to a call.
#[derive(Clone, Copy)]
pub enum Reply {
    /// This outcome. Where the call gives a handle, any other fresh one would do.
    Answer {
        outcome: Outcome,
        gives_handle: bool,
    },
    /// Nothing: by this rule the call may not be made.
    Refused(Rule),
}

/// A call after the first entries of a trace.
#[derive(Drop)]
pub struct CallAfter {
    /// How many entries are before it.
    pub count: u32,
    /// How many the trace has.
    pub total: u32,
    /// The actor and the call; its outcome isn't looked at.
    pub entry: Entry,
    /// What its actor does before it.
    pub doing: Vec<u8>,
    /// When the call is a PROGRAMMER ERROR; none where the system has no such actor.
    pub conditions: Vec<Condition>,
    /// Whether it is one, where it is psa_call and has an answer.
    pub is_refused: Option<bool>,
    pub reply: Reply,
}

/// A call after the entry at a place, or why there is no state for it.
#[derive(Drop)]
pub enum PlaceAsked {
    Call(CallAfter),
    /// The trace has fewer entries.
    Beyond,
    /// An entry up to the place, this one, is no step or exceeds the limit.
    Illegal(u32),
}

// What the machine answers to the call of an entry.
fn reply_of(system: &System, limit: u32, checker: Checker, entry: &Entry) -> Result<Reply, Memory>
    requires kept { IsMachineOf system.now checker.machine }
    requires few { checker.machine.objects.connections_made < 2 ^ 31 }
    ensures { (handles : prelude.List HandleSeen) → Knows checker.given handles
        → IfOk result (IsReply system.now limit checker.count
        (state_of checker.machine handles) entry.now) }
{
    if let Some(rule) = broken_before(system, &checker.machine, limit, checker.count, entry) {
        return Ok(Reply::Refused(rule));
    }
    let phase = checker.machine.objects.phase(entry.actor.0);
    match checker.due(system, entry.actor, entry.call)? {
        Some(outcome) => Ok(Reply::Answer {
            outcome,
            gives_handle: gave_handle(phase, entry.call, outcome),
        }),
        None => Ok(Reply::Refused(Rule::NoHandleLeft)),
    }
}

// Whether psa_call is a PROGRAMMER ERROR, where its answer shows that.
fn error_shown(call: Call, reply: Reply) -> Option<bool>
    ensures { result ≡ error_shown call reply }
{
    match (call, reply) {
        (Call::Invoke { .. }, Reply::Answer { outcome, .. }) => Some(is_refusal(outcome)),
        _ => None,
    }
}

// What is told of an entry's call after those that were followed, of a trace with so many entries.
fn tell(
    alloc: Global,
    system: &System,
    limit: u32,
    checker: Checker,
    total: u32,
    entry: &Entry,
) -> Result<CallAfter, Memory>
    requires kept { IsMachineOf system.now checker.machine }
    requires few { checker.machine.objects.connections_made < 2 ^ 31 }
    ensures { IfOk result (TellsAfter system.now limit checker total entry.now) }
{
    let count = checker.count;
    let doing = doing(alloc, system, &checker.machine.objects, entry.actor.0)?;
    let conditions = conditions(alloc, system, &checker.machine, entry.actor, entry.call)?;
    let reply = reply_of(system, limit, checker, entry)?;
    Ok(CallAfter {
        count,
        total,
        entry: *entry,
        doing,
        conditions,
        is_refused: error_shown(entry.call, reply),
        reply,
    })
}

/// What the machine answers to the call of an entry, made after the one at a place of a trace, counted from 1; at
/// place 0 it is made first. The entry's outcome isn't looked at.
///
/// It needs what `after_place` does, and memory for two short lists.
pub fn ask(
    alloc: Global,
    system: &System,
    memory: &Image,
    limit: u32,
    trace: &Trace,
    place: u32,
    entry: &Entry,
) -> Result<PlaceAsked, Memory>
    requires regions { regions_of memory.now ≡ ranges_of system.now.regions }
    requires few { length trace.now.entries < 2 ^ 31 }
    ensures { IfOk result
        (IsAsked system.now (byte_at memory.now) limit trace.now.entries place entry.now) }
{
    match after_place(alloc, system, memory, limit, trace, place)? {
        Place::State(StateAfter { checker, total, .. }) => {
            let told = tell(alloc, system, limit, checker, total, entry)?;
            Ok(PlaceAsked::Call(told))
        }
        Place::Beyond => Ok(PlaceAsked::Beyond),
        Place::Illegal(illegal) => Ok(PlaceAsked::Illegal(illegal)),
    }
}
