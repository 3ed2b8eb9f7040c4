//! Why a trace is illegal, and where.
ghost use Rattle.std.specs.Prelude.{◌≡◌, ◌<◌, ◌^◌, ◌&&◌, IfOk, MatchOption, false, true, length};
ghost use Rattle.std.specs.Prelude as prelude;
ghost use Rattle.std.specs.Option.{option_map_or};
ghost use Rattle.ffm_model.specs.declared.machine.Handle.{Handle as HandleSeen};
ghost use Rattle.ffm_model.specs.Signals.{may_resume};
ghost use Rattle.ffm_model.specs.Step.{handle_shown, may_call, outcome_eq, returns_when_due};
ghost use Rattle.ffm_model.specs.Verdicts.{verdict_eq};
ghost use Rattle.machine_calls.specs.Machine.{IsMachineOf, spm_of_objects, state_of};
ghost use Rattle.machine_check.specs.Performed.{Knows, gave_handle};
ghost use Rattle.ffm_model.specs.Ranges.{ranges_of};
ghost use Rattle.memory_image.specs.Pieces.{byte_at, regions_of};
ghost use Rattle.view_places.specs.StateText.{phase_text};
ghost use Rattle.view_places.specs.Why.{BreaksRule, IsFinding, IsIllegal, IsRule, is_refusal, refusal_shown, with_handle};

use crate::calls::conditions;
use crate::condition::Condition;
use crate::phases::put_phase;
use ffm_model::{
    ActorPhase, Call, Entry, Handle, Memory, Message, Outcome, PSA_ERROR_PROGRAMMER_ERROR, System,
    Trace, Verdict,
};
use machine_calls::{Machine, Objects};
use machine_check::{Checker, reached};
use memory_image::Image;
use std::alloc::{AllocError, Global};

/// The rule by which an entry is illegal after those before it: the first that it breaks, in this order.
#[derive(Clone, Copy, Debug, PartialEq, Eq)]
pub enum Rule {
    /// The run has as many entries as it may have.
    BeyondLimit,
    NoSuchActor,
    /// The actor can't go on.
    NotEnabled,
    /// The actor's next entry is the return of a call.
    ReturnDue,
    /// No call of the actor is to return.
    NoReturnDue,
    /// All handles were given.
    NoHandleLeft,
    /// The outcome is the answer, but for a handle that isn't fresh: the answer with a fresh one.
    StaleHandle(Outcome),
    /// The machine gives a handle: this answer, with this handle or any other fresh one, and nothing else.
    OtherHandle(Outcome),
    /// The machine answers otherwise: this, and nothing else.
    OtherAnswer(Outcome),
}

/// An entry that isn't legal.
#[derive(Drop)]
pub struct IllegalEntry {
    /// Its place, counted from 1.
    pub place: u32,
    pub entry: Entry,
    pub rule: Rule,
    /// What its actor does before it.
    pub doing: Vec<u8>,
    /// When its call is a PROGRAMMER ERROR; none where the system has no such actor.
    pub conditions: Vec<Condition>,
    /// Whether its call is one, where it is psa_call and another answer is due.
    pub is_refused: Option<bool>,
}

/// How a trace is judged, and why.
#[derive(Drop)]
pub enum Finding {
    /// It is legal, with so many entries.
    Legal(u32),
    Entry(IllegalEntry),
    /// The verdict at this place isn't the one that is due, which is none where the run isn't ended.
    Verdict {
        place: u32,
        told: Verdict,
        due: Option<Verdict>,
    },
}

fn returns(phase: ActorPhase) -> bool
    ensures { result ≡ may_resume phase }
{
    matches!(
        phase,
        ActorPhase::Ready(_) | ActorPhase::Connected(_) | ActorPhase::Waiting { .. }
    )
}

// A call returns exactly where it is to return.
fn returns_when_due(call: Call, phase: ActorPhase) -> bool
    ensures { result ≡ returns_when_due call phase }
{
    match call {
        Call::Resume => returns(phase),
        _ => !returns(phase),
    }
}

/// The rule that an entry after so many others breaks whatever it answers. None where its call may be made.
#[tactic(auto, using(crate::proofs::Rules::no_such_actor, crate::proofs::Rules::not_enabled, crate::proofs::Rules::return_due, crate::proofs::Rules::no_return_due, crate::proofs::Rules::may_be_made))]
pub fn broken_before(
    system: &System,
    machine: &Machine,
    limit: u32,
    count: u32,
    entry: &Entry,
) -> Option<Rule>
    ensures { (given : prelude.List HandleSeen)
        → MatchOption result ((count < limit)
        × (may_call system.now (state_of machine.now given).spm
        entry.now.actor.0 entry.now.call ≡ true))
        (λ r. IsRule system.now limit count (state_of machine.now given) entry.now r) }
{
    let actor = entry.actor.0;
    if count >= limit {
        return Some(Rule::BeyondLimit);
    }
    if actor >= system.actor_count() {
        return Some(Rule::NoSuchActor);
    }
    if !machine.objects.is_enabled(system, actor) {
        return Some(Rule::NotEnabled);
    }
    let phase = machine.objects.phase(actor);
    if returns_when_due(entry.call, phase) {
        None
    } else if returns(phase) {
        Some(Rule::ReturnDue)
    } else {
        Some(Rule::NoReturnDue)
    }
}

// The handle that an outcome shows, where it shows one.
fn handle_shown(outcome: Outcome) -> Handle
    ensures { result ≡ handle_shown outcome }
{
    match outcome {
        Outcome::Value(value) => Handle(value),
        Outcome::Got(message) => message.handle,
        _ => Handle(0),
    }
}

// The outcome with another handle, where it shows one.
fn with_handle(handle: Handle, outcome: Outcome) -> Outcome
    ensures { result ≡ with_handle handle outcome }
{
    match outcome {
        Outcome::Value(_) => Outcome::Value(handle.0),
        Outcome::Got(message) => Outcome::Got(Message { handle, ..message }),
        _ => outcome,
    }
}

/// Whether a call with this answer gives a handle: `psa_get`, or the return of `psa_connect`.
pub fn gave_handle(phase: ActorPhase, call: Call, answer: Outcome) -> bool
    ensures { result ≡ gave_handle phase call answer }
{
    match call {
        Call::Get { .. } => matches!(answer, Outcome::Got(_)),
        Call::Resume => matches!(phase, ActorPhase::Connected(_)),
        _ => false,
    }
}

// Whether the outcome of an entry is the answer of an actor that does this, but for the handle that the call gives.
fn is_answer_but_handle(phase: ActorPhase, entry: &Entry, answer: Outcome) -> bool
    ensures { result ≡ (gave_handle phase entry.now.call answer
        && outcome_eq (with_handle (handle_shown entry.now.outcome) answer) entry.now.outcome) }
{
    gave_handle(phase, entry.call, answer)
        && with_handle(handle_shown(entry.outcome), answer) == entry.outcome
}

// The rule that an illegal entry breaks.
#[tactic(auto, using(crate::proofs::Rules::no_handle_left, crate::proofs::Rules::stale_handle, crate::proofs::Rules::other_handle, crate::proofs::Rules::other_answer))]
fn broken_rule(system: &System, limit: u32, checker: Checker, entry: &Entry) -> Result<Rule, Memory>
    requires kept { IsMachineOf system.now checker.machine }
    requires few { checker.machine.objects.connections_made < 2 ^ 31 }
    ensures { (handles : prelude.List HandleSeen) → Knows checker.given handles
        → IsIllegal system.now limit checker.count (state_of checker.machine handles) entry.now
        → IfOk result (λ r.
        IsRule system.now limit checker.count (state_of checker.machine handles) entry.now r) }
{
    if let Some(rule) = broken_before(system, &checker.machine, limit, checker.count, entry) {
        return Ok(rule);
    }
    let phase = checker.machine.objects.phase(entry.actor.0);
    match checker.due(system, entry.actor, entry.call)? {
        Some(answer) => {
            if is_answer_but_handle(phase, entry, answer) {
                Ok(Rule::StaleHandle(answer))
            } else if gave_handle(phase, entry.call, answer) {
                Ok(Rule::OtherHandle(answer))
            } else {
                Ok(Rule::OtherAnswer(answer))
            }
        }
        None => Ok(Rule::NoHandleLeft),
    }
}

/// Whether an answer to psa_call tells of a PROGRAMMER ERROR.
pub fn is_refusal(answer: Outcome) -> bool
    ensures { result ≡ is_refusal answer }
{
    match answer {
        Outcome::Panicked => true,
        Outcome::Value(value) => value == PSA_ERROR_PROGRAMMER_ERROR,
        _ => false,
    }
}

// Whether psa_call is a PROGRAMMER ERROR, where a rule shows the answer that is due.
fn refusal_shown(call: Call, rule: Rule) -> Option<bool>
    ensures { result ≡ refusal_shown call rule }
{
    match (call, rule) {
        (Call::Invoke { .. }, Rule::OtherAnswer(answer)) => Some(is_refusal(answer)),
        _ => None,
    }
}

/// What an actor does.
pub fn doing(
    alloc: Global,
    system: &System,
    objects: &Objects,
    actor: u32,
) -> Result<Vec<u8>, AllocError>
    ensures { IfOk result (λ text.
        text.items ≡ phase_text system.now (spm_of_objects objects.now) actor) }
{
    let mut text = Vec::new(alloc);
    put_phase(alloc, &mut text, system, objects, actor)?;
    Ok(text)
}

// An entry that is no step after those that were followed, or exceeds the limit.
fn illegal_entry(
    alloc: Global,
    system: &System,
    limit: u32,
    checker: Checker,
    entry: &Entry,
) -> Result<IllegalEntry, Memory>
    requires kept { IsMachineOf system.now checker.machine }
    requires few { checker.machine.objects.connections_made < 2 ^ 31 }
    requires count { checker.count < 2 ^ 31 }
    ensures { IfOk result (BreaksRule system.now limit checker entry.now) }
{
    let place = checker.count + 1;
    let doing = doing(alloc, system, &checker.machine.objects, entry.actor.0)?;
    let conditions = conditions(alloc, system, &checker.machine, entry.actor, entry.call)?;
    let rule = broken_rule(system, limit, checker, entry)?;
    Ok(IllegalEntry {
        place,
        entry: *entry,
        rule,
        doing,
        conditions,
        is_refused: refusal_shown(entry.call, rule),
    })
}

// Whether a verdict is the one that is due.
fn is_due(due: Option<Verdict>, told: Verdict) -> bool
    ensures { result ≡ option_map_or (verdict_eq told) due false }
{
    match due {
        Some(verdict) => told == verdict,
        None => false,
    }
}

/// How a trace is judged, by the place of the judge, and why: the rule that its first illegal entry breaks and, where
/// the call may be made, the answer that is due there, with which the entry is a step; or the verdict that is due.
///
/// It needs memory for the state, for one copy of the image, for the handles that the entries give and for two short
/// lists. The memory has the system's regions, and the trace has fewer than 2^31 entries. Where an entry is illegal,
/// those before it are followed twice.
#[tactic(auto, using(crate::proofs::Judged::is_legal, crate::proofs::Judged::wrong_verdict, crate::proofs::Judged::wrong_entry))]
pub fn why(
    alloc: Global,
    system: &System,
    memory: &Image,
    limit: u32,
    trace: &Trace,
) -> Result<Finding, Memory>
    requires regions { regions_of memory.now ≡ ranges_of system.now.regions }
    requires few { length trace.now.entries < 2 ^ 31 }
    ensures { IfOk result
        (IsFinding system.now (byte_at memory.now) limit trace.now.entries trace.now.verdict) }
{
    let entries = trace.entries.as_slice();
    let checker = reached(alloc, system, memory, limit, entries)?;
    if let Some(entry) = entries.get(checker.count as usize) {
        return Ok(Finding::Entry(illegal_entry(alloc, system, limit, checker, entry)?));
    }
    let due = checker.verdict(system, limit);
    if is_due(due, trace.verdict) {
        return Ok(Finding::Legal(checker.count));
    }
    Ok(Finding::Verdict {
        place: checker.count + 1,
        told: trace.verdict,
        due,
    })
}
