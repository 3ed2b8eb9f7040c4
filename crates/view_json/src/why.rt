//! How a trace is judged, and why, as JSON.
ghost use Rattle.std.specs.Prelude.{◌≡◌, IfOk, map};
ghost use Rattle.serde_json.specs.View.{view};
ghost use Rattle.view_json.specs.Values.{IsLineOf};
ghost use Rattle.view_json.specs.WhyJson.{all_conditions, any_handle, condition_json, conditions_json, due_json, entry_json, gives_handle, holds_json, illegal_json, legal_entry_json, legal_json, outcome_due, verdict_due, verdict_json, why_json};

use crate::actors::actor_value;
use crate::values::{bare, line_of, text_value};
use ffm_model::{Entry, Outcome, System, Verdict};
use serde_json::{Value, json};
use std::alloc::{AllocError, Global};
use trace_print::verdict_word;
use view_places::{
    CallAfter, Condition, Finding, IllegalEntry, Reply, Rule, answer_due, known_or, rule_words,
    where_not_looked,
};
use view_texts::put_entry;

fn holds_value(holds: Option<bool>) -> Value
    ensures { view result ≡ holds_json holds }
{
    match holds {
        Some(holds) => Value::Bool(holds),
        None => Value::Null,
    }
}

#[tactic(auto, unfolding(crate::specs::WhyJson::condition_json))]
fn condition_value(
    alloc: Global,
    otherwise: Option<bool>,
    condition: &Condition,
) -> Result<Value, AllocError>
    ensures { IfOk result (λ v. view v ≡ condition_json otherwise condition.now) }
{
    let holds = holds_value(known_or(condition.holds, otherwise));
    json!(in alloc; { "text": condition.words, "holds": holds })
}

fn condition_list(
    alloc: Global,
    otherwise: Option<bool>,
    conditions: &[Condition],
) -> Result<Vec<Value>, AllocError>
    ensures { IfOk result (λ v.
        map view v.items ≡ map (condition_json otherwise) conditions.now) }
{
    let mut list = Vec::new(alloc);
    for condition in conditions {
        list.push(condition_value(alloc, otherwise, condition)?)?;
    }
    Ok(list)
}

// The conditions of a call, where an answer is due.
fn conditions_due(
    alloc: Global,
    due: Option<Outcome>,
    conditions: &[Condition],
    is_refused: Option<bool>,
) -> Result<Vec<Value>, AllocError>
    ensures { IfOk result (λ v.
        map view v.items ≡ conditions_json due conditions.now is_refused) }
{
    match due {
        Some(_) => {
            let otherwise = where_not_looked(conditions, is_refused);
            condition_list(alloc, otherwise, conditions)
        }
        None => Ok(Vec::new(alloc)),
    }
}

// The line of an entry.
fn entry_value(alloc: Global, system: &System, entry: &Entry) -> Result<Value, AllocError>
    ensures { IfOk result (λ v. view v ≡ entry_json system.now entry.now) }
{
    let mut line = Vec::new(alloc);
    put_entry(&mut line, system, entry)?;
    text_value(alloc, bare(&line))
}

// The line of an entry with the answer that is due.
fn due_value(
    alloc: Global,
    system: &System,
    entry: &Entry,
    due: Option<Outcome>,
) -> Result<Value, AllocError>
    ensures { IfOk result (λ v. view v ≡ due_json system.now entry.now due) }
{
    match due {
        Some(outcome) => entry_value(alloc, system, &Entry { outcome, ..*entry }),
        None => Ok(Value::Null),
    }
}

fn any_handle(rule: Rule) -> bool
    ensures { result ≡ any_handle rule }
{
    matches!(rule, Rule::StaleHandle(_) | Rule::OtherHandle(_))
}

#[tactic(auto, unfolding(crate::specs::WhyJson::illegal_json))]
fn illegal_value(
    alloc: Global,
    system: &System,
    illegal: &IllegalEntry,
) -> Result<Value, AllocError>
    ensures { IfOk result (λ v. view v ≡ illegal_json system.now illegal.now) }
{
    let outcome = answer_due(illegal.rule);
    let entry = entry_value(alloc, system, &illegal.entry)?;
    let actor = actor_value(alloc, system, illegal.entry.actor.0)?;
    let before = text_value(alloc, &illegal.doing)?;
    let due = due_value(alloc, system, &illegal.entry, outcome)?;
    let conditions = conditions_due(alloc, outcome, &illegal.conditions, illegal.is_refused)?;
    json!(in alloc; {
        "judgement": "illegal",
        "place": illegal.place,
        "entry": entry,
        "actor": actor,
        "before": before,
        "rule": rule_words(illegal.rule),
        "due": due,
        "any_fresh_handle": any_handle(illegal.rule),
        "conditions": conditions
    })
}

fn verdict_due(alloc: Global, due: Option<Verdict>) -> Result<Value, AllocError>
    ensures { IfOk result (λ v. view v ≡ verdict_due due) }
{
    match due {
        Some(verdict) => json!(in alloc; verdict_word(verdict)),
        None => Ok(Value::Null),
    }
}

#[tactic(auto, unfolding(crate::specs::WhyJson::verdict_json))]
fn verdict_value(
    alloc: Global,
    place: u32,
    told: Verdict,
    due: Option<Verdict>,
) -> Result<Value, AllocError>
    ensures { IfOk result (λ v. view v ≡ verdict_json place told due) }
{
    let due = verdict_due(alloc, due)?;
    json!(in alloc; {
        "judgement": "illegal",
        "place": place,
        "verdict": verdict_word(told),
        "due": due
    })
}

#[tactic(auto, unfolding(crate::specs::WhyJson::legal_json))]
fn legal_value(alloc: Global, count: u32) -> Result<Value, AllocError>
    ensures { IfOk result (λ v. view v ≡ legal_json count) }
{
    json!(in alloc; { "judgement": "legal", "entries": count })
}

fn finding_value(alloc: Global, system: &System, finding: &Finding) -> Result<Value, AllocError>
    ensures { IfOk result (λ v. view v ≡ why_json system.now finding.now) }
{
    match finding {
        Finding::Legal(count) => legal_value(alloc, *count),
        Finding::Entry(illegal) => illegal_value(alloc, system, illegal),
        Finding::Verdict { place, told, due } => verdict_value(alloc, *place, *told, *due),
    }
}

/// How a trace is judged, and why, as JSON. The only error is want of memory.
pub fn why_json(alloc: Global, system: &System, finding: &Finding) -> Result<Vec<u8>, AllocError>
    ensures { IfOk result (λ line. IsLineOf (why_json system.now finding.now) line.items) }
{
    let value = finding_value(alloc, system, finding)?;
    line_of(alloc, &value)
}

fn outcome_due(reply: Reply) -> Option<Outcome>
    ensures { result ≡ outcome_due reply }
{
    match reply {
        Reply::Answer { outcome, .. } => Some(outcome),
        Reply::Refused(_) => None,
    }
}

fn gives_handle(reply: Reply) -> bool
    ensures { result ≡ gives_handle reply }
{
    match reply {
        Reply::Answer { gives_handle, .. } => gives_handle,
        Reply::Refused(_) => false,
    }
}

#[tactic(auto, unfolding(crate::specs::WhyJson::legal_entry_json))]
fn legal_entry_value(
    alloc: Global,
    system: &System,
    place: u32,
    call: &CallAfter,
) -> Result<Value, AllocError>
    ensures { IfOk result (λ v. view v ≡ legal_entry_json system.now place call.now) }
{
    let outcome = outcome_due(call.reply);
    let entry = entry_value(alloc, system, &call.entry)?;
    let actor = actor_value(alloc, system, call.entry.actor.0)?;
    let before = text_value(alloc, &call.doing)?;
    let due = due_value(alloc, system, &call.entry, outcome)?;
    let conditions = conditions_due(alloc, outcome, &call.conditions, call.is_refused)?;
    json!(in alloc; {
        "judgement": "legal",
        "place": place,
        "entries": call.total,
        "entry": entry,
        "actor": actor,
        "before": before,
        "due": due,
        "any_fresh_handle": gives_handle(call.reply),
        "conditions": conditions
    })
}

/// The legal entry at a place, by its call after those before it, as JSON. The only error is want of memory.
pub fn legal_entry_json(
    alloc: Global,
    system: &System,
    place: u32,
    call: &CallAfter,
) -> Result<Vec<u8>, AllocError>
    ensures { IfOk result (λ line.
        IsLineOf (legal_entry_json system.now place call.now) line.items) }
{
    let value = legal_entry_value(alloc, system, place, call)?;
    line_of(alloc, &value)
}
