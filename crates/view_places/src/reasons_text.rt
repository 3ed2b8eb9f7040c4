//! The text that says how a trace is judged, and why.
ghost use Rattle.std.specs.Prelude.{◌≡◌, ◌++◌, ◌∷◌, [], IfOk, OnOk, codes};
ghost use Rattle.std.specs.Fmt.{decimal};
ghost use Rattle.std.specs.List.{flat_map, list_any};
ghost use Rattle.view_places.specs.WhyText.{actor_line, answer_due, condition_line, condition_lines, conditions_heading, does_hold, due_line, due_lines, handle_line, illegal_text, known_or, mark, rule_words, some_conditions, verdict_due_text, verdict_text, where_not_looked, why_text};
ghost use Rattle.view_texts.specs.Columns.{joined};
ghost use Rattle.view_texts.specs.Names.{actor_name};

use crate::condition::Condition;
use crate::reasons::{Finding, IllegalEntry, Rule};
use ffm_model::{Call, Entry, Outcome, System, Verdict};
use std::alloc::{AllocError, Global};
use text_lines::{Word, append, append_words};
use trace_print::verdict_word;
use view_texts::{actor_name, call_name, put_actor_word, put_entry};

/// A rule in words.
pub fn rule_words(rule: Rule) -> &'static str
    ensures { result.now ≡ rule_words rule }
{
    match rule {
        Rule::BeyondLimit => "the run has as many entries as the scenario allows",
        Rule::NoSuchActor => "the system has no such actor",
        Rule::NotEnabled => "the actor isn't enabled",
        Rule::ReturnDue => "the actor has to return from a call first, by resume",
        Rule::NoReturnDue => "the actor isn't to return from a call",
        Rule::NoHandleLeft => "no handle is left to be given",
        Rule::StaleHandle(_) =>
            "the handle isn't fresh: a fresh one is from 1 to 0x3fffffff, and no event gave it before",
        Rule::OtherHandle(_) | Rule::OtherAnswer(_) => "another answer is due",
    }
}

/// The answer that is due, where the call may be made.
pub fn answer_due(rule: Rule) -> Option<Outcome>
    ensures { result ≡ answer_due rule }
{
    match rule {
        Rule::StaleHandle(outcome) | Rule::OtherHandle(outcome) | Rule::OtherAnswer(outcome) => {
            Some(outcome)
        }
        _ => None,
    }
}

fn mark(holds: Option<bool>) -> &'static str
    ensures { result.now ≡ mark holds }
{
    match holds {
        Some(true) => "  [x] ",
        Some(false) => "  [ ] ",
        None => "  [?] ",
    }
}

/// What was looked at, or else the other.
pub fn known_or(holds: Option<bool>, otherwise: Option<bool>) -> Option<bool>
    ensures { result ≡ known_or holds otherwise }
{
    match holds {
        Some(holds) => Some(holds),
        None => otherwise,
    }
}

fn does_hold(holds: Option<bool>) -> bool
    ensures { result ≡ does_hold holds }
{
    matches!(holds, Some(true))
}

fn is_some_held(conditions: &[Condition]) -> bool
    ensures { result ≡ list_any (λ c. does_hold c.holds) conditions.now }
{
    conditions
        .iter()
        .any(|condition| does_hold(condition.holds))
}

/// What is told of a condition that wasn't looked at: it holds exactly where the call is refused, unless another one does.
pub fn where_not_looked(conditions: &[Condition], is_refused: Option<bool>) -> Option<bool>
    ensures { result ≡ where_not_looked conditions.now is_refused }
{
    if is_some_held(conditions) {
        None
    } else {
        is_refused
    }
}

fn put_condition(
    text: &mut Vec<u8>,
    condition: &Condition,
    otherwise: Option<bool>,
) -> Result<(), AllocError>
    ensures { OnOk result
        (text.new.items ≡ text.old.items ++ condition_line otherwise condition.now) }
{
    append_words(
        text,
        &[
            Word::Text(mark(known_or(condition.holds, otherwise))),
            Word::Text(condition.words),
            Word::Text("\n"),
        ],
    )
}

fn put_condition_lines(
    text: &mut Vec<u8>,
    conditions: &[Condition],
    otherwise: Option<bool>,
) -> Result<(), AllocError>
    ensures { OnOk result (text.new.items
        ≡ text.old.items ++ flat_map (condition_line otherwise) conditions.now) }
{
    for condition in conditions {
        put_condition(text, condition, otherwise)?;
    }
    Ok(())
}

// Appends conditions, each with whether it holds.
fn put_marked(
    text: &mut Vec<u8>,
    conditions: &[Condition],
    is_refused: Option<bool>,
) -> Result<(), AllocError>
    ensures { OnOk result (text.new.items ≡ text.old.items
        ++ flat_map (condition_line (where_not_looked conditions.now is_refused)) conditions.now) }
{
    put_condition_lines(text, conditions, where_not_looked(conditions, is_refused))
}

#[tactic(auto, unfolding(crate::specs::WhyText::conditions_heading))]
fn put_heading(text: &mut Vec<u8>, call: Call) -> Result<(), AllocError>
    ensures { OnOk result (text.new.items ≡ text.old.items ++ conditions_heading call) }
{
    append_words(
        text,
        &[
            Word::Text(call_name(call)),
            Word::Text(" is a PROGRAMMER ERROR where one of these holds ([x]: holds here)\n"),
        ],
    )
}

fn put_some_conditions(
    text: &mut Vec<u8>,
    call: Call,
    conditions: &[Condition],
    is_refused: Option<bool>,
) -> Result<(), AllocError>
    ensures { OnOk result
        (text.new.items ≡ text.old.items ++ some_conditions call conditions.now is_refused) }
{
    put_heading(text, call)?;
    put_marked(text, conditions, is_refused)
}

/// Appends the conditions under which a call is a PROGRAMMER ERROR, each with whether it holds.
#[tactic(auto, unfolding(crate::specs::WhyText::condition_lines))]
pub fn put_conditions(
    text: &mut Vec<u8>,
    call: Call,
    conditions: &[Condition],
    is_refused: Option<bool>,
) -> Result<(), AllocError>
    ensures { OnOk result
        (text.new.items ≡ text.old.items ++ condition_lines call conditions.now is_refused) }
{
    if conditions.is_empty() {
        return Ok(());
    }
    put_some_conditions(text, call, conditions, is_refused)
}

fn put_name(text: &mut Vec<u8>, system: &System, actor: u32) -> Result<(), AllocError>
    ensures { OnOk result (text.new.items ≡ text.old.items ++ actor_name system.now actor) }
{
    append(text, actor_name(system, actor))
}

fn put_bytes(text: &mut Vec<u8>, bytes: &[u8]) -> Result<(), AllocError>
    ensures { OnOk result (text.new.items ≡ text.old.items ++ bytes.now) }
{
    text.extend_from_slice(bytes)
}

/// Appends the line of an actor and what it does.
pub fn put_actor_line(
    text: &mut Vec<u8>,
    system: &System,
    actor: u32,
    doing: &[u8],
) -> Result<(), AllocError>
    ensures { OnOk result
        (text.new.items ≡ text.old.items ++ actor_line system.now actor doing.now) }
{
    append(text, "actor   ")?;
    put_name(text, system, actor)?;
    append(text, " (")?;
    put_actor_word(text, system, actor)?;
    append(text, "), before: ")?;
    put_bytes(text, doing)?;
    append(text, "\n")
}

/// Appends the line of an entry with the answer that is due.
pub fn put_due(
    text: &mut Vec<u8>,
    system: &System,
    entry: &Entry,
    outcome: Outcome,
) -> Result<(), AllocError>
    ensures { OnOk result
        (text.new.items ≡ text.old.items ++ due_line system.now entry.now outcome) }
{
    append(text, "due     ")?;
    put_entry(text, system, &Entry { outcome, ..*entry })
}

// Appends that the answer may show another handle, where it shows one.
fn put_handle_line(text: &mut Vec<u8>, rule: Rule) -> Result<(), AllocError>
    ensures { OnOk result (text.new.items ≡ text.old.items ++ handle_line rule) }
{
    match rule {
        Rule::StaleHandle(_) | Rule::OtherHandle(_) => {
            append(text, "        with this handle or any other fresh one\n")
        }
        _ => Ok(()),
    }
}

fn put_due_lines(
    text: &mut Vec<u8>,
    system: &System,
    illegal: &IllegalEntry,
    due: Option<Outcome>,
) -> Result<(), AllocError>
    ensures { OnOk result
        (text.new.items ≡ text.old.items ++ due_lines system.now illegal.now due) }
{
    let Some(outcome) = due else {
        return Ok(());
    };
    put_due(text, system, &illegal.entry, outcome)?;
    put_handle_line(text, illegal.rule)?;
    put_conditions(
        text,
        illegal.entry.call,
        illegal.conditions.as_slice(),
        illegal.is_refused,
    )
}

/// Appends the line of a rule.
pub fn put_rule(text: &mut Vec<u8>, rule: Rule) -> Result<(), AllocError>
    ensures { OnOk result (text.new.items ≡ text.old.items
        ++ joined (codes "rule    " ∷ rule_words rule ∷ codes "\n" ∷ [])) }
{
    append_words(
        text,
        &[
            Word::Text("rule    "),
            Word::Text(rule_words(rule)),
            Word::Text("\n"),
        ],
    )
}

#[tactic(auto, unfolding(crate::specs::WhyText::illegal_text))]
fn put_illegal(
    text: &mut Vec<u8>,
    system: &System,
    illegal: &IllegalEntry,
) -> Result<(), AllocError>
    ensures { OnOk result
        (text.new.items ≡ text.old.items ++ illegal_text system.now illegal.now) }
{
    append_words(
        text,
        &[
            Word::Text("illegal "),
            Word::Number(illegal.place),
            Word::Text("\nentry   "),
        ],
    )?;
    put_entry(text, system, &illegal.entry)?;
    put_actor_line(
        text,
        system,
        illegal.entry.actor.0,
        illegal.doing.as_slice(),
    )?;
    put_rule(text, illegal.rule)?;
    put_due_lines(text, system, illegal, answer_due(illegal.rule))
}

fn put_verdict_due(text: &mut Vec<u8>, due: Option<Verdict>) -> Result<(), AllocError>
    ensures { OnOk result (text.new.items ≡ text.old.items ++ verdict_due_text due) }
{
    match due {
        Some(verdict) => append_words(text, &[Word::Text(verdict_word(verdict)), Word::Text("\n")]),
        None => append(text, "another entry: some actor can go on\n"),
    }
}

#[tactic(auto, unfolding(crate::specs::WhyText::verdict_text))]
fn put_verdict(
    text: &mut Vec<u8>,
    place: u32,
    told: Verdict,
    due: Option<Verdict>,
) -> Result<(), AllocError>
    ensures { OnOk result (text.new.items ≡ text.old.items ++ verdict_text place told due) }
{
    append_words(
        text,
        &[
            Word::Text("illegal "),
            Word::Number(place),
            Word::Text("\nverdict "),
            Word::Text(verdict_word(told)),
            Word::Text("\ndue     "),
        ],
    )?;
    put_verdict_due(text, due)
}

fn put_legal(text: &mut Vec<u8>, count: u32) -> Result<(), AllocError>
    ensures { OnOk result (text.new.items ≡ text.old.items
        ++ joined (codes "legal " ∷ decimal count ∷ codes "\n" ∷ [])) }
{
    append_words(
        text,
        &[Word::Text("legal "), Word::Number(count), Word::Text("\n")],
    )
}

/// The text of how a trace is judged, and why. The only error is want of memory.
pub fn why_text(alloc: Global, system: &System, finding: &Finding) -> Result<Vec<u8>, AllocError>
    ensures { IfOk result (λ text. text.items ≡ why_text system.now finding.now) }
{
    let mut text = Vec::new(alloc);
    match finding {
        Finding::Legal(count) => put_legal(&mut text, *count)?,
        Finding::Entry(illegal) => put_illegal(&mut text, system, illegal)?,
        Finding::Verdict { place, told, due } => put_verdict(&mut text, *place, *told, *due)?,
    }
    Ok(text)
}
