//! The texts of what was found.
ghost use Rattle.std.specs.Prelude.{◌≡◌, ◌++◌, IfOk, OnOk, map};
ghost use Rattle.std.specs.Fmt.{decimal};
ghost use Rattle.std.specs.List.{flat_map};
ghost use Rattle.explore_commands.specs.Texts.{between_text, count_text, counted_text, counts_text, extent_text, first_text, first_told, is_short, line_text, missing_line, numbered_text, outcome_line, reach_text, round_text, so_far, sought_text, sums_text, told_text, turns_text, unfinished, unfinished_text};

use crate::targets::Missing;
use explore_runs::{Cut, Extent, FirstOutcome, Found, LineTold, Reach, Sought, Told};
use ffm_model::{ActorId, Memory, System};
use itoa::Buffer;
use std::alloc::{AllocError, Global};
use text_lines::{Word, append, append_number, append_words};
use view_texts::{actor_name, put_outcome};

// Appends the names of actors, each after a blank.
#[tactic(auto, unfolding(crate::specs::Texts::turns_text))]
fn put_turns(text: &mut Vec<u8>, system: &System, turns: &[ActorId]) -> Result<(), AllocError>
    ensures { OnOk result (text.new.items ≡ text.old.items ++ turns_text system.now turns.now) }
{
    for actor in turns {
        append_words(
            text,
            &[Word::Text(" "), Word::Text(actor_name(system, actor.0))],
        )?;
    }
    Ok(())
}

fn put_size(text: &mut Vec<u8>, number: usize) -> Result<(), AllocError>
    ensures { OnOk result (text.new.items ≡ text.old.items ++ decimal number) }
{
    append(text, Buffer::new().format(number))
}

// Appends a number between two texts.
fn put_numbered(
    text: &mut Vec<u8>,
    before: &str,
    number: u32,
    after: &str,
) -> Result<(), AllocError>
    ensures { OnOk result (text.new.items
        ≡ text.old.items ++ numbered_text before.now number after.now) }
{
    append(text, before)?;
    append_number(text, number)?;
    append(text, after)
}

// Appends how many turns there are, and the actors.
#[tactic(auto, unfolding(crate::specs::Texts::first_text))]
fn put_first(text: &mut Vec<u8>, system: &System, turns: &[ActorId]) -> Result<(), AllocError>
    ensures { OnOk result (text.new.items ≡ text.old.items ++ first_text system.now turns.now) }
{
    put_size(text, turns.len())?;
    put_turns(text, system, turns)
}

// Appends turns between two texts.
fn put_between(
    text: &mut Vec<u8>,
    system: &System,
    before: &str,
    turns: &[ActorId],
    after: &str,
) -> Result<(), AllocError>
    ensures { OnOk result (text.new.items
        ≡ text.old.items ++ between_text system.now before.now turns.now after.now) }
{
    append(text, before)?;
    put_first(text, system, turns)?;
    append(text, after)
}

// Appends the turns that lead to where others may be repeated for ever.
#[tactic(auto, unfolding(crate::specs::Texts::round_text))]
fn put_round(
    text: &mut Vec<u8>,
    system: &System,
    to: &[ActorId],
    round: &[ActorId],
) -> Result<(), AllocError>
    ensures { OnOk result (text.new.items
        ≡ text.old.items ++ round_text system.now to.now round.now) }
{
    put_between(text, system, "endless ", to, " then ")?;
    put_between(text, system, "", round, "\ncomplete\n")
}

fn so_far(is_short: bool) -> &'static str
    ensures { result.now ≡ so_far is_short }
{
    if is_short { " so far" } else { "" }
}

// Appends how many there are; where not all is explored it says so.
#[tactic(auto, unfolding(crate::specs::Texts::count_text))]
fn put_count(text: &mut Vec<u8>, name: &str, count: u32, is_short: bool) -> Result<(), AllocError>
    ensures { OnOk result
        (text.new.items ≡ text.old.items ++ count_text name.now count is_short) }
{
    append(text, name)?;
    put_numbered(text, " ", count, so_far(is_short))
}

// Appends the turns that lead to a first one, where there is one.
#[tactic(auto, unfolding(crate::specs::Texts::first_told))]
fn put_first_told(
    text: &mut Vec<u8>,
    system: &System,
    first: &Option<Vec<ActorId>>,
) -> Result<(), AllocError>
    ensures { OnOk result (text.new.items ≡ text.old.items ++ first_told system.now first.now) }
{
    match first {
        Some(turns) => put_between(text, system, " first ", turns.as_slice(), ""),
        None => Ok(()),
    }
}

// Appends the line of what was counted, with the turns that lead to a first one.
fn put_found(
    text: &mut Vec<u8>,
    system: &System,
    name: &str,
    found: &Found,
    is_short: bool,
) -> Result<(), AllocError>
    ensures { OnOk result (text.new.items
        ≡ text.old.items ++ counted_text system.now name.now found.now is_short) }
{
    put_count(text, name, found.count, is_short)?;
    put_first_told(text, system, &found.first)?;
    append(text, "\n")
}

// What stands before up to how many events all is explored, where not all is.
fn unfinished(why: Cut) -> &'static str
    ensures { result.now ≡ unfinished why }
{
    match why {
        Cut::Limit => "unfinished: every schedule of up to ",
        Cut::Memory => "unfinished for want of memory: every schedule of up to ",
    }
}

// Appends up to how many events all is explored, where not all is.
#[tactic(auto, unfolding(crate::specs::Texts::unfinished_text))]
fn put_unfinished(text: &mut Vec<u8>, why: Cut, depth: u32) -> Result<(), AllocError>
    ensures { OnOk result (text.new.items ≡ text.old.items ++ unfinished_text why depth) }
{
    put_numbered(text, unfinished(why), depth, " events was explored\n")
}

// Appends the last lines: how far the interleavings go, and how far they are explored.
#[tactic(auto, unfolding(crate::specs::Texts::extent_text))]
fn put_extent(text: &mut Vec<u8>, system: &System, extent: &Extent) -> Result<(), AllocError>
    ensures { OnOk result (text.new.items ≡ text.old.items ++ extent_text system.now extent.now) }
{
    match extent {
        Extent::Ends { longest } => put_numbered(text, "longest ", *longest, "\ncomplete\n"),
        Extent::Endless { to, round } => put_round(text, system, to.as_slice(), round.as_slice()),
        Extent::Full { to } => put_between(text, system, "full ", to.as_slice(), "\ncomplete\n"),
        Extent::Short { depth, why } => {
            put_numbered(text, "depth ", *depth, "\n")?;
            put_unfinished(text, *why, *depth)
        }
    }
}

fn is_short(extent: &Extent) -> bool
    ensures { result ≡ is_short extent.now }
{
    matches!(extent, Extent::Short { .. })
}

// Appends how many states there are, and events that lead from one to another.
fn put_sums(text: &mut Vec<u8>, told: &Told) -> Result<(), AllocError>
    ensures { OnOk result (text.new.items ≡ text.old.items ++ sums_text told.now) }
{
    put_numbered(text, "states ", told.states, " steps ")?;
    put_size(text, told.steps)?;
    append(text, "\n")
}

// Appends the lines of the states where runs end, and of the panics.
fn put_counts(
    text: &mut Vec<u8>,
    system: &System,
    told: &Told,
    is_short: bool,
) -> Result<(), AllocError>
    ensures { OnOk result (text.new.items
        ≡ text.old.items ++ counts_text system.now told.now is_short) }
{
    put_count(text, "quiet", told.quiet, is_short)?;
    append(text, "\n")?;
    put_found(text, system, "stalled", &told.stalled, is_short)?;
    put_found(text, system, "panics", &told.panics, is_short)
}

fn put_told(text: &mut Vec<u8>, system: &System, told: &Told) -> Result<(), AllocError>
    ensures { OnOk result (text.new.items ≡ text.old.items ++ told_text system.now told.now) }
{
    put_sums(text, told)?;
    put_counts(text, system, told, is_short(&told.extent))?;
    put_extent(text, system, &told.extent)
}

#[tactic(auto, unfolding(crate::specs::Texts::sought_text))]
fn put_sought(text: &mut Vec<u8>, system: &System, sought: &Sought) -> Result<(), AllocError>
    ensures { OnOk result (text.new.items ≡ text.old.items ++ sought_text system.now sought.now) }
{
    match sought {
        Sought::First(turns) => put_between(text, system, "first ", turns.as_slice(), "\n"),
        Sought::Never => append(text, "never\n"),
        Sought::Unknown { depth, why } => {
            append(text, "unknown\n")?;
            put_unfinished(text, *why, *depth)
        }
    }
}

// Appends the line of an outcome, with the turns that lead to it first.
#[tactic(auto, unfolding(crate::specs::Texts::outcome_line))]
fn put_outcome_line(
    text: &mut Vec<u8>,
    system: &System,
    told: &FirstOutcome,
) -> Result<(), AllocError>
    ensures { OnOk result (text.new.items ≡ text.old.items ++ outcome_line system.now told.now) }
{
    put_outcome(text, told.outcome)?;
    put_between(text, system, " first ", told.turns.as_slice(), "\n")
}

// Appends the lines of outcomes.
fn put_outcomes(
    text: &mut Vec<u8>,
    system: &System,
    outcomes: &[FirstOutcome],
) -> Result<(), AllocError>
    ensures { OnOk result (text.new.items
        ≡ text.old.items ++ flat_map (outcome_line system.now) outcomes.now) }
{
    for told in outcomes {
        put_outcome_line(text, system, told)?;
    }
    Ok(())
}

// Appends whether all is explored.
#[tactic(auto, unfolding(crate::specs::Texts::reach_text))]
fn put_reach(text: &mut Vec<u8>, reach: Reach) -> Result<(), AllocError>
    ensures { OnOk result (text.new.items ≡ text.old.items ++ reach_text reach) }
{
    match reach {
        Reach::Whole => append(text, "complete\n"),
        Reach::Short { depth, why } => put_unfinished(text, why, depth),
    }
}

#[tactic(auto, unfolding(crate::specs::Texts::line_text))]
fn put_line(text: &mut Vec<u8>, system: &System, told: &LineTold) -> Result<(), AllocError>
    ensures { OnOk result (text.new.items ≡ text.old.items ++ line_text system.now told.now) }
{
    put_outcomes(text, system, told.outcomes.as_slice())?;
    put_reach(text, told.reach)
}

// The line that something isn't there.
fn missing_line(missing: Missing) -> &'static str
    ensures { result.now ≡ missing_line missing }
{
    match missing {
        Missing::Entry => {
            "no event: it takes an actor, its call and the outcome, in one word, as a trace has them\n"
        }
        Missing::Actor => "no such actor: it takes the name of a partition or a client\n",
        Missing::Line => {
            "no such line: it takes a line that makes a call, counted from 0 with comments and labels\n"
        }
    }
}

/// The text of what is told of all interleavings. `Memory` where memory is wanting.
pub(crate) fn told_text(alloc: Global, system: &System, told: &Told) -> Result<Vec<u8>, Memory>
    ensures { IfOk result (λ text. text.items ≡ told_text system.now told.now) }
{
    let mut text = Vec::new(alloc);
    put_told(&mut text, system, told)?;
    Ok(text)
}

/// The text of what a search for a state came to. `Memory` where memory is wanting.
pub(crate) fn sought_text(
    alloc: Global,
    system: &System,
    sought: &Sought,
) -> Result<Vec<u8>, Memory>
    ensures { IfOk result (λ text. text.items ≡ sought_text system.now sought.now) }
{
    let mut text = Vec::new(alloc);
    put_sought(&mut text, system, sought)?;
    Ok(text)
}

/// The text of what the calls of a line come to. `Memory` where memory is wanting.
pub(crate) fn line_text(alloc: Global, system: &System, told: &LineTold) -> Result<Vec<u8>, Memory>
    ensures { IfOk result (λ text. text.items ≡ line_text system.now told.now) }
{
    let mut text = Vec::new(alloc);
    put_line(&mut text, system, told)?;
    Ok(text)
}

/// The text that something isn't there. `Memory` where memory is wanting.
pub(crate) fn missing_text(alloc: Global, missing: Missing) -> Result<Vec<u8>, Memory>
    ensures { IfOk result (λ text. text.items ≡ missing_line missing) }
{
    Ok(Vec::from_slice(alloc, missing_line(missing).as_bytes())?)
}
