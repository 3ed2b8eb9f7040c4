//! What a question is after: what its words name.
ghost use Rattle.std.specs.Prelude.{◌≡◌, ◌≤◌, IfOk, MatchOption, count_by, length, option_map};
ghost use Rattle.ffm_model.specs.declared.machine.ActorId.{ActorId as ActorSeen};
ghost use Rattle.script_asm.specs.Views.{line_view, lines_view};
ghost use Rattle.script_asm.specs.Lines.{lines_of};
ghost use Rattle.sfn_calls.specs.Partitions.{is_sfn};
ghost use Rattle.explore_commands.specs.Targets.{IsActorNamed, IsEntryTarget, IsLineTarget, IsTarget, instruction_at, instruction_place, is_call, is_order, makes_call, place_of, texts_of};

use explore_runs::Aim;
use explore_steps::ScriptPlace;
use ffm_model::{ActorId, Entry, Instruction, Lines, Memory, Scenario, Script, System};
use program_words::entry_of;
use program_words::explore::{Question, ScriptLine};
use script_asm::{Line, lines_of};
use std::alloc::Global;
use view_texts::actor_name;

/// Where an instruction stands: in a script of an actor.
#[derive(Clone, Copy)]
pub struct LinePlace {
    pub actor: ActorId,
    pub at: ScriptPlace,
}

/// What a question names and isn't there.
#[derive(Clone, Copy)]
pub enum Missing {
    /// An event, by its line in a trace.
    Entry,
    /// An actor.
    Actor,
    /// A line that makes a call.
    Line,
}

/// What a question is after.
#[derive(Clone, Copy)]
pub enum Target {
    /// All states.
    All,
    /// A state.
    State(Aim),
    /// An event.
    Entry(Entry),
    /// The outcomes of a line.
    Line(LinePlace),
    /// Nothing, since something isn't there.
    Nothing(Missing),
}

// The actor with a name.
fn actor_named(system: &System, name: &str) -> Option<ActorId>
    ensures { MatchOption result
        ((a : ActorSeen) → IsActorNamed system.now name.now a → ⊥)
        (IsActorNamed system.now name.now) }
{
    'actors: for actor in 0..system.actor_count() {
        if actor_name(system, actor) == name {
            return Some(ActorId(actor));
        }
    }
    None
}

fn is_order(line: &Line<'_>) -> bool
    ensures { result ≡ is_order (line_view line.now) }
{
    matches!(line, Line::Order(_))
}

// How many of these lines make an instruction.
fn order_count(lines: &[Line<'_>]) -> usize
    ensures count { result ≡ count_by is_order (lines_view lines.now) }
    ensures few { result ≤ length lines.now }
{
    lines.iter().filter(|line| is_order(line)).count()
}

// How many instructions stand before a line that makes one.
#[tactic(auto, using(crate::proofs::Places::beyond, crate::proofs::Places::passed, crate::proofs::Places::placed))]
fn place_of(lines: &[Line<'_>], line: u32) -> Option<u32>
    ensures { result ≡ place_of (lines_view lines.now) line }
{
    let at = line as usize;
    if at >= lines.len() {
        return None;
    }
    if !is_order(&lines[at]) {
        return None;
    }
    Some(order_count(&lines[..at]) as u32)
}

// The lines of one of an actor's scripts.
fn texts_of(scenario: &Scenario, actor: ActorId, context: u32) -> Option<&Lines>
    ensures { option_map (λ l. l.now) result ≡ texts_of scenario.now actor.0 context }
{
    let own = scenario.lines.as_slice().get(actor.0 as usize)?;
    own.as_slice().get(context as usize)
}

// The instruction at a place of a script.
fn instruction_at(scripts: &[Script], actor: ActorId, at: ScriptPlace) -> Option<Instruction>
    ensures { result ≡ instruction_at scripts.now actor.0 at }
{
    let script = scripts.get(actor.0 as usize)?;
    let part = script.parts.as_slice().get(at.context as usize)?;
    part.instructions.as_slice().get(at.place as usize).copied()
}

fn is_call(instruction: Instruction) -> bool
    ensures { result ≡ is_call instruction }
{
    matches!(
        instruction,
        Instruction::Make { .. } | Instruction::Map { .. }
    )
}

fn is_sfn(system: &System, actor: ActorId) -> bool
    ensures { result ≡ is_sfn system.now actor.0 }
{
    match system.partitions.as_slice().get(actor.0 as usize) {
        Some(partition) => partition.sfn,
        None => false,
    }
}

// Where the instruction of a line stands, in a script that has no functions.
fn instruction_place(
    alloc: Global,
    system: &System,
    scenario: &Scenario,
    actor: ActorId,
    line: ScriptLine<'_>,
) -> Result<Option<ScriptPlace>, Memory>
    ensures { IfOk result (λ at.
        at ≡ instruction_place system.now scenario.now actor.0 line.entry) }
{
    if is_sfn(system, actor) {
        return Ok(None);
    }
    let context = line.context;
    let Some(texts) = texts_of(scenario, actor, context) else {
        return Ok(None);
    };
    let lines = lines_of(alloc, texts.as_slice())?;
    match place_of(lines.as_slice(), line.line) {
        Some(place) => Ok(Some(ScriptPlace { context, place })),
        None => Ok(None),
    }
}

// Whether the instruction at a place of a script makes a call.
fn makes_call(scripts: &[Script], actor: ActorId, at: ScriptPlace) -> bool
    ensures { result ≡ makes_call scripts.now actor.0 at }
{
    match instruction_at(scripts, actor, at) {
        Some(instruction) => is_call(instruction),
        None => false,
    }
}

// What a question is after that asks for a line.
fn line_target(
    alloc: Global,
    system: &System,
    scenario: &Scenario,
    scripts: &[Script],
    line: ScriptLine<'_>,
) -> Result<Target, Memory>
    ensures { IfOk result (IsLineTarget system.now scenario.now scripts.now line.entry) }
{
    let Some(actor) = actor_named(system, line.actor) else {
        return Ok(Target::Nothing(Missing::Actor));
    };
    match instruction_place(alloc, system, scenario, actor, line)? {
        Some(at) if makes_call(scripts, actor, at) => Ok(Target::Line(LinePlace { actor, at })),
        _ => Ok(Target::Nothing(Missing::Line)),
    }
}

// What a question is after that asks for an event.
fn entry_target(alloc: Global, system: &System, line: &str) -> Result<Target, Memory>
    ensures { IfOk result (IsEntryTarget system.now line.now) }
{
    match entry_of(alloc, system, line)? {
        Some(entry) => Ok(Target::Entry(entry)),
        None => Ok(Target::Nothing(Missing::Entry)),
    }
}

/// What a question is after, over a system and the scripts of a scenario's programs. `Memory` where
/// memory is wanting.
pub(crate) fn target_of(
    alloc: Global,
    system: &System,
    scenario: &Scenario,
    scripts: &[Script],
    question: Question<'_>,
) -> Result<Target, Memory>
    ensures { IfOk result (IsTarget system.now scenario.now scripts.now question.entry) }
{
    match question {
        Question::All => Ok(Target::All),
        Question::Stall => Ok(Target::State(Aim::Stall)),
        Question::Panic => Ok(Target::State(Aim::Panic)),
        Question::Entry(line) => entry_target(alloc, system, line),
        Question::Line(line) => line_target(alloc, system, scenario, scripts, line),
    }
}
