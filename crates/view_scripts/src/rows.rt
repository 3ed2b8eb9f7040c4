//! What is told of the scripts of a scenario: a row for each, and for each context of a client.
ghost use Rattle.std.specs.Prelude.{◌≡◌, ◌<◌, ◌≤◌, ◌^◌, ◌&&◌, ◌++◌, ◌∷◌, [], IfOk, IfSome, OnOk, None, Some, false, if◌then◌else◌, length, map, nat_lt, option_map};
ghost use Rattle.std.specs.List.{AllByRecursion, enumerate_from, flat_map};
ghost use Rattle.ffm_model.specs.Actors.{actor_count};
ghost use Rattle.ffm_model.specs.Scenarios.{IsScenarioOf};
ghost use Rattle.ffm_model.specs.Contexts.{picked_context};
ghost use Rattle.ffm_model.specs.ScriptRuns.{arrived, call_at, only_part};
ghost use Rattle.ffm_model.specs.Scripts.{IsPart};
ghost use Rattle.script_points.specs.Points.{AreContexts};
ghost use Rattle.view_scripts.specs.Rows.{AreRows, AreRowsOf, actor_rows, context_row, engine_rows, has_script, holding_row, is_caller, is_spent, last_row, line_told, numbered_context, part_told, script_rows, told_of};
ghost use Rattle.view_scripts.specs.Standings.{AreShown, IsEngineOf, IsShown};

use crate::lines::{line_of_place, lines_at};
use crate::standing::{End, Standing, standings};
use actor_programs::{Program, programs_of, scripts_of};
use ffm_model::{Call, Entry, List, Memory, Name, Part, ReadError, Scenario, Script, System};
use mm_iovec::Held;
use packed_state::{Contexts, Engine, Holding, Point};
use script_asm::lines_of;
use script_points::{context_at, context_call, contexts_caller, holding_at, holding_call};
use std::alloc::{AllocError, Global};

/// What is told of a script, or of one of several contexts of a client.
#[derive(Drop)]
pub struct ScriptRow {
    pub actor: u32,
    /// Which context it is, where the client has several.
    pub context: Option<NumberedContext>,
    pub told: Told,
}

/// One of several contexts of a client.
#[derive(Clone, Copy)]
pub struct NumberedContext {
    pub number: u32,
    /// Whether it is this one that calls next.
    pub is_next: bool,
}

/// What is told of where a script stands.
#[derive(Drop)]
pub enum Told {
    /// The line, numbered from 0, that makes the next call or waits for its answer.
    Line {
        number: u32,
        text: Name,
        registers: [u32; 16],
        /// Whether the call is its end, since no more of its local lines may run.
        is_spent: bool,
    },
    /// The next call of the functions of an SFN partition.
    Call {
        call: Call,
        registers: [u32; 16],
    },
    Ended(End),
    /// The entry at this place, from 1, is the first whose call isn't the script's.
    Left(u32),
}

// ---- one script, or one context

fn is_spent(call: Call) -> bool
    ensures { result ≡ is_spent call }
{
    matches!(call, Call::Stop { spent: true })
}

fn copied(alloc: Global, name: &Name) -> Result<Name, AllocError>
    ensures { IfOk result (λ made. made ≡ name.now) }
{
    Ok(Name::of(String::from_str(alloc, name.as_str())?))
}

// The line of a script that makes its next call, which is made at this point.
#[tactic(auto, unfolding(crate::specs::Rows::line_told))]
fn line_told(alloc: Global, texts: &[Name], at: &Point, call: Call) -> Result<Told, AllocError>
    requires { length texts.now < 2 ^ 31 }
    ensures { IfOk result (λ told. told ≡ line_told texts.now at.now call) }
{
    let lines = lines_of(alloc, texts)?;
    match line_of_place(&lines, at.place) {
        Some(number) => Ok(Told::Line {
            number: number as u32,
            text: copied(alloc, &texts[number])?,
            registers: at.registers,
            is_spent: is_spent(call),
        }),
        None => Ok(Told::Ended(End::Stopped)),
    }
}

// What a script calls next, which it calls at this point.
fn told_of(
    alloc: Global,
    texts: Option<&[Name]>,
    at: &Point,
    call: Call,
) -> Result<Told, AllocError>
    requires { IfSome texts (λ texts. length texts.now < 2 ^ 31) }
    ensures { IfOk result (λ told.
        told ≡ told_of (option_map (λ texts. texts.now) texts.entry) at.now call) }
{
    match texts {
        Some(texts) => line_told(alloc, texts, at, call),
        None => Ok(Told::Call {
            call,
            registers: at.registers,
        }),
    }
}

// ---- an actor that goes on

#[tactic(auto, unfolding(crate::specs::Rows::holding_row))]
fn holding_row(
    alloc: Global,
    system: &System,
    scenario: &Scenario,
    actor: u32,
    script: &Script,
    holding: &Holding,
) -> Result<ScriptRow, Memory>
    requires { actor < length system.now.partitions }
    ensures { IfOk result (λ row. row
        ≡ holding_row system.now scenario.now actor (only_part script.now) holding.now) }
{
    let mut held = Held::new(system, actor);
    let instructions = script.instructions();
    let at = holding_at(&mut held, holding, instructions)?;
    let call = holding_call(&mut held, holding, instructions)?;
    let texts = lines_at(system, scenario, actor, 0);
    Ok(ScriptRow {
        actor,
        context: None,
        told: told_of(alloc, texts, &at, call)?,
    })
}

fn is_caller(caller: Option<u32>, context: usize) -> bool
    ensures { result ≡ is_caller caller context }
{
    match caller {
        Some(caller) => caller as usize == context,
        None => false,
    }
}

// Which context it is, where its client has several.
fn numbered_context(several: bool, caller: Option<u32>, context: usize) -> Option<NumberedContext>
    requires { context < 2 ^ 32 }
    ensures { result ≡ numbered_context several caller context }
{
    if several {
        Some(NumberedContext {
            number: context as u32,
            is_next: is_caller(caller, context),
        })
    } else {
        None
    }
}

// What a context calls next.
fn part_told(
    alloc: Global,
    texts: Option<&[Name]>,
    part: &Part,
    point: &Point,
) -> Result<Told, Memory>
    requires part { IsPart part.now }
    requires few { IfSome texts (λ texts. length texts.now < 2 ^ 31) }
    ensures { IfOk result (λ told. told ≡ part_told
        (option_map (λ texts. texts.now) texts.entry) part.now point.now) }
{
    let at = context_at(part, point)?;
    Ok(told_of(alloc, texts, &at, context_call(part, point))?)
}

fn push_contexts(
    alloc: Global,
    rows: &mut Vec<ScriptRow>,
    system: &System,
    scenario: &Scenario,
    actor: u32,
    parts: &[Part],
    contexts: &Contexts,
) -> Result<(), Memory>
    requires few { length parts.now ≤ 8 }
    requires fits { AllByRecursion IsPart parts.now }
    requires contexts { AreContexts parts.now contexts.now }
    ensures { OnOk result (rows.new.items ≡ rows.old.items
        ++ map (context_row system.now scenario.now actor parts.now contexts.now)
        (enumerate_from 0 parts.now)) }
{
    let several = parts.len() > 1;
    let caller = contexts_caller(contexts, parts);
    for (k, part) in parts.iter().enumerate() {
        let texts = lines_at(system, scenario, actor, k);
        let context = numbered_context(several, caller, k);
        let told = part_told(alloc, texts, part, &contexts.points[k])?;
        rows.push(ScriptRow {
            actor,
            context,
            told,
        })?;
    }
    Ok(())
}

fn push_engine(
    alloc: Global,
    rows: &mut Vec<ScriptRow>,
    system: &System,
    scenario: &Scenario,
    actor: u32,
    script: &Script,
    engine: &Engine,
) -> Result<(), Memory>
    requires { IsEngineOf system.now actor script.now engine.now }
    ensures { OnOk result (rows.new.items ≡ rows.old.items
        ++ engine_rows system.now scenario.now actor script.now engine.now) }
{
    match engine {
        Engine::Holding(holding) => {
            let row = holding_row(alloc, system, scenario, actor, script, holding)?;
            Ok(rows.push(row)?)
        }
        Engine::Turning(contexts) => {
            let parts = script.parts.as_slice();
            push_contexts(alloc, rows, system, scenario, actor, parts, contexts)
        }
    }
}

// ---- all actors

fn has_script(scenario: &Scenario, actor: u32) -> bool
    ensures { result ≡ has_script scenario.now actor }
{
    scenario
        .order
        .as_slice()
        .iter()
        .any(|named| named.0 == actor)
}

// The row of an actor that calls nothing more by its script.
fn last_row(actor: u32, told: Told) -> ScriptRow
    ensures { result ≡ last_row actor told }
{
    ScriptRow {
        actor,
        context: None,
        told,
    }
}

fn push_standing(
    alloc: Global,
    rows: &mut Vec<ScriptRow>,
    system: &System,
    scenario: &Scenario,
    actor: u32,
    script: &Script,
    standing: &Standing,
) -> Result<(), Memory>
    requires { IsShown system.now actor script.now standing.now }
    ensures { OnOk result (rows.new.items ≡ rows.old.items
        ++ script_rows system.now scenario.now actor script.now standing.now) }
{
    if !has_script(scenario, actor) {
        return Ok(());
    }
    match standing {
        Standing::Follows(engine) => {
            push_engine(alloc, rows, system, scenario, actor, script, engine)
        }
        Standing::Ended(end) => Ok(rows.push(last_row(actor, Told::Ended(*end)))?),
        Standing::Left(place) => Ok(rows.push(last_row(actor, Told::Left(*place)))?),
    }
}

#[tactic(auto, using(ffm_model::proofs::ActorLemmas::actor_count_le))]
fn push_standings(
    alloc: Global,
    rows: &mut Vec<ScriptRow>,
    system: &System,
    scenario: &Scenario,
    scripts: &[Script],
    standings: &[Standing],
) -> Result<(), Memory>
    requires long { length standings.now ≡ length scripts.now }
    requires few { length scripts.now ≤ actor_count system.now }
    requires shown { AreShown system.now scripts.now standings.now }
    ensures { OnOk result (rows.new.items ≡ rows.old.items
        ++ flat_map (actor_rows system.now scenario.now scripts.now)
        (enumerate_from 0 standings.now)) }
{
    for (actor, standing) in standings.iter().enumerate() {
        let script = &scripts[actor];
        push_standing(
            alloc,
            rows,
            system,
            scenario,
            actor as u32,
            script,
            standing,
        )?;
    }
    Ok(())
}

// The rows of the scripts of programs.
fn rows_of(
    alloc: Global,
    system: &System,
    scenario: &Scenario,
    entries: &[Entry],
    programs: List<Program>,
) -> Result<Vec<ScriptRow>, Memory>
    requires programs { length programs ≡ actor_count system.now }
    requires few { length entries.now < 2 ^ 32 }
    ensures { IfOk result (λ rows.
        AreRowsOf system.now scenario.now entries.now programs rows.items) }
{
    let made = scripts_of(alloc, system, programs)?;
    let scripts = made.as_slice();
    let found = standings(alloc, system, scripts, entries)?;
    let mut rows = Vec::new(alloc);
    push_standings(alloc, &mut rows, system, scenario, scripts, &found)?;
    Ok(rows)
}

/// Where the scripts of a scenario stand after these entries: a row for each actor that has a script in
/// the scenario, in the order of the actors, and for a client with several contexts a row for each. None
/// where no actor has a script, or a script has a wrong line. `Memory` where memory is wanting.
pub fn script_rows(
    alloc: Global,
    system: &System,
    scenario: &Scenario,
    entries: &[Entry],
) -> Result<Option<Vec<ScriptRow>>, Memory>
    requires scenario { IsScenarioOf system.now scenario.now }
    requires few { length entries.now < 2 ^ 32 }
    ensures { IfOk result (λ rows. AreRows system.now scenario.now entries.now
        (option_map (λ rows. rows.items) rows)) }
{
    if scenario.order.is_empty() {
        return Ok(None);
    }
    match programs_of(alloc, system, scenario) {
        Ok(programs) => Ok(Some(rows_of(alloc, system, scenario, entries, programs)?)),
        Err(ReadError::Refused(_)) => Ok(None),
        Err(ReadError::Memory) => Err(Memory),
    }
}
