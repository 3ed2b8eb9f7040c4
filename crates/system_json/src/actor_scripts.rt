//! The scripts of a scenario file.
ghost use Rattle.std.specs.Prelude.{◌≡◌, ◌<◌, ◌≤◌, IfOk, OnOk, [], length, map, fold, replicate};
ghost use Rattle.std.specs.List.{AllByRecursion};
ghost use Rattle.ffm_model.specs.declared.constants.TheConstants.{MAX_SCRIPT_LINES};
ghost use Rattle.ffm_model.specs.Actors.{actor_count};
ghost use Rattle.ffm_model.specs.Scenarios.{line_of, most_scripts, may_have_another, new_actor_of, script_of, or_empty_script, lines_by_actor};
ghost use Rattle.system_json.specs.Gathering.{with_script};

use crate::actors::actor_named;
use ffm_model::{
    ActorId, ActorKind, BAD_VALUE, Key, Lines, List, MAX_CONTEXTS, MAX_SCRIPT_LINES, Name,
    ScriptItem, System, UNKNOWN_ACTOR, WRONG_TYPE,
};
use manifest_json::{
    ListOf, ListUpTo, NameReader, PartError, Reader, ReaderAfter, object, refused, required,
};
use serde_json::Value;
use std::alloc::{AllocError, Global};
use std::mem;

/// One line of a script.
#[derive(Clone, Copy)]
struct LineReader;

impl Reader for LineReader {
    type Out = Name;

    ghost gives = { λ _. line_of };

    #[tactic(auto, unfolding(ffm_model::specs::Scenarios::line_of))]
    fn read(&self, alloc: Global, tree: &Value) -> Result<Name, PartError> {
        let Some(text) = tree.as_str() else {
            return Err(refused(alloc, WRONG_TYPE));
        };
        Ok(Name::of(String::from_str(alloc, text)?))
    }
}

/// How many scripts an actor may have: a non-secure client one for each of its threads.
fn most_scripts(system: &System, actor: ActorId) -> u32
    requires { actor.0 < actor_count system.now }
    ensures { result ≡ most_scripts system.now actor.0 }
{
    match system.actor_kind(actor) {
        ActorKind::Client => MAX_CONTEXTS,
        ActorKind::Partition | ActorKind::Device => 1,
    }
}

/// Whether an actor has fewer scripts among these than it may have.
fn may_have_another(system: &System, scripts: &[ScriptItem], actor: ActorId) -> bool
    requires { actor.0 < actor_count system.now }
    ensures { result ≡ may_have_another system.now scripts.now actor }
{
    let most = most_scripts(system, actor);
    let own = scripts.iter().filter(|script| script.actor.0 == actor.0);
    own.count() < most as usize
}

/// The name of an actor that may have another script.
#[derive(Clone, Copy)]
struct NewActorReader<'a> {
    system: &'a System,
    scripts: &'a [ScriptItem],
}

impl Reader for NewActorReader<'_> {
    type Out = ActorId;

    ghost gives = { λ r. new_actor_of r.system.now r.scripts.now };

    ghost keeps = { λ r actor. actor.0 < actor_count r.system.now };

    #[tactic(auto, unfolding(ffm_model::specs::Scenarios::new_actor_of))]
    fn read(&self, alloc: Global, tree: &Value) -> Result<ActorId, PartError> {
        let name = NameReader.read(alloc, tree)?;
        let Some(actor) = actor_named(self.system, name.as_str()) else {
            return Err(refused(alloc, UNKNOWN_ACTOR));
        };
        if !may_have_another(self.system, self.scripts, actor) {
            return Err(refused(alloc, BAD_VALUE));
        }
        Ok(actor)
    }
}

/// The script of an actor, after those before it.
#[derive(Clone, Copy)]
pub(crate) struct ScriptReader<'a> {
    pub system: &'a System,
}

impl ReaderAfter for ScriptReader<'_> {
    type Out = ScriptItem;

    ghost gives = { λ r. script_of r.system.now };

    ghost keeps = { λ r script.
        (script.actor.0 < actor_count r.system.now) × (length script.lines ≤ MAX_SCRIPT_LINES) };

    #[tactic(auto, unfolding(ffm_model::specs::Scenarios::script_of))]
    fn read_after(
        &self,
        alloc: Global,
        front: &[ScriptItem],
        tree: &Value,
    ) -> Result<ScriptItem, PartError> {
        object(alloc, tree)?;
        let actors = NewActorReader {
            system: self.system,
            scripts: front,
        };
        let actor = required(alloc, &actors, tree, Key::Actor)?;
        let lines = ListUpTo {
            reader: ListOf(LineReader),
            most: MAX_SCRIPT_LINES as usize,
        };
        let lines = required(alloc, &lines, tree, Key::Lines)?;
        match Lines::of(lines) {
            Some(lines) => Ok(ScriptItem { actor, lines }),
            None => unreachable!(),
        }
    }
}

/// No scripts, for each of so many actors.
fn no_scripts(alloc: Global, count: u32) -> Result<Vec<List<Lines>>, AllocError>
    ensures { IfOk result (λ scripts. scripts.items ≡ replicate count []) }
{
    let mut scripts = Vec::new(alloc);
    for actor in 0..count {
        scripts.push(List::of(Vec::new(alloc)))?;
    }
    Ok(scripts)
}

/// Puts a script after those of its actor.
fn add_script(
    alloc: Global,
    by_actor: &mut Vec<List<Lines>>,
    script: ScriptItem,
) -> Result<(), AllocError>
    requires { script.actor.0 < length by_actor.old.items }
    ensures { OnOk result (by_actor.new.items ≡ with_script by_actor.old.items script) }
{
    let place = script.actor.0 as usize;
    let none = List::of(Vec::new(alloc));
    let mut own = mem::replace(&mut by_actor[place], none).into_vec();
    own.push(script.lines)?;
    by_actor[place] = List::of(own);
    Ok(())
}

/// The scripts of each actor, in order.
fn gathered(
    alloc: Global,
    count: u32,
    scripts: List<ScriptItem>,
) -> Result<Vec<List<Lines>>, AllocError>
    requires { AllByRecursion (λ script. script.actor.0 < count) scripts }
    ensures { IfOk result (λ by_actor.
        by_actor.items ≡ fold with_script (replicate count []) scripts) }
{
    let mut by_actor = no_scripts(alloc, count)?;
    for script in scripts.into_vec() {
        add_script(alloc, &mut by_actor, script)?;
    }
    Ok(by_actor)
}

/// The scripts of an actor: an empty one where the file gives it none.
fn or_empty_script(alloc: Global, scripts: List<Lines>) -> Result<List<Lines>, AllocError>
    ensures { IfOk result (λ own. own ≡ or_empty_script scripts) }
{
    if !scripts.is_empty() {
        return Ok(scripts);
    }
    Ok(List::of(vec![in alloc; Lines::none(alloc)]?))
}

/// The scripts of each actor, by actor.
pub(crate) fn lines_by_actor(
    alloc: Global,
    count: u32,
    scripts: List<ScriptItem>,
) -> Result<Vec<List<Lines>>, AllocError>
    requires { AllByRecursion (λ script. script.actor.0 < count) scripts }
    ensures { IfOk result (λ lines. lines.items ≡ lines_by_actor count scripts) }
{
    let mut lines = Vec::new(alloc);
    for own in gathered(alloc, count, scripts)? {
        lines.push(or_empty_script(alloc, own)?)?;
    }
    Ok(lines)
}

/// The actor of each script, in order.
pub(crate) fn order_of(alloc: Global, scripts: &[ScriptItem]) -> Result<Vec<ActorId>, AllocError>
    ensures { IfOk result (λ order. order.items ≡ map (λ script. script.actor) scripts.now) }
{
    scripts.iter().map(|script| script.actor).collect(alloc)
}
