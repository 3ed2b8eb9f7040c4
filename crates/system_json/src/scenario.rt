//! What a scenario file says.
ghost use Rattle.std.specs.Prelude.{IfOk, IsTrue, [], length};
ghost use Rattle.std.specs.List.{AllByRecursion, list_any};
ghost use Rattle.serde_json.specs.View.{view};
ghost use Rattle.ffm_model.specs.declared.key.Key.TheVariants as key;
ghost use Rattle.ffm_model.specs.Attributes.{list_of, optional};
ghost use Rattle.ffm_model.specs.Memory.{lies_in};
ghost use Rattle.ffm_model.specs.Reading.{Reads};
ghost use Rattle.ffm_model.specs.Scenarios.{bytes_of, scenario_of, scenario_in, IsScenarioOf};
ghost use Rattle.ffm_model.specs.Systems.{stopped};
ghost use Rattle.manifest_json.specs.Gives.{Gives};

use crate::actor_scripts::{ScriptReader, lines_by_actor, order_of};
use crate::actors::TurnReader;
use crate::interrupts::RaiseReader;
use crate::text_bytes::BytesReader;
use ffm_model::{
    Bytes, Key, List, MAX_ENTRIES, MAX_RESTARTS, Place, ReadError, Root, Scenario, System,
};
use manifest_json::{
    ListAfter, PartError, WholeReader, object, optional, optional_list, placed, read_tree,
};
use serde_json::Value;
use std::alloc::Global;

const DEFAULT_EVENTS: u32 = 4096;

/// The bytes that the memory begins with.
fn opening_memory(alloc: Global, system: &System, tree: &Value) -> Result<List<Bytes>, PartError>
    ensures given { Gives result
        (optional (list_of (bytes_of system.now.regions)) [] key.Memory (view tree.now)) }
    ensures kept { IfOk result (AllByRecursion (λ bytes.
        IsTrue (list_any (lies_in bytes.address (length bytes.content)) system.now.regions))) }
{
    let bytes = BytesReader {
        regions: &system.regions,
    };
    optional_list(alloc, bytes, tree, Key::Memory)
}

/// What a scenario file's tree says.
#[tactic(auto, unfolding(ffm_model::specs::Scenarios::scenario_of))]
fn scenario(alloc: Global, system: &System, tree: &Value) -> Result<Scenario, PartError>
    ensures given { Gives result (scenario_of system.now (view tree.now)) }
    ensures kept { IfOk result (IsScenarioOf system.now) }
{
    object(alloc, tree)?;
    let limits = WholeReader {
        least: 1,
        most: MAX_ENTRIES,
    };
    let limit = optional(alloc, &limits, DEFAULT_EVENTS, tree, Key::EventLimit)?;
    let none = List::of(Vec::new(alloc));
    let scripts = ListAfter(ScriptReader { system });
    let scripts = optional(alloc, &scripts, none, tree, Key::Scripts)?;
    let schedule = optional_list(alloc, TurnReader { system }, tree, Key::Schedule)?;
    let raises = optional_list(alloc, RaiseReader { system }, tree, Key::Interrupts)?;
    let memory = opening_memory(alloc, system, tree)?;
    let restarts = WholeReader {
        least: 0,
        most: MAX_RESTARTS,
    };
    let restarts = optional(alloc, &restarts, 0, tree, Key::Restarts)?;
    let order = order_of(alloc, scripts.as_slice())?;
    let lines = lines_by_actor(alloc, system.actor_count(), scripts)?;
    Ok(Scenario {
        limit,
        lines: List::of(lines),
        order: List::of(order),
        schedule,
        raises,
        memory,
        restarts,
    })
}

/// What a scenario file's bytes say to this system, with the defaults filled in.
///
/// `lines` has the scripts of each actor, in actor order: those of the file in its order, up to eight
/// of a non-secure client and one of any other actor, or an empty one where the file gives the actor
/// none. `order` has the actor of each script in the file's order. `raises` has, in the file's order,
/// the place of each interrupt's source among the system's sources, the first one's where two have
/// the name, and the answer of its first-level handler: 1 where the file states none.
///
/// # Errors
///
/// `Refused` exactly where the file is no JSON text, misses an attribute, has a value of a wrong
/// type or a bad value, or names an actor or an interrupt source that the system doesn't have: the
/// first of these in the order of the attributes, with its place. An unknown source is refused as an
/// unknown actor, code 20, at its item; in a system without sources, which has no device, each source
/// is unknown. `Memory` where no memory is found.
pub fn read_scenario(alloc: Global, bytes: &[u8], system: &System) -> Result<Scenario, ReadError>
    ensures given { Reads (λ scenario. scenario) result
        (stopped (scenario_in system.now bytes.now)) }
    ensures kept { IfOk result (IsScenarioOf system.now) }
{
    let place = Place {
        root: Root::Scenario,
        steps: List::of(Vec::new(alloc)),
    };
    let tree = read_tree(alloc, bytes, place)?;
    let read = scenario(alloc, system, &tree);
    placed(Root::Scenario, Vec::new(alloc), read)
}
