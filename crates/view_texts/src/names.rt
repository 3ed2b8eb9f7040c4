//! The names of a system's actors, services and signals.
ghost use Rattle.std.specs.Prelude.{◌≡◌, ◌++◌, OnOk, map};
ghost use Rattle.ffm_model.specs.Actors.{counts_of};
ghost use Rattle.ffm_model.specs.TraceText.{actor_word};
ghost use Rattle.view_texts.specs.Columns.{widest};
ghost use Rattle.view_texts.specs.Names.{actor_column, actor_name, actor_width, call_of_kind, device_width, name_of_owner, name_width, service_name, service_text};

use crate::columns::{pad, put_left};
use ffm_model::{Name, PSA_IPC_CONNECT, PSA_IPC_DISCONNECT, Partition, Service, Source, System};
use std::alloc::AllocError;
use text_lines::{Word, append, append_words};

/// The name of an actor: a partition's, a client's, or `device`.
#[tactic(auto, unfolding(crate::specs::Names::actor_name))]
pub fn actor_name(system: &System, actor: u32) -> &str
    ensures { result.now ≡ actor_name system.now actor }
{
    let at = actor as usize;
    let partitions = system.partitions.as_slice();
    if at < partitions.len() {
        return partitions[at].name.as_str();
    }
    match system.clients.as_slice().get(at - partitions.len()) {
        Some(name) => name.as_str(),
        None => "device",
    }
}

fn widest_partition(least: usize, partitions: &[Partition]) -> usize
    ensures { result ≡ widest least (map (λ p. p.name) partitions.now) }
{
    let mut width = least;
    for partition in partitions {
        width = width.max(partition.name.as_str().len());
    }
    width
}

fn widest_client(least: usize, clients: &[Name]) -> usize
    ensures { result ≡ widest least clients.now }
{
    let mut width = least;
    for client in clients {
        width = width.max(client.as_str().len());
    }
    width
}

fn widest_service(least: usize, services: &[Service]) -> usize
    ensures { result ≡ widest least (map (λ v. v.name) services.now) }
{
    let mut width = least;
    for service in services {
        width = width.max(service.name.as_str().len());
    }
    width
}

fn device_width(sources: &[Source]) -> usize
    ensures { result ≡ device_width sources.now }
{
    match sources {
        [] => 0,
        [_, ..] => 6,
    }
}

/// How many bytes the longest name of an actor has.
#[tactic(auto, unfolding(crate::specs::Names::actor_width))]
pub fn actor_width(system: &System) -> usize
    ensures { result ≡ actor_width system.now }
{
    let device = device_width(system.sources.as_slice());
    let partitions = widest_partition(device, system.partitions.as_slice());
    widest_client(partitions, system.clients.as_slice())
}

/// How many bytes the longest name of an actor or a service has.
#[tactic(auto, unfolding(crate::specs::Names::name_width))]
pub fn name_width(system: &System) -> usize
    ensures { result ≡ name_width system.now }
{
    widest_service(actor_width(system), system.services.as_slice())
}

/// Appends an actor's word in a trace.
#[tactic(auto, unfolding(ffm_model::specs::TraceText::actor_word))]
pub fn put_actor_word(text: &mut Vec<u8>, system: &System, actor: u32) -> Result<(), AllocError>
    ensures { OnOk result
        (text.new.items ≡ text.old.items ++ actor_word (counts_of system.now) actor) }
{
    let counts = system.counts();
    if actor < counts.partitions {
        append_words(text, &[Word::Text("p"), Word::Number(actor + 1)])
    } else if actor - counts.partitions < counts.clients {
        let place = actor - counts.partitions + 1;
        append_words(text, &[Word::Text("n"), Word::Number(place)])
    } else {
        append(text, "dev")
    }
}

/// Appends an actor's name and spaces, together at least so many bytes, and its word in a trace and spaces,
/// together at least 5 bytes.
#[tactic(auto, unfolding(crate::specs::Names::actor_column, crate::specs::Columns::left))]
pub fn put_actor(
    text: &mut Vec<u8>,
    system: &System,
    actor: u32,
    width: usize,
) -> Result<(), AllocError>
    ensures { OnOk result
        (text.new.items ≡ text.old.items ++ actor_column system.now width actor) }
{
    put_left(text, Word::Text(actor_name(system, actor)), width)?;
    append(text, "  ")?;
    let start = text.len();
    put_actor_word(text, system, actor)?;
    pad(text, start, 3)
}

/// The name of the service at a place.
#[tactic(auto, unfolding(crate::specs::Names::service_name))]
pub fn service_name(system: &System, service: u32) -> &str
    ensures { result.now ≡ service_name system.now service }
{
    match system.services.as_slice().get(service as usize) {
        Some(found) => found.name.as_str(),
        None => "no service",
    }
}

fn put_name_of_owner<'a>(
    text: &mut Vec<u8>,
    name: &'a str,
    owner: &'a str,
) -> Result<(), AllocError>
    ensures { OnOk result (text.new.items ≡ text.old.items ++ name_of_owner name.now owner.now) }
{
    if owner == name {
        return append(text, name);
    }
    append_words(
        text,
        &[Word::Text(name), Word::Text(" of "), Word::Text(owner)],
    )
}

/// Appends a service's name, and its partition's where that is another.
#[tactic(auto, unfolding(crate::specs::Names::service_text))]
pub fn put_service(text: &mut Vec<u8>, system: &System, service: u32) -> Result<(), AllocError>
    ensures { OnOk result (text.new.items ≡ text.old.items ++ service_text system.now service) }
{
    match system.services.as_slice().get(service as usize) {
        Some(found) => put_name_of_owner(
            text,
            found.name.as_str(),
            actor_name(system, found.owner),
        ),
        None => append(text, "no service"),
    }
}

/// The call by which a message of that kind was made.
#[tactic(auto, unfolding(crate::specs::Names::call_of_kind))]
pub fn call_of_kind(kind: i32) -> &'static str
    ensures { result.now ≡ call_of_kind kind }
{
    match kind {
        PSA_IPC_CONNECT => "psa_connect",
        PSA_IPC_DISCONNECT => "psa_close",
        _ => "psa_call",
    }
}
