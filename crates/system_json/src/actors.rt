//! The actors that a scenario file names.
ghost use Rattle.std.specs.Prelude.{◌≡◌, ◌<◌, IfSome, position};
ghost use Rattle.std.specs.Str.{bytes_eq};
ghost use Rattle.ffm_model.specs.Actors.{actor_count};
ghost use Rattle.ffm_model.specs.Scenarios.{actor_named, turn_of};

use ffm_model::{ActorId, Name, Partition, System, UNKNOWN_ACTOR, WRONG_TYPE};
use manifest_json::{PartError, Reader, refused};
use serde_json::Value;
use std::alloc::Global;

fn partition_named(partitions: &[Partition], text: &str) -> Option<usize>
    ensures { result ≡ position (λ p. bytes_eq text.now p.name) partitions.now }
{
    partitions.iter().position(|p| text == p.name.as_str())
}

fn client_named(clients: &[Name], text: &str) -> Option<usize>
    ensures { result ≡ position (bytes_eq text.now) clients.now }
{
    clients.iter().position(|name| text == name.as_str())
}

/// The actor with a name.
#[tactic(auto, using(crate::proofs::Positions::is_partition, crate::proofs::Positions::is_client, crate::proofs::Positions::is_device, crate::proofs::Positions::is_nobody, crate::proofs::Positions::is_no_device, ffm_model::proofs::ActorLemmas::few_partitions, ffm_model::proofs::ActorLemmas::few_clients))]
pub(crate) fn actor_named(system: &System, text: &str) -> Option<ActorId>
    ensures named { result ≡ actor_named system.now text.now }
    ensures kept { IfSome result (λ actor. actor.0 < actor_count system.now) }
{
    let partitions = system.partitions.len() as u32;
    let clients = system.clients.len() as u32;
    if let Some(place) = partition_named(system.partitions.as_slice(), text) {
        return Some(ActorId(place as u32));
    }
    if let Some(place) = client_named(system.clients.as_slice(), text) {
        return Some(ActorId(partitions + place as u32));
    }
    if text == "device" && !system.sources.is_empty() {
        return Some(ActorId(partitions + clients));
    }
    None
}

/// An actor's name, or `device`.
#[derive(Clone, Copy)]
pub(crate) struct TurnReader<'a> {
    pub system: &'a System,
}

impl Reader for TurnReader<'_> {
    type Out = ActorId;

    ghost gives = { λ r. turn_of r.system.now };

    ghost keeps = { λ r actor. actor.0 < actor_count r.system.now };

    #[tactic(auto, unfolding(ffm_model::specs::Scenarios::turn_of))]
    fn read(&self, alloc: Global, tree: &Value) -> Result<ActorId, PartError> {
        let Some(text) = tree.as_str() else {
            return Err(refused(alloc, WRONG_TYPE));
        };
        match actor_named(self.system, text) {
            Some(actor) => Ok(actor),
            None => Err(refused(alloc, UNKNOWN_ACTOR)),
        }
    }
}
