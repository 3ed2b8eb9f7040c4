//! Who an actor is.
ghost use Rattle.std.specs.Prelude.{◌≡◌};
ghost use Rattle.ffm_model.specs.Actors.{client_id_of, is_partition, kind_of};

use ffm_model::System;

/// Whether the actor with this number is a partition: the partitions come first. There may be no such actor.
pub fn is_partition(system: &System, actor: u32) -> bool
    ensures { result ≡ is_partition (kind_of system.now actor) }
{
    (actor as usize) < system.partitions.len()
}

/// An actor's client ID (`psa_msg_t`): a partition's place plus one, -k for the k-th non-secure client, and 0 for any
/// other. There may be no such actor.
#[tactic(auto, using(ffm_model::proofs::ActorLemmas::few_partitions, ffm_model::proofs::ActorLemmas::few_clients))]
pub fn client_id_of(system: &System, actor: u32) -> i32
    ensures { result ≡ client_id_of system.now actor }
{
    let partitions = system.partitions.len();
    let at = actor as usize;
    if at < partitions {
        actor as i32 + 1
    } else if at - partitions < system.clients.len() {
        -1 - (at - partitions) as i32
    } else {
        0
    }
}
