//! When a call is a PROGRAMMER ERROR.
ghost use Rattle.std.specs.Prelude.{◌≡◌, ◌<◌, ◌≤◌, IfOk, List, [], map};
ghost use Rattle.ffm_model.specs.declared.machine.Handle.{Handle as HandleSeen};
ghost use Rattle.ffm_model.specs.Actors.{actor_count};
ghost use Rattle.machine_calls.specs.Machine.{IsMachineOf, spm_of_objects, state_of};
ghost use Rattle.view_places.specs.Conditions.{SayWhen, actor_conditions, conditions_of, told};

use crate::access::memory_conditions;
use crate::client::client_conditions;
use crate::condition::{Condition, marked};
use crate::service::service_conditions;
use crate::signal::signal_conditions;
use crate::transfer::transfer_conditions;
use ffm_model::{ActorId, Call, Group, System, group_of, has_call};
use machine_calls::Machine;
use std::alloc::{AllocError, Global};

// Those of an actor's own end, and of a return.
fn actor_conditions(alloc: Global, call: Call) -> Result<Vec<Condition>, AllocError>
    ensures { IfOk result (λ conditions. map told conditions.items ≡ actor_conditions call) }
{
    match call {
        Call::Panic => Ok(Vec::from_array(alloc, [marked("always", true)])?),
        _ => Ok(Vec::new(alloc)),
    }
}

/// The conditions under which this call of an actor is a PROGRAMMER ERROR, and which of them hold. None at a call that
/// never is one, and where the system has no such actor.
#[tactic(auto, using(crate::proofs::Saying::conditions_say))]
pub fn conditions(
    alloc: Global,
    system: &System,
    machine: &Machine,
    actor: ActorId,
    call: Call,
) -> Result<Vec<Condition>, AllocError>
    requires { IsMachineOf system.now machine.now }
    ensures table { actor.0 < actor_count system.now
        → IfOk result (λ conditions.
        map told conditions.items
        ≡ conditions_of system.now (spm_of_objects machine.now.objects) actor.0 call) }
    ensures say { actor.0 < actor_count system.now → (given : List HandleSeen)
        → IfOk result (λ conditions.
        SayWhen system.now (state_of machine.now given) actor.0 call (map told conditions.items)) }
    ensures none { actor_count system.now ≤ actor.0
        → IfOk result (λ conditions. conditions.items ≡ []) }
{
    if actor.0 >= system.actor_count() {
        return Ok(Vec::new(alloc));
    }
    if !has_call(system.actor_kind(actor), call) {
        let never = marked("the actor's kind doesn't have the call", true);
        return Ok(Vec::from_array(alloc, [never])?);
    }
    match group_of(call) {
        Group::Client => client_conditions(alloc, system, machine, actor, call),
        Group::Service => service_conditions(alloc, system, machine, actor, call),
        Group::Transfer => transfer_conditions(alloc, system, machine, actor, call),
        Group::Signal => signal_conditions(alloc, system, &machine.objects, actor, call),
        Group::Memory => memory_conditions(alloc, system, actor, call),
        Group::Actor => actor_conditions(alloc, call),
    }
}
