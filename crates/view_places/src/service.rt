//! The conditions of the calls by which a partition takes and answers messages.
ghost use Rattle.std.specs.Prelude.{◌≡◌, IfOk, map};
ghost use Rattle.view_places.specs.Conditions.{get_conditions, reply_conditions, service_conditions, set_rhandle_conditions, told, wait_conditions};
ghost use Rattle.machine_calls.specs.Machine.{IsMachineOf, spm_of_objects};

use crate::condition::{Condition, marked};
use ffm_model::{ActorId, Call, PSA_IPC_CONNECT, PendingMessage, Status, System};
use machine_calls::Machine;
use machine_rules::{MESSAGE_SIZE, assigned_to, is_connect_status, service_of_signal};
use memory_image::valid_buffer;
use std::alloc::{AllocError, Global};

fn of_wait(system: &System, actor: ActorId, mask: u32) -> [Condition; 1]
    ensures { map told result ≡ wait_conditions system.now actor.0 mask }
{
    [marked(
        "the mask has no signal that the caller has at all",
        assigned_to(system, actor.0) & mask == 0,
    )]
}

fn of_get(
    system: &System,
    machine: &Machine,
    actor: ActorId,
    signal: u32,
    msg: u32,
) -> [Condition; 3]
    requires { IsMachineOf system.now machine.now }
    ensures { map told result
        ≡ get_conditions system.now (spm_of_objects machine.now.objects) actor.0 signal msg }
{
    let service = service_of_signal(system, actor.0, signal);
    let is_empty = match service {
        Some(place) => machine.objects.first_undelivered(place).is_none(),
        None => false,
    };
    [
        marked(
            "the word isn't the signal of one of the caller's services",
            service.is_none(),
        ),
        marked("no message waits for that service", is_empty),
        marked(
            "the 48 bytes at msg are no valid buffer",
            !valid_buffer(system, actor, msg, MESSAGE_SIZE),
        ),
    ]
}

fn of_set_rhandle(message: &Option<PendingMessage>) -> [Condition; 2]
    ensures { map told result ≡ set_rhandle_conditions message.now }
{
    let is_without = match message {
        Some(message) => message.connection.is_none(),
        None => false,
    };
    [
        marked("no handle of the caller", message.is_none()),
        marked("the message has no connection", is_without),
    ]
}

fn of_reply(message: &Option<PendingMessage>, status: Status) -> [Condition; 2]
    ensures { map told result ≡ reply_conditions message.now status.0 }
{
    let is_misfit = match message {
        Some(message) => message.kind == PSA_IPC_CONNECT && !is_connect_status(status.0),
        None => false,
    };
    [
        marked("no handle of the caller", message.is_none()),
        marked(
            "at a message of kind -1, a status other than 0, -130, -131",
            is_misfit,
        ),
    ]
}

/// Those of psa_wait, psa_get, psa_set_rhandle and psa_reply.
pub fn service_conditions(
    alloc: Global,
    system: &System,
    machine: &Machine,
    actor: ActorId,
    call: Call,
) -> Result<Vec<Condition>, AllocError>
    requires { IsMachineOf system.now machine.now }
    ensures { IfOk result (λ conditions.
        map told conditions.items
        ≡ service_conditions system.now (spm_of_objects machine.now.objects) actor.0 call) }
{
    match call {
        Call::Wait { mask, .. } => Ok(Vec::from_array(alloc, of_wait(system, actor, mask))?),
        Call::Get { signal, msg } => {
            Ok(Vec::from_array(alloc, of_get(system, machine, actor, signal, msg))?)
        }
        Call::SetRhandle { handle, .. } => {
            let message = machine.objects.message_held(system, actor.0, handle);
            Ok(Vec::from_array(alloc, of_set_rhandle(&message))?)
        }
        Call::Reply { handle, status } => {
            let message = machine.objects.message_held(system, actor.0, handle);
            Ok(Vec::from_array(alloc, of_reply(&message, status))?)
        }
        _ => Ok(Vec::new(alloc)),
    }
}
