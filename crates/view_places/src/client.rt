//! The conditions of the calls of clients.
ghost use Rattle.std.specs.Prelude.{◌≡◌, IfOk, false, map};
ghost use Rattle.std.specs.Option.{option_map_or};
ghost use Rattle.view_places.specs.Conditions.{are_arrays_wrong, client_conditions, close_conditions, connect_conditions, connection_closed, connection_named, invoke_conditions, names_own, told};
ghost use Rattle.ffm_model.specs.Actors.{permits};
ghost use Rattle.ffm_model.specs.ClientCalls.{is_busy, refuses_requests};
ghost use Rattle.machine_calls.specs.Machine.{IsMachineOf, spm_of_objects};

use crate::condition::{Condition, marked};
use ffm_model::{
    ActorId, Call, Handle, OpenConnection, PSA_IPC_CALL, PSA_NULL_HANDLE, Sid, System,
};
use machine_calls::{Machine, Objects};
use machine_rules::{
    are_few, is_busy, is_stateless, refuses_requests, stateless_index, takes_version,
};
use memory_image::valid_buffer;
use std::alloc::{AllocError, Global};

fn permits(system: &System, actor: ActorId, service: u32) -> bool
    ensures { result ≡ permits system.now actor.0 service }
{
    system.budget(actor, service).is_some()
}

fn of_connect(system: &System, actor: ActorId, sid: Sid, version: u32) -> [Condition; 4]
    ensures { map told result ≡ connect_conditions system.now actor.0 sid version }
{
    let place = system.service_at(sid);
    let (is_stateless, is_closed, is_misfit) = match place {
        Some(service) => (
            is_stateless(system, service),
            !permits(system, actor, service),
            !takes_version(system, service, version),
        ),
        None => (false, false, false),
    };
    [
        marked("no service has the SID", place.is_none()),
        marked("the service is stateless", is_stateless),
        marked("the caller isn't permitted", is_closed),
        marked("the version doesn't fit", is_misfit),
    ]
}

// The connection that a handle names: a stateless handle names none.
fn connection_named(objects: &Objects, actor: ActorId, handle: Handle) -> Option<OpenConnection>
    ensures { result ≡ connection_named (spm_of_objects objects.now) actor.0 handle }
{
    match stateless_index(handle) {
        Some(_) => None,
        None => objects.connection_held(actor.0, handle),
    }
}

// Whether a handle names a connection of the caller, or a stateless service that it may use.
fn names_own(system: &System, objects: &Objects, actor: ActorId, handle: Handle) -> bool
    ensures { result ≡ names_own system.now (spm_of_objects objects.now) actor.0 handle }
{
    match stateless_index(handle) {
        Some(index) => match system.stateless_at(index) {
            Some(service) => permits(system, actor, service),
            None => false,
        },
        None => objects.connection_held(actor.0, handle).is_some(),
    }
}

// Whether it is one on which no request can be made.
fn is_refusing(connection: Option<OpenConnection>) -> bool
    ensures { result ≡ option_map_or (λ c. refuses_requests c.phase) connection false }
{
    match connection {
        Some(connection) => refuses_requests(connection.phase),
        None => false,
    }
}

// The rules of the vectors but for what their descriptors say.
fn are_arrays_wrong(
    system: &System,
    actor: ActorId,
    inputs: (u32, u32),
    outputs: (u32, u32),
) -> bool
    ensures { result ≡ are_arrays_wrong system.now actor.0 inputs.0 inputs.1 outputs.0 outputs.1 }
{
    let (in_vec, in_len) = inputs;
    let (out_vec, out_len) = outputs;
    if !are_few(in_len, out_len) {
        return true;
    }
    !valid_buffer(system, actor, in_vec, 8 * in_len)
        || !valid_buffer(system, actor, out_vec, 8 * out_len)
}

fn of_invoke(
    system: &System,
    objects: &Objects,
    actor: ActorId,
    handle: Handle,
    kind: i32,
    are_wrong: bool,
) -> [Condition; 4]
    ensures { map told result
        ≡ invoke_conditions system.now (spm_of_objects objects.now) actor.0 handle kind are_wrong }
{
    let connection = connection_named(objects, actor, handle);
    [
        marked(
            "neither a handle of the caller nor a stateless handle of the caller",
            !names_own(system, objects, actor, handle),
        ),
        marked("the connection is Busy or Error", is_refusing(connection)),
        marked("the kind is negative", kind < PSA_IPC_CALL),
        Condition {
            words: "a rule of the vectors is broken",
            holds: if are_wrong { Some(true) } else { None },
        },
    ]
}

// The connection that a handle names at psa_close: handle 0 names none.
fn connection_closed(objects: &Objects, actor: ActorId, handle: Handle) -> Option<OpenConnection>
    ensures { result ≡ connection_closed (spm_of_objects objects.now) actor.0 handle }
{
    if handle.0 == PSA_NULL_HANDLE {
        None
    } else {
        objects.connection_held(actor.0, handle)
    }
}

// Whether it is one on which a request is on its way.
fn has_request(connection: Option<OpenConnection>) -> bool
    ensures { result ≡ option_map_or (λ c. is_busy c.phase) connection false }
{
    match connection {
        Some(connection) => is_busy(connection.phase),
        None => false,
    }
}

fn of_close(objects: &Objects, actor: ActorId, handle: Handle) -> [Condition; 2]
    ensures { map told result ≡ close_conditions (spm_of_objects objects.now) actor.0 handle }
{
    let connection = connection_closed(objects, actor, handle);
    [
        marked(
            "neither handle 0 nor a handle of the caller",
            handle.0 != PSA_NULL_HANDLE && connection.is_none(),
        ),
        marked("the connection is Busy", has_request(connection)),
    ]
}

/// Those of a call of `psa/client.h`.
pub fn client_conditions(
    alloc: Global,
    system: &System,
    machine: &Machine,
    actor: ActorId,
    call: Call,
) -> Result<Vec<Condition>, AllocError>
    requires { IsMachineOf system.now machine.now }
    ensures { IfOk result (λ conditions.
        map told conditions.items
        ≡ client_conditions system.now (spm_of_objects machine.now.objects) actor.0 call) }
{
    let objects = &machine.objects;
    match call {
        Call::Connect { sid, version } => {
            Ok(Vec::from_array(alloc, of_connect(system, actor, sid, version))?)
        }
        Call::Invoke {
            handle,
            kind,
            in_vec,
            in_len,
            out_vec,
            out_len,
        } => {
            let inputs = (in_vec, in_len);
            let are_wrong = are_arrays_wrong(system, actor, inputs, (out_vec, out_len));
            let conditions = of_invoke(system, objects, actor, handle, kind, are_wrong);
            Ok(Vec::from_array(alloc, conditions)?)
        }
        Call::Close { handle } => Ok(Vec::from_array(alloc, of_close(objects, actor, handle))?),
        _ => Ok(Vec::new(alloc)),
    }
}
