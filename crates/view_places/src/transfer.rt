//! The conditions of the calls that move bytes of a request.
ghost use Rattle.std.specs.Prelude.{◌≡◌, IfOk, false, int_le, map, not};
ghost use Rattle.std.specs.Option.{option_map_or};
ghost use Rattle.view_places.specs.Conditions.{buffer_condition, request_conditions, rest_condition, told, transfer_conditions};
ghost use Rattle.ffm_model.specs.ServiceCalls.{output_at};
ghost use Rattle.ffm_model.specs.State.{message_held};
ghost use Rattle.machine_calls.specs.Machine.{IsMachineOf, spm_of_objects};

use crate::condition::{Condition, marked};
use ffm_model::{ActorId, Call, PSA_IPC_CALL, PSA_MAX_IOVEC, PendingMessage, Span, System};
use machine_calls::Machine;
use memory_image::valid_buffer;
use std::alloc::{AllocError, Global};

fn is_no_request(message: &Option<PendingMessage>) -> bool
    ensures { result ≡ option_map_or (λ m. not (int_le PSA_IPC_CALL m.kind)) message.now false }
{
    match message {
        Some(message) => message.kind < PSA_IPC_CALL,
        None => false,
    }
}

// Those of each call that moves bytes of a request.
fn of_request(message: &Option<PendingMessage>, index: u32) -> [Condition; 3]
    ensures { map told result ≡ request_conditions message.now index }
{
    [
        marked("no handle of the caller", message.is_none()),
        marked("the message isn't a request", is_no_request(message)),
        marked("the index is 4 or more", index >= PSA_MAX_IOVEC),
    ]
}

fn of_buffer(system: &System, actor: ActorId, buffer: u32, len: u32) -> Condition
    ensures { told result ≡ buffer_condition system.now actor.0 buffer len }
{
    marked(
        "(buffer, len) is no valid buffer",
        !valid_buffer(system, actor, buffer, len),
    )
}

fn output_at(message: &PendingMessage, index: u32) -> Span
    ensures { result ≡ output_at message.now index }
{
    match message.vectors.output.as_slice().get(index as usize) {
        Some(span) => *span,
        None => Span {
            base: 0,
            len: 0,
            moved: 0,
        },
    }
}

fn of_rest(message: &Option<PendingMessage>, index: u32, len: u32) -> Condition
    ensures { told result ≡ rest_condition message.now index len }
{
    let is_beyond = match message {
        Some(message) => {
            let span = output_at(message, index);
            len > span.len.saturating_sub(span.moved)
        }
        None => false,
    };
    marked("len exceeds the rest of the output vector", is_beyond)
}

/// Those of psa_read, psa_skip and psa_write.
pub fn transfer_conditions(
    alloc: Global,
    system: &System,
    machine: &Machine,
    actor: ActorId,
    call: Call,
) -> Result<Vec<Condition>, AllocError>
    requires { IsMachineOf system.now machine.now }
    ensures { IfOk result (λ conditions.
        map told conditions.items
        ≡ transfer_conditions system.now (spm_of_objects machine.now.objects) actor.0 call) }
{
    match call {
        Call::Read {
            handle,
            index,
            buffer,
            len,
        } => {
            let message = machine.objects.message_held(system, actor.0, handle);
            let [held, request, place] = of_request(&message, index);
            let room = of_buffer(system, actor, buffer, len);
            Ok(Vec::from_array(alloc, [held, request, place, room])?)
        }
        Call::Skip { handle, index, .. } => {
            let message = machine.objects.message_held(system, actor.0, handle);
            Ok(Vec::from_array(alloc, of_request(&message, index))?)
        }
        Call::Write {
            handle,
            index,
            buffer,
            len,
        } => {
            let message = machine.objects.message_held(system, actor.0, handle);
            let [held, request, place] = of_request(&message, index);
            let bytes = of_buffer(system, actor, buffer, len);
            let rest = of_rest(&message, index, len);
            Ok(Vec::from_array(alloc, [held, request, place, bytes, rest])?)
        }
        _ => Ok(Vec::new(alloc)),
    }
}
