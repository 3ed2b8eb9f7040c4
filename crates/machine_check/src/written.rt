//! Which ranges of addresses an entry may change.
ghost use Rattle.std.specs.Prelude.{◌≡◌, length};
ghost use Rattle.std.specs.Option.{option_map_or};
ghost use Rattle.ffm_model.specs.ServiceCalls.{output_at, request_held};
ghost use Rattle.ffm_model.specs.State.{message_held};
ghost use Rattle.machine_calls.specs.Machine.{spm_of_objects, IsMachineOf};
ghost use Rattle.machine_rules.specs.Vectors.{IsWithin, AreWithin};
ghost use Rattle.memory_image.specs.Pieces.{regions_of};
ghost use Rattle.machine_check.specs.Written.{by_done, by_get, by_read, length_words, next_bytes, nothing, one_range, written, HasFourSizes};

use ffm_model::{
    ActorId, Call, Entry, Handle, Outcome, PSA_IPC_CALL, PendingMessage, Span, System,
};
use machine_calls::Machine;
use memory_image::Image;

/// Ranges of `len` bytes each: the first one begins at `first`, and each other one 8 bytes after the
/// one before.
#[derive(Clone, Copy)]
pub struct Ranges {
    pub first: u32,
    pub len: u32,
    pub times: u32,
}

const NOTHING: Ranges = Ranges {
    first: 0,
    len: 0,
    times: 0,
};

// One range, where it has a byte.
fn one_range(first: u32, len: u32) -> Ranges
    ensures { result ≡ one_range first len }
{
    if len == 0 {
        return NOTHING;
    }
    Ranges {
        first,
        len,
        times: 1,
    }
}

// The next bytes of an output vector, no more than its rest. After its last one there may be no address.
fn next_bytes(memory: &Image, span: &Span, len: u32) -> Ranges
    requires { IsWithin (regions_of memory.now) span.now }
    ensures { result ≡ next_bytes span.now len }
{
    memory.keeps_its_limits();
    let count = len.min(span.len - span.moved);
    if count == 0 {
        return NOTHING;
    }
    one_range(span.base + span.moved, count)
}

// The length words of a request's output vectors, each after its base.
fn length_words(memory: &Image, message: &PendingMessage) -> Ranges
    requires { AreWithin (regions_of memory.now) message.now.vectors }
    ensures { result ≡ length_words message.now }
{
    let count = message.vectors.out_len;
    if message.kind < PSA_IPC_CALL || count == 0 {
        return NOTHING;
    }
    memory.keeps_its_limits();
    Ranges {
        first: message.vectors.out_vec + 4,
        len: 4,
        times: count,
    }
}

// What `psa_get` may change: four words and the sizes.
fn written_by_get(call: Call, in_size: [u32; 4], out_size: [u32; 4]) -> Ranges
    ensures written { result ≡ by_get call }
    ensures sizes { (length in_size ≡ 4) × (length out_size ≡ 4) }
{
    match call {
        Call::Get { msg, .. } => one_range(msg, 4 * (4 + in_size.len() + out_size.len()) as u32),
        _ => NOTHING,
    }
}

// What `psa_read` may change.
fn written_by_read(call: Call, count: u32) -> Ranges
    ensures { result ≡ by_read count call }
{
    match call {
        Call::Read { buffer, .. } => one_range(buffer, count),
        _ => NOTHING,
    }
}

// What `psa_write` may change.
fn written_by_write(
    machine: &Machine,
    system: &System,
    actor: ActorId,
    handle: Handle,
    index: u32,
    len: u32,
) -> Ranges
    requires { IsMachineOf system.now machine.now }
    ensures { result ≡ option_map_or (λ m. next_bytes (output_at m index) len)
        (request_held system.now (spm_of_objects machine.now.objects)
        actor.0 handle index) nothing }
{
    match machine.objects.request_held(system, actor.0, handle, index) {
        Some(message) => {
            next_bytes(
                &machine.memory,
                &message.vectors.output[index as usize],
                len,
            )
        }
        None => NOTHING,
    }
}

// What `psa_reply` may change.
fn written_by_reply(machine: &Machine, system: &System, actor: ActorId, handle: Handle) -> Ranges
    requires { IsMachineOf system.now machine.now }
    ensures { result ≡ option_map_or length_words
        (message_held system.now (spm_of_objects machine.now.objects) actor.0 handle) nothing }
{
    match machine.objects.message_held(system, actor.0, handle) {
        Some(message) => length_words(&machine.memory, &message),
        None => NOTHING,
    }
}

// What a call that is done may change.
fn written_by_done(machine: &Machine, system: &System, actor: ActorId, call: Call) -> Ranges
    requires { IsMachineOf system.now machine.now }
    ensures { result ≡ by_done system.now (spm_of_objects machine.now.objects) actor.0 call }
{
    match call {
        Call::Write {
            handle,
            index,
            len,
            ..
        } => written_by_write(machine, system, actor, handle, index, len),
        Call::Reply { handle, .. } => written_by_reply(machine, system, actor, handle),
        Call::Store { address, size, .. } => one_range(address, size),
        _ => NOTHING,
    }
}

/// The ranges outside of which an entry, where it is a step, changes no byte.
pub fn written(machine: &Machine, system: &System, entry: &Entry) -> Ranges
    requires { IsMachineOf system.now machine.now }
    ensures written { result ≡ written system.now (spm_of_objects machine.now.objects) entry.now }
    ensures sizes { HasFourSizes entry.now.outcome }
{
    match entry.outcome {
        Outcome::Got(message) => written_by_get(entry.call, message.in_size, message.out_size),
        Outcome::Number(count) => written_by_read(entry.call, count),
        Outcome::Done => written_by_done(machine, system, entry.actor, entry.call),
        _ => NOTHING,
    }
}
