//! The delivery of messages.

ghost use Rattle.std.specs.Prelude.{◌≡◌, true, ◌<◌, List, IfOk, IfSome, IsSome, Some, option_and_then, if◌then◌else◌};
ghost use Rattle.std.specs.Option.{option_map_or};
ghost use Rattle.std.specs.Ordering.{int_eq};
ghost use Rattle.law_counting.specs.Objects.{ObjectsFit};
ghost use Rattle.ffm_model.specs.declared.machine.Handle.{Handle as HandleSeen};
ghost use Rattle.ffm_model.specs.Actors.{actor_count};
ghost use Rattle.ffm_model.specs.declared.machine.Call.TheVariants.{Get};
ghost use Rattle.ffm_model.specs.Names.{NamesSoFar, name_due};
ghost use Rattle.ffm_model.specs.ServiceCalls.{shown_message};
ghost use Rattle.ffm_model.specs.State.{State as StateSeen, connection_by_serial, fresh};
ghost use Rattle.handle_table.specs.declared.handles.Family.TheVariants as family;
ghost use Rattle.handle_table.specs.Handles.{handle_at};
ghost use Rattle.memory_image.specs.Pieces.{byte_at, regions_of};
ghost use Rattle.object_pools.specs.Pool.{item_at};
ghost use Rattle.service_calls.specs.Answers.{IsGot};
ghost use Rattle.law_calls.specs.Named.{KeepsNames, NamesAre};
ghost use Rattle.law_calls.specs.Premises.{PremisesWithImage, KeepsVectors};
ghost use Rattle.law_calls.specs.Stands.{Stands};
ghost use Rattle.spm_tables.specs.Answers.{state_with};
ghost use Rattle.spm_tables.specs.TablesView.{message_of, shape_of, spm_of};

use crate::connection::connection_of;
use ffm_model::{ActorId, Fault, Message, PSA_IPC_CONNECT, System};
use handle_table::{Family, handle_of};
use machine_rules::{MESSAGE_SIZE, service_of_signal, sizes_of, words_of};
use memory_image::{Image, valid_buffer};
use object_pools::Slot;
use spm_tables::{QueuedMessage, Tables};

// The rhandle that a message carries: 0 for that of a `psa_connect` or of no connection, else its connection's.
fn rhandle_of(tables: &Tables, slot: Slot, message: QueuedMessage) -> u32
    requires item { item_at tables.now.messages slot ≡ Some message }
    requires there { IfSome message.serial (λ n.
        IsSome (connection_by_serial (spm_of tables.now) n)) }
    ensures { result ≡ (if int_eq message.kind PSA_IPC_CONNECT
        then 0
        else option_map_or (λ c. c.rhandle)
        (option_and_then (connection_by_serial (spm_of tables.now)) message.serial) 0) }
{
    if message.kind == PSA_IPC_CONNECT {
        return 0;
    }
    match connection_of(tables, slot, message) {
        Some(connection) => tables.connections().connection(connection).rhandle,
        None => 0,
    }
}

// What a partition is told of a message that it gets.
fn shown(system: &System, tables: &Tables, slot: Slot, message: QueuedMessage) -> Message
    requires item { item_at tables.now.messages slot ≡ Some message }
    requires there { IfSome message.serial (λ n.
        IsSome (connection_by_serial (spm_of tables.now) n)) }
    requires client { message.client.0 < actor_count system.now }
    ensures { result ≡ shown_message system.now (spm_of tables.now) (message_of slot message)
        (handle_at family.Message slot) }
{
    tables.law();
    Message {
        kind: message.kind,
        handle: handle_of(Family::Message, slot),
        client_id: system.client_id(message.client),
        rhandle: rhandle_of(tables, slot, message),
        in_size: sizes_of(message.vectors.input),
        out_size: sizes_of(message.vectors.output),
    }
}

/// `psa_get`: the oldest message that waits for the service with the signal is delivered, and its 48 bytes are stored at `msg`. They
/// show the rhandle 0 for `psa_connect` and for a request of no connection, and else that of the message's connection.
/// `Fault` exactly where the signal isn't one service's of the partition, no message waits for that service, or the 48 bytes at `msg`
/// aren't a valid buffer of the partition; then nothing changed. The handle is one that no event has shown.
pub fn get(
    system: &System,
    tables: &mut Tables,
    image: &mut Image,
    actor: ActorId,
    signal: u32,
    msg: u32,
) -> Result<Message, Fault>
    requires premises { PremisesWithImage system.now tables.old image.old }
    ensures answer { (given : List HandleSeen)
        → IsGot system.now tables.old given image.old actor.0 signal msg
        result tables.new image.new }
    ensures fresh { IfOk result (λ m.
        (st : StateSeen) → Stands tables.old image.old st → fresh st m.handle ≡ true) }
    ensures name { IfOk result (λ m.
        (k : NamesSoFar) → NamesAre tables.old k → (given : List HandleSeen)
        → name_due system.now (state_with tables.old given (byte_at image.old)) actor.0
        (Get signal msg) k ≡ Some m.handle) }
    ensures fits { ObjectsFit system.now (spm_of tables.new) }
    ensures within { KeepsVectors tables.old tables.new }
    ensures shape { shape_of tables.new ≡ shape_of tables.old }
    ensures regions { regions_of image.new ≡ regions_of image.old }
    ensures takes { tables.new.messages.takes ≡ tables.old.messages.takes }
    ensures names { KeepsNames system.now tables.old tables.new }
{
    tables.law();
    let Some(service) = service_of_signal(system, actor.0, signal) else {
        return Err(Fault);
    };
    if !valid_buffer(system, actor, msg, MESSAGE_SIZE) {
        return Err(Fault);
    }
    let Some(slot) = tables.dequeue(service) else {
        return Err(Fault);
    };
    let message = tables.queued(slot);
    let shown = shown(system, tables, slot, message);
    image.store_words(msg, &words_of(shown));
    Ok(shown)
}
