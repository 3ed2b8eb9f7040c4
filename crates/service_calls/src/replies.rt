//! Replies to messages, and the rhandles of their connections.

ghost use Rattle.std.specs.Prelude.{◌≡◌, ◌<◌, ◌&&◌, length, IsSome, IfSome, IfOk, List, Some, None, option_and_then, if◌then◌else◌, int_lt, take};
ghost use Rattle.std.specs.Option.{option_map, option_map_or};
ghost use Rattle.std.specs.Ordering.{int_eq};
ghost use Rattle.law_counting.specs.Objects.{ObjectsFit};
ghost use Rattle.ffm_model.specs.declared.machine.Handle.{Handle as HandleSeen};
ghost use Rattle.ffm_model.specs.declared.machine.Outcome.TheVariants.{Done};
ghost use Rattle.ffm_model.specs.declared.system.System.{System as SystemSeen};
ghost use Rattle.ffm_model.specs.Actors.{is_partition, kind_of};
ghost use Rattle.ffm_model.specs.ClientCalls.{effect};
ghost use Rattle.ffm_model.specs.Memory.{lengths_written};
ghost use Rattle.ffm_model.specs.ServiceCalls.{answered, close_answered, connect_answered, owes_panic, psa_reply, psa_set_rhandle, reply_to, request_answered, with_request_phase};
ghost use Rattle.law_calls.specs.Replies.{reply_on};
ghost use Rattle.ffm_model.specs.State.{with_phase};
ghost use Rattle.memory_image.specs.Pieces.{byte_at, regions_of};
ghost use Rattle.machine_rules.specs.Vectors.{AreWithin};
ghost use Rattle.object_pools.specs.Pool.{item_at};
ghost use Rattle.service_calls.specs.Answers.{LeavesReply, once_panicked};
ghost use Rattle.service_calls.specs.Connections.{ChangesAt, ChangesWhere, IsConnectionOf, IsLinkOf};
ghost use Rattle.law_calls.specs.Named.{KeepsNames};
ghost use Rattle.law_calls.specs.Premises.{Premises, PremisesWithMemory, KeepsVectors, KeepsFit, VectorsLie};
ghost use Rattle.spm_tables.specs.Answers.{Answers, state_with};
ghost use Rattle.spm_tables.specs.declared.item.QueuedMessage.{QueuedMessage as QueuedSeen};
ghost use Rattle.spm_tables.specs.TablesView.{MadeFor, fresh_message, message_at, shape_of, spm_of};

use crate::connection::connection_of;
use ffm_model::{
    ActorId, ActorPhase, ConnPhase, Fault, Handle, Outcome, PSA_ERROR_PROGRAMMER_ERROR,
    PSA_IPC_CALL, PSA_IPC_CONNECT, PSA_SUCCESS, Status, System,
};
use machine_rules::{is_connect_status, is_partition};
use memory_image::Image;
use object_pools::Slot;
use spm_tables::{QueuedMessage, Tables};

/// `psa_set_rhandle`: the connection of a message that the partition holds has the rhandle from now on. `Fault` exactly where the
/// handle isn't that of such a message, or the message is of no connection; then nothing changed.
pub fn set_rhandle(
    tables: &mut Tables,
    actor: ActorId,
    handle: Handle,
    rhandle: u32,
) -> Result<(), Fault>
    requires premises { (s : SystemSeen) × Premises s tables.old }
    ensures answer { (s : SystemSeen) → MadeFor tables.old s
        → Answers (λ u. Done) (psa_set_rhandle s (spm_of tables.old) actor.0 handle rhandle)
        tables.old result tables.new }
    ensures shape { shape_of tables.new ≡ shape_of tables.old }
    ensures takes { tables.new.messages.takes ≡ tables.old.messages.takes }
    ensures names { (s : SystemSeen) → MadeFor tables.old s → KeepsNames s tables.old tables.new }
    ensures fits { KeepsFit tables.old tables.new }
    ensures within { KeepsVectors tables.old tables.new }
{
    tables.law();
    let Some(slot) = tables.find_message(actor, handle) else {
        return Err(Fault);
    };
    let message = tables.queued(slot);
    let Some(connection) = connection_of(tables, slot, message) else {
        return Err(Fault);
    };
    tables.set_rhandle(connection, rhandle);
    Ok(())
}

// The message that the partition holds by the handle, where it may be answered so.
fn answerable(tables: &Tables, actor: ActorId, handle: Handle, status: Status) -> Option<Slot>
    ensures message { (s : SystemSeen) → MadeFor tables.now s
        → option_and_then (message_at tables.now) result
        ≡ reply_to s (spm_of tables.now) actor.0 handle status.0 }
    ensures live { IfSome result (λ slot. IsSome (item_at tables.now.messages slot)) }
{
    let Some(slot) = tables.find_message(actor, handle) else {
        return None;
    };
    if tables.queued(slot).kind == PSA_IPC_CONNECT && !is_connect_status(status.0) {
        None
    } else {
        Some(slot)
    }
}

// Tells the client of a request how many bytes were written of its output vectors.
fn tell_lengths(image: &mut Image, message: QueuedMessage)
    requires { AreWithin (regions_of image.old) message.vectors }
    ensures bytes { byte_at image.new ≡ (if int_lt message.kind PSA_IPC_CALL
        then byte_at image.old
        else lengths_written (byte_at image.old) message.vectors.out_vec
        (take message.vectors.out_len message.vectors.output)) }
    ensures regions { regions_of image.new ≡ regions_of image.old }
{
    if message.kind >= PSA_IPC_CALL {
        message_vectors::finish(image, &message.vectors);
    }
}

fn answer_connect(tables: &mut Tables, connection: Slot, message: QueuedMessage, status: Status)
    requires connection { IsConnectionOf tables.old.connections message connection }
    ensures state { spm_of tables.new ≡ option_map_or (λ n.
        connect_answered (spm_of tables.old) n (fresh_message message) status.0)
        message.serial (spm_of tables.old) }
    ensures connections { ChangesAt connection tables.old.connections tables.new.connections }
    ensures messages { tables.new.messages ≡ tables.old.messages }
    ensures shape { shape_of tables.new ≡ shape_of tables.old }
{
    if status.0 == PSA_SUCCESS {
        let serial = tables.connections().connection(connection).serial;
        tables.set_connection_phase(connection, ConnPhase::Idle);
        tables.set_phase(message.client, ActorPhase::Connected(serial));
    } else {
        tables.free(connection);
        tables.set_phase(message.client, ActorPhase::Ready(Outcome::Value(status.0)));
    }
}

fn answer_close(tables: &mut Tables, connection: Slot, message: QueuedMessage)
    requires connection { IsConnectionOf tables.old.connections message connection }
    ensures state { spm_of tables.new
        ≡ option_map_or (λ n. close_answered (spm_of tables.old) n (fresh_message message))
        message.serial (spm_of tables.old) }
    ensures connections { ChangesAt connection tables.old.connections tables.new.connections }
    ensures messages { tables.new.messages ≡ tables.old.messages }
    ensures shape { shape_of tables.new ≡ shape_of tables.old }
{
    tables.free(connection);
    if let ActorPhase::Blocked = tables.phase(message.client) {
        tables.set_phase(message.client, ActorPhase::Ready(Outcome::Done));
    }
}

// The connection of a request, where it has one, gets the phase.
fn set_request_phase(tables: &mut Tables, connection: Option<Slot>, phase: ConnPhase)
    requires live { IfSome connection (λ slot. IsSome (item_at tables.old.connections slot)) }
    ensures state { (m : QueuedSeen) → IsLinkOf tables.old.connections m connection
        → spm_of tables.new ≡ with_request_phase (spm_of tables.old) (fresh_message m) phase }
    ensures connections { ChangesWhere connection tables.old.connections tables.new.connections }
    ensures messages { tables.new.messages ≡ tables.old.messages }
    ensures shape { shape_of tables.new ≡ shape_of tables.old }
{
    if let Some(slot) = connection {
        tables.set_connection_phase(slot, phase);
    }
}

// The partition that has to panic, if one has.
fn answer_request(
    system: &System,
    tables: &mut Tables,
    connection: Option<Slot>,
    message: QueuedMessage,
    status: Status,
) -> Option<ActorId>
    requires connection { IsLinkOf tables.old.connections message connection }
    ensures state { spm_of tables.new
        ≡ request_answered system.now (spm_of tables.old) (fresh_message message) status.0 }
    ensures owing { option_map (λ p. p.0) result
        ≡ (if int_eq status.0 PSA_ERROR_PROGRAMMER_ERROR
        && is_partition (kind_of system.now message.client.0)
        then Some message.client.0 else None) }
    ensures connections { ChangesWhere connection tables.old.connections tables.new.connections }
    ensures messages { tables.new.messages ≡ tables.old.messages }
    ensures shape { shape_of tables.new ≡ shape_of tables.old }
{
    if status.0 != PSA_ERROR_PROGRAMMER_ERROR {
        set_request_phase(tables, connection, ConnPhase::Idle);
        tables.set_phase(message.client, ActorPhase::Ready(Outcome::Value(status.0)));
        return None;
    }
    set_request_phase(tables, connection, ConnPhase::Error);
    if is_partition(system, message.client.0) {
        return Some(message.client);
    }
    tables.set_phase(
        message.client,
        ActorPhase::Ready(Outcome::Value(PSA_ERROR_PROGRAMMER_ERROR)),
    );
    None
}

// Answers the client of a message that is gone; the partition that has to panic, if one has.
fn answer(
    system: &System,
    tables: &mut Tables,
    connection: Option<Slot>,
    message: QueuedMessage,
    status: Status,
) -> Option<ActorId>
    requires connection { IsLinkOf tables.old.connections message connection }
    ensures state { spm_of tables.new
        ≡ answered system.now (spm_of tables.old) (fresh_message message) status.0 }
    ensures owing { option_map (λ p. p.0) result
        ≡ (if owes_panic system.now (fresh_message message) status.0
        then Some message.client.0 else None) }
    ensures connections { ChangesWhere connection tables.old.connections tables.new.connections }
    ensures messages { tables.new.messages ≡ tables.old.messages }
    ensures shape { shape_of tables.new ≡ shape_of tables.old }
{
    if message.kind >= PSA_IPC_CALL {
        return answer_request(system, tables, connection, message, status);
    }
    // Only a request can be of no connection.
    let Some(connection) = connection else {
        return None;
    };
    if message.kind == PSA_IPC_CONNECT {
        answer_connect(tables, connection, message, status);
    } else {
        answer_close(tables, connection, message);
    }
    None
}

/// `psa_reply`: the message is gone, and its client is answered; that of a request, on a connection or not, is told how many bytes were
/// written of each output vector. Some(client) exactly where a partition's request was answered with PROGRAMMER ERROR: the caller then
/// makes that partition panic. `Fault` exactly where the handle isn't that of a message that the partition holds, or the status is none for `psa_connect`;
/// then nothing changed.
pub fn reply(
    system: &System,
    tables: &mut Tables,
    image: &mut Image,
    actor: ActorId,
    handle: Handle,
    status: Status,
) -> Result<Option<ActorId>, Fault>
    requires premises { PremisesWithMemory system.now tables.old image.old }
    ensures left { LeavesReply (reply_on system.now (spm_of tables.old) actor.0 handle status.0)
        tables.old image.old result tables.new image.new }
    ensures answer { IfOk result (λ owing.
        (given : List HandleSeen)
        → psa_reply system.now (state_with tables.old given (byte_at image.old))
        actor.0 handle status.0
        ≡ Some (effect Done (record {
          spm = once_panicked system.now (spm_of tables.new) owing;
          handles_given = given;
          memory = byte_at image.new;
        }))) }
    ensures settled { IfOk result (λ owing.
        owing ≡ None → ObjectsFit system.now (spm_of tables.new)) }
    ensures owed { IfOk result (λ owing.
        IfSome owing (λ p.
        ObjectsFit system.now (with_phase (spm_of tables.new) p.0 ActorPhase.Running))) }
    ensures partition { IfOk result (λ owing.
        IfSome owing (λ p. p.0 < length system.now.partitions)) }
    ensures shape { shape_of tables.new ≡ shape_of tables.old }
    ensures regions { regions_of image.new ≡ regions_of image.old }
    ensures vectors { VectorsLie tables.new image.new }
    ensures takes { tables.new.messages.takes ≡ tables.old.messages.takes }
    ensures names { KeepsNames system.now tables.old tables.new }
{
    tables.law();
    let Some(slot) = answerable(tables, actor, handle, status) else {
        return Err(Fault);
    };
    let message = tables.queued(slot);
    let connection = connection_of(tables, slot, message);
    tell_lengths(image, message);
    tables.drop_message(slot);
    Ok(answer(system, tables, connection, message, status))
}
