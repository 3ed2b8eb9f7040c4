//! A partition that panicked, as a client.

ghost use Rattle.std.specs.Prelude.{◌≡◌, ◌<◌, ◌≤◌, ◌+◌, ◌++◌, List, length, false, All, Some};
ghost use Rattle.ffm_model.specs.Panic.{disconnect_message};
ghost use Rattle.ffm_model.specs.Names.{SlotName};
ghost use Rattle.object_pools.specs.Pool.{most_takes};
ghost use Rattle.spm_tables.specs.TablesView.{TablesView, spm_of, fresh_message, queued_as};
ghost use Rattle.law_calls.specs.PoolChanges.{TakesOn};
ghost use Rattle.law_calls.specs.Named.{KeepsGiven};
ghost use Rattle.panic_state.specs.Losses.{left_by, held_without_client, disconnect_messages};

use crate::places::connection_at;
use ffm_model::{ActorId, ConnPhase, OpenConnection, PSA_IPC_DISCONNECT};
use machine_rules::{NO_VECTORS, is_dead};
use object_pools::Held;
use spm_tables::{MessageItem, Tables};

// The message that closes a connection, for which nobody waits.
fn disconnect_message(held: Held<OpenConnection>) -> MessageItem
    ensures message { fresh_message (queued_as (Some held.item.serial) result)
        ≡ disconnect_message held.item }
    ensures connection { result.connection ≡ Some held.slot }
    ensures undelivered { result.delivered ≡ false }
{
    MessageItem {
        service: held.item.service,
        client: held.item.client,
        connection: Some(held.slot),
        kind: PSA_IPC_DISCONNECT,
        vectors: NO_VECTORS,
        delivered: false,
    }
}

// The partition's own connections, in the order of their making: a Dead one is freed; of any other a disconnection goes last, and it is Closing.
pub(crate) fn leave_services(tables: &mut Tables, partition: ActorId)
    requires services { All (λ h. h.item.service < length tables.old.services)
        tables.old.connections.held }
    requires room { length tables.old.messages.held
        + length (disconnect_messages partition.0 tables.old.connections)
        ≤ length tables.old.messages.generations }
    requires few { tables.old.messages.takes
        + length (disconnect_messages partition.0 tables.old.connections) ≤ most_takes }
    ensures connections { tables.new.connections
        ≡ left_by (held_without_client partition.0) tables.old.connections }
    ensures messages { (spm_of tables.new).messages
        ≡ (spm_of tables.old).messages ++ disconnect_messages partition.0 tables.old.connections }
    ensures rest { tables.new ≡ record tables.old
        { connections = tables.new.connections; messages = tables.new.messages } }
    ensures size { length tables.new.messages.generations ≡ length tables.old.messages.generations }
    ensures takes { tables.new.messages.takes ≡ tables.old.messages.takes
        + length (disconnect_messages partition.0 tables.old.connections) }
    ensures names { (first : TablesView) (kept : List SlotName)
        → TakesOn (length tables.old.messages.generations) first kept 0 tables.old
        → TakesOn (length tables.old.messages.generations) first kept
        (length (disconnect_messages partition.0 tables.old.connections)) tables.new }
    ensures given { KeepsGiven tables.old tables.new }
{
    let mut place = 0;
    while place < tables.connections().live() {
        let held = connection_at(tables, place);
        if held.item.client.0 != partition.0 {
            place += 1;
        } else if is_dead(held.item.phase) {
            tables.free(held.slot);
        } else {
            tables.enqueue(disconnect_message(held));
            tables.set_connection_phase(held.slot, ConnPhase::Closing);
            place += 1;
        }
    }
}
