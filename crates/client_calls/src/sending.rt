//! Messages of connections, and requests without one.
ghost use Rattle.std.specs.Prelude.{◌≡◌, ◌<◌, ◌+◌, length, false, IsSome, IsSomeAnd, IfSome};
ghost use Rattle.ffm_model.specs.State.{with_phase, with_message, with_request};
ghost use Rattle.object_pools.specs.Pool.{most_takes, free_slot, item_at, taken};
ghost use Rattle.spm_tables.specs.TablesView.{spm_of, shape_of};
ghost use Rattle.client_calls.specs.Sending.{item_on, message_on, request_message};

use ffm_model::{ActorId, ActorPhase, Vectors};
use handle_table::Connections;
use object_pools::Slot;
use spm_tables::{MessageItem, Tables};

// A message of the connection in that slot, before its delivery.
fn item_on(connections: &Connections, slot: Slot, kind: i32, vectors: Vectors) -> MessageItem
    requires { IsSome (item_at connections.now slot) }
    ensures item { IfSome (item_at connections.now slot) (λ c.
        result ≡ item_on slot c kind vectors) }
    ensures undelivered { result.delivered ≡ false }
{
    let connection = connections.connection(slot);
    MessageItem {
        service: connection.service,
        client: connection.owner,
        connection: Some(slot),
        kind,
        vectors,
        delivered: false,
    }
}

/// Sends a message of a connection to its service. The connection's client is Blocked from then on.
pub(crate) fn send(tables: &mut Tables, slot: Slot, kind: i32, vectors: Vectors)
    requires connection { IsSomeAnd (item_at tables.old.connections slot) (λ c.
        c.service < length tables.old.services) }
    requires room { length (spm_of tables.old).messages < (shape_of tables.old).messages }
    requires few { tables.old.messages.takes < most_takes }
    ensures connections { tables.new.connections ≡ tables.old.connections }
    ensures messages { IfSome (item_at tables.old.connections slot) (λ c.
        IsSomeAnd (free_slot tables.old.messages) (λ place.
        tables.new.messages ≡ taken tables.old.messages place (message_on slot c kind vectors))) }
    ensures state { IfSome (item_at tables.old.connections slot) (λ c.
        spm_of tables.new ≡ with_phase (with_message (spm_of tables.old) c kind vectors)
        c.client.0 ActorPhase.Blocked) }
    ensures takes { tables.new.messages.takes ≡ tables.old.messages.takes + 1 }
    ensures shape { shape_of tables.new ≡ shape_of tables.old }
{
    let item = item_on(tables.connections(), slot, kind, vectors);
    tables.enqueue(item);
    tables.set_phase(item.client, ActorPhase::Blocked);
}

/// Sends a request without a connection to a service. The client is Blocked from then on.
pub(crate) fn send_request(
    tables: &mut Tables,
    client: ActorId,
    service: u32,
    kind: i32,
    vectors: Vectors,
)
    requires service { service < length tables.old.services }
    requires room { length (spm_of tables.old).messages < (shape_of tables.old).messages }
    requires few { tables.old.messages.takes < most_takes }
    ensures connections { tables.new.connections ≡ tables.old.connections }
    ensures messages { IsSomeAnd (free_slot tables.old.messages) (λ place.
        tables.new.messages ≡ taken tables.old.messages place
        (request_message client service kind vectors)) }
    ensures state { spm_of tables.new
        ≡ with_phase (with_request (spm_of tables.old) client.0
        service kind vectors) client.0 ActorPhase.Blocked }
    ensures takes { tables.new.messages.takes ≡ tables.old.messages.takes + 1 }
    ensures shape { shape_of tables.new ≡ shape_of tables.old }
{
    tables.enqueue(MessageItem {
        service,
        client,
        connection: None,
        kind,
        vectors,
        delivered: false,
    });
    tables.set_phase(client, ActorPhase::Blocked);
}
