//! The messages that the tables keep.

ghost use Rattle.std.specs.Prelude.{◌≡◌, ◌≤◌, find, IsSome, IsNone, IfSome, Some, All, option_and_then};
ghost use Rattle.std.specs.Option.{option_map};
ghost use Rattle.object_pools.specs.Pool.{item_at, is_at};
ghost use Rattle.spm_tables.specs.TablesView.{item_of, queued, serial_at, waits_for};
ghost use Rattle.spm_tables.specs.Queues.{ends_at, first_of, queue_in};

use crate::links::{Ends, ends_at};
use ffm_model::{ActorId, Vectors};
use handle_table::Connections;
use object_pools::{Held, Pool, Slot};

/// A message, from the call that made it to the reply.
#[derive(Clone, Copy)]
pub struct MessageItem {
    /// The place of its service.
    pub service: u32,
    pub client: ActorId,
    /// The slot of its connection, as long as that is there. None for a request by a stateless handle.
    pub connection: Option<Slot>,
    pub kind: i32,
    pub vectors: Vectors,
    /// Whether `psa_get` delivered it.
    pub delivered: bool,
}

/// A message as the tables hold it: beside the slot of its connection there is the connection's serial number.
#[derive(Clone, Copy)]
pub struct QueuedMessage {
    /// The place of its service.
    pub service: u32,
    pub client: ActorId,
    /// The slot of its connection, as long as that is there. None for a request by a stateless handle.
    pub connection: Option<Slot>,
    /// The serial number of its connection. None where it was taken in for no live connection, as a request by a stateless handle.
    pub serial: Option<u32>,
    pub kind: i32,
    pub vectors: Vectors,
    /// Whether `psa_get` delivered it.
    pub delivered: bool,
}

impl QueuedMessage {
    /// The message without the serial number.
    pub(crate) fn item(self) -> MessageItem
        ensures { result ≡ item_of self }
    {
        MessageItem {
            service: self.service,
            client: self.client,
            connection: self.connection,
            kind: self.kind,
            vectors: self.vectors,
            delivered: self.delivered,
        }
    }
}

// The serial number of the connection in the slot.
fn serial_at(connections: &Connections, slot: Option<Slot>) -> Option<u32>
    ensures { result ≡ serial_at connections.now slot }
{
    match slot {
        Some(slot) if connections.is_live(slot) => Some(connections.connection(slot).serial),
        _ => None,
    }
}

// The message of the connection in its slot.
pub(crate) fn queued(connections: &Connections, item: MessageItem) -> QueuedMessage
    ensures { result ≡ queued connections.now item }
{
    QueuedMessage {
        service: item.service,
        client: item.client,
        connection: item.connection,
        serial: serial_at(connections, item.connection),
        kind: item.kind,
        vectors: item.vectors,
        delivered: item.delivered,
    }
}

// The message at the first index of a queue.
fn held_at(messages: &Pool<QueuedMessage, 304>, first: Option<u32>) -> Option<Held<QueuedMessage>>
    ensures { result ≡ option_and_then (λ i. find (is_at i) messages.now.held) first }
{
    match first {
        Some(index) => messages.at(index),
        None => None,
    }
}

// The oldest undelivered message of a service, in constant time.
pub(crate) fn oldest(
    messages: &Pool<QueuedMessage, 304>,
    ends: &[Ends],
    service: usize,
) -> Option<Slot>
    requires { (ends_at ends.now service).first ≡ first_of (queue_in messages.now service) }
    ensures { result ≡ option_map (λ h. h.slot) (find (waits_for service) messages.now.held) }
{
    messages.law();
    match held_at(messages, ends_at(ends, service).first) {
        Some(held) => Some(held.slot),
        None => None,
    }
}

pub(crate) fn item_at(messages: &Pool<QueuedMessage, 304>, slot: Slot) -> Option<QueuedMessage>
    ensures { result ≡ item_at messages.now slot }
{
    messages.get(slot).copied()
}

// The live message of a slot.
pub(crate) fn live_item(messages: &Pool<QueuedMessage, 304>, slot: Slot) -> QueuedMessage
    requires { IsSome (item_at messages.now slot) }
    ensures { item_at messages.now slot ≡ Some result }
{
    match messages.get(slot).copied() {
        Some(item) => item,
        None => unreachable!(),
    }
}

// The message of a service with the least index, delivered or not.
pub(crate) fn least_to(messages: &Pool<QueuedMessage, 304>, service: u32) -> Option<Slot>
    ensures none { IsNone result → All (λ h. ¬ (h.item.service ≡ service)) messages.now.held }
    ensures service { IfSome result (λ slot.
        IfSome (item_at messages.now slot) (λ m. m.service ≡ service)) }
    ensures live { IfSome result (λ slot. IsSome (item_at messages.now slot)) }
    ensures least { IfSome result (λ slot.
        All (λ h. h.item.service ≡ service → slot.index ≤ h.slot.index) messages.now.held) }
{
    messages.law();
    for index in 0..messages.size() {
        if let Some(held) = messages.at(index)
            && held.item.service == service
        {
            return Some(held.slot);
        }
    }
    None
}
