//! The messages of a manager, in the queues of their services.

ghost use Rattle.std.specs.Prelude.{◌≡◌, ◌<◌, ◌≤◌, length, IsSome, IfSome, IfOk, MatchOption, Some, find, false, true};
ghost use Rattle.std.specs.Option.{option_map};
ghost use Rattle.object_pools.specs.Pool.{most_takes, empty, free_slot, taken, item_at, with_item, without, IsKept};
ghost use Rattle.spm_tables.specs.TablesView.{waits_for};
ghost use Rattle.spm_tables.specs.Queues.{has_waiting, OthersWaitAsBefore, AllWaitAsBefore};

use crate::item::{QueuedMessage, live_item, oldest};
use crate::links::{Ends, Link, NO_ENDS, NO_LINK, ends_at, join, leave, unlink};
use ffm_model::{Memory, Vectors};
use object_pools::{Pool, Slot};
use std::alloc::Global;
use std::boxed::BoxedSlice;
use std::marker::Model;

/// The messages, at most 304 at once, each under its slot; those that aren't delivered wait in the queues of their services. The slot
/// that a call is given has a message.
///
/// Contracts see the pool of the messages, and how many services there are.
#[derive(Drop)]
pub(crate) struct MessageQueues {
    // in a box, so that no move of the tables copies it
    messages: Box<Pool<QueuedMessage, 304>>,
    // by the index of a message, those before and after it in its service's queue
    links: BoxedSlice<Link>,
    // by service
    ends: BoxedSlice<Ends>,
}

impl Model for MessageQueues {
    ghost use Rattle.std.specs.Prelude.{length};
    ghost use Rattle.std.specs.Box.{boxed_slice_items};
    ghost use Rattle.spm_tables.specs.Queues.{QueuesView, KeepsQueues};

    ghost Value = { QueuesView };

    ghost view = { λ q.
        record { messages = q.messages.value; services = length (boxed_slice_items q.ends) } };

    ghost invariant = { λ q.
        KeepsQueues q.messages.value (boxed_slice_items q.links) (boxed_slice_items q.ends) };
}

impl MessageQueues {
    /// No message yet, and room for `size`, at most 304. `Memory` where memory is wanting.
    pub(crate) fn new(alloc: Global, size: u32, services: usize) -> Result<MessageQueues, Memory>
        requires { size ≤ 304 }
        ensures { IfOk result (λ q. q ≡ record { messages = empty size; services = services }) }
    {
        let links = vec![in alloc; NO_LINK; size as usize]?;
        let ends = vec![in alloc; NO_ENDS; services]?;
        Ok(MessageQueues {
            messages: Pool::boxed(alloc, size)?,
            links: links.into_boxed_slice(),
            ends: ends.into_boxed_slice(),
        })
    }

    /// Says what the messages always keep. It does nothing.
    pub(crate) fn law(&self)
        ensures { IsKept 304 self.now.messages }
    {
        self.messages.law();
    }

    /// The messages, lent to be read.
    pub(crate) fn messages(&self) -> &Pool<QueuedMessage, 304>
        ensures { result.now ≡ self.now.messages }
    {
        &self.messages
    }

    /// Whether a message waits for the service, in constant time; false where there is no such service.
    pub(crate) fn has_waiting(&self, service: u32) -> bool
        ensures waits { result ≡ has_waiting self.now.messages service }
        ensures there { result ≡ true → service < self.now.services }
    {
        let ends = ends_at(self.ends.as_slice(), service as usize);
        ends.first.is_some()
    }

    /// Takes a message in; it goes last in its service's queue. The service exists, there is room for one more, fewer than 1,048,575
    /// were taken in, and it isn't delivered.
    pub(crate) fn enqueue(&mut self, message: QueuedMessage) -> Slot
        requires service { message.service < self.old.services }
        requires undelivered { message.delivered ≡ false }
        requires room { length self.old.messages.held < length self.old.messages.generations }
        requires few { self.old.messages.takes < most_takes }
        ensures slot { free_slot self.old.messages ≡ Some result }
        ensures after { self.new
            ≡ record self.old { messages = taken self.old.messages result message } }
        ensures others { OthersWaitAsBefore message.service self.old.messages self.new.messages }
    {
        let messages = &mut *self.messages;
        messages.law();
        match messages.take(message) {
            Ok(slot) => {
                join(
                    self.links.as_mut_slice(),
                    self.ends.as_mut_slice(),
                    message.service,
                    slot.index,
                );
                slot
            }
            Err(_) => unreachable!(),
        }
    }

    /// The oldest undelivered message of a service, which is delivered from now on; None exactly where there is none.
    pub(crate) fn deliver(&mut self, service: u32) -> Option<Slot>
        ensures oldest { result ≡ option_map (λ h. h.slot)
            (find (waits_for service) self.old.messages.held) }
        ensures after { MatchOption result (self.new ≡ self.old) (λ slot.
            IfSome (item_at self.old.messages slot) (λ m.
            self.new ≡ record self.old
            { messages = with_item self.old.messages slot (record m { delivered = true }) })) }
        ensures others { OthersWaitAsBefore service self.old.messages self.new.messages }
    {
        let messages = &mut *self.messages;
        messages.law();
        let Some(slot) = oldest(messages, self.ends.as_slice(), service as usize) else {
            return None;
        };
        let mut message = live_item(messages, slot);
        unlink(
            self.links.as_mut_slice(),
            self.ends.as_mut_slice(),
            service,
            slot.index,
        );
        message.delivered = true;
        messages.set(slot, message);
        Some(slot)
    }

    /// Gives a message other vectors.
    pub(crate) fn set_vectors(&mut self, slot: Slot, vectors: Vectors)
        requires { IsSome (item_at self.old.messages slot) }
        ensures after { IfSome (item_at self.old.messages slot) (λ m.
            self.new ≡ record self.old
            { messages = with_item self.old.messages slot (record m { vectors = vectors }) }) }
        ensures all { AllWaitAsBefore self.old.messages self.new.messages }
    {
        let messages = &mut *self.messages;
        messages.law();
        let mut message = live_item(messages, slot);
        message.vectors = vectors;
        messages.set(slot, message);
    }

    /// Gives a message up, delivered or not; its slot is free.
    pub(crate) fn take_out(&mut self, slot: Slot) -> QueuedMessage
        requires { IsSome (item_at self.old.messages slot) }
        ensures item { item_at self.old.messages slot ≡ Some result }
        ensures after { self.new ≡ record self.old { messages = without self.old.messages slot } }
        ensures others { OthersWaitAsBefore result.service self.old.messages self.new.messages }
    {
        let messages = &mut *self.messages;
        messages.law();
        let message = messages.put_back(slot);
        leave(
            self.links.as_mut_slice(),
            self.ends.as_mut_slice(),
            &message,
            slot.index,
        );
        message
    }
}
