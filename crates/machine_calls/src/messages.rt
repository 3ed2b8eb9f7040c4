//! Messages, found by handle or by service.
ghost use Rattle.std.specs.Prelude.{◌≡◌, ◌&&◌, find, filter, map, not};
ghost use Rattle.ffm_model.specs.Actors.{is_service_of};
ghost use Rattle.ffm_model.specs.ServiceCalls.{request_held};
ghost use Rattle.ffm_model.specs.State.{delivered, has_handle, is_undelivered, message_held, vectors_put, with_vectors, without_message};
ghost use Rattle.machine_calls.specs.Machine.{spm_of_objects};

use crate::machine::Objects;
use ffm_model::{Handle, PSA_IPC_CALL, PSA_MAX_IOVEC, PendingMessage, System, Vectors};
use machine_rules::{is_service_of, is_undelivered};

fn has_handle(message: &PendingMessage, handle: Handle) -> bool
    ensures { result ≡ has_handle message.now.handle handle }
{
    match message.handle {
        Some(shown) => shown.0 == handle.0,
        None => false,
    }
}

fn is_held(system: &System, partition: u32, message: &PendingMessage, handle: Handle) -> bool
    ensures { result ≡ (is_service_of system.now partition message.now.service
        && has_handle message.now.handle handle) }
{
    has_handle(message, handle) && is_service_of(system, partition, message.service)
}

fn held_by(
    messages: &[PendingMessage],
    system: &System,
    partition: u32,
    handle: Handle,
) -> Option<PendingMessage>
    ensures { result ≡ find (λ m.
        is_service_of system.now partition m.service
        && has_handle m.handle handle) messages.now }
{
    let mut held = messages.iter().copied();
    held.find(|m| is_held(system, partition, m, handle))
}

fn undelivered(messages: &[PendingMessage], service: usize) -> Option<PendingMessage>
    ensures { result ≡ find (is_undelivered service) messages.now }
{
    messages
        .iter()
        .copied()
        .find(|m| is_undelivered(m, service))
}

fn put_vectors(message: &mut PendingMessage, handle: Handle, vectors: Vectors)
    ensures { message.new ≡ vectors_put handle vectors message.old }
{
    if has_handle(message, handle) {
        message.vectors = vectors;
    }
}

#[tactic(auto, using(std::proofs::lemmas::List::Edits::map_over_more))]
fn put_all_vectors(messages: &mut [PendingMessage], handle: Handle, vectors: Vectors)
    ensures { messages.new ≡ map (vectors_put handle vectors) messages.old }
{
    for message in messages.iter_mut() {
        put_vectors(message, handle, vectors);
    }
}

fn remove(messages: &mut Vec<PendingMessage>, handle: Handle)
    ensures { messages.new.items
        ≡ filter (λ m. not (has_handle m.handle handle)) messages.old.items }
{
    messages.retain(|m| !has_handle(m, handle));
}

// The first undelivered message of the service gets the handle.
fn deliver(messages: &mut [PendingMessage], service: usize, handle: Handle)
    ensures { messages.new ≡ delivered service handle messages.old }
{
    for message in messages.iter_mut() {
        if is_undelivered(message, service) {
            message.handle = Some(handle);
            return;
        }
    }
}

impl Objects {
    /// The message that a partition holds by a handle.
    pub fn message_held(
        &self,
        system: &System,
        partition: u32,
        handle: Handle,
    ) -> Option<PendingMessage>
        ensures { result ≡ message_held system.now (spm_of_objects self.now) partition handle }
    {
        held_by(self.messages.as_slice(), system, partition, handle)
    }

    /// The request that a partition holds by a handle, where the index is a vector's.
    pub fn request_held(
        &self,
        system: &System,
        partition: u32,
        handle: Handle,
        index: u32,
    ) -> Option<PendingMessage>
        ensures { result ≡ request_held system.now (spm_of_objects self.now)
            partition handle index }
    {
        let message = self.message_held(system, partition, handle)?;
        if message.kind >= PSA_IPC_CALL && index < PSA_MAX_IOVEC {
            Some(message)
        } else {
            None
        }
    }

    /// The oldest message of a service that waits for `psa_get`.
    pub fn first_undelivered(&self, service: u32) -> Option<PendingMessage>
        ensures { result ≡ find (is_undelivered service) (spm_of_objects self.now).messages }
    {
        undelivered(self.messages.as_slice(), service as usize)
    }

    /// Delivers the oldest message of a service that waits for `psa_get`, under a handle.
    pub fn deliver(&mut self, service: u32, handle: Handle)
        ensures state { spm_of_objects self.new ≡ record (spm_of_objects self.old)
            { messages = delivered service handle (spm_of_objects self.old).messages } }
        ensures made { self.new.connections_made ≡ self.old.connections_made }
    {
        deliver(self.messages.as_mut_slice(), service as usize, handle);
    }

    /// Sets the vectors of the message with a handle.
    pub fn set_vectors(&mut self, handle: Handle, vectors: Vectors)
        ensures state { spm_of_objects self.new
            ≡ with_vectors (spm_of_objects self.old) handle vectors }
        ensures made { self.new.connections_made ≡ self.old.connections_made }
    {
        put_all_vectors(self.messages.as_mut_slice(), handle, vectors);
    }

    /// Removes the message with a handle.
    pub fn remove_message(&mut self, handle: Handle)
        ensures state { spm_of_objects self.new ≡ without_message (spm_of_objects self.old) handle }
        ensures made { self.new.connections_made ≡ self.old.connections_made }
    {
        remove(&mut self.messages, handle);
    }
}
