//! The calls of `psa/service.h` that wait for messages, take them and move their bytes.
ghost use Rattle.std.specs.Prelude.{◌≡◌, Ok, option_and_then, if◌then◌else◌};
ghost use Rattle.std.specs.Option.{option_map, option_map_or};
ghost use Rattle.ffm_model.specs.ClientCalls.{in_state};
ghost use Rattle.std.specs.Ordering.{int_eq};
ghost use Rattle.ffm_model.specs.ServiceCalls.{psa_wait, psa_get, psa_set_rhandle, psa_read, psa_skip, psa_write, shown_message};
ghost use Rattle.ffm_model.specs.State.{connection_by_serial};
ghost use Rattle.machine_calls.specs.Machine.{spm_of_objects, state_of, Moves, Does, Gets, IsMachineOf};

use crate::machine::{Machine, Objects};
use crate::signals::has_signal;
use ffm_model::{
    ActorId, ActorPhase, Handle, Message, Outcome, PSA_BLOCK, PSA_IPC_CONNECT, PendingMessage,
    System,
};
use machine_rules::{
    MESSAGE_SIZE, client_id_of, read, service_of_signal, sizes_of, skip, words_of, write,
};
use memory_image::valid_buffer;

impl Objects {
    // The rhandle that a message carries: 0 for that of a `psa_connect`, else its connection's.
    fn rhandle_of(&self, message: PendingMessage) -> u32
        ensures { result ≡ (if int_eq message.kind PSA_IPC_CONNECT
            then 0
            else option_map_or (λ c. c.rhandle) (option_and_then
            (connection_by_serial (spm_of_objects self.now)) message.connection) 0) }
    {
        if message.kind == PSA_IPC_CONNECT {
            return 0;
        }
        match message.connection {
            Some(serial) => match self.connection_by_serial(serial) {
                Some(connection) => connection.rhandle,
                None => 0,
            },
            None => 0,
        }
    }

    // What a partition is told of a message that it gets.
    fn shown(&self, system: &System, message: PendingMessage, handle: Handle) -> Message
        ensures { result ≡ shown_message system.now (spm_of_objects self.now) message handle }
    {
        Message {
            kind: message.kind,
            handle,
            client_id: client_id_of(system, message.client.0),
            rhandle: self.rhandle_of(message),
            in_size: sizes_of(message.vectors.input),
            out_size: sizes_of(message.vectors.output),
        }
    }

    /// `psa_wait` (`psa/service.h`). None where the mask has no signal of the partition.
    pub fn wait(
        &mut self,
        system: &System,
        actor: ActorId,
        mask: u32,
        timeout: u32,
    ) -> Option<Outcome>
        ensures moves { Moves (psa_wait system.now (spm_of_objects self.old) actor.0 mask timeout)
            self.old (Ok result) self.new }
        ensures messages { self.new.messages ≡ self.old.messages }
        ensures made { self.new.connections_made ≡ self.old.connections_made }
    {
        if !has_signal(system, actor.0, mask) {
            return None;
        }
        if timeout < PSA_BLOCK {
            return Some(Outcome::Signals(self.signals(system, actor.0) & mask));
        }
        self.set_phase(actor.0, ActorPhase::Waiting { mask });
        Some(Outcome::Blocked)
    }

    /// `psa_set_rhandle` (`psa/service.h`). None where the handle isn't that of a message of the partition with a connection.
    pub fn set_rhandle_of(
        &mut self,
        system: &System,
        actor: ActorId,
        handle: Handle,
        rhandle: u32,
    ) -> Option<Outcome>
        ensures moves { Moves (psa_set_rhandle system.now (spm_of_objects self.old)
            actor.0 handle rhandle) self.old (Ok result) self.new }
        ensures messages { self.new.messages ≡ self.old.messages }
        ensures made { self.new.connections_made ≡ self.old.connections_made }
    {
        let message = self.message_held(system, actor.0, handle)?;
        let serial = message.connection?;
        self.set_rhandle(serial, rhandle);
        Some(Outcome::Done)
    }
}

impl Machine {
    /// `psa_get` (`psa/service.h`), with the handle that it is to give. None where the signal isn't one service's of the
    /// partition, no message waits for it, or the message has no room at `msg`.
    pub fn get(
        &mut self,
        system: &System,
        actor: ActorId,
        signal: u32,
        msg: u32,
        handle: Handle,
    ) -> Option<Message>
        requires { IsMachineOf system.now self.old }
        ensures gets { Gets (λ given.
            psa_get system.now (state_of self.old given) actor.0 signal msg handle)
            handle self.old result self.new }
        ensures made { self.new.objects.connections_made ≡ self.old.objects.connections_made }
        ensures kept { IsMachineOf system.now self.new }
    {
        let service = service_of_signal(system, actor.0, signal)?;
        let message = self.objects.first_undelivered(service)?;
        if !valid_buffer(system, actor, msg, MESSAGE_SIZE) {
            return None;
        }
        let shown = self.objects.shown(system, message, handle);
        self.objects.deliver(service, handle);
        self.memory.store_words(msg, &words_of(shown));
        Some(shown)
    }

    /// `psa_skip` (`psa/service.h`). None where the handle isn't that of a request of the partition, or the index is no
    /// vector's.
    pub fn skip(
        &mut self,
        system: &System,
        actor: ActorId,
        handle: Handle,
        index: u32,
        len: u32,
    ) -> Option<Outcome>
        requires { IsMachineOf system.now self.old }
        ensures does { Does (λ given.
            option_map (in_state (state_of self.old given))
            (psa_skip system.now (spm_of_objects self.old.objects) actor.0 handle index len))
            self.old (Ok result) self.new }
        ensures made { self.new.objects.connections_made ≡ self.old.objects.connections_made }
        ensures kept { IsMachineOf system.now self.new }
    {
        let message = self.objects.request_held(system, actor.0, handle, index)?;
        let mut vectors = message.vectors;
        let count = skip(&mut vectors, index, len);
        self.objects.set_vectors(handle, vectors);
        Some(Outcome::Number(count))
    }

    /// `psa_read` (`psa/service.h`). None as of `skip`, or where the buffer isn't a valid one.
    pub fn read(
        &mut self,
        system: &System,
        actor: ActorId,
        handle: Handle,
        index: u32,
        buffer: u32,
        len: u32,
    ) -> Option<Outcome>
        requires { IsMachineOf system.now self.old }
        ensures does { Does (λ given.
            psa_read system.now (state_of self.old given) actor.0 handle index buffer len)
            self.old (Ok result) self.new }
        ensures made { self.new.objects.connections_made ≡ self.old.objects.connections_made }
        ensures kept { IsMachineOf system.now self.new }
    {
        let message = self.objects.request_held(system, actor.0, handle, index)?;
        if !valid_buffer(system, actor, buffer, len) {
            return None;
        }
        let mut vectors = message.vectors;
        let count = read(&mut self.memory, &mut vectors, index, buffer, len);
        self.objects.set_vectors(handle, vectors);
        Some(Outcome::Number(count))
    }

    /// `psa_write` (`psa/service.h`). None as of `read`, or where the bytes are more than what is left of the vector.
    pub fn write(
        &mut self,
        system: &System,
        actor: ActorId,
        handle: Handle,
        index: u32,
        buffer: u32,
        len: u32,
    ) -> Option<Outcome>
        requires { IsMachineOf system.now self.old }
        ensures does { Does (λ given.
            psa_write system.now (state_of self.old given) actor.0 handle index buffer len)
            self.old (Ok result) self.new }
        ensures made { self.new.objects.connections_made ≡ self.old.objects.connections_made }
        ensures kept { IsMachineOf system.now self.new }
    {
        let message = self.objects.request_held(system, actor.0, handle, index)?;
        if !valid_buffer(system, actor, buffer, len) {
            return None;
        }
        let mut vectors = message.vectors;
        write(&mut self.memory, &mut vectors, index, buffer, len).ok()?;
        self.objects.set_vectors(handle, vectors);
        Some(Outcome::Done)
    }
}
