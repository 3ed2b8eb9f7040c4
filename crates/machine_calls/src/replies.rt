//! `psa_reply`.
ghost use Rattle.std.specs.Prelude.{◌≡◌, ℕ, IfOk, if◌then◌else◌};
ghost use Rattle.std.specs.Prelude as prelude;
ghost use Rattle.ffm_model.specs.ServiceCalls.{answered, close_answered, connect_answered, owes_panic, psa_reply, replied, reply_to, request_answered, request_failed, with_request_phase};
ghost use Rattle.ffm_model.specs.Panic.{panic_effect};
ghost use Rattle.machine_calls.specs.Machine.{spm_of_objects, state_of, Does, IsMachineOf, MessagesFit};

use crate::machine::{Machine, Objects};
use ffm_model::{
    ActorId, ActorPhase, ConnPhase, Handle, Memory, Outcome, PSA_ERROR_PROGRAMMER_ERROR,
    PSA_IPC_CALL, PSA_IPC_CONNECT, PSA_SUCCESS, PendingMessage, Status, System,
};
use machine_rules::{finish, is_connect_status, is_partition, owes_panic};

impl Objects {
    fn answer_connect(&mut self, serial: u32, message: PendingMessage, status: i32)
        ensures state { spm_of_objects self.new
            ≡ connect_answered (spm_of_objects self.old) serial message status }
        ensures messages { self.new.messages ≡ self.old.messages }
        ensures made { self.new.connections_made ≡ self.old.connections_made }
    {
        if status == PSA_SUCCESS {
            self.set_connection_phase(serial, ConnPhase::Idle);
            self.set_phase(message.client.0, ActorPhase::Connected(serial));
        } else {
            self.remove_connection(serial);
            self.set_phase(message.client.0, ActorPhase::Ready(Outcome::Value(status)));
        }
    }

    // Nobody waits where the client panicked.
    fn answer_close(&mut self, serial: u32, message: PendingMessage)
        ensures state { spm_of_objects self.new
            ≡ close_answered (spm_of_objects self.old) serial message }
        ensures messages { self.new.messages ≡ self.old.messages }
        ensures made { self.new.connections_made ≡ self.old.connections_made }
    {
        self.remove_connection(serial);
        if matches!(self.phase(message.client.0), ActorPhase::Blocked) {
            self.set_phase(message.client.0, ActorPhase::Ready(Outcome::Done));
        }
    }

    // The connection of a request, where it has one.
    fn set_request_phase(&mut self, message: PendingMessage, phase: ConnPhase)
        ensures state { spm_of_objects self.new
            ≡ with_request_phase (spm_of_objects self.old) message phase }
        ensures messages { self.new.messages ≡ self.old.messages }
        ensures made { self.new.connections_made ≡ self.old.connections_made }
    {
        if let Some(serial) = message.connection {
            self.set_connection_phase(serial, phase);
        }
    }

    // A non-secure client is told, and a partition stays Blocked and owes its panic.
    fn fail_request(&mut self, system: &System, message: PendingMessage)
        ensures state { spm_of_objects self.new
            ≡ request_failed system.now (spm_of_objects self.old) message }
        ensures messages { self.new.messages ≡ self.old.messages }
        ensures made { self.new.connections_made ≡ self.old.connections_made }
    {
        self.set_request_phase(message, ConnPhase::Error);
        if !is_partition(system, message.client.0) {
            let told = Outcome::Value(PSA_ERROR_PROGRAMMER_ERROR);
            self.set_phase(message.client.0, ActorPhase::Ready(told));
        }
    }

    fn answer_request(&mut self, system: &System, message: PendingMessage, status: i32)
        ensures state { spm_of_objects self.new
            ≡ request_answered system.now (spm_of_objects self.old) message status }
        ensures messages { self.new.messages ≡ self.old.messages }
        ensures made { self.new.connections_made ≡ self.old.connections_made }
    {
        if status == PSA_ERROR_PROGRAMMER_ERROR {
            self.fail_request(system, message);
        } else {
            self.set_request_phase(message, ConnPhase::Idle);
            self.set_phase(message.client.0, ActorPhase::Ready(Outcome::Value(status)));
        }
    }

    fn answer(&mut self, system: &System, message: PendingMessage, status: i32)
        ensures state { spm_of_objects self.new
            ≡ answered system.now (spm_of_objects self.old) message status }
        ensures messages { self.new.messages ≡ self.old.messages }
        ensures made { self.new.connections_made ≡ self.old.connections_made }
    {
        if message.kind == PSA_IPC_CONNECT {
            if let Some(serial) = message.connection {
                self.answer_connect(serial, message, status);
            }
        } else if message.kind < PSA_IPC_CALL {
            if let Some(serial) = message.connection {
                self.answer_close(serial, message);
            }
        } else {
            self.answer_request(system, message, status);
        }
    }

    // The message is gone, and its client is answered.
    fn close_message(
        &mut self,
        system: &System,
        handle: Handle,
        status: i32,
        message: PendingMessage,
    )
        ensures state { spm_of_objects self.new
            ≡ replied system.now (spm_of_objects self.old) handle status message }
        ensures fits { (regions : prelude.List (ℕ × ℕ)) → MessagesFit regions self.old
            → MessagesFit regions self.new }
        ensures made { self.new.connections_made ≡ self.old.connections_made }
    {
        self.remove_message(handle);
        self.answer(system, message, status);
    }

    // The message that a partition may answer with this status.
    fn reply_to(
        &self,
        system: &System,
        partition: u32,
        handle: Handle,
        status: i32,
    ) -> Option<PendingMessage>
        ensures { result ≡ reply_to system.now (spm_of_objects self.now) partition handle status }
    {
        let message = self.message_held(system, partition, handle)?;
        if message.kind == PSA_IPC_CONNECT && !is_connect_status(status) {
            None
        } else {
            Some(message)
        }
    }

    // Answers a message, and makes its client panic where it owes that.
    fn reply(
        &mut self,
        system: &System,
        handle: Handle,
        status: i32,
        message: PendingMessage,
    ) -> Result<(), Memory>
        ensures state { IfOk result (λ u.
            spm_of_objects self.new ≡ (if owes_panic system.now message status
            then panic_effect system.now
            (replied system.now (spm_of_objects self.old) handle status message) message.client.0
            else replied system.now (spm_of_objects self.old) handle status message)) }
        ensures fits { IfOk result (λ u.
            (regions : prelude.List (ℕ × ℕ)) → MessagesFit regions self.old
            → MessagesFit regions self.new) }
        ensures made { self.new.connections_made ≡ self.old.connections_made }
    {
        self.close_message(system, handle, status, message);
        if owes_panic(system, message, status) {
            self.panic(system, message.client)?;
        }
        Ok(())
    }
}

impl Machine {
    /// `psa_reply` (`psa/service.h`), with the panic that a partition owes where its request was answered with
    /// `PSA_ERROR_PROGRAMMER_ERROR`. None where the handle isn't that of a message of the partition, or the status is
    /// none for `psa_connect`.
    pub fn reply(
        &mut self,
        system: &System,
        actor: ActorId,
        handle: Handle,
        status: Status,
    ) -> Result<Option<Outcome>, Memory>
        requires { IsMachineOf system.now self.old }
        ensures does { Does (λ given.
            psa_reply system.now (state_of self.old given) actor.0 handle status.0)
            self.old result self.new }
        ensures made { self.new.objects.connections_made ≡ self.old.objects.connections_made }
        ensures kept { IfOk result (λ o. IsMachineOf system.now self.new) }
    {
        let Some(message) = self.objects.reply_to(system, actor.0, handle, status.0) else {
            return Ok(None);
        };
        self.objects.reply(system, handle, status.0, message)?;
        if message.kind >= PSA_IPC_CALL {
            finish(&mut self.memory, &message.vectors);
        }
        Ok(Some(Outcome::Done))
    }
}
