//! The calls of `psa/client.h`.
ghost use Rattle.std.specs.Prelude.{◌≡◌, ◌+◌, ◌<◌, ◌≤◌, ◌^◌, ℕ, Some, IfOk};
ghost use Rattle.std.specs.Prelude as prelude;
ghost use Rattle.std.specs.Option.{option_map};
ghost use Rattle.ffm_model.specs.declared.objects.ActorPhase.TheVariants as phase;
ghost use Rattle.ffm_model.specs.Actors.{budget_of};
ghost use Rattle.ffm_model.specs.State.{with_message, with_phase};
ghost use Rattle.ffm_model.specs.ClientCalls.{in_state, call_to, connection_called, move, psa_call, psa_close, service_called, psa_connect, is_service_panicked, connect_issued, connect_to, call_on, close_on};
ghost use Rattle.machine_rules.specs.Vectors.{AreWithin};
ghost use Rattle.machine_calls.specs.Machine.{spm_of_objects, state_of, Moves, Does, MessagesFit, IsMachineOf};

use crate::machine::{Machine, Objects};
use ffm_model::{
    ActorId, ActorPhase, ConnPhase, Handle, Memory, OpenConnection, Outcome,
    PSA_ERROR_COMMUNICATION_FAILURE, PSA_ERROR_CONNECTION_BUSY, PSA_ERROR_CONNECTION_REFUSED,
    PSA_IPC_CONNECT, PSA_IPC_DISCONNECT, PSA_NULL_HANDLE, Sid, System, Vectors,
};
use machine_rules::{
    NO_VECTORS, is_busy, is_dead, is_stateless, refuses_requests, snapshot, stateless_index,
    takes_version,
};

impl Objects {
    fn is_service_panicked(&self, system: &System, service: u32) -> bool
        ensures { result ≡ is_service_panicked system.now (spm_of_objects self.now) service }
    {
        match system.services.as_slice().get(service as usize) {
            Some(found) => matches!(self.phase(found.owner), ActorPhase::Panicked),
            None => false,
        }
    }

    // Sends a message of a connection, and the actor is Blocked from then on.
    fn send(
        &mut self,
        actor: ActorId,
        connection: OpenConnection,
        kind: i32,
        vectors: Vectors,
    ) -> Result<(), Memory>
        ensures state { IfOk result (λ u.
            spm_of_objects self.new
            ≡ with_phase (with_message (spm_of_objects self.old)
            connection kind vectors) actor.0 phase.Blocked) }
        ensures made { self.new.connections_made ≡ self.old.connections_made }
        ensures fits { (regions : prelude.List (ℕ × ℕ)) → AreWithin regions vectors
            → MessagesFit regions self.old
            → MessagesFit regions self.new }
    {
        self.add_message(connection, kind, vectors)?;
        self.set_phase(actor.0, ActorPhase::Blocked);
        Ok(())
    }

    // Adds a connection and its message; the client waits.
    fn issue_connect(&mut self, actor: ActorId, service: u32) -> Result<(), Memory>
        requires few { self.old.connections_made < 2 ^ 31 }
        ensures state { IfOk result (λ u.
            spm_of_objects self.new ≡ connect_issued (spm_of_objects self.old) actor.0 service) }
        ensures made { self.new.connections_made ≤ self.old.connections_made + 1 }
        ensures fits { (regions : prelude.List (ℕ × ℕ)) → MessagesFit regions self.old
            → MessagesFit regions self.new }
    {
        let connection = OpenConnection {
            serial: self.connections_made,
            client: actor,
            service,
            phase: ConnPhase::Opening,
            rhandle: 0,
            handle: None,
        };
        self.connections.push(connection)?;
        self.connections_made += 1;
        self.send(actor, connection, PSA_IPC_CONNECT, NO_VECTORS)
    }

    fn connect_to(
        &mut self,
        system: &System,
        actor: ActorId,
        service: u32,
        budget: u32,
    ) -> Result<Outcome, Memory>
        requires few { self.old.connections_made < 2 ^ 31 }
        requires budget { budget_of system.now actor.0 service ≡ Some budget }
        ensures moves { IfOk result (λ o.
            connect_to system.now (spm_of_objects self.old) actor.0 service
            ≡ move o (spm_of_objects self.new)) }
        ensures made { self.new.connections_made ≤ self.old.connections_made + 1 }
        ensures fits { (regions : prelude.List (ℕ × ℕ)) → MessagesFit regions self.old
            → MessagesFit regions self.new }
    {
        if self.is_service_panicked(system, service) {
            return Ok(Outcome::Value(PSA_ERROR_CONNECTION_REFUSED));
        }
        if self.in_use(actor.0, service) == budget as usize {
            return Ok(Outcome::Value(PSA_ERROR_CONNECTION_BUSY));
        }
        self.issue_connect(actor, service)?;
        Ok(Outcome::Blocked)
    }

    /// `psa_connect`: None for a PROGRAMMER ERROR.
    pub fn connect(
        &mut self,
        system: &System,
        actor: ActorId,
        sid: Sid,
        version: u32,
    ) -> Result<Option<Outcome>, Memory>
        requires few { self.old.connections_made < 2 ^ 31 }
        ensures moves { Moves (psa_connect system.now (spm_of_objects self.old) actor.0 sid version)
            self.old result self.new }
        ensures made { self.new.connections_made ≤ self.old.connections_made + 1 }
        ensures fits { (regions : prelude.List (ℕ × ℕ)) → MessagesFit regions self.old
            → MessagesFit regions self.new }
    {
        let Some(service) = system.service_at(sid) else {
            return Ok(None);
        };
        let Some(budget) = system.budget(actor, service) else {
            return Ok(None);
        };
        if is_stateless(system, service) || !takes_version(system, service, version) {
            return Ok(None);
        }
        let outcome = self.connect_to(system, actor, service, budget)?;
        Ok(Some(outcome))
    }

    fn call_on(
        &mut self,
        actor: ActorId,
        connection: OpenConnection,
        kind: i32,
        vectors: Vectors,
    ) -> Result<Outcome, Memory>
        ensures moves { IfOk result (λ o.
            call_on (spm_of_objects self.old) actor.0 connection kind vectors
            ≡ move o (spm_of_objects self.new)) }
        ensures made { self.new.connections_made ≡ self.old.connections_made }
        ensures fits { (regions : prelude.List (ℕ × ℕ)) → AreWithin regions vectors
            → MessagesFit regions self.old
            → MessagesFit regions self.new }
    {
        if is_dead(connection.phase) {
            return Ok(Outcome::Value(PSA_ERROR_COMMUNICATION_FAILURE));
        }
        self.set_connection_phase(connection.serial, ConnPhase::Busy);
        self.send(actor, connection, kind, vectors)?;
        Ok(Outcome::Blocked)
    }

    // Sends a request by a stateless handle; the client waits.
    fn call_to(
        &mut self,
        system: &System,
        actor: ActorId,
        service: u32,
        kind: i32,
        vectors: Vectors,
    ) -> Result<Outcome, Memory>
        ensures moves { IfOk result (λ o.
            call_to system.now (spm_of_objects self.old) actor.0 service kind vectors
            ≡ move o (spm_of_objects self.new)) }
        ensures made { self.new.connections_made ≡ self.old.connections_made }
        ensures fits { (regions : prelude.List (ℕ × ℕ)) → AreWithin regions vectors
            → MessagesFit regions self.old
            → MessagesFit regions self.new }
    {
        if self.is_service_panicked(system, service) {
            return Ok(Outcome::Value(PSA_ERROR_COMMUNICATION_FAILURE));
        }
        self.add_request(actor, service, kind, vectors)?;
        self.set_phase(actor.0, ActorPhase::Blocked);
        Ok(Outcome::Blocked)
    }

    fn close_on(&mut self, actor: ActorId, connection: OpenConnection) -> Result<Outcome, Memory>
        ensures moves { IfOk result (λ o.
            close_on (spm_of_objects self.old) actor.0 connection
            ≡ move o (spm_of_objects self.new)) }
        ensures made { self.new.connections_made ≡ self.old.connections_made }
        ensures fits { (regions : prelude.List (ℕ × ℕ)) → MessagesFit regions self.old
            → MessagesFit regions self.new }
    {
        if is_dead(connection.phase) {
            self.remove_connection(connection.serial);
            return Ok(Outcome::Done);
        }
        self.set_connection_phase(connection.serial, ConnPhase::Closing);
        self.send(actor, connection, PSA_IPC_DISCONNECT, NO_VECTORS)?;
        Ok(Outcome::Blocked)
    }

    /// `psa_close`: None for a PROGRAMMER ERROR.
    pub fn close(&mut self, actor: ActorId, handle: Handle) -> Result<Option<Outcome>, Memory>
        ensures moves { Moves (psa_close (spm_of_objects self.old) actor.0 handle)
            self.old result self.new }
        ensures made { self.new.connections_made ≡ self.old.connections_made }
        ensures fits { (regions : prelude.List (ℕ × ℕ)) → MessagesFit regions self.old
            → MessagesFit regions self.new }
    {
        if handle.0 == PSA_NULL_HANDLE {
            return Ok(Some(Outcome::Done));
        }
        let Some(connection) = self.connection_held(actor.0, handle) else {
            return Ok(None);
        };
        if is_busy(connection.phase) {
            return Ok(None);
        }
        let outcome = self.close_on(actor, connection)?;
        Ok(Some(outcome))
    }
}

impl Machine {
    // A call on a connection: None for a PROGRAMMER ERROR.
    fn call_connection(
        &mut self,
        system: &System,
        actor: ActorId,
        handle: Handle,
        kind: i32,
        in_vec: u32,
        in_len: u32,
        out_vec: u32,
        out_len: u32,
    ) -> Result<Option<Outcome>, Memory>
        requires { IsMachineOf system.now self.old }
        ensures does { Does (λ given.
            option_map (in_state (state_of self.old given)) (connection_called system.now
            (state_of self.old given) actor.0 handle kind in_vec in_len out_vec out_len))
            self.old result self.new }
        ensures made { self.new.objects.connections_made ≡ self.old.objects.connections_made }
        ensures kept { IfOk result (λ o. IsMachineOf system.now self.new) }
    {
        let Some(connection) = self.objects.connection_held(actor.0, handle) else {
            return Ok(None);
        };
        let memory = &self.memory;
        let Some(vectors) = snapshot(system, memory, actor, in_vec, in_len, out_vec, out_len) else {
            return Ok(None);
        };
        if refuses_requests(connection.phase) || kind < 0 {
            return Ok(None);
        }
        let outcome = self.objects.call_on(actor, connection, kind, vectors)?;
        Ok(Some(outcome))
    }

    // A call by a stateless handle that shows this index: None for a PROGRAMMER ERROR.
    fn call_service(
        &mut self,
        system: &System,
        actor: ActorId,
        index: u32,
        kind: i32,
        in_vec: u32,
        in_len: u32,
        out_vec: u32,
        out_len: u32,
    ) -> Result<Option<Outcome>, Memory>
        requires { IsMachineOf system.now self.old }
        ensures does { Does (λ given.
            option_map (in_state (state_of self.old given)) (service_called system.now
            (state_of self.old given) actor.0 index kind in_vec in_len out_vec out_len))
            self.old result self.new }
        ensures made { self.new.objects.connections_made ≡ self.old.objects.connections_made }
        ensures kept { IfOk result (λ o. IsMachineOf system.now self.new) }
    {
        let Some(service) = system.stateless_at(index) else {
            return Ok(None);
        };
        let memory = &self.memory;
        let Some(vectors) = snapshot(system, memory, actor, in_vec, in_len, out_vec, out_len) else {
            return Ok(None);
        };
        if system.budget(actor, service).is_none() || kind < 0 {
            return Ok(None);
        }
        let outcome = self.objects.call_to(system, actor, service, kind, vectors)?;
        Ok(Some(outcome))
    }

    /// `psa_call`, on a connection or by a stateless handle: None for a PROGRAMMER ERROR. The descriptors of the vectors are
    /// read here and never again.
    pub fn invoke(
        &mut self,
        system: &System,
        actor: ActorId,
        handle: Handle,
        kind: i32,
        in_vec: u32,
        in_len: u32,
        out_vec: u32,
        out_len: u32,
    ) -> Result<Option<Outcome>, Memory>
        requires { IsMachineOf system.now self.old }
        ensures does { Does (λ given.
            option_map (in_state (state_of self.old given)) (psa_call system.now
            (state_of self.old given) actor.0 handle kind in_vec in_len out_vec out_len))
            self.old result self.new }
        ensures made { self.new.objects.connections_made ≡ self.old.objects.connections_made }
        ensures kept { IfOk result (λ o. IsMachineOf system.now self.new) }
    {
        match stateless_index(handle) {
            Some(index) => {
                self.call_service(system, actor, index, kind, in_vec, in_len, out_vec, out_len)
            }
            None => {
                self.call_connection(
                    system, actor, handle, kind, in_vec, in_len, out_vec, out_len,
                )
            }
        }
    }
}
