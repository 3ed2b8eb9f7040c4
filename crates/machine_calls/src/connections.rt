//! Connections, found by handle or by serial number.
ghost use Rattle.std.specs.Prelude.{◌≡◌, ◌==◌, ◌&&◌, not, ℕ, IfOk, find, filter, map};
ghost use Rattle.std.specs.Prelude as prelude;
ghost use Rattle.ffm_model.specs.State.{has_handle, connection_held, connection_by_serial, in_use, phase_put, rhandle_put, handle_put, with_connection_handle, with_connection_phase, with_message, with_request, with_rhandle, without_connection};
ghost use Rattle.machine_rules.specs.Vectors.{AreWithin};
ghost use Rattle.machine_calls.specs.Machine.{spm_of_objects, MessagesFit};

use crate::machine::Objects;
use ffm_model::{ActorId, ConnPhase, Handle, Memory, OpenConnection, PendingMessage, Vectors};

fn has_handle(connection: &OpenConnection, handle: Handle) -> bool
    ensures { result ≡ has_handle connection.now.handle handle }
{
    match connection.handle {
        Some(shown) => shown.0 == handle.0,
        None => false,
    }
}

fn held_by(connections: &[OpenConnection], client: u32, handle: Handle) -> Option<OpenConnection>
    ensures { result ≡ find
        (λ c. (c.client.0 == client) && has_handle c.handle handle) connections.now }
{
    let mut held = connections.iter().copied();
    held.find(|c| c.client.0 == client && has_handle(c, handle))
}

fn with_serial(connections: &[OpenConnection], serial: u32) -> Option<OpenConnection>
    ensures { result ≡ find (λ c. c.serial == serial) connections.now }
{
    connections.iter().copied().find(|c| c.serial == serial)
}

fn put_phase(connection: &mut OpenConnection, serial: u32, phase: ConnPhase)
    ensures { connection.new ≡ phase_put serial phase connection.old }
{
    if connection.serial == serial {
        connection.phase = phase;
    }
}

fn put_rhandle(connection: &mut OpenConnection, serial: u32, rhandle: u32)
    ensures { connection.new ≡ rhandle_put serial rhandle connection.old }
{
    if connection.serial == serial {
        connection.rhandle = rhandle;
    }
}

fn put_handle(connection: &mut OpenConnection, serial: u32, handle: Handle)
    ensures { connection.new ≡ handle_put serial handle connection.old }
{
    if connection.serial == serial {
        connection.handle = Some(handle);
    }
}

fn put_phases(connections: &mut [OpenConnection], serial: u32, phase: ConnPhase)
    ensures { connections.new ≡ map (phase_put serial phase) connections.old }
{
    for connection in connections.iter_mut() {
        put_phase(connection, serial, phase);
    }
}

fn put_rhandles(connections: &mut [OpenConnection], serial: u32, rhandle: u32)
    ensures { connections.new ≡ map (rhandle_put serial rhandle) connections.old }
{
    for connection in connections.iter_mut() {
        put_rhandle(connection, serial, rhandle);
    }
}

fn put_handles(connections: &mut [OpenConnection], serial: u32, handle: Handle)
    ensures { connections.new ≡ map (handle_put serial handle) connections.old }
{
    for connection in connections.iter_mut() {
        put_handle(connection, serial, handle);
    }
}

fn remove(connections: &mut Vec<OpenConnection>, serial: u32)
    ensures { connections.new.items ≡ filter (λ c. not (c.serial == serial)) connections.old.items }
{
    connections.retain(|c| c.serial != serial);
}

impl Objects {
    /// The connection that a client holds by a handle.
    pub fn connection_held(&self, client: u32, handle: Handle) -> Option<OpenConnection>
        ensures { result ≡ connection_held (spm_of_objects self.now) client handle }
    {
        held_by(self.connections.as_slice(), client, handle)
    }

    /// The connection with a serial number.
    pub fn connection_by_serial(&self, serial: u32) -> Option<OpenConnection>
        ensures { result ≡ connection_by_serial (spm_of_objects self.now) serial }
    {
        with_serial(self.connections.as_slice(), serial)
    }

    /// How many connections a client has to a service, in any phase.
    pub fn in_use(&self, client: u32, service: u32) -> usize
        ensures { result ≡ in_use (spm_of_objects self.now) client service }
    {
        let same = |c: &&OpenConnection| c.client.0 == client && c.service == service;
        self.connections.iter().filter(same).count()
    }

    /// Sets what the connection with a serial number does.
    pub fn set_connection_phase(&mut self, serial: u32, phase: ConnPhase)
        ensures state { spm_of_objects self.new
            ≡ with_connection_phase (spm_of_objects self.old) serial phase }
        ensures messages { self.new.messages ≡ self.old.messages }
        ensures made { self.new.connections_made ≡ self.old.connections_made }
    {
        put_phases(self.connections.as_mut_slice(), serial, phase);
    }

    /// Sets the value that comes with each message of the connection with a serial number.
    pub fn set_rhandle(&mut self, serial: u32, rhandle: u32)
        ensures state { spm_of_objects self.new
            ≡ with_rhandle (spm_of_objects self.old) serial rhandle }
        ensures messages { self.new.messages ≡ self.old.messages }
        ensures made { self.new.connections_made ≡ self.old.connections_made }
    {
        put_rhandles(self.connections.as_mut_slice(), serial, rhandle);
    }

    /// Gives the connection with a serial number its handle.
    pub fn set_connection_handle(&mut self, serial: u32, handle: Handle)
        ensures state { spm_of_objects self.new
            ≡ with_connection_handle (spm_of_objects self.old) serial handle }
        ensures messages { self.new.messages ≡ self.old.messages }
        ensures made { self.new.connections_made ≡ self.old.connections_made }
    {
        put_handles(self.connections.as_mut_slice(), serial, handle);
    }

    /// Removes the connection with a serial number.
    pub fn remove_connection(&mut self, serial: u32)
        ensures state { spm_of_objects self.new
            ≡ without_connection (spm_of_objects self.old) serial }
        ensures messages { self.new.messages ≡ self.old.messages }
        ensures made { self.new.connections_made ≡ self.old.connections_made }
    {
        remove(&mut self.connections, serial);
    }

    /// Adds a message of a connection; it goes last. It fits the regions where its vectors do.
    pub fn add_message(
        &mut self,
        connection: OpenConnection,
        kind: i32,
        vectors: Vectors,
    ) -> Result<(), Memory>
        ensures state { IfOk result (λ u.
            spm_of_objects self.new
            ≡ with_message (spm_of_objects self.old) connection kind vectors) }
        ensures made { self.new.connections_made ≡ self.old.connections_made }
        ensures fits { (regions : prelude.List (ℕ × ℕ)) → AreWithin regions vectors
            → MessagesFit regions self.old
            → MessagesFit regions self.new }
    {
        self.messages.push(PendingMessage {
            service: connection.service,
            client: connection.client,
            connection: Some(connection.serial),
            kind,
            vectors,
            handle: None,
        })?;
        Ok(())
    }

    /// Adds a request by a stateless handle; it goes last, and has no connection. It fits the regions where its vectors do.
    pub fn add_request(
        &mut self,
        client: ActorId,
        service: u32,
        kind: i32,
        vectors: Vectors,
    ) -> Result<(), Memory>
        ensures state { IfOk result (λ u.
            spm_of_objects self.new
            ≡ with_request (spm_of_objects self.old) client.0 service kind vectors) }
        ensures made { self.new.connections_made ≡ self.old.connections_made }
        ensures fits { (regions : prelude.List (ℕ × ℕ)) → AreWithin regions vectors
            → MessagesFit regions self.old
            → MessagesFit regions self.new }
    {
        self.messages.push(PendingMessage {
            service,
            client,
            connection: None,
            kind,
            vectors,
            handle: None,
        })?;
        Ok(())
    }
}
