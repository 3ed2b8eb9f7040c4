//! The connections of a manager.

ghost use Rattle.std.specs.Prelude.{◌≡◌, ◌<◌, ◌≤◌, ◌==◌, ◌&&◌, ◌↔◌, length, IsTrue, IsSome, IfSome, Some, find, All, option_and_then, nat_le, slice_get};
ghost use Rattle.ffm_model.specs.State.{connection_held, in_use, has_handle, with_connection_phase, with_rhandle, with_connection_handle, without_connection};
ghost use Rattle.ffm_model.specs.ClientCalls.{new_connection};
ghost use Rattle.object_pools.specs.Pool.{Places, most_takes, empty, taken, free_slot, item_at, without, with_item, IsKept, AddsUp};
ghost use Rattle.handle_table.specs.declared.handles.Family.TheVariants as family;
ghost use Rattle.handle_table.specs.declared.handles.Family.{Family as TheFamily};
ghost use Rattle.object_pools.specs.declared.slot.Slot.{Slot as TheSlot};
ghost use Rattle.handle_table.specs.Handles.{handle_at, IsNameable};
ghost use Rattle.handle_table.specs.Table.{connections, spm_of_connections, with_started, connection_of, is_owned_from, IsTable};

use crate::handles::{Family, handle_of, slot_of};
use ffm_model::{ActorId, ConnPhase, Handle, OpenConnection};
use object_pools::{Held, Pool, Slot};
use std::marker::Model;

/// What is told of a connection.
#[derive(Clone, Copy, Debug, PartialEq, Eq)]
pub struct Connection {
    /// The client.
    pub owner: ActorId,
    /// The service's place in the system's list of services, counted from 0.
    pub service: u32,
    /// What it does.
    pub phase: ConnPhase,
    /// What its service set by `psa_set_rhandle`; 0 before.
    pub rhandle: u32,
    /// How many connections were started before it.
    pub serial: u32,
}

/// The connections of a manager, at most 256 at once, each under a slot from its start until it is freed. The slot that a call is
/// given has a connection, but for `is_live`, which tells so.
///
/// Contracts see them as a pool of the machine's connections, in the order of their starts.
#[derive(Drop)]
pub struct Connections {
    pool: Pool<OpenConnection, 256>,
}

impl Model for Connections {
    ghost use Rattle.object_pools.specs.Pool.{Places};
    ghost use Rattle.ffm_model.specs.declared.objects.OpenConnection.{OpenConnection};

    ghost Value = { Places OpenConnection };

    ghost use Rattle.handle_table.specs.Table.{IsTable};

    ghost view = { λ c. c.pool };

    ghost invariant = { λ c. IsTable c.pool };
}

fn is_told(connection: &OpenConnection, handle: Handle) -> bool
    ensures { result ≡ has_handle connection.now.handle handle }
{
    match connection.handle {
        Some(told) => told.0 == handle.0,
        None => false,
    }
}

fn is_held_by(connection: &OpenConnection, owner: ActorId, handle: Handle) -> bool
    ensures { result ≡ (connection.now.client.0 == owner.0)
        && has_handle connection.now.handle handle }
{
    connection.client.0 == owner.0 && is_told(connection, handle)
}

fn is_between(connection: &OpenConnection, owner: ActorId, service: u32) -> bool
    ensures { result ≡ (connection.now.client.0 == owner.0) && (connection.now.service == service) }
{
    connection.client.0 == owner.0 && connection.service == service
}

fn is_owned_from(connection: &OpenConnection, owner: ActorId, from: u32) -> bool
    ensures { result ≡ is_owned_from owner.0 from connection.now }
{
    connection.client.0 == owner.0 && from <= connection.serial
}

// The slot that a handle names, where it is that of a connection.
fn connection_slot(handle: Handle) -> Option<Slot>
    ensures { (slot : TheSlot) → IsNameable family.Connection slot
        → handle_at family.Connection slot ≡ handle
        → result ≡ Some slot }
{
    match slot_of(handle) {
        Some((Family::Connection, slot)) => Some(slot),
        _ => None,
    }
}

impl Connections {
    /// No connection yet, and room for `size`, at most 256.
    pub fn new(size: u32) -> Connections
        requires { size ≤ 256 }
        ensures { result ≡ empty size }
    {
        Connections {
            pool: Pool::new(size),
        }
    }

    /// How many connections there are.
    pub fn live(&self) -> u32
        ensures { result ≡ length self.now.held }
    {
        self.pool.live()
    }

    /// How many connections there can be at once.
    pub fn size(&self) -> u32
        ensures { result ≡ length self.now.generations }
    {
        self.pool.size()
    }

    /// How many connections were started.
    pub fn made(&self) -> u32
        ensures { result ≡ self.now.takes }
    {
        self.pool.takes()
    }

    /// Says what every table of connections keeps. It does nothing.
    pub fn law(&self)
        ensures pool { IsKept 256 self.now }
        ensures table { IsTable self.now }
        ensures adds_up { AddsUp self.now }
    {
        self.pool.law();
        self.pool.law_of_takes();
    }

    /// Whether a slot has a connection.
    pub fn is_live(&self, slot: Slot) -> bool
        ensures { IsTrue result ↔ IsSome (item_at self.now slot) }
    {
        self.pool.get(slot).is_some()
    }

    /// The connection at a place in the order of the starts, counted from 0 and below `live`, with its slot, in constant time.
    pub fn nth(&self, place: u32) -> Held<OpenConnection>
        requires { place < length self.now.held }
        ensures { slice_get self.now.held place ≡ Some result }
    {
        self.pool.nth(place)
    }

    /// An Opening connection with rhandle 0, no handle told, and the next serial number, in the slot that is free. There is room for
    /// one more, and fewer than 1,048,575 were started.
    pub fn start(&mut self, owner: ActorId, service: u32) -> Slot
        requires room { length self.old.held < length self.old.generations }
        requires few { self.old.takes < most_takes }
        ensures slot { free_slot self.old ≡ Some result }
        ensures after { self.new
            ≡ taken self.old result (new_connection (spm_of_connections self.old) owner.0 service) }
        ensures state { spm_of_connections self.new ≡ with_started (spm_of_connections self.old)
            (new_connection (spm_of_connections self.old) owner.0 service) }
    {
        let connection = OpenConnection {
            serial: self.pool.takes(),
            client: owner,
            service,
            phase: ConnPhase::Opening,
            rhandle: 0,
            handle: None,
        };
        match self.pool.take(connection) {
            Ok(slot) => slot,
            Err(_) => unreachable!(),
        }
    }

    /// The connection of this owner that was told this handle, in constant time; None exactly where there is none.
    pub fn find(&self, owner: ActorId, handle: Handle) -> Option<Slot>
        ensures connection { option_and_then (item_at self.now) result
            ≡ connection_held (spm_of_connections self.now) owner.0 handle }
        ensures live { IfSome result (λ slot. IsSome (item_at self.now slot)) }
    {
        self.pool.law();
        let slot = connection_slot(handle)?;
        let connection = self.pool.get(slot)?;
        if is_held_by(connection, owner, handle) {
            Some(slot)
        } else {
            None
        }
    }

    /// What is told of a connection.
    pub fn connection(&self, slot: Slot) -> Connection
        requires { IsSome (item_at self.now slot) }
        ensures { IfSome (item_at self.now slot) (λ c. result ≡ connection_of c) }
    {
        let connection = self.open_at(slot);
        Connection {
            owner: connection.client,
            service: connection.service,
            phase: connection.phase,
            rhandle: connection.rhandle,
            serial: connection.serial,
        }
    }

    /// Changes the phase of a connection.
    pub fn set_phase(&mut self, slot: Slot, phase: ConnPhase)
        requires { IsSome (item_at self.old slot) }
        ensures item { IfSome (item_at self.old slot) (λ c.
            self.new ≡ with_item self.old slot (record c { phase = phase })) }
        ensures state { IfSome (item_at self.old slot) (λ c.
            spm_of_connections self.new
            ≡ with_connection_phase (spm_of_connections self.old) c.serial phase) }
    {
        let mut connection = self.open_at(slot);
        connection.phase = phase;
        self.pool.set(slot, connection);
    }

    /// Changes the rhandle of a connection.
    pub fn set_rhandle(&mut self, slot: Slot, rhandle: u32)
        requires { IsSome (item_at self.old slot) }
        ensures item { IfSome (item_at self.old slot) (λ c.
            self.new ≡ with_item self.old slot (record c { rhandle = rhandle })) }
        ensures state { IfSome (item_at self.old slot) (λ c.
            spm_of_connections self.new
            ≡ with_rhandle (spm_of_connections self.old) c.serial rhandle) }
    {
        let mut connection = self.open_at(slot);
        connection.rhandle = rhandle;
        self.pool.set(slot, connection);
    }

    /// Tells the owner of a connection its handle, so that `find` finds it.
    pub fn tell(&mut self, slot: Slot) -> Handle
        requires { IsSome (item_at self.old slot) }
        ensures handle { result ≡ handle_at family.Connection slot }
        ensures item { IfSome (item_at self.old slot) (λ c.
            self.new ≡ with_item self.old slot (record c { handle = Some result })) }
        ensures state { IfSome (item_at self.old slot) (λ c.
            spm_of_connections self.new
            ≡ with_connection_handle (spm_of_connections self.old) c.serial result) }
    {
        let mut connection = self.open_at(slot);
        let handle = handle_of(Family::Connection, slot);
        connection.handle = Some(handle);
        self.pool.set(slot, connection);
        handle
    }

    /// Ends a connection; its slot is free.
    pub fn free(&mut self, slot: Slot)
        requires { IsSome (item_at self.old slot) }
        ensures rest { self.new ≡ without self.old slot }
        ensures state { IfSome (item_at self.old slot) (λ c.
            spm_of_connections self.new
            ≡ without_connection (spm_of_connections self.old) c.serial) }
    {
        self.pool.law();
        self.pool.put_back(slot);
    }

    /// How many connections there are between an owner and a service, in any phase.
    pub fn in_use(&self, owner: ActorId, service: u32) -> u32
        ensures { result ≡ in_use (spm_of_connections self.now) owner.0 service }
    {
        let mut count = 0;
        for place in 0..self.pool.live() {
            let held = self.pool.nth(place);
            if is_between(&held.item, owner, service) {
                count += 1;
            }
        }
        count
    }

    /// The connection of this owner with the least serial number from this one on; None exactly where there is none.
    pub fn first_of(&self, owner: ActorId, from: u32) -> Option<Slot>
        ensures connection { option_and_then (item_at self.now) result
            ≡ find (is_owned_from owner.0 from) (connections self.now) }
        ensures live { IfSome result (λ slot. IsSome (item_at self.now slot)) }
        ensures least { IfSome (option_and_then (item_at self.now) result) (λ c.
            All (λ d. IsTrue (is_owned_from owner.0 from d) → c.serial ≤ d.serial)
            (connections self.now)) }
    {
        self.pool.law();
        for place in 0..self.pool.live() {
            let candidate = self.pool.nth(place);
            if is_owned_from(&candidate.item, owner, from) {
                return Some(candidate.slot);
            }
        }
        None
    }

    fn open_at(&self, slot: Slot) -> OpenConnection
        requires { IsSome (item_at self.now slot) }
        ensures item { item_at self.now slot ≡ Some result }
        ensures kept { IsKept 256 self.now }
    {
        self.pool.law();
        match self.pool.get(slot).copied() {
            Some(connection) => connection,
            None => unreachable!(),
        }
    }
}
