//! Calls one after another: the condition of each is met by what those before it left.

ghost use Rattle.std.specs.Prelude.{◌≡◌, ◌≤◌, ◌+◌, IfOk};
ghost use Rattle.law_counting.specs.Objects.{ObjectsFit};
ghost use Rattle.law_calls.specs.Premises.{AreLeft, Premises, PremisesWithMemory, KeepsFit};
ghost use Rattle.spm_tables.specs.TablesView.{shape_of, spm_of};
ghost use Rattle.test_manager.specs.Running.{IsRunning};

use crate::setup::{CLIENT, COUNT_SIGNAL, KEYS, KEYS_SIGNAL, VAULT, image_of, ready, runs, system};
use client_calls::{close, connect, invoke};
use ffm_model::{
    ActorId, ActorPhase, Fault, Handle, Message, Outcome, PSA_IPC_CONNECT, PSA_IPC_DISCONNECT,
    PSA_NULL_HANDLE, Sid, Status, System,
};
use memory_image::Image;
use service_calls::{get, read, reply};
use spm_tables::Tables;
use std::process::Abort;
use std::test::Fail;

/// A client and the partition that serves it: its signal, and where it puts messages and the bytes of vectors.
#[derive(Clone, Copy)]
struct Pair {
    client: ActorId,
    partition: ActorId,
    signal: u32,
    buffer: u32,
    bytes: u32,
}

/// What a client's life with a connection showed.
#[derive(Clone, Copy, Debug, PartialEq)]
struct Life {
    /// The kind of the message of `psa_connect`, and its handle.
    connecting: (i32, Handle),
    /// The handle that the client was told.
    handle: Handle,
    /// How many bytes of the request's vector were read, and the outcome of `psa_call`.
    request: (u32, Outcome),
    /// The kind of the message of `psa_close`, and its handle.
    closing: (i32, Handle),
    /// The outcome of `psa_close`.
    closed: Outcome,
    /// What a second `psa_close` with that handle answers.
    again: Result<Outcome, Fault>,
}

// The return of psa_connect where the service accepted: the handle that the client is told. The client runs on.
fn told(system: &System, tables: &mut Tables, client: ActorId) -> Result<Handle, Fault>
    requires premises { Premises system.now tables.old }
    ensures running { IfOk result (λ h. IsRunning tables.new client.0) }
    ensures fits { ObjectsFit system.now (spm_of tables.new) }
    ensures queue { (spm_of tables.new).messages ≡ (spm_of tables.old).messages }
    ensures shape { shape_of tables.new ≡ shape_of tables.old }
    ensures takes { tables.new.messages.takes ≡ tables.old.messages.takes }
{
    let ActorPhase::Connected(serial) = tables.phase(client) else {
        return Err(Fault);
    };
    tables.law();
    let Some(slot) = tables.connections().first_of(client, serial) else {
        return Err(Fault);
    };
    let handle = tables.tell(slot);
    tables.set_phase(client, ActorPhase::Running);
    Ok(handle)
}

// The outcome of a client's call that was answered; the client runs on.
fn returned(tables: &mut Tables, client: ActorId) -> Result<Outcome, Fault>
    ensures running { IfOk result (λ o. IsRunning tables.new client.0) }
    ensures fits { KeepsFit tables.old tables.new }
    ensures queue { (spm_of tables.new).messages ≡ (spm_of tables.old).messages }
    ensures shape { shape_of tables.new ≡ shape_of tables.old }
    ensures takes { tables.new.messages.takes ≡ tables.old.messages.takes }
{
    match tables.phase(client) {
        ActorPhase::Ready(outcome) => {
            tables.set_phase(client, ActorPhase::Running);
            Ok(outcome)
        }
        _ => Err(Fault),
    }
}

// The partition gets a message and replies to it.
fn answered(
    system: &System,
    tables: &mut Tables,
    image: &mut Image,
    pair: Pair,
    status: Status,
) -> Result<Message, Fault>
    requires premises { PremisesWithMemory system.now tables.old image.old }
    ensures premises { IfOk result (λ m. PremisesWithMemory system.now tables.new image.new) }
    ensures takes { tables.new.messages.takes ≡ tables.old.messages.takes }
{
    let partition = pair.partition;
    let message = get(system, tables, image, partition, pair.signal, pair.buffer)?;
    match reply(system, tables, image, partition, message.handle, status)? {
        None => Ok(message),
        Some(_) => Err(Fault),
    }
}

// The client connects, and the partition accepts; the call returns. The message, and the handle that the client is told.
fn connected(
    system: &System,
    tables: &mut Tables,
    image: &mut Image,
    pair: Pair,
    sid: Sid,
    version: u32,
) -> Result<(Message, Handle), Fault>
    requires premises { PremisesWithMemory system.now tables.old image.old }
    requires connections { AreLeft tables.old.connections.takes }
    requires messages { AreLeft tables.old.messages.takes }
    requires running { IsRunning tables.old pair.client.0 }
    ensures premises { IfOk result (λ r. PremisesWithMemory system.now tables.new image.new) }
    ensures running { IfOk result (λ r. IsRunning tables.new pair.client.0) }
    ensures takes { tables.new.messages.takes ≤ tables.old.messages.takes + 1 }
{
    connect(system, tables, pair.client, sid, version)?;
    let message = answered(system, tables, image, pair, Status(0))?;
    Ok((message, told(system, tables, pair.client)?))
}

// The partition gets a request, reads of its first vector and replies. How many bytes were read.
fn fulfilled(
    system: &System,
    tables: &mut Tables,
    image: &mut Image,
    pair: Pair,
    status: Status,
) -> Result<u32, Fault>
    requires premises { PremisesWithMemory system.now tables.old image.old }
    ensures premises { IfOk result (λ n. PremisesWithMemory system.now tables.new image.new) }
    ensures takes { tables.new.messages.takes ≡ tables.old.messages.takes }
{
    let partition = pair.partition;
    let message = get(system, tables, image, partition, pair.signal, pair.buffer)?;
    let handle = message.handle;
    let moved = read(system, tables, image, partition, handle, 0, pair.bytes, 8)?;
    match reply(system, tables, image, partition, handle, status)? {
        None => Ok(moved),
        Some(_) => Err(Fault),
    }
}

// The client makes a request with one input vector, whose descriptor lies at `vector`, and the partition serves it; the call
// returns. How many bytes were read, and the outcome of the request.
fn served(
    system: &System,
    tables: &mut Tables,
    image: &mut Image,
    pair: Pair,
    handle: Handle,
    kind: i32,
    vector: u32,
    status: Status,
) -> Result<(u32, Outcome), Fault>
    requires premises { PremisesWithMemory system.now tables.old image.old }
    requires messages { AreLeft tables.old.messages.takes }
    requires running { IsRunning tables.old pair.client.0 }
    ensures premises { IfOk result (λ r. PremisesWithMemory system.now tables.new image.new) }
    ensures running { IfOk result (λ r. IsRunning tables.new pair.client.0) }
    ensures takes { tables.new.messages.takes ≤ tables.old.messages.takes + 1 }
{
    invoke(
        system,
        tables,
        image,
        pair.client,
        handle,
        kind,
        vector,
        1,
        0,
        0,
    )?;
    let moved = fulfilled(system, tables, image, pair, status)?;
    Ok((moved, returned(tables, pair.client)?))
}

// The client closes a connection, and the partition is told; the call returns. The message, and the outcome.
fn closed(
    system: &System,
    tables: &mut Tables,
    image: &mut Image,
    pair: Pair,
    handle: Handle,
) -> Result<(Message, Outcome), Fault>
    requires premises { PremisesWithMemory system.now tables.old image.old }
    requires messages { AreLeft tables.old.messages.takes }
    requires running { IsRunning tables.old pair.client.0 }
    ensures premises { IfOk result (λ r. PremisesWithMemory system.now tables.new image.new) }
    ensures running { IfOk result (λ r. IsRunning tables.new pair.client.0) }
    ensures takes { tables.new.messages.takes ≤ tables.old.messages.takes + 1 }
{
    close(tables, pair.client, handle)?;
    let message = answered(system, tables, image, pair, Status(0))?;
    Ok((message, returned(tables, pair.client)?))
}

// The client connects, makes a request and closes the connection; then it closes that once more.
fn lived(
    system: &System,
    tables: &mut Tables,
    image: &mut Image,
    pair: Pair,
    sid: Sid,
    version: u32,
    vector: u32,
) -> Result<Life, Fault>
    requires premises { PremisesWithMemory system.now tables.old image.old }
    requires connections { AreLeft tables.old.connections.takes }
    requires messages { AreLeft (tables.old.messages.takes + 3) }
    requires running { IsRunning tables.old pair.client.0 }
{
    let (connecting, handle) = connected(system, tables, image, pair, sid, version)?;
    let request = served(system, tables, image, pair, handle, 7, vector, Status(5))?;
    let (closing, outcome) = closed(system, tables, image, pair, handle)?;
    Ok(Life {
        connecting: (connecting.kind, connecting.handle),
        handle,
        request,
        closing: (closing.kind, closing.handle),
        closed: outcome,
        again: close(tables, pair.client, handle),
    })
}

// A client's life with a connection, over tables at their start.
fn assert_connection_lived(rt: &impl Abort, system: &System, tables: &mut Tables, image: &mut Image)
    requires premises { PremisesWithMemory system.now tables.old image.old }
    requires connections { tables.old.connections.takes ≡ 0 }
    requires messages { tables.old.messages.takes ≡ 0 }
{
    assert!(rt; runs(tables, CLIENT));
    let pair = Pair {
        client: CLIENT,
        partition: VAULT,
        signal: KEYS_SIGNAL,
        buffer: 0x3000_0100,
        bytes: 0x3000_0200,
    };
    let life = lived(system, tables, image, pair, KEYS, 2, 0x2000_0000);
    let due = Life {
        connecting: (PSA_IPC_CONNECT, Handle(1536)),
        handle: Handle(1024),
        request: (4, Outcome::Value(5)),
        closing: (PSA_IPC_DISCONNECT, Handle(3584)),
        closed: Outcome::Done,
        again: Err(Fault),
    };
    assert!(rt; life == Ok(due), "{life:?}");
    assert!(rt; tables.phase(CLIENT) == ActorPhase::Running);
    assert!(rt; tables.connections().live() == 0);
}

fn assert_bytes(rt: &impl Abort, image: &Image, bytes: [(u32, u32); 5]) {
    for (address, byte) in bytes {
        assert!(rt; image.locate(address).is_some());
        assert!(rt; image.load(address, 1) == byte, "at {address:#x}");
    }
}

// What was read of the vector, and the first byte of the message of psa_close, where the others were.
const BYTES_OF_LIFE: [(u32, u32); 5] = [
    (0x3000_0200, 0x0b),
    (0x3000_0201, 0x16),
    (0x3000_0202, 0x21),
    (0x3000_0203, 0x2c),
    (0x3000_0100, 0xfe),
];

#[test]
fn connects_and_closes(rt: HostRuntime) -> Result<(), Fail> {
    let system = system(rt.alloc())?;
    let mut image = image_of(&rt, rt.alloc(), &system)?;
    let mut tables = ready(rt.alloc(), &system)?;
    assert_connection_lived(&rt, &system, &mut tables, &mut image);
    assert_bytes(&rt, &image, BYTES_OF_LIFE);
    Ok(())
}

// The client makes a request by a stateless handle, and closes the null handle. What came of each.
fn served_once(
    system: &System,
    tables: &mut Tables,
    image: &mut Image,
    pair: Pair,
    handle: Handle,
    vector: u32,
) -> Result<((u32, Outcome), Outcome), Fault>
    requires premises { PremisesWithMemory system.now tables.old image.old }
    requires messages { AreLeft (tables.old.messages.takes + 1) }
    requires running { IsRunning tables.old pair.client.0 }
{
    let request = served(system, tables, image, pair, handle, 7, vector, Status(5))?;
    let null = Handle(PSA_NULL_HANDLE);
    Ok((request, close(tables, pair.client, null)?))
}

// A client's request by a stateless handle, over tables at their start.
fn assert_request_served(rt: &impl Abort, system: &System, tables: &mut Tables, image: &mut Image)
    requires premises { PremisesWithMemory system.now tables.old image.old }
    requires messages { tables.old.messages.takes ≡ 0 }
{
    assert!(rt; runs(tables, CLIENT));
    let pair = Pair {
        client: CLIENT,
        partition: VAULT,
        signal: COUNT_SIGNAL,
        buffer: 0x3000_0100,
        bytes: 0x3000_0100,
    };
    let handle = Handle(0x4000_0001);
    let done = served_once(system, tables, image, pair, handle, 0x2000_0000);
    assert!(rt;
        done == Ok(((4, Outcome::Value(5)), Outcome::Done)),
        "{done:?}"
    );
    assert!(rt; tables.phase(CLIENT) == ActorPhase::Running);
}

// What was read of the vector, over the first bytes of the message that psa_get wrote, and a byte of its handle.
const BYTES_OF_REQUEST: [(u32, u32); 5] = [
    (0x3000_0100, 0x0b),
    (0x3000_0101, 0x16),
    (0x3000_0102, 0x21),
    (0x3000_0103, 0x2c),
    (0x3000_0105, 6),
];

#[test]
fn makes_a_request(rt: HostRuntime) -> Result<(), Fail> {
    let system = system(rt.alloc())?;
    let mut image = image_of(&rt, rt.alloc(), &system)?;
    let mut tables = ready(rt.alloc(), &system)?;
    assert_request_served(&rt, &system, &mut tables, &mut image);
    assert_bytes(&rt, &image, BYTES_OF_REQUEST);
    Ok(())
}
