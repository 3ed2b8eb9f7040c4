//! The parts of the machine's state.

use crate::machine::{ActorId, Handle, Outcome};

/// A vector of a request, and how many of its bytes were moved.
#[derive(Clone, Copy, Debug, Default, PartialEq, Eq)]
pub struct Span {
    pub base: u32,
    pub len: u32,
    pub moved: u32,
}

/// The vectors of a request; one that isn't given has length 0.
#[derive(Clone, Copy)]
pub struct Vectors {
    pub input: [Span; 4],
    pub output: [Span; 4],
    /// Where the descriptors of the output vectors lie.
    pub out_vec: u32,
    /// How many of them are given.
    pub out_len: u32,
}

/// What a connection does.
#[derive(Clone, Copy, Debug, PartialEq, Eq)]
pub enum ConnPhase {
    /// Its service hasn't answered `psa_connect` yet.
    Opening,
    Idle,
    /// A request is on its way.
    Busy,
    /// A request was answered with PROGRAMMER ERROR.
    Error,
    /// Its service hasn't answered the disconnection yet.
    Closing,
    /// Its service's partition panicked.
    Dead,
}

/// A connection of a state.
#[derive(Clone, Copy)]
pub struct OpenConnection {
    /// The number of connections that were made before it.
    pub serial: u32,
    pub client: ActorId,
    pub service: u32,
    pub phase: ConnPhase,
    pub rhandle: u32,
    /// None until its client was told.
    pub handle: Option<Handle>,
}

/// A message of a state, from the call that made it to the reply.
#[derive(Clone, Copy)]
pub struct PendingMessage {
    pub service: u32,
    pub client: ActorId,
    /// The serial number of its connection. None where it was sent by a stateless handle.
    pub connection: Option<u32>,
    pub kind: i32,
    pub vectors: Vectors,
    /// None until it was delivered.
    pub handle: Option<Handle>,
}

/// What an actor does in a state.
#[derive(Clone, Copy, Debug, PartialEq, Eq)]
pub enum ActorPhase {
    Running,
    Blocked,
    Waiting { mask: u32 },
    Ready(Outcome),
    /// Its connection with this serial number was accepted, and the handle is still to be told.
    Connected(u32),
    Ended,
    Panicked,
}

/// The flags of an interrupt source.
#[derive(Clone, Copy, Debug, PartialEq, Eq)]
pub struct SourceFlags {
    pub enabled: bool,
    pub pending: bool,
    pub asserted: bool,
}
