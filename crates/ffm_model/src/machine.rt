//! Actors, their calls, and what the machine answers.

/// An actor's number: partitions first, then non-secure clients, then the device.
#[derive(Clone, Copy, Debug, PartialEq, Eq)]
pub struct ActorId(pub u32);

/// The number by which clients ask for a service.
#[derive(Clone, Copy, Debug, PartialEq, Eq)]
pub struct Sid(pub u32);

/// What a service answers to a message.
#[derive(Clone, Copy, Debug, PartialEq, Eq)]
pub struct Status(pub i32);

/// The handle of a connection or of a message, or a stateless handle.
#[derive(Clone, Copy, Debug, PartialEq, Eq)]
pub struct Handle(pub i32);

/// A PROGRAMMER ERROR of the caller.
#[derive(Clone, Copy, Debug, PartialEq, Eq)]
pub struct Fault;

/// No memory was found.
#[derive(Clone, Copy, Debug, PartialEq, Eq)]
pub struct Memory;

/// What `psa_get` tells of a message: the fields of `psa_msg_t`.
#[derive(Clone, Copy, Debug, PartialEq, Eq)]
pub struct Message {
    pub kind: i32,
    pub handle: Handle,
    pub client_id: i32,
    pub rhandle: u32,
    pub in_size: [u32; 4],
    pub out_size: [u32; 4],
}

/// A call of the API, a memory access, an interrupt, a stop, or the return of a call that waited. Each
/// variant names the function of the standard's header that it is, or says that it is this simulator's.
/// Sizes and lengths are in bytes, but those of vectors, which are counts.
#[derive(Clone, Copy, Debug, PartialEq, Eq)]
pub enum Call {
    /// `psa_framework_version` of `psa/client.h`: which version of the framework is there.
    FrameworkVersion,
    /// `psa_version` of `psa/client.h`: the version of the service with that SID, or PSA_VERSION_NONE where
    /// there is none or the caller may not use it.
    Version {
        sid: Sid,
    },
    /// `psa_connect` of `psa/client.h`: asks the service with that SID for a connection. `version` is the
    /// version of the service that the client wants.
    Connect {
        sid: Sid,
        version: u32,
    },
    /// `psa_call` of `psa/client.h`: a request to the service of a connection, or to a stateless service by
    /// its handle. `kind` is the request's type, PSA_IPC_CALL or more. `in_vec` and `out_vec` are the
    /// addresses of the input and the output descriptors, `in_len` and `out_len` their counts, together at
    /// most PSA_MAX_IOVEC. A descriptor is 8 bytes, base and then length.
    Invoke {
        handle: Handle,
        kind: i32,
        in_vec: u32,
        in_len: u32,
        out_vec: u32,
        out_len: u32,
    },
    /// `psa_close` of `psa/client.h`: gives a connection back. PSA_NULL_HANDLE is allowed, and does nothing.
    Close {
        handle: Handle,
    },
    /// `psa_wait` of `psa/service.h`: which signals of `mask` are asserted. `timeout` is PSA_POLL, to be
    /// answered at once, or PSA_BLOCK, to wait until one is; the other bits of it mean nothing.
    Wait {
        mask: u32,
        timeout: u32,
    },
    /// `psa_get` of `psa/service.h`: takes the oldest message of the service with that signal, one bit. `msg`
    /// is the address at which the 48 bytes of `psa_msg_t` are written.
    Get {
        signal: u32,
        msg: u32,
    },
    /// `psa_set_rhandle` of `psa/service.h`: keeps a word of the service's own with the connection of a
    /// message. Later messages of that connection show it.
    SetRhandle {
        handle: Handle,
        rhandle: u32,
    },
    /// `psa_read` of `psa/service.h`: copies at most `len` bytes of a request's input vector, the one at
    /// `index` from 0 to 3, from where the last read or skip ended, to the address `buffer`.
    Read {
        handle: Handle,
        index: u32,
        buffer: u32,
        len: u32,
    },
    /// `psa_skip` of `psa/service.h`: passes at most `len` bytes of a request's input vector, the one at
    /// `index` from 0 to 3.
    Skip {
        handle: Handle,
        index: u32,
        len: u32,
    },
    /// `psa_write` of `psa/service.h`: copies `len` bytes from the address `buffer` to a request's output
    /// vector, the one at `index` from 0 to 3, after what was written to it.
    Write {
        handle: Handle,
        index: u32,
        buffer: u32,
        len: u32,
    },
    /// `psa_reply` of `psa/service.h`: answers a message, which is gone then. The status is the client's
    /// answer, but to a disconnection, whose client gets none.
    Reply {
        handle: Handle,
        status: Status,
    },
    /// `psa_notify` of `psa/service.h`: asserts PSA_DOORBELL of the partition with that ID, which is its
    /// place plus one.
    Notify {
        partition: i32,
    },
    /// `psa_clear` of `psa/service.h`: clears the caller's own PSA_DOORBELL.
    Clear,
    /// `psa_eoi` of `psa/service.h`: a second-level handler is done with the interrupt of that signal, one
    /// bit, which is cleared. Where the source is enabled and pending, it is asserted again at once.
    Eoi {
        signal: u32,
    },
    /// `psa_irq_enable` of `psa/service.h`, of the 1.1 Extensions: the source of that signal, one bit, is enabled,
    /// and an interrupt that is pending there asserts the signal at once; with a second-level handler only where it is
    /// clear.
    IrqEnable {
        signal: u32,
    },
    /// `psa_irq_disable` of `psa/service.h`, of the 1.1 Extensions: the source of that signal, one bit, is
    /// disabled, and the answer tells whether it was enabled.
    IrqDisable {
        signal: u32,
    },
    /// `psa_reset_signal` of `psa/service.h`, of the 1.1 Extensions: clears the signal, one bit, of a source with
    /// a first-level handler.
    ResetSignal {
        signal: u32,
    },
    /// `psa_panic` of `psa/service.h`: the partition panics, as at a PROGRAMMER ERROR.
    Panic,
    /// This simulator's: reads 1, 2 or 4 bytes at an address, little-endian.
    Load {
        address: u32,
        size: u32,
    },
    /// This simulator's: writes the low 1, 2 or 4 bytes of a value at an address, little-endian.
    Store {
        address: u32,
        size: u32,
        value: u32,
    },
    /// This simulator's, of the device alone: an interrupt of the source at that place, whose handler is a
    /// second-level one.
    Raise {
        source: u32,
    },
    /// This simulator's, of the device alone: an interrupt of the source at that place, whose handler is a
    /// first-level one. `result` is what the handler answers: 1 where its partition is to be told, and 0
    /// where it isn't.
    Fire {
        source: u32,
        result: u32,
    },
    /// This simulator's: the actor ends. `spent` says that its script ran 100,000 lines without a call and
    /// goes on with another such line; it is false at the script's end.
    Stop {
        spent: bool,
    },
    /// This simulator's: the return of a `psa_connect`, `psa_call`, `psa_close` or `psa_wait` that waited. Its
    /// outcome is that call's answer.
    Resume,
}

/// What the machine answers to a call.
#[derive(Clone, Copy, Debug, PartialEq, Eq)]
pub enum Outcome {
    Value(i32),
    Number(u32),
    Signals(u32),
    Got(Message),
    Blocked,
    Done,
    Panicked,
}

/// One event: an actor's call and its outcome.
#[derive(Clone, Copy, Debug, PartialEq, Eq)]
pub struct Entry {
    pub actor: ActorId,
    pub call: Call,
    pub outcome: Outcome,
}

/// What an actor does, as the manager shows it.
#[derive(Clone, Copy, Debug, PartialEq, Eq)]
pub enum Phase {
    Running,
    Blocked,
    Waiting { mask: u32 },
    Ready(Outcome),
    Ended,
    Panicked,
}

/// How a run ended.
#[derive(Clone, Copy, Debug, PartialEq, Eq)]
pub enum Verdict {
    /// No actor can go on, and none waits for an answer.
    Quiet,
    /// No actor can go on, and some wait for an answer.
    Stalled,
    /// Some actor can go on, and the run has as many entries as it may have.
    Full,
}

/// What the manager answers to an actor that wants to make a call.
#[derive(Clone, Copy, Debug, PartialEq, Eq)]
pub enum Answer {
    /// The call was made. Places are counted from 1.
    Made { place: u32, entry: Entry },
    /// The actor has ended or panicked.
    Gone,
    /// No actor can go on.
    Over,
    /// The run has as many entries as it may have.
    Full,
    /// The actor waits.
    NotYet,
}
