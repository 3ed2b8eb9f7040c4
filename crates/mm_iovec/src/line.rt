//! The lines that concern the vectors of messages, and what each does.

use ffm_model::{Call, Handle};

/// A line of a partition's script that concerns a vector of a message. `index` is the vector's, from 0
/// to 3; `buffer` is an address, and `len` counts bytes.
#[derive(Clone, Copy)]
pub enum MmLine {
    /// Maps an input vector: its bytes are copied into its window.
    MapIn {
        handle: Handle,
        index: u32,
    },
    /// Unmaps an input vector.
    UnmapIn {
        handle: Handle,
        index: u32,
    },
    /// Maps an output vector to its window, which keeps its bytes.
    MapOut {
        handle: Handle,
        index: u32,
    },
    /// Unmaps an output vector: the first `len` bytes of its window are copied to the client.
    UnmapOut {
        handle: Handle,
        index: u32,
        len: u32,
    },
    /// `psa_read` of an input vector.
    Read {
        handle: Handle,
        index: u32,
        buffer: u32,
        len: u32,
    },
    /// `psa_skip` of an input vector.
    Skip {
        handle: Handle,
        index: u32,
        len: u32,
    },
    /// `psa_write` to an output vector.
    Write {
        handle: Handle,
        index: u32,
        buffer: u32,
        len: u32,
    },
}

/// What a line does.
#[derive(Clone, Copy)]
pub enum MmStep {
    /// It makes this call.
    Calls(Call),
    /// It makes no call; r0 gets this number, where there is one.
    Local { r0: Option<u32> },
    /// It breaks a rule: the script's next call is Panic.
    Fault,
}
