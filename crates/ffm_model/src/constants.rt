//! The constants of the standard's headers, and the limits of this profile.

/// The version of the framework that `psa_framework_version` answers: 1.1.
pub const PSA_FRAMEWORK_VERSION: u32 = 0x0101;

/// What a manifest of version 1.0 is written for.
pub const FRAMEWORK_1_0: u32 = 0x0100;

/// What a manifest of version 1.1 is written for.
pub const FRAMEWORK_1_1: u32 = 0x0101;

/// What `psa_version` answers where there is no such service for the caller.
pub const PSA_VERSION_NONE: u32 = 0;

/// The handle that no connection has.
pub const PSA_NULL_HANDLE: i32 = 0;

/// The most input and output vectors of one `psa_call`, together.
pub const PSA_MAX_IOVEC: u32 = 4;

/// The least kind of a request. `psa_call` makes messages of this kind and of those above it.
pub const PSA_IPC_CALL: i32 = 0;

/// The kind of a message that `psa_connect` makes.
pub const PSA_IPC_CONNECT: i32 = -1;

/// The kind of a message that `psa_close` or the panic of a client makes.
pub const PSA_IPC_DISCONNECT: i32 = -2;

/// A connection or a request was accepted.
pub const PSA_SUCCESS: i32 = 0;

/// A client broke a rule of the API.
pub const PSA_ERROR_PROGRAMMER_ERROR: i32 = -129;

/// A connection was refused.
pub const PSA_ERROR_CONNECTION_REFUSED: i32 = -130;

/// The service or the manager has no room for another connection.
pub const PSA_ERROR_CONNECTION_BUSY: i32 = -131;

/// No such item exists. Nothing is answered with it in this profile, whose machine has no call that finds items by name.
pub const PSA_ERROR_DOES_NOT_EXIST: i32 = -140;

/// The service of a connection, or of a request without one, is gone.
pub const PSA_ERROR_COMMUNICATION_FAILURE: i32 = -145;

/// The mask of each signal that a partition may have, for `psa_wait`.
pub const PSA_WAIT_ANY: u32 = 0xffff_ffff;

/// The bit of a time-out that makes `psa_wait` wait.
pub const PSA_BLOCK: u32 = 0x8000_0000;

/// The time-out at which `psa_wait` answers at once, perhaps with no signal.
pub const PSA_POLL: u32 = 0;

/// The signal that `psa_notify` asserts.
pub const PSA_DOORBELL: u32 = 0x0000_0008;

/// The most partitions of a system.
pub const MAX_PARTITIONS: u32 = 32;

/// The most non-secure clients of a system.
pub const MAX_CLIENTS: u32 = 16;

/// The most services and interrupts of a partition, together: each has a bit from 4 to 31.
pub const MAX_SIGNALS: u32 = 28;

/// The most connections that a system may declare.
pub const MAX_CONNECTIONS: u32 = 256;

/// What a stateless handle has above its index.
pub const STATELESS_BASE: u32 = 0x4000_0000;

/// The most stateless services of a system, and so the greatest index of one.
pub const MAX_STATELESS: u32 = 32;

/// Where the RAM of partitions begins.
pub const RAM_BASE: u32 = 0x3000_0000;

/// Where the RAM of non-secure clients begins.
pub const NON_SECURE_RAM_BASE: u32 = 0x2000_0000;

/// The most bytes of one region: 1 MiB.
pub const MAX_REGION_BYTES: u32 = 1_048_576;

/// The most bytes of all regions of a system together: 16 MiB.
pub const MAX_IMAGE_BYTES: u32 = 16_777_216;

/// The least stack of a partition whose services are functions: its messages are read there.
pub const MIN_FUNCTION_STACK: u32 = 48;

/// The most scripts of one non-secure client, one for each thread of its operating system.
pub const MAX_CONTEXTS: u32 = 8;

/// The most resets of one scenario.
pub const MAX_RESTARTS: u32 = 15;

/// The most bytes of a file that isn't a trace: 1 MiB.
pub const MAX_FILE_BYTES: u32 = 1_048_576;

/// The most lines of a script.
pub const MAX_SCRIPT_LINES: u32 = 4_096;

/// The most entries of a run.
pub const MAX_ENTRIES: u32 = 262_144;
