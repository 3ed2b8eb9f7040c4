//! The codes of refusals: what is wrong in the files that a command is given.

/// The file is no JSON text of depth at most 127, or isn't UTF-8.
pub const JSON: u8 = 1;

/// A required attribute isn't there.
pub const MISSING_ATTRIBUTE: u8 = 2;

/// A value is of a kind that its attribute doesn't allow.
pub const WRONG_TYPE: u8 = 3;

/// A value is of an allowed kind, outside its range.
pub const BAD_VALUE: u8 = 4;

/// A partition or a client has an earlier one's name.
pub const DUPLICATE_PARTITION: u8 = 5;

/// A service has an earlier one's name.
pub const DUPLICATE_SERVICE: u8 = 6;

/// A service has an earlier one's SID.
pub const DUPLICATE_SID: u8 = 7;

/// A dependency names no service.
pub const UNKNOWN_DEPENDENCY: u8 = 8;

/// A partition depends on a service of its own.
pub const SELF_DEPENDENCY: u8 = 9;

/// Partitions depend on each other in a circle.
pub const DEPENDENCY_CYCLE: u8 = 10;

/// The services and interrupts of a partition are more than 28.
pub const TOO_MANY_SIGNALS: u8 = 11;

/// An MMIO item names no region of the system file.
pub const REGION_UNKNOWN: u8 = 12;

/// An MMIO region shares a byte with an earlier one or with RAM.
pub const REGION_OVERLAP: u8 = 13;

/// There are more than 32 manifests.
pub const TOO_MANY_PARTITIONS: u8 = 14;

/// The budgets of all permitted pairs add to more than 256.
pub const TOO_MANY_CONNECTIONS: u8 = 15;

/// A budget is given to a pair that isn't permitted, or to one of a stateless service.
pub const BUDGET_WITHOUT_PERMISSION: u8 = 16;

/// An interrupt source has an earlier one's name.
pub const DUPLICATE_IRQ_SOURCE: u8 = 17;

/// A region, or all regions together, are too large.
pub const MEMORY_TOO_LARGE: u8 = 18;

/// A line of a script is wrong.
pub const SCRIPT_SYNTAX: u8 = 19;

/// The scenario names an actor or a source that the system doesn't have.
pub const UNKNOWN_ACTOR: u8 = 20;

/// A service states the index of an earlier one's stateless handle.
pub const DUPLICATE_STATELESS_INDEX: u8 = 21;

/// There are more than 32 stateless services.
pub const TOO_MANY_STATELESS: u8 = 22;

/// A file is longer than its limit.
pub const FILE_TOO_LONG: u8 = 23;

/// A trace file isn't the text of a trace.
pub const TRACE_SYNTAX: u8 = 24;
