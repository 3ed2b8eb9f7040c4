//! Traces.

use crate::list::List;
use crate::machine::{Entry, Verdict};
use std::marker::Model;

/// The entries of a run and how it ended.
#[derive(Drop)]
pub struct Trace {
    pub entries: List<Entry>,
    pub verdict: Verdict,
}

/// How many actors of each kind a system has: at most 32 partitions, at most 16 clients, and
/// perhaps a device.
#[derive(Clone, Copy, Debug, PartialEq, Eq)]
pub struct Counts {
    pub partitions: u32,
    pub clients: u32,
    pub device: bool,
}

impl Model for Counts {
    ghost use Rattle.std.specs.Prelude.{◌≤◌};
    ghost use Rattle.ffm_model.specs.Counts.{ActorCounts};

    ghost Value = { ActorCounts };

    ghost view = { λ c.
        record { partitions = c.partitions; clients = c.clients; device = c.device } };

    ghost invariant = { λ c. (c.partitions ≤ 32) × (c.clients ≤ 16) };

    ghost inverse = { λ v.
        record { partitions = v.partitions; clients = v.clients; device = v.device } };
}
