//! What a seat of the table knows. No value of these types is made.

use ffm_model::Entry;
use spm_core::Spm;
use std::collections::LinkedList;

/// The right to make one actor's entries, how many turns it had, and its front: the history as it
/// stood at the last of them.
pub struct Right {
    pub actor: u32,
    pub turns: u64,
    pub front: LinkedList<Entry>,
}

/// What a seat does with a ticket.
pub enum Stage {
    Idle,
    /// With this ticket.
    Waits(u64),
    /// The manager, with the ticket that is served.
    Has(u64),
}

/// `start` is the manager as it was shared. The rights of the actors from `next` up to `last` are
/// still to be split off.
pub struct View {
    pub start: Spm,
    pub next: u32,
    pub last: u32,
    pub rights: LinkedList<Right>,
    pub stage: Stage,
}
