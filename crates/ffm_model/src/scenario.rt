//! What a scenario says.

use crate::list::List;
use crate::machine::ActorId;
use crate::name::Name;
use std::alloc::Global;
use std::marker::Model;

/// The lines of one script: fewer than 2^31. Contracts see the list of them.
#[derive(Drop)]
pub struct Lines {
    texts: List<Name>,
}

impl Model for Lines {
    ghost use Rattle.std.specs.Prelude.{ℕ, ◌<◌, ◌^◌, List, length};

    ghost Value = { List (List ℕ) };

    ghost view = { λ lines. lines.texts };

    ghost invariant = { λ lines. length lines.texts < 2 ^ 31 };
}

impl Lines {
    ghost use Rattle.std.specs.Prelude.{◌≡◌, ◌<◌, ◌^◌, ◌==◌, [], IfSome, is_some, length, nat_lt};

    /// No lines. It takes no memory.
    pub fn none(alloc: Global) -> Lines
        ensures { result ≡ [] }
    {
        Lines {
            texts: List::of(Vec::new(alloc)),
        }
    }

    /// These lines. None exactly where there are 2^31 or more. It takes no memory.
    pub fn of(texts: List<Name>) -> Option<Lines>
        ensures exact { is_some result ≡ nat_lt (length texts) (2 ^ 31) }
        ensures lines { IfSome result (λ lines. lines ≡ texts) }
    {
        if texts.len() >= 1 << 31 {
            return None;
        }
        Some(Lines { texts })
    }

    /// The lines, lent.
    pub fn as_slice(&self) -> &[Name]
        ensures lines { result.now ≡ self.now }
        ensures few { length result.now < 2 ^ 31 }
    {
        self.texts.as_slice()
    }

    /// How many lines there are.
    pub fn len(&self) -> usize
        ensures { result ≡ length self.now }
    {
        self.texts.len()
    }

    /// Whether there is no line.
    pub fn is_empty(&self) -> bool
        ensures { result ≡ (length self.now == 0) }
    {
        self.texts.is_empty()
    }
}

/// Bytes at an address and after it.
#[derive(Drop)]
pub struct Bytes {
    pub address: u32,
    pub content: List<u8>,
}

/// An interrupt that the device makes, by the place of its source.
#[derive(Clone, Copy)]
pub struct RaiseItem {
    pub source: u32,
    /// What the source's first-level handler answers: 1 asks for its signal, 0 doesn't. None for a
    /// source without such a handler.
    pub result: Option<u32>,
}

/// What a scenario file says.
#[derive(Drop)]
pub struct Scenario {
    /// The most entries of the run: 1 to 262,144.
    pub limit: u32,
    /// The scripts of each actor, by actor: one, or up to eight of a non-secure client, in the file's
    /// order. An actor that the file gives no script has an empty one.
    pub lines: List<List<Lines>>,
    /// The actor of each script, in the file's order.
    pub order: List<ActorId>,
    /// The actors of the first turns.
    pub schedule: List<ActorId>,
    /// The interrupts that the device makes, in this order.
    pub raises: List<RaiseItem>,
    /// The bytes that the memory begins with, in this order; all others are 0.
    pub memory: List<Bytes>,
    /// How often the system is reset, at most, after a run in which a partition panicked: 0 to 15.
    pub restarts: u32,
}
