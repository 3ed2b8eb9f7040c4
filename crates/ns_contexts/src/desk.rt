//! Whose turn it is among the contexts of a client.
ghost use Rattle.std.specs.Prelude.{◌≡◌, ◌≤◌, ◌<◌};
ghost use Rattle.ffm_model.specs.Contexts.{first_from, next_context};

use std::marker::Model;

fn next_context(count: u32, context: u32) -> u32
    requires { context < count }
    ensures next { result ≡ next_context count context }
    ensures within { result < count }
{
    if context + 1 == count { 0 } else { context + 1 }
}

// Of n contexts from one on, round and round, the first that hasn't ended.
fn first_from(count: u32, ended: &[bool; 8], context: u32, n: u32) -> Option<u32>
    requires few { count ≤ 8 }
    requires within { context < count }
    ensures { result ≡ first_from count ended.now context n }
{
    let mut at = context;
    for i in 0..n {
        if !ended[at as usize] {
            return Some(at);
        }
        at = next_context(count, at);
    }
    None
}

/// Lets one context at a time into the manager: how many contexts a client has, which are numbered
/// from 0, and whose turn it is.
#[derive(Drop)]
pub struct Desk {
    count: u32,
    turn: u32,
}

impl Model for Desk {
    ghost use Rattle.ffm_model.specs.Contexts.{DeskView};
    ghost use Rattle.ns_contexts.specs.Desks.{IsDesk};

    ghost Value = { DeskView };

    ghost view = { λ d. record { count = d.count; turn = d.turn } };

    ghost invariant = { λ d. IsDesk (record { count = d.count; turn = d.turn }) };
}

impl Desk {
    ghost use Rattle.std.specs.Prelude.{◌≡◌, ◌≤◌, ◌<◌, ◌↔◌, ℕ, false, true, IfSome, None, get_or};
    ghost use Rattle.ffm_model.specs.Contexts.{next_context, picked};

    /// A desk for this many contexts. The turn is context 0.
    pub fn new(count: u32) -> Desk
        requires some { 1 ≤ count }
        requires few { count ≤ 8 }
        ensures { result ≡ record { count = count; turn = 0 } }
    {
        Desk { count, turn: 0 }
    }

    /// A desk for this many contexts, where this one has the turn.
    pub fn at(count: u32, turn: u32) -> Desk
        requires few { count ≤ 8 }
        requires within { turn < count }
        ensures { result ≡ record { count = count; turn = turn } }
    {
        Desk { count, turn }
    }

    /// The context whose turn it is.
    pub fn turn(&self) -> u32
        ensures turn { result ≡ self.now.turn }
        ensures within { result < self.now.count }
    {
        self.turn
    }

    /// The first context from the turn on, round and round, that hasn't ended. None exactly where
    /// all have ended. Flags beyond the count say nothing.
    pub fn pick(&self, ended: [bool; 8]) -> Option<u32>
        ensures picked { result ≡ picked self.now ended }
        ensures within { IfSome result (λ k. k < self.now.count) }
        ensures none { (result ≡ None)
            ↔ ((k : ℕ) → k < self.now.count → get_or ended k false ≡ true) }
    {
        first_from(self.count, &ended, self.turn, self.count)
    }

    /// The turn is the context after this one, which was let in, and 0 after the last.
    pub fn served(&mut self, context: u32)
        requires { context < self.old.count }
        ensures { self.new ≡ record self.old { turn = next_context self.old.count context } }
    {
        self.turn = next_context(self.count, context);
    }
}
