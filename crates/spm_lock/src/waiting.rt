//! Where threads wait: for the turn, and while their actor can't go on.
ghost use Rattle.std.specs.Prelude.{◌≡◌, ◌<◌};
ghost use Rattle.ffm_model.specs.Actors.{actor_count};

use crate::table::{DRAWN, SERVED, TurnTable};
use ffm_model::{ActorId, Answer, Memory};
use spm_core::Spm;
use std::alloc::Global;
use std::hint;
use std::sync::atomic::{AtomicU64, Ordering};
use std::sync::{Mutex, Wait};
use std::thread::Parker;

// How many turns others may take in front of the first at the door.
const PASSES: u64 = 50;

// How long the first at the door pauses between two looks.
const DOOR_PAUSE: u32 = 20;

// How often a thread looks before it parks.
const LOOKS: u32 = 200;

/// What the threads of one shared manager wait by.
///
/// Only a few tickets are out at a time: while somebody has the manager, one thread looks from the
/// door whether it is free, and the others sleep behind it. An actor that was told that it can't go
/// on rests until the event that changes this, or until the run has ended.
#[derive(Drop)]
pub(crate) struct WaitingRoom {
    // Taken by the one that looks.
    door: Mutex<()>,
    // How many turns others may still take in front of it.
    passes: AtomicU64,
    // How many ticket holders park.
    parked: AtomicU64,
    // The set of actors that were told that they can't go on, and weren't called since. Only who has
    // the manager changes it.
    resting: AtomicU64,
    // One for each actor.
    parkers: Vec<Parker>,
}

/// A set of actors, of which no system has more than 49: the bit at each one's number.
#[derive(Clone, Copy)]
pub(crate) struct ActorSet(u64);

impl ActorSet {
    const EMPTY: ActorSet = ActorSet(0);

    fn of(actor: ActorId) -> ActorSet {
        ActorSet(1 << (actor.0 % 64))
    }

    fn is_empty(self) -> bool {
        self.0 == 0
    }

    fn has(self, actor: ActorId) -> bool {
        self.0 & ActorSet::of(actor).0 != 0
    }

    fn with(self, actor: ActorId) -> ActorSet {
        ActorSet(self.0 | ActorSet::of(actor).0)
    }

    fn without(self, others: ActorSet) -> ActorSet {
        ActorSet(self.0 & !others.0)
    }
}

// How many tickets are drawn and not served yet, behind this one that is served.
fn tickets_out(table: &TurnTable, served: u64) -> u64
    requires { table.now.shared.table_id.words ≡ 3 }
{
    table.shared.peek(DRAWN).wrapping_sub(served)
}

fn pause() {
    for _ in 0..DOOR_PAUSE {
        hint::spin_loop();
    }
}

// Whether the manager would no longer tell the actor to wait.
fn is_due(manager: &Spm, actor: ActorId, ended: bool) -> bool
    requires { actor.0 < actor_count manager.now.opening.system }
{
    ended || manager.enabled(actor) || !manager.pending(actor)
}

impl WaitingRoom {
    ghost use Rattle.std.specs.Prelude.{◌≡◌};

    /// A room for so many actors, where nobody waits. Err where there is no memory.
    pub(crate) fn for_actors(alloc: Global, count: u32) -> Result<WaitingRoom, Memory> {
        let mut parkers = Vec::with_capacity(alloc, count as usize)?;
        for _ in 0..count {
            parkers.push_reserved(Parker::new());
        }
        Ok(WaitingRoom {
            door: Mutex::new(()),
            passes: AtomicU64::new(u64::MAX),
            parked: AtomicU64::new(0),
            resting: AtomicU64::new(0),
            parkers,
        })
    }

    // Whether a thread may draw a ticket in front of the first at the door. Where two ask at once, one
    // pass may count for both.
    fn may_pass(&self) -> bool {
        let left = self.passes.load(Ordering::SeqCst);
        self.passes.store(left.saturating_sub(1), Ordering::SeqCst);
        left != 0
    }

    /// Waits before a ticket is drawn, where somebody has the manager or the first at the door was
    /// passed often.
    pub(crate) fn enter<R: Wait>(&self, rt: &R, table: &TurnTable)
        requires { table.now.shared.table_id.words ≡ 3 }
    {
        if tickets_out(table, table.shared.peek(SERVED)) == 0 && self.may_pass() {
            return;
        }
        let _first = self.door.lock(rt);
        self.passes.store(PASSES, Ordering::SeqCst);
        self.await_free(rt, table);
        self.passes.store(u64::MAX, Ordering::SeqCst);
    }

    // Waits until nobody has the manager.
    fn await_free<R: Wait>(&self, rt: &R, table: &TurnTable)
        requires { table.now.shared.table_id.words ≡ 3 }
    {
        let mut looks: u32 = 0;
        for _ in rt.forever() {
            let served = table.shared.peek(SERVED);
            if tickets_out(table, served) == 0 {
                return;
            }
            pause();
            self.await_change(rt, table, served, looks);
            looks = looks.saturating_add(1);
        }
    }

    /// Waits until the number that is served may have changed: a moment, and after many looks parked.
    pub(crate) fn await_change<R: Wait>(&self, rt: &R, table: &TurnTable, served: u64, looks: u32)
        requires { table.now.shared.table_id.words ≡ 3 }
    {
        if looks < LOOKS {
            hint::spin_loop();
            return;
        }
        self.parked.fetch_add(1, Ordering::SeqCst);
        table.shared.park(rt, SERVED, (served & 0xffff_ffff) as u32);
        self.parked.fetch_sub(1, Ordering::SeqCst);
    }

    fn resting(&self) -> ActorSet {
        ActorSet(self.resting.load(Ordering::SeqCst))
    }

    fn set_resting(&self, actors: ActorSet) {
        self.resting.store(actors.0, Ordering::SeqCst);
    }

    /// Told by who has the manager what an actor was answered. Gives the actors that are to be called.
    pub(crate) fn told(&self, manager: &Spm, actor: ActorId, answer: Answer) -> ActorSet {
        let resting = self.resting();
        match answer {
            Answer::NotYet => {
                self.set_resting(resting.with(actor));
                ActorSet::EMPTY
            }
            Answer::Made { .. } if !resting.is_empty() => {
                let due = due_of(manager, resting);
                self.set_resting(resting.without(due));
                due
            }
            _ => ActorSet::EMPTY,
        }
    }

    /// Calls the next ticket's holder, and the actors that are due.
    pub(crate) fn call(&self, table: &TurnTable, due: ActorSet)
        requires { table.now.shared.table_id.words ≡ 3 }
    {
        if self.parked.load(Ordering::SeqCst) != 0 {
            table.shared.wake_all(SERVED);
        }
        if due.is_empty() {
            return;
        }
        for (n, parker) in (0..u64::BITS).zip(&self.parkers) {
            if due.has(ActorId(n)) {
                parker.unpark();
            }
        }
    }

    /// Sleeps until the actor is called, where it was told that it can't go on yet.
    pub(crate) fn rest<R: Wait>(&self, rt: &R, actor: ActorId) {
        let Some(parker) = self.parkers.get(actor.0 as usize) else {
            return;
        };
        for _ in rt.forever() {
            if !self.resting().has(actor) {
                return;
            }
            parker.park(rt);
        }
    }
}

// Which of those that rest the manager would no longer tell to wait.
fn due_of(manager: &Spm, resting: ActorSet) -> ActorSet {
    let ended = manager.verdict().is_some();
    let mut due = ActorSet::EMPTY;
    for n in 0..manager.actor_count() {
        let actor = ActorId(n);
        if resting.has(actor) && is_due(manager, actor, ended) {
            due = due.with(actor);
        }
    }
    due
}
