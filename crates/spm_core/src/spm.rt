//! The manager.
ghost use Rattle.std.specs.Prelude.{◌≡◌, ◌<◌, ◌≤◌, ◌-◌, length, true, Some, None, IfOk, [], slice_get};
ghost use Rattle.ffm_model.specs.Actors.{actor_count};

use crate::actors::{is_enabled, is_pending, is_some_blocked, is_some_enabled, refused, shown};
use crate::perform::perform;
use ffm_model::{ActorId, Answer, Call, Entry, MAX_ENTRIES, Memory, Phase, System, Verdict};
use memory_image::Image;
use spm_tables::Tables;
use std::alloc::Global;
use std::marker::Model;
use std::snapshot::Snapshot;

/// The Secure Partition Manager of one system: its memory, what each actor does, and all events
/// so far.
///
/// Contracts see its opening (system, memory at the start and limit of the history), its history
/// and its present bytes. The history is always a run of the machine from that opening, in which
/// each handle shown is the name of its connection or message; the bytes are those of its state.
#[derive(Drop)]
pub struct Spm {
    system: System,
    limit: u32,
    opening: Snapshot<Image>,
    memory: Image,
    history: Vec<Entry>,
    tables: Tables,
}

impl Model for Spm {
    ghost use Rattle.std.specs.Prelude.{vec_capacity};
    ghost use Rattle.spm_core.specs.Manager.{Managed};
    ghost use Rattle.spm_core.specs.Performed.{Keeps};

    ghost Value = { Managed };

    ghost view = { λ m.
        record {
          opening = record { system = m.system; memory = m.opening.value; limit = m.limit };
          history = m.history.items;
          bytes = m.memory;
        } };

    ghost invariant = { λ m.
        Keeps (record { system = m.system; memory = m.opening.value; limit = m.limit })
        m.history.items m.memory m.tables (vec_capacity m.history) };
}

impl Spm {
    ghost use Rattle.std.specs.Prelude.{◌≡◌, ◌≢◌, ◌<◌, ◌≤◌, ◌-◌, ℕ, length, true, false, Some, None, IfOk, IfSome, [], slice_get};
    ghost use Rattle.ffm_model.specs.Actors.{actor_count};
    ghost use Rattle.ffm_model.specs.Step.{Run};
    ghost use Rattle.ffm_model.specs.Names.{names};
    ghost use Rattle.ffm_model.specs.Verdicts.{verdict_of};
    ghost use Rattle.ffm_model.specs.Ranges.{ranges_of};
    ghost use Rattle.memory_image.specs.Pieces.{byte_at, regions_of};
    ghost use Rattle.spm_core.specs.Manager.{StepAnswers, CallDue, refusal, is_actor_gone, awaits_return, state_of};
    ghost use Rattle.ffm_model.specs.Reach.{write_reach};
    ghost use Rattle.spm_core.specs.Views.{phase_in, pending_in, enabled_in, memory_in};

    /// A manager with an empty history, over an image of the system's regions. The history may have
    /// `limit` entries, from 1 to 262,144, and the memory for all of them is taken here: Err where
    /// there is none.
    pub fn new(alloc: Global, system: System, memory: Image, limit: u32) -> Result<Spm, Memory>
        requires regions { regions_of memory ≡ ranges_of system.regions }
        requires positive { 1 ≤ limit }
        requires limited { limit ≤ MAX_ENTRIES }
        ensures { IfOk result (λ m.
            m ≡ record {
              opening = record { system = system; memory = memory; limit = limit };
              history = [];
              bytes = memory;
            }) }
    {
        let tables = Tables::new(alloc, &system)?;
        tables.law();
        let history = Vec::with_capacity(alloc, limit as usize)?;
        let opening = Snapshot::of(&memory);
        Ok(Spm {
            system,
            limit,
            opening,
            memory,
            history,
            tables,
        })
    }

    /// Makes an event of an actor, or says why it isn't made. The actor is one of the system's, and
    /// the call is `Resume` exactly where the actor's last entry is Blocked, or the actor is gone.
    /// The answer is the first of these that holds: `Gone` where the actor has ended or panicked;
    /// `Over` where no actor can go on; `Full` where the history has as many entries as it may
    /// have; `NotYet` where this actor waits; and else `Made`, with the entry that the history now
    /// ends with and its place, counted from 1. It takes no memory, and no connection or message
    /// lacks a slot. A step that isn't made changes nothing, and one that is made changes bytes
    /// within its actor's reach alone.
    pub fn step(&mut self, actor: ActorId, call: Call) -> Answer
        requires exists { actor.0 < actor_count self.old.opening.system }
        requires due { CallDue self.old.opening self.old.history actor.0 call }
        ensures opening { self.new.opening ≡ self.old.opening }
        ensures answer { StepAnswers self.old.opening self.old.history actor.0
            call result self.new.history }
        ensures unchanged { refusal self.old.opening self.old.history actor.0 ≢ None
            → self.new ≡ self.old }
        ensures reach { IfSome (state_of self.old) (λ st.
            (x : ℕ) → write_reach self.old.opening.system st.spm actor.0 x ≡ false
            → byte_at self.new.bytes x ≡ byte_at self.old.bytes x) }
        ensures short { length self.new.history ≤ self.new.opening.limit }
        ensures limited { self.new.opening.limit ≤ MAX_ENTRIES }
    {
        let count = self.history.len();
        if let Some(answer) = refused(&self.system, &self.tables, self.limit, count, actor) {
            return answer;
        }
        let outcome = perform(
            &self.system,
            &mut self.tables,
            &mut self.memory,
            actor,
            call,
        );
        let entry = Entry {
            actor,
            call,
            outcome,
        };
        self.history.push_reserved(entry);
        Answer::Made {
            place: self.history.len() as u32,
            entry,
        }
    }

    /// Whether the actor's last call hasn't returned yet: it is blocked, waits for a signal, or is
    /// ready to return. For an actor that isn't gone, its last entry is then Blocked.
    pub fn pending(&self, actor: ActorId) -> bool
        requires { actor.0 < actor_count self.now.opening.system }
        ensures phase { pending_in self.now actor.0 ≡ Some result }
        ensures last { is_actor_gone self.now.opening self.now.history actor.0 ≡ false
            → result ≡ awaits_return self.now.history actor.0 }
    {
        is_pending(self.tables.phase(actor))
    }

    /// What the actor does. A client whose connection was accepted is ready to be told its handle.
    pub fn phase(&self, actor: ActorId) -> Phase
        requires { actor.0 < actor_count self.now.opening.system }
        ensures { phase_in self.now actor.0 ≡ Some result }
    {
        shown(&self.system, &self.tables, actor)
    }

    /// Whether the actor can go on: it runs, its answer is there, or a signal came that it waits for.
    pub fn enabled(&self, actor: ActorId) -> bool
        requires { actor.0 < actor_count self.now.opening.system }
        ensures { enabled_in self.now actor.0 ≡ Some result }
    {
        is_enabled(&self.tables, actor)
    }

    /// How the run ended: Quiet where no actor can go on and none is blocked, Stalled where none can
    /// and some is, Full where some can and the limit is reached. None exactly otherwise.
    pub fn verdict(&self) -> Option<Verdict>
        ensures { result ≡ verdict_of self.now.opening.system
            (byte_at self.now.opening.memory) self.now.opening.limit self.now.history }
    {
        if is_some_enabled(&self.system, &self.tables) {
            if self.history.len() == self.limit as usize {
                Some(Verdict::Full)
            } else {
                None
            }
        } else if is_some_blocked(&self.system, &self.tables) {
            Some(Verdict::Stalled)
        } else {
            Some(Verdict::Quiet)
        }
    }

    /// How many events were made: a run of the machine, in which each handle shown is the name of its
    /// connection or message.
    pub fn length(&self) -> u32
        ensures exact { result ≡ length self.now.history }
        ensures within { result ≤ self.now.opening.limit }
        ensures run { Run self.now.opening.system
            (byte_at self.now.opening.memory) self.now.history }
        ensures named { names self.now.opening.system
            (byte_at self.now.opening.memory) self.now.history ≡ true }
    {
        self.history.len() as u32
    }

    /// The event at a place, counted from 1.
    pub fn entry(&self, place: u32) -> Entry
        requires first { 1 ≤ place }
        requires last { place ≤ length self.now.history }
        ensures { slice_get self.now.history (place - 1) ≡ Some result }
    {
        self.history[place as usize - 1]
    }

    /// The present memory.
    pub fn image(&self) -> &Image
        ensures bytes { result.now ≡ self.now.bytes }
        ensures memory { memory_in self.now ≡ Some (byte_at result.now) }
        ensures regions { regions_of result.now ≡ ranges_of self.now.opening.system.regions }
    {
        &self.memory
    }

    /// The system.
    pub fn system(&self) -> &System
        ensures { result.now ≡ self.now.opening.system }
    {
        &self.system
    }

    /// The system and the events, without the memory and the tables, which are let go.
    pub fn into_run(self) -> (System, Vec<Entry>)
        ensures system { result.0 ≡ self.opening.system }
        ensures history { result.1.items ≡ self.history }
    {
        let Spm {
            system,
            history,
            ..
        } = self;
        (system, history)
    }

    /// The number of actors: at most 32 partitions, 16 non-secure clients and a device.
    pub fn actor_count(&self) -> u32
        ensures exact { result ≡ actor_count self.now.opening.system }
        ensures few { result ≤ 49 }
    {
        self.system.actor_count()
    }
}
