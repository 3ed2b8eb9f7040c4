//! A manager that answers each actor by itself, and writes down what it and its gate are asked.

use ffm_model::{ActorId, Answer, Api, Call, Entry, Gate, Handle, Message, Outcome};
use std::alloc::{AllocError, Global};
use std::cell::Cell;
use std::sync::Wait;

/// Answers each actor from its own pass, or where `over` is set that no actor can go on. As a gate it writes down two
/// digits for each event, the actor and the event's number, and as a manager 9 and the actor for each rest. There is
/// room for nine pairs; of too many the digits are `u64::MAX`.
#[derive(Drop)]
pub(crate) struct Alone {
    over: bool,
    digits: Cell<u64>,
}

impl Alone {
    pub(crate) fn new(over: bool) -> Alone {
        Alone {
            over,
            digits: Cell::new(0),
        }
    }

    /// The digits so far.
    pub(crate) fn digits(&self) -> u64 {
        self.digits.get()
    }

    fn note(&self, tens: u32, units: u32) {
        let two = tens.saturating_mul(10).saturating_add(units);
        let digits = self.digits.get();
        self.digits
            .set(digits.saturating_mul(100).saturating_add(u64::from(two)));
    }
}

/// An actor and its entries.
#[derive(Drop)]
pub(crate) struct Log {
    pub(crate) actor: ActorId,
    pub(crate) entries: Vec<Entry>,
    // How often a return is put off.
    delays: u32,
    panicked: bool,
    done: bool,
}

impl Log {
    ghost use Rattle.std.specs.Prelude.{◌≡◌, [], true, IfOk};
    ghost use Rattle.ffm_model.specs.Passes.{IsAnswered};

    /// No entry, with room for some.
    pub(crate) fn new(
        alloc: Global,
        actor: u32,
        room: usize,
        delays: u32,
    ) -> Result<Log, AllocError>
        ensures { IfOk result (λ l. l.entries.items ≡ []) }
    {
        Ok(Log {
            actor: ActorId(actor),
            entries: Vec::with_capacity(alloc, room)?,
            delays,
            panicked: false,
            done: false,
        })
    }

    fn add(&mut self, call: Call, outcome: Outcome) -> Answer
        ensures actor { self.new.actor ≡ self.old.actor }
        ensures answer { IsAnswered self.old.actor.0 call result self.old.entries.items
            self.new.entries.items (self.new.done ≡ true) }
    {
        if self.entries.len() >= self.entries.capacity() {
            self.done = true;
            return Answer::Full;
        }
        let entry = Entry {
            actor: self.actor,
            call,
            outcome,
        };
        self.entries.push_reserved(entry);
        self.panicked = matches!(call, Call::Panic);
        self.done = matches!(call, Call::Stop { .. });
        Answer::Made { place: 1, entry }
    }
}

// The message that is got: one vector each way, of four bytes.
const MESSAGE: Message = Message {
    kind: 0,
    handle: Handle(5),
    client_id: -1,
    rhandle: 0,
    in_size: [4, 0, 0, 0],
    out_size: [4, 0, 0, 0],
};

fn outcome_of(call: Call) -> Outcome {
    match call {
        Call::Wait { .. } => Outcome::Blocked,
        Call::Get { .. } => Outcome::Got(MESSAGE),
        Call::Panic => Outcome::Panicked,
        Call::Reply { .. } | Call::Stop { .. } => Outcome::Done,
        _ => Outcome::Number(0),
    }
}

impl Api for Alone {
    ghost use Rattle.std.specs.Prelude.{◌≡◌, true};

    type Pass = Log;

    ghost own = { λ a l. Unit {0} };

    ghost actor_of = { λ l. l.actor.0 };

    ghost record_of = { λ l. l.entries.items };

    ghost is_done = { λ l. l.done ≡ true };

    fn actor(&self, pass: &Log) -> ActorId {
        pass.actor
    }

    fn issue<R: Wait>(&self, _rt: &R, pass: &mut Log, call: Call) -> Answer {
        if self.over {
            pass.done = true;
            return Answer::Over;
        }
        if pass.panicked {
            pass.done = true;
            return Answer::Gone;
        }
        pass.add(call, outcome_of(call))
    }

    fn resume<R: Wait>(&self, _rt: &R, pass: &mut Log) -> Answer {
        if pass.delays > 0 {
            pass.delays -= 1;
            return Answer::NotYet;
        }
        pass.add(Call::Resume, Outcome::Signals(1))
    }

    fn rest<R: Wait>(&self, _rt: &R, pass: &Log) {
        self.note(9, pass.actor.0);
    }
}

impl Gate for Alone {
    fn arrive(&self, actor: ActorId, count: u32) {
        self.note(actor.0, count);
    }
}
