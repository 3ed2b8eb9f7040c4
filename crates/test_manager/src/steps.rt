//! Runs of interrupts, made step by step, with calls of the device that no scenario has.

use crate::setup::{CLIENT, DEVICE, TICK, UART, VAULT, image_of, system};
use ffm_model::{
    ActorId, Answer, Call, Entry, Outcome, PSA_ERROR_PROGRAMMER_ERROR, PSA_POLL, Verdict,
};
use spm_core::Spm;
use std::alloc::Global;
use std::process::Abort;
use std::test::Fail;

/// An actor, the call that it makes, and the outcome.
struct Event(ActorId, Call, Outcome);

const POLL: Call = Call::Wait {
    mask: TICK | UART,
    timeout: PSA_POLL,
};

const ENABLE: Call = Call::IrqEnable { signal: TICK };

const DISABLE: Call = Call::IrqDisable { signal: TICK };

const RESET: Call = Call::ResetSignal { signal: TICK };

const FIRE: Call = Call::Fire {
    source: 0,
    result: 1,
};

const STOP: Call = Call::Stop { spent: false };

// One psa_reset_signal clears what two interrupts asserted, and none of them is pending then. What comes while the
// source is disabled is kept.
const FIRED_TWICE: &[Event] = &[
    Event(DEVICE, FIRE, Outcome::Done),
    Event(VAULT, POLL, Outcome::Signals(0)),
    Event(VAULT, ENABLE, Outcome::Done),
    Event(DEVICE, FIRE, Outcome::Done),
    Event(VAULT, POLL, Outcome::Signals(TICK)),
    Event(VAULT, RESET, Outcome::Done),
    Event(VAULT, POLL, Outcome::Signals(0)),
    Event(VAULT, ENABLE, Outcome::Done),
    Event(VAULT, POLL, Outcome::Signals(0)),
    Event(VAULT, DISABLE, Outcome::Number(1)),
    Event(DEVICE, STOP, Outcome::Done),
    Event(CLIENT, STOP, Outcome::Done),
    Event(VAULT, RESET, Outcome::Panicked),
];

const ERROR: Outcome = Outcome::Value(PSA_ERROR_PROGRAMMER_ERROR);

// The device is answered, and goes on. The signal of the disabled source isn't asserted.
const ERRORS: &[Event] = &[
    // A source with a first-level handler isn't raised, and one with a second-level handler isn't fired.
    Event(DEVICE, Call::Raise { source: 0 }, ERROR),
    Event(
        DEVICE,
        Call::Fire {
            source: 1,
            result: 1,
        },
        ERROR,
    ),
    // A first-level handler answers 0 or 1.
    Event(
        DEVICE,
        Call::Fire {
            source: 0,
            result: 2,
        },
        ERROR,
    ),
    Event(
        DEVICE,
        Call::Fire {
            source: 0,
            result: u32::MAX,
        },
        ERROR,
    ),
    // No source has the number.
    Event(DEVICE, Call::Raise { source: 2 }, ERROR),
    Event(
        DEVICE,
        Call::Fire {
            source: 2,
            result: 0,
        },
        ERROR,
    ),
    Event(VAULT, POLL, Outcome::Signals(0)),
    Event(DEVICE, Call::Raise { source: 1 }, Outcome::Done),
    Event(
        DEVICE,
        Call::Fire {
            source: 0,
            result: 0,
        },
        Outcome::Done,
    ),
    Event(DEVICE, FIRE, Outcome::Done),
    Event(DEVICE, STOP, Outcome::Done),
    Event(CLIENT, STOP, Outcome::Done),
    Event(VAULT, POLL, Outcome::Signals(UART)),
    Event(VAULT, Call::Panic, Outcome::Panicked),
];

// What the manager answers.
fn answered(rt: &impl Abort, manager: &mut Spm, actor: ActorId, call: Call) -> Answer {
    assert!(rt; actor.0 < manager.actor_count());
    let returns = matches!(call, Call::Resume);
    assert!(rt; manager.pending(actor) == returns);
    manager.step(actor, call)
}

// Makes the events in order, each with its outcome.
fn make_all(rt: &impl Abort, manager: &mut Spm, events: &[Event]) {
    for (place, Event(actor, call, outcome)) in (1..100).zip(events) {
        let entry = Entry {
            actor: *actor,
            call: *call,
            outcome: *outcome,
        };
        let answer = answered(rt, manager, *actor, *call);
        assert!(rt; answer == Answer::Made { place, entry }, "at {place}");
    }
}

// A manager of runs from the start.
fn manager(rt: &impl Abort, alloc: Global) -> Result<Spm, Fail> {
    let system = system(alloc)?;
    let image = image_of(rt, alloc, &system)?;
    Ok(Spm::new(alloc, system, image, 30)?)
}

#[test]
fn runs_of_interrupts(rt: HostRuntime) -> Result<(), Fail> {
    for events in [FIRED_TWICE, ERRORS] {
        let mut manager = manager(&rt, rt.alloc())?;
        make_all(&rt, &mut manager, events);
        assert!(rt; manager.verdict() == Some(Verdict::Quiet));
    }
    Ok(())
}
