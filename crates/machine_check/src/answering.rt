//! What the machine answers at a state.
ghost use Rattle.std.specs.Prelude.{◌≡◌, ◌<◌, ◌^◌, false, true, IfOk, MatchOption};
ghost use Rattle.std.specs.Prelude as prelude;
ghost use Rattle.ffm_model.specs.declared.machine.Handle.{Handle as HandleSeen};
ghost use Rattle.machine_check.specs.Performed.{is_left, Knows};
ghost use Rattle.machine_check.specs.Reaching.{IsDue};
ghost use Rattle.machine_calls.specs.Machine.{state_of, IsMachineOf};

use crate::judging::Checker;
use crate::step::{LAST_HANDLE, gave_handle, may_call, perform};
use ffm_model::{ActorId, Call, Handle, Memory, Outcome, System};
use std::collections::BTreeSet;

// A handle that isn't among those given: the body takes the least, the clause any. None where all are.
fn least_left(given: &BTreeSet<i32>) -> Option<Handle>
    ensures { MatchOption result ((h : HandleSeen) → is_left given.now h ≡ false) (λ h.
        is_left given.now h ≡ true) }
{
    for number in 1..LAST_HANDLE as u32 + 1 {
        let handle = Handle(number as i32);
        if !given.contains(&handle.0) {
            return Some(handle);
        }
    }
    None
}

impl Checker {
    /// What the machine answers to a call of an actor that is made here: the outcome with which the call is the
    /// machine's next step, whatever limit the trace has. Where the call gives a handle, the outcome shows one,
    /// from 1 to 0x3fffffff, that no entry gave.
    ///
    /// None where the call is no step with any outcome: there is no such actor, it can't go on, another call
    /// of it is to return first, no call of it is to return, or no handle is left to give.
    ///
    /// It takes the state, since the call changes it. `Memory` where memory is wanting. The state is one of
    /// this system with fewer than 2^31 connections made, as `reached` gives it.
    pub fn due(self, system: &System, actor: ActorId, call: Call) -> Result<Option<Outcome>, Memory>
        requires kept { IsMachineOf system.now self.machine }
        requires few { self.machine.objects.connections_made < 2 ^ 31 }
        ensures { (handles : prelude.List HandleSeen) → Knows self.given handles
            → IfOk result (λ due.
            IsDue system.now (state_of self.machine handles) actor.0 call due) }
    {
        let Checker {
            mut machine,
            given,
            ..
        } = self;
        if !may_call(system, &machine.objects, actor, call) {
            return Ok(None);
        }
        let phase = machine.objects.phase(actor.0);
        let handle = least_left(&given);
        let outcome = perform(
            &mut machine,
            system,
            actor,
            call,
            handle.unwrap_or(Handle(0)),
        )?;
        if handle.is_none() && gave_handle(phase, call, outcome) {
            return Ok(None);
        }
        Ok(Some(outcome))
    }
}
