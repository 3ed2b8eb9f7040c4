//! What the simulator asks of a shared manager, and of whoever watches the order of events.
ghost use Rattle.std.specs.Prelude.{◌≡◌, ℕ, List};
ghost use Rattle.ffm_model.specs.declared.machine.Entry.{Entry};
ghost use Rattle.ffm_model.specs.declared.machine.Call.TheVariants.{Resume};
ghost use Rattle.ffm_model.specs.Passes.{MayIssue, MayResume, IsAnswered};

use crate::machine::{ActorId, Answer, Call};
use std::sync::Wait;

/// A manager that several actors share, each by a pass of its own.
///
/// `own` says that a pass is this object's, `actor_of` whose it is, `record_of` which entries it
/// was answered, and `is_done` that its actor makes no further event.
pub trait Api {
    type Pass;

    ghost own: { Self → Self.Pass → Type 0 };

    ghost actor_of: { Self.Pass → ℕ };

    ghost record_of: { Self.Pass → List Entry };

    ghost is_done: { Self.Pass → Type 0 };

    /// The actor of a pass.
    fn actor(&self, pass: &Self::Pass) -> ActorId
        ensures { result.0 ≡ actor_of pass.now };

    /// Makes a call that is no return, or says why it isn't made. It may wait for the turn.
    fn issue<R: Wait>(&self, rt: &R, pass: &mut Self::Pass, call: Call) -> Answer
        requires own { own self.now pass.old }
        requires may { MayIssue (record_of pass.old) call }
        ensures own { own self.now pass.new }
        ensures actor { actor_of pass.new ≡ actor_of pass.old }
        ensures answer { IsAnswered (actor_of pass.old) call result (record_of pass.old)
            (record_of pass.new) (is_done pass.new) };

    /// Returns from the call that was blocked, or says why it doesn't. It may wait for the turn.
    fn resume<R: Wait>(&self, rt: &R, pass: &mut Self::Pass) -> Answer
        requires own { own self.now pass.old }
        requires may { MayResume (record_of pass.old) }
        ensures own { own self.now pass.new }
        ensures actor { actor_of pass.new ≡ actor_of pass.old }
        ensures answer { IsAnswered (actor_of pass.old) Resume result (record_of pass.old)
            (record_of pass.new) (is_done pass.new) };

    /// Waits a while, where the pass was last answered that its actor can't go on yet. It promises
    /// nothing: the actor may be as far as it was. By itself it doesn't wait.
    fn rest<R: Wait>(&self, rt: &R, pass: &Self::Pass)
        requires own { own self.now pass.now }
    {
        let _ = rt;
        let _ = pass;
    }
}

/// Asked before each event's first try.
pub trait Gate {
    /// An actor is about to try its event with this number, counted from 1.
    fn arrive(&self, actor: ActorId, count: u32);
}

/// A gate that is always open.
#[derive(Clone, Copy, Debug, Default)]
pub struct OpenGate;

impl Gate for OpenGate {
    fn arrive(&self, actor: ActorId, count: u32) {
        let _ = (actor, count);
    }
}
