//! For which actors a thread may be started.

use ffm_model::ActorId;

/// Asked before a thread is started for an actor.
pub trait Starts {
    /// Whether one may be started. Where it may not, the actor's work goes the way of a thread that
    /// couldn't be started.
    fn may_start(&self, actor: ActorId) -> bool;
}

/// A thread may be started for every actor.
#[derive(Clone, Copy, Debug, Default)]
pub struct EveryStart;

impl Starts for EveryStart {
    fn may_start(&self, actor: ActorId) -> bool {
        let _ = actor;
        true
    }
}
