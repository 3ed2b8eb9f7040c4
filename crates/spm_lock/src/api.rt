//! The shared manager as the simulator sees it.

use crate::pass::Pass;
use crate::shared::Shared;
use ffm_model::{ActorId, Answer, Api, Call};
use std::sync::Wait;

impl Api for Shared {
    ghost use Rattle.spm_lock.specs.Passes.{IsOwn, IsDone, record_of};

    type Pass = Pass;

    ghost own = { IsOwn };

    ghost actor_of = { λ p. p.actor };

    ghost record_of = { record_of };

    ghost is_done = { IsDone };

    fn actor(&self, pass: &Pass) -> ActorId {
        pass.actor()
    }

    fn issue<R: Wait>(&self, rt: &R, pass: &mut Pass, call: Call) -> Answer {
        Shared::issue(self, rt, pass, call)
    }

    fn resume<R: Wait>(&self, rt: &R, pass: &mut Pass) -> Answer {
        Shared::resume(self, rt, pass)
    }

    fn rest<R: Wait>(&self, rt: &R, pass: &Pass) {
        Shared::rest(self, rt, pass);
    }
}
