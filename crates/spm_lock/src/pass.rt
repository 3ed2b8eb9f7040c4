//! One actor's token.
ghost use Rattle.std.specs.Prelude.{◌≡◌};
ghost use Rattle.ffm_model.specs.Records.{ends_blocked, outcomes_of};
ghost use Rattle.spm_lock.specs.Passes.{record_of};

use crate::table::TurnSeat;
use ffm_model::ActorId;
use std::marker::Model;

/// The right to make one actor's calls of a shared manager.
///
/// Contracts see whose it is and of which shared manager, how many turns it had, and its front: the
/// history as it stood at the last of them. Its record is its actor's entries in the front, which are
/// those that it was answered.
#[derive(Drop)]
pub struct Pass {
    pub(crate) seat: TurnSeat,
    pub(crate) actor: ActorId,
    pub(crate) pending: bool,
}

impl Model for Pass {
    ghost use Rattle.spm_lock.specs.Passes.{PassView, IsAtRest, front, turns};

    ghost Value = { PassView };

    ghost view = { λ p.
        record {
          table = p.seat.table_id;
          opening = p.seat.me.0.start.opening;
          actor = p.actor.0;
          turns = turns p.seat.me;
          front = front p.seat.me;
        } };

    ghost invariant = { λ p. IsAtRest p.actor.0 p.pending p.seat.me };
}

impl Pass {
    /// The actor.
    pub fn actor(&self) -> ActorId
        ensures { result.0 ≡ self.now.actor }
    {
        self.actor
    }

    /// Whether the last entry that the pass was answered is `Blocked`, so that the next is a return.
    pub fn pending(&self) -> bool
        ensures { result ≡ ends_blocked (outcomes_of (record_of self.now)) }
    {
        self.pending
    }
}
