//! The manager that threads share.
ghost use Rattle.std.specs.Prelude.{◌≡◌, ℕ, ◌+◌, ◌<◌, [], ◌∷◌, ◌++◌, Some, IfOk, slice_get};
ghost use Rattle.ffm_model.specs.declared.machine.Call.TheVariants.{Resume};
ghost use Rattle.ffm_model.specs.Passes.{MayIssue, MayResume};
ghost use Rattle.ffm_model.specs.Records.{is_blocked_outcome};
ghost use Rattle.spm_core.specs.Manager.{is_resume, awaits_return};
ghost use Rattle.spm_lock.specs.Histories.{actors, IsRun};
ghost use Rattle.spm_lock.specs.Views.{maker, taker};
ghost use Rattle.spm_lock.specs.Passes.{IsOwn, IsTurn, ArePasses, AreNew, Keeps, PassView, right_in, record_of};

use crate::pass::Pass;
use crate::table::{Come, JoinPass, LENGTH, SplitPass, TurnSeat, TurnTable};
use crate::turn::take_turn;
use crate::waiting::WaitingRoom;
use ffm_model::{ActorId, Answer, Call, List, Memory, Outcome};
use spm_core::Spm;
use std::alloc::Global;
use std::marker::Model;
use std::snapshot::Snapshot;
use std::sync::Wait;

/// A Secure Partition Manager that threads share, each actor by a pass of its own.
///
/// Contracts see which shared manager it is, and the opening of the manager that it was made of.
#[derive(Drop)]
pub struct Shared {
    table: TurnTable,
    room: WaitingRoom,
}

impl Model for Shared {
    ghost use Rattle.std.specs.Prelude.{◌≡◌};
    ghost use Rattle.spm_lock.specs.Passes.{SharedView};

    ghost Value = { SharedView };

    ghost view = { λ s.
        record { table = s.table.shared.table_id; opening = s.table.shared.key.value.opening } };

    ghost invariant = { λ s.
        (s.table.shared.table_id.words ≡ 3) × (s.table.shared.table_id.slots ≡ 1) };
}

impl Shared {
    /// Shares a manager that made no event yet: with one pass for each actor, in actor order, all of
    /// them with an empty front. Err where there is no memory; the manager is then dropped.
    pub fn new(alloc: Global, spm: Spm) -> Result<(Shared, List<Pass>), Memory>
        requires empty { spm.history ≡ [] }
        ensures opening { IfOk result (λ r. r.0.opening ≡ spm.opening) }
        ensures passes { IfOk result (λ r. ArePasses r.0 r.1) }
        ensures fresh { IfOk result (λ r. AreNew r.1) }
    {
        let count = spm.actor_count();
        let start = Snapshot::of(&spm);
        let room = WaitingRoom::for_actors(alloc, count)?;
        let mut passes = Vec::with_capacity(alloc, count as usize)?;
        let mut slots = Vec::with_capacity(alloc, 1)?;
        slots.push_reserved(Some(Box::new(alloc, spm)?));
        let Ok((table, mut source)) = TurnTable::new(alloc, &[0, 0, 0], slots, &start) else {
            return Err(Memory);
        };
        for n in 0..count {
            passes.push_reserved(next_pass(&table, &mut source, ActorId(n)));
        }
        Ok((Shared { table, room }, List::of(passes)))
    }

    /// Makes a call of the pass's actor, or says why it isn't made. It may wait for the turn.
    ///
    /// The pass is one of this object's and isn't pending, and the call isn't `Resume`. The answer is
    /// the manager's on the history that this very turn found, which has all entries of the pass's
    /// front and no other entry of its actor. The front is afterwards that history, with the call's
    /// entry if one was made: `Gone`, `Over`, `Full` and `NotYet` come as at `Spm::step`, and add none.
    /// It takes no memory.
    pub fn issue<R: Wait>(&self, rt: &R, pass: &mut Pass, call: Call) -> Answer
        requires own { IsOwn self.now pass.old }
        requires may { MayIssue (record_of pass.old) call }
        ensures own { IsOwn self.now pass.new }
        ensures actor { pass.new.actor ≡ pass.old.actor }
        ensures turns { pass.new.turns ≡ pass.old.turns + 1 }
        ensures turn { IsTurn self.now.opening pass.old.actor pass.old.front
            call result pass.new.front }
    {
        let _ = &pass.actor;
        self.turn(rt, pass, call)
    }

    /// Returns from the call that the pass's actor waits in, or says why it doesn't. It may wait for
    /// the turn. The pass is one of this object's and is pending; the rest is as for `issue`.
    pub fn resume<R: Wait>(&self, rt: &R, pass: &mut Pass) -> Answer
        requires own { IsOwn self.now pass.old }
        requires may { MayResume (record_of pass.old) }
        ensures own { IsOwn self.now pass.new }
        ensures actor { pass.new.actor ≡ pass.old.actor }
        ensures turns { pass.new.turns ≡ pass.old.turns + 1 }
        ensures turn { IsTurn self.now.opening pass.old.actor pass.old.front
            Resume result pass.new.front }
    {
        let _ = &pass.actor;
        self.turn(rt, pass, Call::Resume)
    }

    /// Waits where the pass was last answered `NotYet`, until another answer may be due: its actor can
    /// go on or is gone, or the run has ended. It promises nothing.
    pub fn rest<R: Wait>(&self, rt: &R, pass: &Pass)
        requires own { IsOwn self.now pass.now }
    {
        self.room.rest(rt, pass.actor);
    }

    // The call is `Resume` exactly where the pass is pending.
    fn turn<R: Wait>(&self, rt: &R, pass: &mut Pass, call: Call) -> Answer
        requires own { IsOwn self.now pass.old }
        requires due { is_resume call ≡ awaits_return pass.old.front pass.old.actor }
        ensures own { IsOwn self.now pass.new }
        ensures actor { pass.new.actor ≡ pass.old.actor }
        ensures turns { pass.new.turns ≡ pass.old.turns + 1 }
        ensures turn { IsTurn self.now.opening pass.old.actor pass.old.front
            call result pass.new.front }
    {
        let answer = take_turn(
            rt,
            &self.table,
            &self.room,
            &mut pass.seat,
            pass.actor,
            call,
        );
        if let Answer::Made { entry, .. } = answer {
            pass.pending = is_blocked(entry.outcome);
        }
        answer
    }

    /// The manager, with all passes given back: one for each actor, in actor order. Its history begins
    /// with each pass's front, and of each actor it has the entries that the pass was answered.
    pub fn finish(self, passes: List<Pass>) -> Spm
        requires { ArePasses self passes }
        ensures opening { result.opening ≡ self.opening }
        ensures run { IsRun self.opening result.history }
        ensures fronts { (k : ℕ) (p : PassView) → slice_get passes k ≡ Some p
            → Keeps result.history p }
    {
        let Shared { table, .. } = self;
        let mut target = table.shared.load_new_seat::<Come>(LENGTH).1;
        for pass in passes.into_vec() {
            take_in(&table, &mut target, pass);
        }
        let mut closed = table.close_with(target);
        let manager = closed.take(0).unwrap();
        closed.free();
        Box::into_inner(manager)
    }
}

// Splits off the next actor's pass.
fn next_pass(table: &TurnTable, source: &mut TurnSeat, actor: ActorId) -> Pass
    requires table { (source.old.table_id ≡ table.now.shared.table_id)
        × (0 < table.now.shared.table_id.words) }
    requires source { (source.old.me ≡ (maker source.old.me.0.start actor.0, []))
        × (actor.0 < actors source.old.me.0.start.opening) }
    ensures source { (source.new.table_id ≡ source.old.table_id)
        × (source.new.me ≡ (maker source.old.me.0.start (actor.0 + 1), [])) }
    ensures pass { (result.table ≡ source.old.table_id)
        × (result.opening ≡ source.old.me.0.start.opening) × (result.actor ≡ actor.0)
        × (result.front ≡ []) × (result.turns ≡ 0) }
{
    let seat = table.shared.split_seat::<SplitPass>(source);
    Pass {
        seat,
        actor,
        pending: false,
    }
}

// Takes in the right of a pass.
fn take_in(table: &TurnTable, target: &mut TurnSeat, pass: Pass)
    requires table { (target.old.table_id ≡ table.now.shared.table_id)
        × (pass.table ≡ table.now.shared.table_id) × (0 < table.now.shared.table_id.words) }
    requires target { target.old.me
        ≡ (taker table.now.shared.key.value target.old.me.0.rights, []) }
    ensures { (target.new.table_id ≡ target.old.table_id)
        × (target.new.me
        ≡ (taker table.now.shared.key.value (target.old.me.0.rights ++ right_in pass ∷ []), [])) }
{
    let Pass {
        seat,
        actor: _,
        pending: _,
    } = pass;
    table.shared.join_seat::<JoinPass>(target, seat);
}

fn is_blocked(outcome: Outcome) -> bool
    ensures { result ≡ is_blocked_outcome outcome }
{
    matches!(outcome, Outcome::Blocked)
}
