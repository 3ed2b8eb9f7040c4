//! One turn: a ticket is drawn and served, and the manager is taken, asked and put back.
ghost use Rattle.std.specs.Prelude.{◌≡◌, ◌+◌, ◌<◌, []};
ghost use Rattle.spm_core.specs.Manager.{is_resume, awaits_return};
ghost use Rattle.spm_lock.specs.Histories.{actors};
ghost use Rattle.spm_lock.specs.Views.{pass_with, right_of};
ghost use Rattle.spm_lock.specs.declared.view.Stage.TheVariants.{Idle};
ghost use Rattle.spm_lock.specs.Passes.{IsIdle, IsTurn, HasTurn, HasStepped, front, turns};

use crate::table::{Count, DRAWN, Draw, LENGTH, Look, SERVED, Serve, TurnSeat, TurnTable};
use crate::waiting::WaitingRoom;
use ffm_model::{ActorId, Answer, Call};
use spm_core::Spm;
use std::sync::Wait;

// Draws a ticket and waits until it is served.
fn seize<R: Wait>(
    rt: &R,
    table: &TurnTable,
    room: &WaitingRoom,
    seat: &mut TurnSeat,
    actor: ActorId,
)
    requires table { (table.now.shared.table_id.words ≡ 3) × (table.now.shared.table_id.slots ≡ 1) }
    requires seat { (seat.old.table_id ≡ table.now.shared.table_id) × IsIdle actor.0 seat.old.me }
    ensures table { seat.new.table_id ≡ seat.old.table_id }
    ensures turn { HasTurn (λ b. b.value) actor.0 seat.old.me seat.new.me }
{
    let ticket = table.shared.fetch_add::<Draw>(seat, DRAWN, 1);
    let mut looks: u32 = 0;
    for _ in rt.forever() {
        let served = table.shared.load::<Look>(seat, SERVED);
        if served == ticket {
            return;
        }
        room.await_change(rt, table, served, looks);
        looks = looks.saturating_add(1);
    }
    unreachable!()
}

// Counts the event that was made, puts the manager back, and serves the next ticket.
fn give_back(
    table: &TurnTable,
    seat: &mut TurnSeat,
    actor: ActorId,
    manager: Box<Spm>,
    answer: Answer,
)
    requires table { (table.now.shared.table_id.words ≡ 3) × (table.now.shared.table_id.slots ≡ 1)
        × (seat.old.table_id ≡ table.now.shared.table_id) }
    requires stepped { HasStepped actor.0 seat.old.me manager.value answer }
    ensures table { seat.new.table_id ≡ seat.old.table_id }
    ensures idle { seat.new.me ≡ (
      pass_with seat.old.me.0.start
          (right_of actor.0 (turns seat.old.me) manager.value.history) Idle,
      [],
    ) }
{
    let slot = Some(manager);
    if let Answer::Made { place, .. } = answer {
        let length = u64::from(place);
        table
            .shared
            .compare_exchange_with::<Count>(seat, LENGTH, length - 1, length, &slot);
    }
    drop(table.shared.exchange(seat, 0, slot));
    table.shared.fetch_add::<Serve>(seat, SERVED, 1);
}

// One turn of an idle pass.
pub(crate) fn take_turn<R: Wait>(
    rt: &R,
    table: &TurnTable,
    room: &WaitingRoom,
    seat: &mut TurnSeat,
    actor: ActorId,
    call: Call,
) -> Answer
    requires table { (table.now.shared.table_id.words ≡ 3) × (table.now.shared.table_id.slots ≡ 1) }
    requires seat { (seat.old.table_id ≡ table.now.shared.table_id) × IsIdle actor.0 seat.old.me
        × (actor.0 < actors seat.old.me.0.start.opening) }
    requires due { is_resume call ≡ awaits_return (front seat.old.me) actor.0 }
    ensures table { seat.new.table_id ≡ seat.old.table_id }
    ensures idle { IsIdle actor.0 seat.new.me × (seat.new.me.0.start ≡ seat.old.me.0.start) }
    ensures turns { turns seat.new.me ≡ turns seat.old.me + 1 }
    ensures turn { IsTurn seat.old.me.0.start.opening actor.0 (front seat.old.me) call
        result (front seat.new.me) }
{
    room.enter(rt, table);
    seize(rt, table, room, seat, actor);
    let mut manager = table.shared.exchange(seat, 0, None).unwrap();
    let answer = manager.step(actor, call);
    let due = room.told(&manager, actor, answer);
    give_back(table, seat, actor, manager, answer);
    room.call(table, due);
    answer
}
