//! What the actors do, as the manager sees it.
ghost use Rattle.std.specs.Prelude.{◌≡◌, ◌<◌, not};
ghost use Rattle.ffm_model.specs.declared.system.System.{System as SystemSeen};
ghost use Rattle.ffm_model.specs.Actors.{actor_count};
ghost use Rattle.ffm_model.specs.Signals.{enabled, is_blocked};
ghost use Rattle.ffm_model.specs.State.{phase_of};
ghost use Rattle.ffm_model.specs.Verdicts.{some_enabled, some_blocked};
ghost use Rattle.ffm_model.specs.Names.{NamesSoFar};
ghost use Rattle.law_counting.specs.Objects.{ObjectsFit};
ghost use Rattle.law_counting.specs.Pending.{is_pending};
ghost use Rattle.law_calls.specs.Named.{NamesAre};
ghost use Rattle.spm_tables.specs.TablesView.{spm_of, MadeFor};
ghost use Rattle.spm_core.specs.Manager.{is_gone, refusal_at};
ghost use Rattle.spm_core.specs.Views.{shown_phase};

use crate::returns::accepted;
use ffm_model::{ActorId, ActorPhase, Answer, Outcome, Phase, System};
use handle_table::{Family, handle_of};
use spm_tables::Tables;

/// The actor makes no further event.
pub(crate) fn is_gone(phase: ActorPhase) -> bool
    ensures { result ≡ is_gone phase }
{
    matches!(phase, ActorPhase::Ended | ActorPhase::Panicked)
}

/// The actor's last call hasn't returned yet.
pub(crate) fn is_pending(phase: ActorPhase) -> bool
    ensures { result ≡ is_pending phase }
{
    matches!(
        phase,
        ActorPhase::Blocked
            | ActorPhase::Waiting { .. }
            | ActorPhase::Ready(_)
            | ActorPhase::Connected(_)
    )
}

/// The actor can go on.
pub(crate) fn is_enabled(tables: &Tables, actor: ActorId) -> bool
    ensures { (s : SystemSeen) → MadeFor tables.now s
        → result ≡ enabled s (spm_of tables.now) actor.0 }
{
    match tables.phase(actor) {
        ActorPhase::Running | ActorPhase::Ready(_) | ActorPhase::Connected(_) => true,
        ActorPhase::Waiting { mask } => tables.signals(actor) & mask != 0,
        _ => false,
    }
}

/// Some actor can go on.
pub(crate) fn is_some_enabled(system: &System, tables: &Tables) -> bool
    requires made { MadeFor tables.now system.now }
    ensures { result ≡ some_enabled system.now (spm_of tables.now) }
{
    (0..system.actor_count()).any(|a| is_enabled(tables, ActorId(a)))
}

fn is_blocked(tables: &Tables, actor: ActorId) -> bool
    ensures { result ≡ is_blocked (phase_of (spm_of tables.now) actor.0) }
{
    matches!(tables.phase(actor), ActorPhase::Blocked)
}

/// Some actor waits for an answer.
pub(crate) fn is_some_blocked(system: &System, tables: &Tables) -> bool
    ensures { result ≡ some_blocked system.now (spm_of tables.now) }
{
    (0..system.actor_count()).any(|a| is_blocked(tables, ActorId(a)))
}

// No actor can go on. This one is asked first, since mostly it can.
fn is_over(system: &System, tables: &Tables, actor: ActorId) -> bool
    requires made { MadeFor tables.now system.now }
    requires exists { actor.0 < actor_count system.now }
    ensures { result ≡ not (some_enabled system.now (spm_of tables.now)) }
{
    !is_enabled(tables, actor) && !is_some_enabled(system, tables)
}

/// The first of the four refusals that holds.
pub(crate) fn refused(
    system: &System,
    tables: &Tables,
    limit: u32,
    count: usize,
    actor: ActorId,
) -> Option<Answer>
    requires made { MadeFor tables.now system.now }
    requires exists { actor.0 < actor_count system.now }
    ensures { result ≡ refusal_at system.now limit count (spm_of tables.now) actor.0 }
{
    if is_gone(tables.phase(actor)) {
        return Some(Answer::Gone);
    }
    if is_over(system, tables, actor) {
        return Some(Answer::Over);
    }
    if limit as usize <= count {
        return Some(Answer::Full);
    }
    if is_enabled(tables, actor) {
        None
    } else {
        Some(Answer::NotYet)
    }
}

/// A phase as the manager shows it.
pub(crate) fn shown(system: &System, tables: &Tables, actor: ActorId) -> Phase
    requires { ObjectsFit system.now (spm_of tables.now) }
    ensures { (k : NamesSoFar) → NamesAre tables.now k
        → result ≡ shown_phase k (phase_of (spm_of tables.now) actor.0) }
{
    match tables.phase(actor) {
        ActorPhase::Running => Phase::Running,
        ActorPhase::Blocked => Phase::Blocked,
        ActorPhase::Waiting { mask } => Phase::Waiting { mask },
        ActorPhase::Ready(outcome) => Phase::Ready(outcome),
        ActorPhase::Connected(serial) => {
            let slot = accepted(tables, actor, serial);
            Phase::Ready(Outcome::Value(handle_of(Family::Connection, slot).0))
        }
        ActorPhase::Ended => Phase::Ended,
        ActorPhase::Panicked => Phase::Panicked,
    }
}
