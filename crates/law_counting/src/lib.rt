//! The laws of the states of a run: the connections that a system declares suffice.
//!
//! The functions here do nothing. Each one's contract is a law of the machine of `ffm_model`: it holds
//! for every system, every opening memory and every run, with all calls, PROGRAMMER ERRORs and panics.
//! The modules of `proofs/` offer the same laws, and their steps, to the crates above.
#![tactic(auto)]

mod worked;

ghost use Rattle.std.specs.Prelude.{◌≡◌, ℕ, ◌≤◌, ◌<◌, false, length};
ghost use Rattle.ffm_model.specs.declared.constants.TheConstants.{MAX_ENTRIES};
ghost use Rattle.ffm_model.specs.declared.system.System.{System};
ghost use Rattle.ffm_model.specs.Actors.{is_stateless};
ghost use Rattle.ffm_model.specs.State.{SpmState};
ghost use Rattle.ffm_model.specs.Names.{capacity, message_capacity};
ghost use Rattle.law_counting.specs.Runs.{InEachNamedRun, InEachRun};
ghost use Rattle.law_counting.specs.Objects.{HandlesFit, ObjectsFit};
ghost use Rattle.law_counting.specs.Pairs.{MessagesPair};
ghost use Rattle.law_counting.specs.Rooms.{RoomFor};
ghost use Rattle.law_counting.specs.Takes.{TakesFew, last_generation};
ghost use Rattle.law_counting.specs.Fresh.{NamesFit};
ghost use Rattle.law_counting.specs.Pending.{ReturnsDue};

pub use worked::{misfits, second_connection_asked};

/// In each state of a run the connections and messages fit each other, the budgets of the system and
/// the phases of the actors. The handles that they have were given, and none was given twice.
pub fn objects_fit()
    ensures objects { InEachRun (λ s es st. ObjectsFit s st.spm) }
    ensures handles { InEachRun (λ s es st. HandlesFit st) }
{}

/// In each state of a run each message belongs to one connection that is Opening, Busy or Closing, or it
/// is a request by a stateless handle, whose client waits. Each such connection has one message, for
/// whose answer its client waits unless it panicked. No actor waits for two answers.
pub fn messages_pair_with_connections()
    ensures { InEachRun (λ s es st. MessagesPair s st.spm) }
{}

/// The connections that a system declares suffice: in each state of a run connections are at most as
/// many, messages are at most as many and one more for each actor that may use a stateless service, and
/// no event that adds one lacks room for it. Where no service is stateless, messages are at most as many as connections may be.
pub fn declared_connections_suffice()
    ensures connections { InEachRun (λ s es st. length st.spm.connections ≤ capacity s) }
    ensures messages { InEachRun (λ s es st. length st.spm.messages ≤ message_capacity s) }
    ensures without_stateless { (s : System) → ((service : ℕ) → is_stateless s service ≡ false)
        → message_capacity s ≡ capacity s }
    ensures room { (s : System) → (b : SpmState) → ObjectsFit s b → RoomFor s b }
{}

/// A run makes at most one connection an entry, and at most one message an entry and one more a
/// connection. So a run of the most entries takes fewer slots than a handle can show generations.
pub fn takes_are_few()
    ensures connections { InEachRun (λ s es st. st.spm.connections_made ≤ length es) }
    ensures takes { InEachNamedRun (λ s es w. TakesFew es w) }
    ensures generations { InEachNamedRun (λ s es w.
        length es ≤ MAX_ENTRIES
        → (length w.names.connections < last_generation)
        × (length w.names.past_messages < last_generation)) }
{}

/// In each run whose handles are the names of their slots, no two slots ever taken have one name, and the
/// name that a call has to show is fresh where it is at most 0x3fffffff, as it is in a run of at most
/// 262,144 entries. So all handles of the run differ although slots are used again, and such a run can go
/// on with names.
pub fn names_are_fresh()
    ensures { InEachNamedRun (λ s es w. NamesFit s es w) }
{}

/// In each state of a run an actor's last entry tells whether a call of it waits for its return.
pub fn returns_are_due()
    ensures { InEachRun (λ s es st. ReturnsDue s es st) }
{}
