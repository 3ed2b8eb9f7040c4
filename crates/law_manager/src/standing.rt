//! The laws of what tables stand for: after each event and each run, the machine's state; and of the names that their
//! slots have.
//!
//! The functions here do nothing. Each one's contract is a law of the tables and the image of a manager, for
//! every system.

ghost use Rattle.std.specs.Prelude.{◌≡◌, ◌≤◌, ◌++◌, ℕ, All, List, Some};
ghost use Rattle.law_counting.specs.Runs.{InEachNamedRun};
ghost use Rattle.law_counting.specs.Objects.{ObjectsFit, objects_with};
ghost use Rattle.ffm_model.specs.declared.machine.Entry.{Entry};
ghost use Rattle.ffm_model.specs.declared.machine.Handle.{Handle};
ghost use Rattle.ffm_model.specs.declared.machine.Outcome.{Outcome};
ghost use Rattle.ffm_model.specs.declared.scenario.Bytes.{Bytes};
ghost use Rattle.ffm_model.specs.declared.system.System.{System};
ghost use Rattle.ffm_model.specs.ClientCalls.{effect};
ghost use Rattle.ffm_model.specs.ServiceCalls.{psa_get};
ghost use Rattle.ffm_model.specs.State.{State};
ghost use Rattle.ffm_model.specs.Step.{step};
ghost use Rattle.memory_image.specs.Pieces.{byte_at};
ghost use Rattle.law_calls.specs.Named.{KeepsNames, NamesAre};
ghost use Rattle.law_calls.specs.Stands.{Stands};
ghost use Rattle.spm_tables.specs.TablesView.{TablesView, spm_of};
ghost use Rattle.law_manager.specs.Kept.{AddUp, AreKept};
ghost use Rattle.law_manager.specs.Naming.{HaveNames, SlotsFollow};

/// Tables and an image whose connections, messages, phases and bytes are those after a run, and whose
/// slots have the names that the run gave, stand for the state after it, its given handles included.
/// Each call of the manager says the first by its clauses on the answer, and the second by `names`.
pub fn tables_stand_in_runs()
    ensures { InEachNamedRun (λ s es w.
        (d : TablesView) (bytes : List Bytes) → NamesAre d w.names → w.state.spm ≡ spm_of d
        → w.state.memory ≡ byte_at bytes
        → Stands d bytes w.state) }
{}

/// Tables and an image that stand for a state, whatever led to it, stand after an event for each state with
/// the connections, messages, phases and bytes that they then have, if the event keeps names and handles
/// (`KeepsNames`), and gives no handles but those of connections and messages that are then there. Each call
/// of the manager says the first by its clause `names`, and by its clauses on the answer which state that is;
/// so after each call the tables stand for its case's new state, whatever led to the state before it.
///
/// `AreKept` holds of all tables, as `Tables::law` says. `event` says this of whichever handles
/// the event gives; `quiet` of an event that gives none, as each call but `psa_get`, and as the panic of a
/// partition, also of one that a reply leaves to its caller; and `get` of `psa_get`. `step` says it of each step,
/// the return of `psa_connect` included, where connections and messages fit the system, as in every state of a run.
pub fn tables_stand_after_events()
    ensures event { (s : System) (d new : TablesView) (bytes after : List Bytes) (st next : State)
        (shown : List Handle)
        → AreKept d → AreKept new → Stands d bytes st → KeepsNames s d new → next.spm ≡ spm_of new
        → next.memory ≡ byte_at after → next.handles_given ≡ st.handles_given ++ shown
        → All (λ h. 1 ≤ objects_with next.spm h) shown
        → Stands new after next }
    ensures quiet { (s : System) (d new : TablesView) (bytes after : List Bytes) (st next : State)
        → AreKept d → AreKept new → Stands d bytes st → KeepsNames s d new → next.spm ≡ spm_of new
        → next.memory ≡ byte_at after → next.handles_given ≡ st.handles_given
        → Stands new after next }
    ensures get { (s : System) (d new : TablesView) (bytes after : List Bytes) (st next : State)
        (a signal msg : ℕ) (h : Handle) (o : Outcome)
        → AreKept d → AreKept new → Stands d bytes st → KeepsNames s d new
        → psa_get s st a signal msg h ≡ Some (effect o next) → next.spm ≡ spm_of new
        → next.memory ≡ byte_at after
        → Stands new after next }
    ensures step { (s : System) (d new : TablesView) (bytes after : List Bytes)
        (st next : State) (e : Entry)
        → AreKept d → AreKept new → ObjectsFit s (spm_of d) → Stands d bytes st → KeepsNames s d new
        → step s st e ≡ Some next → next.spm ≡ spm_of new → next.memory ≡ byte_at after
        → Stands new after next }
{}

/// The slots of all tables have names, whatever led to these. So what a call's clause `names` says of slots, from
/// whichever names there were so far, it says of all tables: the call puts back one slot for each connection and
/// message that its case removes, then takes one for each that it adds, and touches no other.
///
/// `AreKept` and `AddUp` hold of all tables, as `Tables::law` says. `names` says that there are names; `event` that an
/// event which keeps names (`KeepsNames`) goes from some of the tables before to some of those after.
pub fn tables_have_names()
    ensures names { (d : TablesView) → AreKept d → AddUp d → HaveNames d }
    ensures event { (s : System) (d new : TablesView) → AreKept d → AddUp d → KeepsNames s d new
        → SlotsFollow s d new }
{}
