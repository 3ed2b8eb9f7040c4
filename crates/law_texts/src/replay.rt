//! The laws of replays: what `run` writes is a trace's text, `replay` of it is legal, and which legal
//! traces are runs.
//!
//! The functions here do nothing. The contract of each is a law of the texts that are due, or of traces.

ghost use Rattle.std.specs.Prelude.{Bool, ℕ, List};
ghost use Rattle.ffm_model.specs.declared.scenario.Scenario.{Scenario};
ghost use Rattle.ffm_model.specs.declared.system.System.{System};
ghost use Rattle.ffm_model.specs.Memory.{ByteMap};
ghost use Rattle.ffm_model.specs.Reading.{Contents};
ghost use Rattle.actor_programs.specs.declared.program.Program.{Program};
ghost use Rattle.law_texts.specs.Legal.{AreRunsWherePlayed};
ghost use Rattle.law_texts.specs.Replayed.{AreReadable, IsReplayed};

/// The text of each run that a system file and a scenario file call for, those after a panic too, is
/// that of a trace, which is this run: `read_trace` reads it so. No line of an entry has more than 175
/// bytes with its line feed.
pub fn texts_of_runs_are_traces()
    ensures { (of : Contents) (threads : Bool) (system scenario : List ℕ)
        → AreReadable of threads system scenario }
{}

/// What `run` writes, `replay` takes: where a name holds the text that is due of a run, that is a trace's
/// text, and `replay` of it with the same files has the line `legal`, with the number of its entries, and
/// the status 0. This is of scenarios without restarts: with them the text may have several traces, and
/// `replay` refuses the scenario.
pub fn replay_takes_what_run_writes()
    ensures { (of : Contents) (words others : List (List ℕ)) → IsReplayed of words others }
{}

/// A trace is a run of a scenario's programs, with its verdict, exactly where it is judged legal, each
/// actor's entries are the calls of its program, and each handle is the name of its connection or
/// message; without threads also the turns are the schedule's. `replay` tells the first of these.
pub fn legal_traces_are_interleavings()
    ensures { (s : System) (m : ByteMap) (c : Scenario) (programs : List Program) (threads : Bool)
        → AreRunsWherePlayed s m c programs threads }
{}
