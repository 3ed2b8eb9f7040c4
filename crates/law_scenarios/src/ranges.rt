//! The law of ranges: each number of a run's entries is a value of its field's type.
//!
//! The functions here do nothing. The contract of each is a law of the machine of `ffm_model`, of the
//! programs of its actors, and of what is read of files.

ghost use Rattle.std.specs.Prelude.{ℕ, List};
ghost use Rattle.ffm_model.specs.declared.scenario.Scenario.{Scenario};
ghost use Rattle.ffm_model.specs.declared.system.System.{System};
ghost use Rattle.ffm_model.specs.Memory.{ByteMap};
ghost use Rattle.ffm_model.specs.Reading.{Contents};
ghost use Rattle.actor_programs.specs.declared.program.Program.{Program};
ghost use Rattle.law_scenarios.specs.Fitting.{HaveFittingEntries, HaveFittingRuns, ScenarioIsInRange, SystemIsInRange};

/// Where the versions of a system's services and the numbers of its programs' lines are values of a
/// u32, and each address of the memory has a byte, each entry of a run has a text: its actor is one of
/// the system's, and each number is a value of its field's type. In `runs` it is so in each of a
/// scenario's runs, those after a panic too.
pub fn entries_fit_their_fields()
    ensures run { (s : System) (m : ByteMap) (programs : List Program)
        → HaveFittingEntries s m programs }
    ensures runs { (s : System) (c : Scenario) (programs : List Program) (restarts : ℕ)
        → HaveFittingRuns s c programs restarts }
{}

/// What is read of files is so: the versions of a system's services, and of a scenario the opening
/// memory and the numbers of the programs' lines. And a scenario has at most 262,144 entries.
pub fn files_are_in_range()
    ensures system { (of : Contents) (bytes : List ℕ) → SystemIsInRange of bytes }
    ensures scenario { (s : System) (bytes : List ℕ) → ScenarioIsInRange s bytes }
{}
