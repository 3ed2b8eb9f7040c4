//! Worked runs for the laws of single runs, of ranges and of replays, checked by computing with the
//! definitions: that each law speaks of something, and that without one of its conditions it is wrong.
//! No function here does anything.

ghost use Rattle.std.specs.Prelude.{◌≡◌, true, false, Some};
ghost use Rattle.ffm_model.specs.declared.machine.Call.TheVariants.{Connect};
ghost use Rattle.ffm_model.specs.declared.machine.Outcome.TheVariants.{Blocked};
ghost use Rattle.ffm_model.specs.declared.machine.Verdict.TheVariants.{Quiet};
ghost use Rattle.ffm_model.specs.Names.{names};
ghost use Rattle.ffm_model.specs.Verdicts.{Legal, judged};
ghost use Rattle.law_examples.specs.Systems.{client, vault_system};
ghost use Rattle.law_examples.specs.Writing.{entry, sid, zeros};
ghost use Rattle.law_scenarios.specs.Explored.{explored, explored_by, first_explored, next_entry};
ghost use Rattle.law_scenarios.specs.Interleavings.{actors_of};
ghost use Rattle.law_scenarios.specs.Ranges.{ProgramsFit, VersionsFit, HasBytes};
ghost use Rattle.scenario_runs.specs.Runs.{RanBy};
ghost use Rattle.law_examples.specs.Connecting.{client_first, other_handle, programs, scenario_with_turns, scripts, vault_first};
ghost use Rattle.law_examples.specs.Ranges.{Misfits, loading_program, wide_call, wide_load, wide_memory, wide_program};
ghost use Rattle.law_examples.specs.Wrong.{FollowWithoutNames, HasOneRunInAnyTurns, RunsWhereLegal};

/// A client and a service, each with its program, have a run in each of two orders, with threads and by
/// a schedule that tells the order. So it is wrong that a scenario has one run whatever the turns are.
pub fn turns_are_the_freedom()
    ensures scheduled { RanBy vault_system zeros (scenario_with_turns client_first) programs
        false client_first Quiet }
    ensures first_order { RanBy vault_system zeros (scenario_with_turns client_first) programs
        true client_first Quiet }
    ensures second_order { RanBy vault_system zeros (scenario_with_turns client_first) programs
        true vault_first Quiet }
    ensures one_in_any_turns { HasOneRunInAnyTurns → ⊥ }
{}

/// The first state of the two tells the client's first entry. Both orders lead to one state, the second
/// entry by entry.
pub fn orders_meet_in_one_state()
    ensures next { next_entry vault_system scripts (first_explored vault_system zeros scripts) client
        ≡ Some (entry client (Connect (sid 0x40) 1) Blocked) }
    ensures meet { explored vault_system zeros scripts client_first
        ≡ explored vault_system zeros scripts vault_first }
    ensures walk { explored_by vault_system scripts (first_explored vault_system zeros scripts)
        (actors_of vault_first) ≡ explored vault_system zeros scripts vault_first }
{}

/// The machine takes any fresh handle, and the programs call with it. So it is wrong, without the names of
/// handles, that the order of the actors fixes a run, and that a legal trace of the programs' calls is one.
pub fn names_fix_handles()
    ensures named { names vault_system zeros client_first ≡ true }
    ensures unnamed { names vault_system zeros other_handle ≡ false }
    ensures legal { judged vault_system zeros 4096 other_handle Quiet ≡ Legal }
    ensures follow_without_names { FollowWithoutNames → ⊥ }
    ensures run_where_legal { RunsWhereLegal → ⊥ }
{}

/// The programs of that client and that service are in range. A line that states 2^32 makes a call that
/// has no text, and a memory with 256 in place of a byte is loaded as a number that has none.
pub fn ranges_are_needed()
    ensures versions { VersionsFit vault_system }
    ensures programs { ProgramsFit vault_system programs }
    ensures bytes { HasBytes zeros }
    ensures wide_line { RanBy vault_system zeros (scenario_with_turns wide_call) wide_program
        true wide_call Quiet }
    ensures wide_line_misfits { Misfits vault_system wide_call }
    ensures wide_byte { RanBy vault_system wide_memory (scenario_with_turns wide_load)
        loading_program true wide_load Quiet }
    ensures wide_byte_misfits { Misfits vault_system wide_load }
{}
