//! Clients with several threads.
ghost use Rattle.std.specs.Prelude.{◌≡◌, Some};
ghost use Rattle.ffm_model.specs.declared.machine.Verdict.TheVariants.{Quiet, Stalled};
ghost use Rattle.ffm_model.specs.Contexts.{ContextRun};
ghost use Rattle.ffm_model.specs.Records.{entries_of};
ghost use Rattle.ffm_model.specs.Verdicts.{verdict_of};
ghost use Rattle.law_examples.specs.Contexts.{thread_blocked, thread_that_connects, turns_taken, two_threads};
ghost use Rattle.law_examples.specs.Systems.{client, vault_system};
ghost use Rattle.law_examples.specs.Writing.{zeros};

/// The threads of a client take turns, call by call.
pub fn threads_take_turns()
    ensures run { verdict_of vault_system zeros 4096 turns_taken ≡ Some Quiet }
    ensures threads { ContextRun two_threads (entries_of client turns_taken) }
{}

/// While a call of one thread is blocked, no other thread calls.
pub fn blocked_thread_keeps_the_turn()
    ensures run { verdict_of vault_system zeros 4096 thread_blocked ≡ Some Stalled }
    ensures threads { ContextRun thread_that_connects (entries_of client thread_blocked) }
{}
