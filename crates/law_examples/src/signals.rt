//! Doorbells, the signals of services, and interrupts.
ghost use Rattle.std.specs.Prelude.{◌≡◌, true, Some, [], take};
ghost use Rattle.ffm_model.specs.declared.constants.TheConstants.{PSA_DOORBELL, PSA_IPC_CONNECT, PSA_POLL};
ghost use Rattle.ffm_model.specs.declared.machine.Call.TheVariants.{Wait, Get, Clear};
ghost use Rattle.ffm_model.specs.declared.machine.Outcome.TheVariants.{Signals, Got, Done};
ghost use Rattle.ffm_model.specs.declared.machine.Verdict.TheVariants.{Quiet, Stalled};
ghost use Rattle.ffm_model.specs.Verdicts.{verdict_of};
ghost use Rattle.ffm_model.specs.Names.{names};
ghost use Rattle.ffm_model.specs.Signed.{minus};
ghost use Rattle.law_examples.specs.Writing.{entry, message, refuses_next, zeros};
ghost use Rattle.law_examples.specs.Systems.{vault, vault_system, two_clients_system, ticker, ticker_system};
ghost use Rattle.law_examples.specs.Asserted.{doorbell_rung_twice, two_messages, interrupt_raised_twice};

/// A doorbell is a flag and no count: it may be rung again before it is cleared, and is cleared once.
pub fn doorbell_rung_twice()
    ensures run { verdict_of vault_system zeros 4096 doorbell_rung_twice ≡ Some Quiet }
    ensures named { names vault_system zeros doorbell_rung_twice ≡ true }
    ensures no_count { refuses_next vault_system zeros (take 5 doorbell_rung_twice)
        (entry vault (Wait PSA_DOORBELL PSA_POLL) (Signals PSA_DOORBELL)) ≡ true }
    ensures not_cleared_again { refuses_next vault_system zeros (take 6 doorbell_rung_twice)
        (entry vault Clear Done) ≡ true }
{}

/// The signal of a service stays asserted while a message waits: `psa_get` of the first one doesn't clear
/// it for the second.
pub fn two_messages_one_signal()
    ensures run { verdict_of two_clients_system zeros 4096 two_messages ≡ Some Stalled }
    ensures named { names two_clients_system zeros two_messages ≡ true }
    ensures signal_stays { refuses_next two_clients_system zeros (take 4 two_messages)
        (entry vault (Wait 0x10 PSA_POLL) (Signals 0)) ≡ true }
    ensures oldest_first { refuses_next two_clients_system zeros (take 3 two_messages) (entry vault
        (Get 0x10 0x30000000) (Got (message PSA_IPC_CONNECT 1536 (minus 2) 0 [] []))) ≡ true }
{}

/// An interrupt that is raised while its signal is asserted isn't lost, and two such are one.
pub fn interrupt_raised_while_asserted()
    ensures run { verdict_of ticker_system zeros 4096 interrupt_raised_twice ≡ Some Quiet }
    ensures named { names ticker_system zeros interrupt_raised_twice ≡ true }
    ensures not_lost { refuses_next ticker_system zeros (take 5 interrupt_raised_twice)
        (entry ticker (Wait 0x10 PSA_POLL) (Signals 0)) ≡ true }
    ensures ended_by_the_second { refuses_next ticker_system zeros (take 7 interrupt_raised_twice)
        (entry ticker (Wait 0x10 PSA_POLL) (Signals 0x10)) ≡ true }
{}
