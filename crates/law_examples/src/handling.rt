//! The control of interrupts.
ghost use Rattle.std.specs.Prelude.{◌≡◌, true, Some, take};
ghost use Rattle.ffm_model.specs.declared.constants.TheConstants.{PSA_POLL};
ghost use Rattle.ffm_model.specs.declared.machine.Call.TheVariants.{Eoi, Wait, Raise};
ghost use Rattle.ffm_model.specs.declared.machine.Outcome.TheVariants.{Signals, Done};
ghost use Rattle.ffm_model.specs.declared.machine.Verdict.TheVariants.{Quiet};
ghost use Rattle.ffm_model.specs.Verdicts.{verdict_of};
ghost use Rattle.ffm_model.specs.Names.{names};
ghost use Rattle.law_examples.specs.Writing.{entry, refuses_next, zeros};
ghost use Rattle.law_examples.specs.Systems.{ticker, device, ticker_system, timer_system};
ghost use Rattle.law_examples.specs.Handling.{interrupt_while_disabled, handled_at_first_level, fired_twice};

/// An interrupt of a disabled source waits until the source is enabled.
pub fn interrupt_while_disabled()
    ensures run { verdict_of ticker_system zeros 4096 interrupt_while_disabled ≡ Some Quiet }
    ensures named { names ticker_system zeros interrupt_while_disabled ≡ true }
    ensures not_yet { refuses_next ticker_system zeros (take 4 interrupt_while_disabled)
        (entry ticker (Wait 0x10 PSA_POLL) (Signals 0x10)) ≡ true }
{}

/// The first-level handler's answer decides whether the signal is asserted; it is reset, and not ended.
pub fn handled_at_first_level()
    ensures run { verdict_of timer_system zeros 4096 handled_at_first_level ≡ Some Quiet }
    ensures no_eoi { refuses_next timer_system zeros (take 3 handled_at_first_level)
        (entry ticker (Eoi 0x10) Done) ≡ true }
    ensures no_raise { refuses_next timer_system zeros (take 1 handled_at_first_level)
        (entry device (Raise 0) Done) ≡ true }
    ensures twice { verdict_of timer_system zeros 4096 fired_twice ≡ Some Quiet }
{}
