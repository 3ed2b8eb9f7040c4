//! Services without connections.
ghost use Rattle.std.specs.Prelude.{◌≡◌, true, Some, []};
ghost use Rattle.ffm_model.specs.declared.machine.Verdict.TheVariants.{Quiet};
ghost use Rattle.ffm_model.specs.Verdicts.{verdict_of};
ghost use Rattle.ffm_model.specs.Names.{names, message_capacity};
ghost use Rattle.law_examples.specs.Writing.{takes_next, zeros};
ghost use Rattle.law_examples.specs.Systems.{clock_system, called_system};
ghost use Rattle.law_examples.specs.Stateless.{called_without_connection, panicked_without_connection, caller_panics, no_such_index};

/// A service is called by its stateless handle, without any declared connection.
pub fn called_without_connection()
    ensures run { verdict_of clock_system zeros 4096 called_without_connection ≡ Some Quiet }
    ensures named { names clock_system zeros called_without_connection ≡ true }
    ensures one_message { message_capacity clock_system ≡ 1 }
    ensures no_such_index { takes_next clock_system zeros [] no_such_index ≡ true }
{}

/// Its partition's panic answers the caller, and later calls.
pub fn panicked_without_connection()
    ensures run { verdict_of clock_system zeros 4096 panicked_without_connection ≡ Some Quiet }
    ensures named { names clock_system zeros panicked_without_connection ≡ true }
{}

/// A partition that called so panics where it is answered with PROGRAMMER ERROR.
pub fn caller_panics()
    ensures run { verdict_of called_system zeros 4096 caller_panics ≡ Some Quiet }
    ensures named { names called_system zeros caller_panics ≡ true }
{}
