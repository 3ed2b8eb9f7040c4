//! The law of the headline: what every run of the machine keeps, stated of its entries.
//!
//! The function here does nothing. Its contract is a law of the machine of `ffm_model`: it holds for
//! every system, every opening memory and every run.

ghost use Rattle.std.specs.Prelude.{List};
ghost use Rattle.ffm_model.specs.declared.machine.Entry.{Entry};
ghost use Rattle.ffm_model.specs.declared.system.System.{System};
ghost use Rattle.ffm_model.specs.Memory.{ByteMap};
ghost use Rattle.ffm_model.specs.Step.{Run};
ghost use Rattle.law_calls.specs.Promises.{KeepsHeadline};

/// At each entry of a run no call lacks a connection or message object. Each `psa_connect` that the
/// manager answers with CONNECTION_BUSY finds the client's declared connections to the service in use,
/// and the service's partition not panicked. Each byte that an entry changes, and each that bears on
/// it, lies within its actor's reach.
pub fn runs_keep_the_headline()
    ensures { (s : System) (m : ByteMap) (es : List Entry) → Run s m es → KeepsHeadline s m es }
{}
