//! Runs that begin again after a panic.
ghost use Rattle.std.specs.Prelude.{◌∷◌, []};
ghost use Rattle.ffm_model.specs.Restarts.{Runs};
ghost use Rattle.law_examples.specs.Restarts.{IsLogRun, panicked_run, second_run};
ghost use Rattle.law_examples.specs.Systems.{log_system};
ghost use Rattle.law_examples.specs.Writing.{zeros};

/// After a panic the system runs again, where a restart is left, and finds the bytes of its MMIO
/// region as the first run left them. No run follows one without a panic.
pub fn runs_again_after_a_panic()
    ensures restarted { Runs log_system IsLogRun zeros 3 (panicked_run ∷ second_run ∷ []) }
    ensures not_restarted { Runs log_system IsLogRun zeros 0 (panicked_run ∷ []) }
{}
