//! The laws of mapped vectors, in runs of the machine: what `map_in` puts into its window, what
//! `unmap_out` puts into the client's vector, and what length the client is told.
//!
//! The functions here do nothing. Their contracts are laws of the machine of `ffm_model`: they hold for
//! every system, every opening memory, every run and every partition that runs a script.

ghost use Rattle.law_programs.specs.Windows.{EachIsEvent, InputsAreCopied, LengthsAreTold, OutputsAreCopied, RunsKeepWindows};

/// In each run of the machine the `psa_read` of a `map_in` answers the size of the client's input vector
/// and leaves its bytes in the window, and the `psa_write` of an `unmap_out` is done and leaves the
/// window's bytes in the client's output vector.
pub fn windows_are_copied()
    ensures inputs { InputsAreCopied }
    ensures outputs { OutputsAreCopied }
{}

/// In each run of the machine a `psa_reply` that is done tells the client of each output vector that was
/// mapped as many bytes as its `unmap_out` copied, or 0 where there was none.
pub fn lengths_are_told()
    ensures { LengthsAreTold }
{}

/// The other laws speak of the last event of a run. Each event of a run is the last one of a run.
pub fn laws_hold_of_each_event()
    ensures { EachIsEvent }
{}

/// All of this at each event of the partition, from the first to the last, in the form in which a run is
/// asked for it.
pub fn runs_keep_windows()
    ensures { RunsKeepWindows }
{}
