//! The law of SFN partitions, in runs of the machine: the partition's functions and its IPC loop have the
//! same runs.
//!
//! The function here does nothing. Its contract is a law of the machine of `ffm_model`: it holds for
//! every system, every opening memory, every run and every partition whose services are functions.

ghost use Rattle.law_programs.specs.Owners.{LoopsAreRounds};

/// In each run of the machine the entries of an SFN partition are a run of its IPC loop exactly where
/// they are rounds of its functions.
pub fn loops_are_rounds_in_runs()
    ensures { LoopsAreRounds }
{}
