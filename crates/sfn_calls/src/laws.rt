//! The law that joins an SFN partition and its loop.
ghost use Rattle.ffm_model.specs.Functions.{SfnPartition};
ghost use Rattle.sfn_calls.specs.Answers.{IsSfnPartition, SameRuns};

/// The entries of a run are those of the loop exactly where they are rounds of the functions.
pub fn loops_are_rounds()
    ensures { (p : SfnPartition) → IsSfnPartition p → SameRuns p }
{}
