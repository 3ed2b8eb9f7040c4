//! Partitions whose services are functions.
ghost use Rattle.std.specs.Prelude.{◌≡◌, true, Some};
ghost use Rattle.ffm_model.specs.declared.machine.Verdict.TheVariants.{Quiet};
ghost use Rattle.ffm_model.specs.Names.{names};
ghost use Rattle.ffm_model.specs.Records.{entries_of};
ghost use Rattle.ffm_model.specs.SfnRuns.{SfnRun};
ghost use Rattle.ffm_model.specs.Verdicts.{verdict_of};
ghost use Rattle.law_examples.specs.Functions.{adder, adder_memory, connection_answered, five, number_added};
ghost use Rattle.law_examples.specs.Systems.{adder_system, connected_system, vault};
ghost use Rattle.law_examples.specs.Writing.{zeros};

/// The result of a function answers its caller, and the partition waits for the next message.
pub fn answered_by_a_function()
    ensures run { verdict_of adder_system adder_memory 4096 number_added ≡ Some Quiet }
    ensures named { names adder_system adder_memory number_added ≡ true }
    ensures rounds { SfnRun adder (entries_of vault number_added) }
{}

/// A function is called for a connection too, and panics by an answer that a connection doesn't have.
pub fn connection_answered_by_a_function()
    ensures run { verdict_of connected_system zeros 4096 connection_answered ≡ Some Quiet }
    ensures named { names connected_system zeros connection_answered ≡ true }
    ensures rounds { SfnRun five (entries_of vault connection_answered) }
{}
