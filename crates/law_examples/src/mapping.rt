//! Mapped vectors.
ghost use Rattle.std.specs.Prelude.{◌≡◌, true, Some};
ghost use Rattle.ffm_model.specs.declared.machine.Verdict.TheVariants.{Quiet};
ghost use Rattle.ffm_model.specs.Names.{names};
ghost use Rattle.ffm_model.specs.Plans.{PlanRun};
ghost use Rattle.ffm_model.specs.Records.{entries_of};
ghost use Rattle.ffm_model.specs.Verdicts.{verdict_of};
ghost use Rattle.law_examples.specs.Mapping.{mapped_vector_read, mapper_memory, mapping_plan, reading_plan, vectors_mapped};
ghost use Rattle.law_examples.specs.Systems.{mapper_system, vault};

/// A partition maps an input and an output of a request, and unmaps both.
pub fn vectors_mapped()
    ensures run { verdict_of mapper_system mapper_memory 4096 vectors_mapped ≡ Some Quiet }
    ensures named { names mapper_system mapper_memory vectors_mapped ≡ true }
    ensures planned { PlanRun mapping_plan (entries_of vault vectors_mapped) }
{}

/// A vector that is mapped may not be read by `psa_read`.
pub fn mapped_vector_read()
    ensures run { verdict_of mapper_system mapper_memory 4096 mapped_vector_read ≡ Some Quiet }
    ensures named { names mapper_system mapper_memory mapped_vector_read ≡ true }
    ensures planned { PlanRun reading_plan (entries_of vault mapped_vector_read) }
{}
