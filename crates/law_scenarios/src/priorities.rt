//! The law of priorities: nothing but the listing of a system depends on its partitions' priorities.
//!
//! The function here does nothing. Its contract is a law of the machine of `ffm_model` and of the
//! programs of its actors.

ghost use Rattle.std.specs.Prelude.{List};
ghost use Rattle.ffm_model.specs.declared.system.Partition.{Partition};
ghost use Rattle.ffm_model.specs.declared.system.System.{System};
ghost use Rattle.law_scenarios.specs.Priorities.{FitAlike, JudgeAlike, ReadAlike, RunAlike};

/// A system whose partitions have other priorities is a system too (`fit`). The same scenario files are
/// read over it, with the same programs (`read`), it has the same runs, those after a panic too (`run`),
/// and the same traces are legal (`judge`).
pub fn priority_changes_nothing()
    ensures fit { (s : System) (partitions : List Partition) → FitAlike s partitions }
    ensures read { (s : System) (partitions : List Partition) → ReadAlike s partitions }
    ensures run { (s : System) (partitions : List Partition) → RunAlike s partitions }
    ensures judge { (s : System) (partitions : List Partition) → JudgeAlike s partitions }
{}
