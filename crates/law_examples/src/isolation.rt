//! Isolation levels.
ghost use Rattle.std.specs.Prelude.{◌≡◌, true, Some, take};
ghost use Rattle.ffm_model.specs.declared.machine.Call.TheVariants.{Load};
ghost use Rattle.ffm_model.specs.declared.machine.Outcome.TheVariants.{Number, Panicked};
ghost use Rattle.ffm_model.specs.declared.machine.Verdict.TheVariants.{Quiet};
ghost use Rattle.ffm_model.specs.Verdicts.{verdict_of};
ghost use Rattle.law_examples.specs.Writing.{entry, refuses_next, zeros};
ghost use Rattle.law_examples.specs.Systems.{spy, outsider, level_1_system, level_1_types_system, level_2_system, level_2_types_system, level_3_system, level_3_types_system};
ghost use Rattle.law_examples.specs.Isolation.{spy_panicked, spy_answered};

/// Whether a partition may load from another one's RAM: always at level 1, at level 2 where their types
/// are equal, and never at level 3. A client never may.
pub fn isolation_levels()
    ensures level_1 { verdict_of level_1_system zeros 4096 spy_answered ≡ Some Quiet }
    ensures level_1_shared { refuses_next level_1_system zeros (take 1 spy_answered)
        (entry spy (Load 0x30000000 4) Panicked) ≡ true }
    ensures level_1_types { verdict_of level_1_types_system zeros 4096 spy_answered ≡ Some Quiet }
    ensures level_1_types_shared { refuses_next level_1_types_system zeros (take 1 spy_answered)
        (entry spy (Load 0x30000000 4) Panicked) ≡ true }
    ensures level_2 { verdict_of level_2_system zeros 4096 spy_answered ≡ Some Quiet }
    ensures level_2_shared { refuses_next level_2_system zeros (take 1 spy_answered)
        (entry spy (Load 0x30000000 4) Panicked) ≡ true }
    ensures level_2_types { verdict_of level_2_types_system zeros 4096 spy_panicked ≡ Some Quiet }
    ensures level_2_types_apart { refuses_next level_2_types_system zeros (take 1 spy_panicked)
        (entry spy (Load 0x30000000 4) (Number 0)) ≡ true }
    ensures level_3 { verdict_of level_3_system zeros 4096 spy_panicked ≡ Some Quiet }
    ensures level_3_apart { refuses_next level_3_system zeros (take 1 spy_panicked)
        (entry spy (Load 0x30000000 4) (Number 0)) ≡ true }
    ensures level_3_types { verdict_of level_3_types_system zeros 4096 spy_panicked ≡ Some Quiet }
    ensures level_3_types_apart { refuses_next level_3_types_system zeros (take 1 spy_panicked)
        (entry spy (Load 0x30000000 4) (Number 0)) ≡ true }
    ensures client_never { refuses_next level_1_system zeros (take 2 spy_answered)
        (entry outsider (Load 0x30000000 4) (Number 0)) ≡ true }
{}
