//! The law of the middle of a panic: connections and messages fit the system there too.
//!
//! The function here does nothing. Its contract is a law of the tables between the two steps
//! of `panic`, for every system and all tables.

ghost use Rattle.std.specs.Prelude.{◌<◌, All, List, ℕ, length};
ghost use Rattle.ffm_model.specs.declared.objects.ActorPhase.TheVariants.{Running};
ghost use Rattle.ffm_model.specs.declared.system.System.{System};
ghost use Rattle.ffm_model.specs.State.{with_phase};
ghost use Rattle.law_counting.specs.Objects.{ObjectsFit};
ghost use Rattle.machine_rules.specs.Vectors.{AreWithin};
ghost use Rattle.panic_state.specs.Losses.{as_client};
ghost use Rattle.spm_tables.specs.TablesView.{MadeFor, TablesView, spm_of};

/// In the middle of a partition's panic, its services gone and it still there as a client, connections
/// and messages fit the system, if at first they fit it with that partition as one that runs. If the
/// vectors of all messages lie within some ranges at first, those of all messages do in the middle.
pub fn panics_fit_midway()
    ensures fits { (s : System) (d : TablesView) (p : ℕ) → MadeFor d s → p < length s.partitions
        → ObjectsFit s (with_phase (spm_of d) p Running)
        → ObjectsFit s (spm_of (as_client s p d)) }
    ensures within { (ranges : List (ℕ × ℕ)) (s : System) (d : TablesView) (p : ℕ)
        → All (λ m. AreWithin ranges m.vectors) (spm_of d).messages
        → All (λ m. AreWithin ranges m.vectors) (spm_of (as_client s p d)).messages }
{}
