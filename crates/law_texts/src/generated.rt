//! The law of generated files: those of `make` are never refused.
//!
//! The function here does nothing. Its contract is a law of the texts of `system_texts` and of what
//! `ffm_model` reads of files.

ghost use Rattle.std.specs.Prelude.{◌≤◌, ℕ};
ghost use Rattle.law_texts.specs.Admitted.{AreAdmitted};

/// The generated system file breaks no rule, and the generated scenario is one of that system, each of
/// whose scripts is assembled. It is so for each number of requests that a script's line may state, so
/// for the 1 to 2,000 that `make` takes.
pub fn generated_files_are_admitted()
    ensures { (rounds : ℕ) → rounds ≤ 4294967295 → AreAdmitted rounds }
{}
