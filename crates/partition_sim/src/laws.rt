//! When plans resume, and which of them are that of a script.
ghost use Rattle.std.specs.Prelude.{◌≡◌, ◌∷◌, [], List, ◌↔◌};
ghost use Rattle.ffm_model.specs.declared.machine.Entry.{Entry};
ghost use Rattle.ffm_model.specs.declared.machine.Outcome.{Outcome};
ghost use Rattle.ffm_model.specs.declared.script.Instruction.{Instruction};
ghost use Rattle.ffm_model.specs.Contexts.{ContextRun, context_plan};
ghost use Rattle.ffm_model.specs.Held.{Holder};
ghost use Rattle.ffm_model.specs.HeldPlans.{held_plan};
ghost use Rattle.ffm_model.specs.Plans.{PlanRun};
ghost use Rattle.ffm_model.specs.ScriptRuns.{ScriptRun, script_plan};
ghost use Rattle.ffm_model.specs.Scripts.{MapsNothing};
ghost use Rattle.partition_sim.specs.Resuming.{ResumesAfterBlocked};

/// A client with one script calls as the script says.
pub fn one_context_is_a_script()
    ensures call { (script : List Instruction) (outcomes : List Outcome)
        → context_plan (script ∷ []) outcomes ≡ script_plan script outcomes }
    ensures run { (script : List Instruction) (entries : List Entry)
        → ContextRun (script ∷ []) entries ↔ ScriptRun script entries }
{}

/// A partition whose script maps nothing calls as the script says, whatever messages it holds.
pub fn scripts_that_map_nothing()
    ensures call { (p : Holder) (script : List Instruction) (outcomes : List Outcome)
        → MapsNothing script
        → held_plan p script outcomes ≡ script_plan script outcomes }
    ensures run { (p : Holder) (script : List Instruction) (entries : List Entry)
        → MapsNothing script
        → PlanRun (held_plan p script) entries ↔ ScriptRun script entries }
{}

/// Each plan gives a return exactly where the last call is blocked.
pub fn plans_resume_after_blocked()
    ensures script { (script : List Instruction) → ResumesAfterBlocked (script_plan script) }
    ensures held { (p : Holder) (script : List Instruction)
        → ResumesAfterBlocked (held_plan p script) }
    ensures contexts { (scripts : List (List Instruction))
        → ResumesAfterBlocked (context_plan scripts) }
{}
