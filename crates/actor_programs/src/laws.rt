//! The law that a scenario file's order of scripts names each actor as often as it has scripts.
ghost use Rattle.std.specs.Prelude.{ℕ, ◌<◌, List};
ghost use Rattle.ffm_model.specs.declared.machine.ActorId.{ActorId};
ghost use Rattle.ffm_model.specs.declared.scenario.Bytes.{Bytes};
ghost use Rattle.ffm_model.specs.declared.scenario.RaiseItem.{RaiseItem};
ghost use Rattle.ffm_model.specs.declared.script_item.ScriptItem.{ScriptItem};
ghost use Rattle.ffm_model.specs.declared.system.System.{System};
ghost use Rattle.ffm_model.specs.Actors.{actor_count};
ghost use Rattle.ffm_model.specs.Scenarios.{scenario_with};
ghost use Rattle.actor_programs.specs.Programs.{IsListed};

/// Each actor is listed in what a scenario file says.
pub fn files_list_their_scripts()
    ensures { (s : System) (limit : ℕ) (scripts : List ScriptItem) (schedule : List ActorId)
        (raises : List RaiseItem) (memory : List Bytes) (restarts a : ℕ)
        → a < actor_count s
        → IsListed (scenario_with s limit scripts schedule raises memory restarts) a }
{}
