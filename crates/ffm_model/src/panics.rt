//! The law of a panic's steps.
ghost use Rattle.std.specs.Prelude.{◌≡◌, ℕ};
ghost use Rattle.ffm_model.specs.declared.system.System.{System};
ghost use Rattle.ffm_model.specs.Panic.{panic_effect, panic_steps};
ghost use Rattle.ffm_model.specs.State.{SpmState};

/// What the panic of a partition leaves is what its four steps leave, one after the other: it is
/// panicked; the clients of its services are answered, and their connections are dead or freed; the
/// messages to its services are gone; its own connections are freed or closing. The function does
/// nothing.
pub fn panics_act_in_steps()
    ensures { (s : System) (b : SpmState) (p : ℕ) → panic_effect s b p ≡ panic_steps s b p }
{}
