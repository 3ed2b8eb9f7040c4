//! The limit of a generated run.
ghost use Rattle.std.specs.Prelude.{◌≡◌};
ghost use Rattle.command_words.specs.declared.limits.TheConstants.{MAX_ROUNDS};

/// The most requests of each client in a generated run.
pub const MAX_ROUNDS: u32 = 2000;

/// The limit is this number. All other contracts name the constant. It does nothing.
pub fn value_of_the_rounds_limit()
    ensures { MAX_ROUNDS ≡ 2000 }
{}
