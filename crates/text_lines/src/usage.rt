//! How `ffm` is used.

ghost use Rattle.std.specs.Prelude.{◌≡◌};
ghost use Rattle.text_lines.specs.Usage.{usage_line};

/// The line that says how `ffm` is used.
#[tactic(auto, unfolding(crate::specs::Usage::usage_line))]
pub fn usage_line() -> &'static str
    ensures { result.now ≡ usage_line }
{
    "usage: ffm compile SYSTEM | ffm run [--threads] SYSTEM SCENARIO | ffm replay SYSTEM SCENARIO TRACE | ffm audit SYSTEM SCENARIO TRACE | ffm make N\n"
}
