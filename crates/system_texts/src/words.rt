//! Words of a line.

ghost use Rattle.std.specs.Prelude.{◌≡◌, ◌++◌, map, OnOk};
ghost use Rattle.std.specs.List.{flat_map};
ghost use Rattle.ffm_model.specs.TraceText.{spaced};
ghost use Rattle.ffm_model.specs.Listing.{rot_word, priority_word, policy_word, yes_or_no, permission_word, line_of};
ghost use Rattle.text_lines.specs.Words.{word_text};

use ffm_model::{Policy, Priority, RotType};
use std::alloc::AllocError;
use text_lines::{Word, append, append_word};

/// Appends words, each after a space.
pub fn append_spaced(text: &mut Vec<u8>, words: &[Word<'_>]) -> Result<(), AllocError>
    ensures { OnOk result
        (text.new.items ≡ text.old.items ++ flat_map spaced (map word_text words.now)) }
{
    for word in words {
        append(text, " ")?;
        append_word(text, *word)?;
    }
    Ok(())
}

/// Appends a line: its first word, and the others.
pub fn append_line(text: &mut Vec<u8>, front: &str, words: &[Word<'_>]) -> Result<(), AllocError>
    ensures { OnOk result
        (text.new.items ≡ text.old.items ++ line_of front.now (map word_text words.now)) }
{
    append(text, front)?;
    append_spaced(text, words)?;
    append(text, "\n")
}

/// The manifest's `type`.
pub fn rot_word(rot: RotType) -> &'static str
    ensures { result.now ≡ rot_word rot }
{
    match rot {
        RotType::PsaRot => "PSA-ROT",
        RotType::ApplicationRot => "APPLICATION-ROT",
    }
}

/// The manifest's `priority`.
pub fn priority_word(priority: Priority) -> &'static str
    ensures { result.now ≡ priority_word priority }
{
    match priority {
        Priority::Low => "LOW",
        Priority::Normal => "NORMAL",
        Priority::High => "HIGH",
    }
}

/// The service's `version_policy`.
pub fn policy_word(policy: Policy) -> &'static str
    ensures { result.now ≡ policy_word policy }
{
    match policy {
        Policy::Strict => "STRICT",
        Policy::Relaxed => "RELAXED",
    }
}

/// `yes` or `no`.
pub fn yes_or_no(is: bool) -> &'static str
    ensures { result.now ≡ yes_or_no is }
{
    if is { "yes" } else { "no" }
}

/// The MMIO region's `permission`.
pub fn permission_word(writable: bool) -> &'static str
    ensures { result.now ≡ permission_word writable }
{
    if writable { "READ-WRITE" } else { "READ-ONLY" }
}
