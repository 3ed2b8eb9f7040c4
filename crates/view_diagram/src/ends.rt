//! The end of a diagram.
ghost use Rattle.std.specs.Prelude.{◌≡◌, ◌++◌, IfOk, string_bytes};
ghost use Rattle.view_diagram.specs.Ends.{EndsIn};

use std::alloc::AllocError;

fn with_more(front: String, end: &str, tail: &str) -> Result<String, AllocError>
    ensures { IfOk result (λ text.
        string_bytes text ≡ string_bytes front ++ (end.now ++ tail.now)) }
{
    let mut text = front;
    text.push_str(end)?;
    text.push_str(tail)?;
    Ok(text)
}

/// A text with its end.
pub fn ended(front: String, end: &str, tail: &str) -> Result<String, AllocError>
    ensures { IfOk result (λ text. EndsIn end.now tail.now (string_bytes text)) }
{
    with_more(front, end, tail)
}
