//! A condition of a call.
ghost use Rattle.std.specs.Prelude.{◌≡◌};
ghost use Rattle.view_places.specs.Conditions.{looked, told};

/// A condition under which a call is a PROGRAMMER ERROR.
#[derive(Clone, Copy, Debug, PartialEq, Eq)]
pub struct Condition {
    pub words: &'static str,
    /// Whether it holds; none where that isn't looked at.
    pub holds: Option<bool>,
}

/// A condition that was looked at.
pub fn marked(words: &'static str, holds: bool) -> Condition
    ensures { told result ≡ looked words.now holds }
{
    Condition {
        words,
        holds: Some(holds),
    }
}
