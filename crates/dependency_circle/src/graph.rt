//! Graphs.
ghost use Rattle.std.specs.Prelude.{◌≡◌, ℕ, Bool};

/// The edges of a graph whose places are numbers.
pub trait Graph {
    ghost edge: { Self → ℕ → ℕ → Bool };

    /// Whether an edge goes from one place to another. It is asked often, so it should be a look-up.
    fn edge(&self, from: u32, to: u32) -> bool
        ensures { result ≡ edge self.now from to };
}
