//! What a person at a terminal sees while a search goes on.

use explore_runs::Watch;
use std::io::Eprint;
use std::time::{Clock, Instant};

// The clock is looked at once in so many states.
const STATES_BETWEEN: usize = 256;

/// Says on the standard error, at most once a second, how far a search has come. That a line can't be
/// written, or the clock not be read, changes nothing.
#[derive(Drop)]
pub struct Progress<'a, R> {
    rt: &'a R,
    // When the last line was written, or the search began; None where no line is wanted.
    last: Option<Instant>,
}

impl<'a, R: Clock> Progress<'a, R> {
    /// Progress that is said, or that isn't.
    pub fn new(rt: &'a R, is_said: bool) -> Progress<'a, R> {
        let last = if is_said { Instant::now(rt).ok() } else { None };
        Progress { rt, last }
    }
}

impl<R: Clock + Eprint> Watch for Progress<'_, R> {
    fn look(&mut self, found: usize, expanded: usize, depth: u32) {
        let Some(last) = self.last else {
            return;
        };
        if !expanded.is_multiple_of(STATES_BETWEEN) {
            return;
        }
        let Ok(now) = Instant::now(self.rt) else {
            return;
        };
        if now.duration_since(last).as_secs() == 0 {
            return;
        }
        self.last = Some(now);
        let left = found.saturating_sub(expanded);
        let _ = eprintln!(self.rt;
            "ffm_explore: {found} states, {left} not expanded, {depth} events deep"
        );
    }
}
