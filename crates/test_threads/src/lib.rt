//! What no clause says of threads that share a manager, and of workers that are driven: that both come to an end, what
//! the gate and the manager are asked, and that each turn sees those before it.
//!
//! This library has no function of its own: it is a set of tests of the public calls of other crates. What a turn is
//! answered, and what a worker that was driven has done, are clauses of their own.
#![tactic(auto)]

#[cfg(test)]
mod alone;
#[cfg(test)]
mod driven;
#[cfg(test)]
mod drives;
#[cfg(test)]
mod scripts;
#[cfg(test)]
mod setup;
#[cfg(test)]
mod turns;
