//! Tests of the outside: files, sinks, words of the command line and threads, and what the commands of both programs
//! tell where a read or a put fails, or where a file or a trace is too large to be stored.
//!
//! This library has no function of its own: it is a set of tests of the public calls of other crates.
#![tactic(auto)]

#[cfg(test)]
mod diagrams;
#[cfg(test)]
mod failures;
#[cfg(test)]
mod files;
#[cfg(test)]
mod sinks;
#[cfg(test)]
mod sizes;
#[cfg(test)]
mod steady;
#[cfg(test)]
mod threads;
#[cfg(test)]
mod told;
#[cfg(test)]
mod words;
