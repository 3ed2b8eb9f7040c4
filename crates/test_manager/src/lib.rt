//! Tests of the manager, its tables and the memory: what they answer where a definition could be doubted, in
//! worked numbers, that the calls that take memory find it, and calls one after another over tables made for
//! them.
//!
//! This library has no function of its own: it is a set of tests of the public calls of other crates. Two show
//! that the condition of each call is met by what the calls before it promise, and one makes runs of interrupts,
//! those that are PROGRAMMER ERRORs too. What each call answers is a clause of its own, and runs of files are
//! stored cases.
#![tactic(auto)]

#[cfg(test)]
mod differences;
#[cfg(test)]
mod images;
#[cfg(test)]
mod lives;
#[cfg(test)]
mod numbers;
#[cfg(test)]
mod parts;
#[cfg(test)]
mod ranges;
#[cfg(test)]
mod setup;
#[cfg(test)]
mod sizes;
#[cfg(test)]
mod steps;
