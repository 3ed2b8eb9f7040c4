//! What no stored command shows: of files what a manifest says beyond its listing, where decimals get
//! quotation marks, long files at their limits, and the files that are made by numbers; graphs of small
//! tables of steps; and a state as bytes.
//!
//! This library has no function of its own: it is a set of tests of the public calls of other crates.
#![tactic(auto)]

#[cfg(test)]
mod decimals;
#[cfg(test)]
mod generated;
#[cfg(test)]
mod graphs;
#[cfg(test)]
mod limits;
#[cfg(test)]
mod manifests;
#[cfg(test)]
mod packing;
#[cfg(test)]
mod table;
