//! Compiles what a system file says into a system.
#![tactic(auto)]

mod budgets;
mod compiler;
mod dependencies;
mod indices;
mod limits;
mod names;
mod pairs;
mod refusals;
mod regions;
mod systems;

pub use compiler::compile;
