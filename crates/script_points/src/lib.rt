//! Where scripts stand: what a partition's script or a client's contexts call next, and where they go on.
#![tactic(auto)]

mod contexts;
mod holding;
mod opening;

pub use contexts::{context_at, context_call, contexts_call, contexts_caller, contexts_go_on};
pub use holding::{holding_at, holding_call, holding_go_on};
pub use opening::{holding_none, opening_contexts};
