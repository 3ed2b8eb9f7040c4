//! The calls of `psa/client.h` over the tables of a manager. No call takes memory.
#![tactic(auto)]

mod closing;
mod connecting;
mod requests;
mod sending;
mod versions;

pub use closing::close;
pub use connecting::connect;
pub use machine_rules::version;
pub use requests::invoke;
pub use versions::framework_version;
