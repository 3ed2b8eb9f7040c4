//! System files with the manifests that they name, and scenario files, out of the bytes of JSON
//! files.
#![tactic(auto)]

mod actor_scripts;
mod actors;
mod interrupts;
mod manifests;
mod scenario;
mod system;
mod text_bytes;

pub use manifests::read_system;
pub use scenario::read_scenario;
