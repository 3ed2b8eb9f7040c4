//! Where the memory of a system lies: its regions out of what a system file says, or the first reason
//! against them. And the items of all manifests in one list, each with its place.
#![tactic(auto)]

mod at;
mod directory;
mod error;
mod large;
mod layout;
mod overlap;
mod place;
mod placed;
mod ram;
mod repeats;

pub use at::{At, Dependencies, Irqs, ItemList, MmioRegions, Services, located};
pub use error::LayoutError;
pub use layout::lay_out;
pub use ram::domain_at;
pub use repeats::{Named, repeated_name};
