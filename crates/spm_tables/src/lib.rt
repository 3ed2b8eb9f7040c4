//! The tables of a manager: connections, messages in their queues, what each actor does, doorbells and interrupt sources.
#![tactic(auto)]

mod board;
mod item;
mod links;
mod queues;
mod signals;
mod slices;
mod tables;

pub use item::{MessageItem, QueuedMessage};
pub use signals::OwnedSignal;
pub use tables::Tables;
