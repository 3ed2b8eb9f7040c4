//! The names of live items.

/// The name of a live item: its place, and how often an item was taken in there.
#[derive(Clone, Copy, Debug, Default, PartialEq, Eq)]
pub struct Slot {
    /// The place, counted from 0.
    pub index: u32,
    /// The number of takes at this place, from 1.
    pub generation: u32,
}

/// A live item with its slot.
#[derive(Clone, Copy, Debug, Default, PartialEq, Eq)]
pub struct Held<T> {
    /// Its name.
    pub slot: Slot,
    /// The item itself.
    pub item: T,
}
