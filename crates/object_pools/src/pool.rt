//! The pool.

ghost use Rattle.std.specs.Prelude.{◌≡◌, ◌<◌, ◌≤◌, ◌+◌, ◌↔◌, length, IsSome, IsErr, IfOk, Some, find, slice_get};
ghost use Rattle.std.specs.Option.{option_copied, option_copied_mut};
ghost use Rattle.object_pools.specs.Pool.{Places, most_takes, is_at, empty, taken, item_at, without, with_item, Takes, IsKept, AddsUp};

use crate::cells::{self, Cell};
use crate::slot::{Held, Slot};
use arrayvec::ArrayVec;
use std::alloc::{AllocError, Global};
use std::marker::Model;

/// At most `CAP` items, each under a slot. An item's slot and its place in memory stay from its take until it is put back.
///
/// Contracts see for each index the last generation that was given there, the live items in the order of their takes,
/// and the number of takes.
#[derive(Drop)]
pub struct Pool<T, const CAP: usize> {
    cells: ArrayVec<Cell<T>, CAP>,
    // the indices of the live items, in the order of their takes
    order: ArrayVec<u32, CAP>,
    takes: u32,
}

impl<T, const CAP: usize> Model for Pool<T, CAP> {
    ghost use Rattle.object_pools.specs.Pool.{Places};

    ghost Value = { Places T };

    ghost use Rattle.object_pools.specs.Cells.{places_of, Stored};

    ghost view = { λ p. places_of p.cells.items p.order.items p.takes };

    ghost invariant = { λ p. Stored CAP p.cells.items p.order.items p.takes };
}

impl<T: Copy, const CAP: usize> Pool<T, CAP> {
    ghost use Rattle.std.specs.Borrow.{sem};
    ghost use Rattle.object_pools.specs.Lends.{lends_item};

    /// A pool for at most `size` live items.
    pub fn new(size: u32) -> Self
        requires { size ≤ CAP }
        ensures { result ≡ empty size }
    {
        let mut pool = Pool::without_places();
        pool.add_places(size);
        pool
    }

    /// A pool for at most `size` live items, in a box. Its places are added there, so that none is
    /// copied. `AllocError` where memory is wanting.
    pub fn boxed(alloc: Global, size: u32) -> Result<Box<Self>, AllocError>
        requires { size ≤ CAP }
        ensures { IfOk result (λ b. b.value ≡ empty size) }
    {
        let mut pool = Box::new(alloc, Pool::without_places())?;
        pool.add_places(size);
        Ok(pool)
    }

    fn without_places() -> Self
        ensures { result ≡ empty 0 }
    {
        Pool {
            cells: ArrayVec::new(),
            order: ArrayVec::new(),
            takes: 0,
        }
    }

    // Gives a pool without places that many.
    fn add_places(&mut self, size: u32)
        requires none { self.old ≡ empty 0 }
        requires fits { size ≤ CAP }
        ensures { self.new ≡ empty size }
    {
        cells::add_free(&mut self.cells, size);
    }

    /// How many items are live.
    pub fn live(&self) -> u32
        ensures { result ≡ length self.now.held }
    {
        self.order.len() as u32
    }

    /// How many items can be live at once.
    pub fn size(&self) -> u32
        ensures { result ≡ length self.now.generations }
    {
        self.cells.len() as u32
    }

    /// How many items were taken in.
    pub fn takes(&self) -> u32
        ensures { result ≡ self.now.takes }
    {
        self.takes
    }

    /// Says what every pool keeps. It does nothing.
    pub fn law(&self)
        ensures { IsKept CAP self.now }
    {
        let _ = &self.cells;
    }

    /// Says of every pool that its last generations add up to the number of its takes. It does nothing.
    pub fn law_of_takes(&self)
        ensures { AddsUp self.now }
    {
        let _ = &self.cells;
    }

    /// Takes an item in at the lowest free index with its next generation, or hands it back where the pool is full.
    pub fn take(&mut self, item: T) -> Result<Slot, T>
        requires { self.old.takes < most_takes }
        ensures takes { Takes self.old item result self.new }
        ensures full { IsErr result ↔ (length self.old.held ≡ length self.old.generations) }
    {
        let Some(index) = cells::lowest_free(self.cells.as_slice(), self.cells.len() as u32) else {
            return Err(item);
        };
        let generation = cells::generation_at(self.cells.as_slice(), index) + 1;
        let slot = Slot { index, generation };
        cells::put(&mut self.cells, slot, Some(item));
        self.order.push(index);
        self.takes += 1;
        Ok(slot)
    }

    /// Hands a live item out; its slot is live no more.
    pub fn put_back(&mut self, slot: Slot) -> T
        requires { IsSome (item_at self.old slot) }
        ensures item { item_at self.old slot ≡ Some result }
        ensures rest { self.new ≡ without self.old slot }
    {
        match cells::item_in(self.cells.as_slice(), slot).copied() {
            Some(item) => {
                cells::put(&mut self.cells, slot, None);
                cells::leave_out(&mut self.order, slot.index);
                item
            }
            None => unreachable!(),
        }
    }

    /// The live item of a slot, in constant time; None exactly where that index with that generation isn't live.
    pub fn get(&self, slot: Slot) -> Option<&T>
        ensures { option_copied result ≡ item_at self.now slot }
    {
        cells::item_in(self.cells.as_slice(), slot)
    }

    /// The live item of a slot for writing, in constant time; None as with `get`.
    pub fn get_mut(&mut self, slot: Slot) -> Option<&mut T>
        ensures* writes_back { sem 𝓛 (lends_item T.row CAP.row self.entry slot result) }
        ensures value { option_copied_mut result ≡ item_at self.old slot }
    {
        match self.cells.get_mut(slot.index as usize) {
            None => None,
            Some(cell) if cell.generation != slot.generation => None,
            Some(cell) => match &mut cell.item {
                Some(item) => Some(item),
                None => None,
            },
        }
    }

    /// Writes over a live item, in constant time.
    pub fn set(&mut self, slot: Slot, item: T)
        requires { IsSome (item_at self.old slot) }
        ensures { self.new ≡ with_item self.old slot item }
    {
        cells::put(&mut self.cells, slot, Some(item));
    }

    /// The live item at an index, in constant time; None exactly where none is live there.
    pub fn at(&self, index: u32) -> Option<Held<T>>
        ensures { result ≡ find (is_at index) self.now.held }
    {
        cells::held_at(self.cells.as_slice(), index)
    }

    /// The live item at a place in the order of the takes, counted from 0, in constant time.
    pub fn nth(&self, place: u32) -> Held<T>
        requires { place < length self.now.held }
        ensures { slice_get self.now.held place ≡ Some result }
    {
        let index = self.order.as_slice()[place as usize];
        match cells::held_at(self.cells.as_slice(), index) {
            Some(held) => held,
            None => unreachable!(),
        }
    }
}
