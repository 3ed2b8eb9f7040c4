//! The places of a pool. An item stays in the cell of its index from its take until it is put back.

ghost use Rattle.std.specs.Prelude.{◌≡◌, ◌<◌, ◌≤◌, ◌+◌, length, [], replicate, slice_set, find, filter, not, None, is_none, slice_get, ◌==◌};
ghost use Rattle.std.specs.List.{range_with_len};
ghost use Rattle.std.specs.Option.{option_copied};
ghost use Rattle.object_pools.specs.Cells.{held_at, item_in, generation_at};

use crate::slot::{Held, Slot};
use arrayvec::ArrayVec;

/// A place of a pool.
#[derive(Clone, Copy)]
pub(crate) struct Cell<T> {
    // the last that was given here, and 0 where none was
    pub(crate) generation: u32,
    // None where the place is free
    pub(crate) item: Option<T>,
}

impl<T> Default for Cell<T> {
    ghost is_default = { λ c. c ≡ record { generation = 0; item = None } };

    fn default() -> Self {
        Cell {
            generation: 0,
            item: None,
        }
    }
}

// The live item at an index, with its slot.
pub(crate) fn held_at<T: Copy>(cells: &[Cell<T>], index: u32) -> Option<Held<T>>
    ensures { result ≡ held_at cells.now index }
{
    let cell = cells.get(index as usize)?;
    let item = cell.item?;
    let generation = cell.generation;
    Some(Held {
        slot: Slot { index, generation },
        item,
    })
}

pub(crate) fn item_in<T>(cells: &[Cell<T>], slot: Slot) -> Option<&T>
    ensures { option_copied result ≡ item_in cells.now slot }
{
    match cells.get(slot.index as usize) {
        Some(cell) if cell.generation == slot.generation => cell.item.as_ref(),
        _ => None,
    }
}

pub(crate) fn generation_at<T>(cells: &[Cell<T>], index: u32) -> u32
    ensures { result ≡ generation_at cells.now index }
{
    match cells.get(index as usize) {
        Some(cell) => cell.generation,
        None => 0,
    }
}

fn is_free<T>(cells: &[Cell<T>], index: u32) -> bool
    ensures { result ≡ is_none (held_at cells.now index) }
{
    match cells.get(index as usize) {
        Some(cell) => cell.item.is_none(),
        None => true,
    }
}

pub(crate) fn lowest_free<T>(cells: &[Cell<T>], size: u32) -> Option<u32>
    ensures { result ≡ find (λ i. is_none (held_at cells.now i)) (range_with_len 0 size) }
{
    (0..size).find(|index| is_free(cells, *index))
}

// Writes over the cell of a slot.
pub(crate) fn put<T: Copy, const CAP: usize>(
    cells: &mut ArrayVec<Cell<T>, CAP>,
    slot: Slot,
    item: Option<T>,
)
    requires { slot.index < length cells.old.items }
    ensures { cells.new.items ≡ slice_set cells.old.items slot.index
        (record { generation = slot.generation; item = item }) }
{
    let generation = slot.generation;
    cells.as_mut_slice()[slot.index as usize] = Cell { generation, item };
}

// Adds that many free places where there are none.
pub(crate) fn add_free<T: Copy, const CAP: usize>(cells: &mut ArrayVec<Cell<T>, CAP>, size: u32)
    requires none { cells.old.items ≡ [] }
    requires fits { size ≤ CAP }
    ensures items { cells.new.items ≡ replicate size (record { generation = 0; item = None }) }
    ensures count { length cells.new.items ≡ size }
{
    for _i in 0..size {
        cells.push(Cell::default());
    }
}

pub(crate) fn leave_out<const CAP: usize>(order: &mut ArrayVec<u32, CAP>, index: u32)
    ensures { order.new.items ≡ filter (λ i. not (i == index)) order.old.items }
{
    order.retain(|i| *i != index);
}
