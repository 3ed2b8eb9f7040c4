//! The laws of names.

ghost use Rattle.std.specs.Prelude.{◌≡◌, ◌≤◌, ℕ, Bool, List, [], length, Some};
ghost use Rattle.ffm_model.specs.Names.{SlotName};
ghost use Rattle.ffm_model.specs.declared.machine.Handle.{Handle};
ghost use Rattle.handle_table.specs.declared.handles.Family.{Family};
ghost use Rattle.object_pools.specs.declared.slot.Slot.{Slot};
ghost use Rattle.object_pools.specs.Pool.{empty, free_slot, without};
ghost use Rattle.handle_table.specs.Handles.{index_limit, IsPast, TakesNextName, GivesFresh, StaysFresh};

use object_pools::Pool;

/// Says that a handle is new when it is told, though slots are used again: an empty pool begins so, and each call keeps it. The
/// law is of the first `n` indices of a family, at least as many as the pool has slots and at most 512. It does nothing.
pub fn fresh_law<T: Copy, const CAP: usize>(pool: &Pool<T, CAP>)
    ensures none { (f : Family) (n : ℕ) (told : T → Bool) (size : ℕ)
        → GivesFresh f n told (empty size) [] }
    ensures keeps { (f : Family) (n : ℕ) (told : T → Bool) (given : List Handle)
        → length pool.now.generations ≤ n → n ≤ index_limit → GivesFresh f n told pool.now given
        → StaysFresh f n told pool.now given }
{
    pool.law();
}

/// Says that a pool gives slots by the machine's rule of names. It does nothing.
pub fn name_law<T: Copy, const CAP: usize>(pool: &Pool<T, CAP>)
    ensures none { (size : ℕ) → IsPast {T = T} (empty size) [] }
    ensures taken { (past : List SlotName) (slot : Slot) (item : T) → IsPast pool.now past
        → free_slot pool.now ≡ Some slot
        → TakesNextName pool.now past slot item }
    ensures put_back { (past : List SlotName) (slot : Slot) → IsPast pool.now past
        → IsPast (without pool.now slot) past }
{
    let _ = pool;
}
