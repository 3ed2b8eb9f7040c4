//! The numbers that name slots to actors.

ghost use Rattle.std.specs.Prelude.{◌≡◌, ◌≤◌, ◌&&◌, true, pos, int_le, IfSome, Some};
ghost use Rattle.ffm_model.specs.Actors.{stateless_index};
ghost use Rattle.handle_table.specs.Handles.{base_of, handle_number, handle_at, IsNameable};
ghost use Rattle.handle_table.specs.declared.handles.Family.{Family as TheFamily};
ghost use Rattle.object_pools.specs.declared.slot.Slot.{Slot as TheSlot};

use ffm_model::{Handle, MAX_STATELESS, STATELESS_BASE};
use object_pools::Slot;

// Indices of connections' slots are below this number.
const CONNECTION_INDICES: u32 = 256;

// Indices of messages' slots are below this number.
const MESSAGE_INDICES: u32 = 304;

// Generations of slots that handles name are below this number.
const GENERATIONS: u32 = 1 << 20;

// How many handle numbers a generation has.
const NUMBERS: u32 = 1024;

// What the handle of a message has more than that of a connection.
const MESSAGE_BASE: u32 = 512;

/// What a handle names.
#[derive(Clone, Copy, Debug, PartialEq, Eq)]
pub enum Family {
    /// A connection; `psa_connect` returns its handle.
    Connection,
    /// A message; `psa_get` gives its handle.
    Message,
}

// The number that a family's handles have more than the slot's own.
fn base(family: Family) -> u32
    ensures value { result ≡ base_of family }
    ensures bound { result ≤ 512 }
{
    match family {
        Family::Connection => 0,
        Family::Message => MESSAGE_BASE,
    }
}

/// The handle of a slot: `generation * 1024 + index`, and 512 more for a message. It is positive and below 0x40000000.
///
/// The index has to be below 256 for a connection and below 304 for a message, and the generation from 1 to 1,048,575.
pub fn handle_of(family: Family, slot: Slot) -> Handle
    requires { IsNameable family slot }
    ensures value { result ≡ handle_at family slot }
    ensures range { (int_le (pos 1) result.0 && int_le result.0 (pos 0x3fffffff)) ≡ true }
{
    let number = slot.generation * NUMBERS + slot.index + base(family);
    Handle(number as i32)
}

fn slot_of_number(number: u32) -> Option<(Family, Slot)>
    ensures gives { IfSome result (λ named.
        IsNameable named.0 named.1 × (handle_number named.0 named.1 ≡ number)) }
    ensures only { (family : TheFamily) (slot : TheSlot) → IsNameable family slot
        → handle_number family slot ≡ number
        → result ≡ Some (family, slot) }
{
    let generation = number / NUMBERS;
    let rest = number % NUMBERS;
    if generation == 0 || generation >= GENERATIONS {
        return None;
    }
    if rest < CONNECTION_INDICES {
        return Some((
            Family::Connection,
            Slot {
                index: rest,
                generation,
            },
        ));
    }
    if rest < MESSAGE_BASE || rest >= MESSAGE_BASE + MESSAGE_INDICES {
        return None;
    }
    let index = rest - MESSAGE_BASE;
    Some((Family::Message, Slot { index, generation }))
}

/// The family and the slot that give this handle. None exactly where none do: the handle isn't positive or is 0x40000000 or more,
/// as each stateless one, or it shows generation 0 or an index that its family hasn't.
pub fn slot_of(handle: Handle) -> Option<(Family, Slot)>
    ensures gives { IfSome result (λ named.
        IsNameable named.0 named.1 × (handle_at named.0 named.1 ≡ handle)) }
    ensures only { (family : TheFamily) (slot : TheSlot) → IsNameable family slot
        → handle_at family slot ≡ handle
        → result ≡ Some (family, slot) }
{
    match u32::try_from(handle.0) {
        Ok(number) => slot_of_number(number),
        Err(_) => None,
    }
}

/// The handle by which the service with an index from 1 to 32 is called without a connection: 0x40000000 and the index.
pub fn stateless_handle(index: u32) -> Handle
    requires { 1 ≤ index × index ≤ 32 }
    ensures { stateless_index result ≡ Some index }
{
    Handle((STATELESS_BASE + index) as i32)
}

/// The index that a stateless handle shows. None exactly where the handle isn't 0x40000001 to 0x40000020.
pub fn stateless_index(handle: Handle) -> Option<u32>
    ensures { result ≡ stateless_index handle }
{
    if handle.0 > STATELESS_BASE as i32 && handle.0 <= (STATELESS_BASE + MAX_STATELESS) as i32 {
        Some(handle.0 as u32 - STATELESS_BASE)
    } else {
        None
    }
}
