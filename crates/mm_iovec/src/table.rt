//! The messages that are held, in the order in which they were got.
ghost use Rattle.std.specs.Prelude.{◌≡◌, ◌<◌, ◌≤◌, ◌++◌, ◌∷◌, [], length, map, true, position, slice_set};
ghost use Rattle.std.specs.List.{list_all};
ghost use Rattle.std.specs.Option.{option_copied, option_map};
ghost use Rattle.ffm_model.specs.declared.machine.Call.TheVariants as call;
ghost use Rattle.ffm_model.specs.Held.{can_map_in, can_map_out, can_unmap_in, can_unmap_out, changed_at, held, input_size, is_held_as, is_input_free, is_output_free, is_refused, touched, window_size, with_input, with_message_of, with_output, without};
ghost use Rattle.mm_iovec.specs.HeldView.{can_hold, is_output_unmapped};
ghost use Rattle.mm_iovec.specs.Items.{message_of, service_of, state_of};

use crate::holder::{Holder, HolderService};
use crate::item::{HeldItem, input_at, is_output_unmapped, output_at};
use crate::vector::VectorState;
use arrayvec::ArrayVec;
use ffm_model::{Handle, Message, PSA_MAX_IOVEC};

/// A system has at most so many messages at once.
pub(crate) const MOST_HELD: usize = 304;

/// The messages.
pub(crate) type Messages = ArrayVec<HeldItem, MOST_HELD>;

// ---- look-ups

// The place of the message of a handle; of two with one handle the older one counts.
fn place_of(items: &[HeldItem], handle: Handle) -> Option<usize>
    ensures { result ≡ position (is_held_as handle) (map message_of items.now) }
{
    items.iter().position(|item| item.handle.0 == handle.0)
}

// The message of a handle.
fn find(items: &[HeldItem], handle: Handle) -> Option<&HeldItem>
    ensures { option_map message_of (option_copied result)
        ≡ held (map message_of items.now) handle }
{
    items.iter().find(|item| item.handle.0 == handle.0)
}

/// The size of an input vector, and 0 where no message has the handle.
pub(crate) fn input_size(items: &[HeldItem], handle: Handle, index: u32) -> u32
    ensures { result ≡ input_size (map message_of items.now) handle index }
{
    match find(items, handle) {
        Some(item) => input_at(item, index).size,
        None => 0,
    }
}

// ---- what may be done

// Whether no message has its input vector in the window.
fn is_input_free(items: &[HeldItem], index: u32) -> bool
    ensures { result ≡ is_input_free (map message_of items.now) index }
{
    !items.iter().any(|item| input_at(item, index).is_mapped())
}

// Whether no message has its output vector in the window.
fn is_output_free(items: &[HeldItem], index: u32) -> bool
    ensures { result ≡ is_output_free (map message_of items.now) index }
{
    !items.iter().any(|item| output_at(item, index).is_mapped())
}

pub(crate) fn can_map_in(holder: &Holder, items: &[HeldItem], handle: Handle, index: u32) -> bool
    ensures { result ≡ can_map_in holder.now (map message_of items.now) handle index }
{
    match find(items, handle) {
        Some(item) => {
            index < PSA_MAX_IOVEC
                && holder.is_mappable(item, input_at(item, index))
                && is_input_free(items, index)
        }
        None => false,
    }
}

pub(crate) fn can_map_out(holder: &Holder, items: &[HeldItem], handle: Handle, index: u32) -> bool
    ensures { result ≡ can_map_out holder.now (map message_of items.now) handle index }
{
    match find(items, handle) {
        Some(item) => {
            index < PSA_MAX_IOVEC
                && holder.is_mappable(item, output_at(item, index))
                && is_output_free(items, index)
        }
        None => false,
    }
}

pub(crate) fn can_unmap_in(items: &[HeldItem], handle: Handle, index: u32) -> bool
    ensures { result ≡ can_unmap_in (map message_of items.now) handle index }
{
    match find(items, handle) {
        Some(item) => index < PSA_MAX_IOVEC && input_at(item, index).is_mapped(),
        None => false,
    }
}

pub(crate) fn can_unmap_out(items: &[HeldItem], handle: Handle, index: u32, len: u32) -> bool
    ensures { result ≡ can_unmap_out (map message_of items.now) handle index len }
{
    match find(items, handle) {
        Some(item) => {
            let vector = output_at(item, index);
            index < PSA_MAX_IOVEC && vector.is_mapped() && len <= vector.size
        }
        None => false,
    }
}

/// Whether `psa_read` and `psa_skip` of an input vector are refused.
pub(crate) fn is_input_refused(items: &[HeldItem], handle: Handle, index: u32) -> bool
    ensures { result ≡ is_refused (map message_of items.now) (call.Skip handle index 0) }
{
    match find(items, handle) {
        Some(item) => index < PSA_MAX_IOVEC && input_at(item, index).is_or_was_mapped(),
        None => false,
    }
}

/// Whether `psa_write` to an output vector is refused.
pub(crate) fn is_output_refused(items: &[HeldItem], handle: Handle, index: u32) -> bool
    ensures { result ≡ is_refused (map message_of items.now) (call.Write handle index 0 0) }
{
    match find(items, handle) {
        Some(item) => index < PSA_MAX_IOVEC && output_at(item, index).is_or_was_mapped(),
        None => false,
    }
}

// Whether no message has an output vector mapped.
fn are_outputs_unmapped(items: &[HeldItem]) -> bool
    ensures { result ≡ list_all is_output_unmapped (map message_of items.now) }
{
    items.iter().all(|item| is_output_unmapped(item))
}

/// Whether a partition can hold these messages.
pub(crate) fn can_hold(holder: &Holder, items: &[HeldItem]) -> bool
    ensures { result ≡ can_hold holder.now (map message_of items.now) }
{
    items.len() <= MOST_HELD && (holder.has_windows() || are_outputs_unmapped(items))
}

// ---- changes

// The item at a place is written over.
fn put(items: &mut Messages, place: usize, item: HeldItem)
    requires { place < length items.old.items }
    ensures { items.new.items ≡ slice_set items.old.items place item }
{
    items.as_mut_slice()[place] = item;
}

/// A message of a service comes last, where there is room.
pub(crate) fn take_in(items: &mut Messages, service: HolderService, message: Message)
    ensures { map message_of items.new.items
        ≡ with_message_of (service_of service) message (map message_of items.old.items) }
{
    if !items.is_full() {
        items.push(HeldItem::of(message, service.mm));
    }
}

/// The message of a handle is gone.
pub(crate) fn take_out(items: &mut Messages, handle: Handle)
    ensures { map message_of items.new.items ≡ without handle (map message_of items.old.items) }
{
    if let Some(place) = place_of(items.as_slice(), handle) {
        items.remove(place);
    }
}

/// An input vector of the message of a handle gets a state.
pub(crate) fn set_input(items: &mut Messages, handle: Handle, index: u32, state: VectorState)
    ensures { map message_of items.new.items
        ≡ changed_at handle (with_input (state_of state) index) (map message_of items.old.items) }
{
    if let Some(place) = place_of(items.as_slice(), handle) {
        let item = items.as_slice()[place];
        put(items, place, item.with_input(state, index));
    }
}

/// An output vector of the message of a handle gets a state.
pub(crate) fn set_output(items: &mut Messages, handle: Handle, index: u32, state: VectorState)
    ensures { map message_of items.new.items
        ≡ changed_at handle (with_output (state_of state) index) (map message_of items.old.items) }
{
    if let Some(place) = place_of(items.as_slice(), handle) {
        let item = items.as_slice()[place];
        put(items, place, item.with_output(state, index));
    }
}

/// An input vector of the message of a handle becomes used where it was fresh.
pub(crate) fn touch_input(items: &mut Messages, handle: Handle, index: u32)
    ensures { map message_of items.new.items
        ≡ changed_at handle (λ m. record m { input = touched index m.input })
        (map message_of items.old.items) }
{
    if let Some(place) = place_of(items.as_slice(), handle) {
        let item = items.as_slice()[place];
        put(items, place, item.with_input_touched(index));
    }
}

/// An output vector of the message of a handle becomes used where it was fresh.
pub(crate) fn touch_output(items: &mut Messages, handle: Handle, index: u32)
    ensures { map message_of items.new.items
        ≡ changed_at handle (λ m. record m { output = touched index m.output })
        (map message_of items.old.items) }
{
    if let Some(place) = place_of(items.as_slice(), handle) {
        let item = items.as_slice()[place];
        put(items, place, item.with_output_touched(index));
    }
}

/// These messages stand in place of those that were held.
pub(crate) fn replace(items: &mut Messages, others: &[HeldItem])
    requires { length others.now ≤ MOST_HELD }
    ensures { items.new.items ≡ others.now }
{
    items.clear();
    let _fits = items.try_extend_from_slice(others);
}
