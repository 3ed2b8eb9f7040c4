//! Writes to places of slices.

ghost use Rattle.std.specs.Prelude.{◌≡◌, slice_set};

// Writes an item. Nothing changes where there is no such place.
pub(crate) fn put<T: Copy>(items: &mut [T], place: u32, item: T)
    ensures { items.new ≡ slice_set items.old place item }
{
    let at = place as usize;
    if at < items.len() {
        items[at] = item;
    }
}
