//! The piece that has a range, by the order of addresses.
ghost use Rattle.std.specs.Prelude.{◌≡◌, ◌<◌, true, is_some, IfSome};
ghost use Rattle.std.specs.List.{list_any};
ghost use Rattle.ffm_model.specs.Ranges.{has_range, share_no_byte, IsIndexOf};
ghost use Rattle.ffm_model.specs.WellFormed.{each_pair};
ghost use Rattle.memory_image.specs.Pieces.{HasRangeAt, regions_of};

use crate::pieces::has_range;
use ffm_model::{Bytes, Start, last_up_to};

/// The place of the piece that has the whole range. None where no piece has it, and only there
/// where the range isn't empty.
pub fn piece_with(pieces: &[Bytes], starts: &[Start], address: u32, len: usize) -> Option<usize>
    requires index { IsIndexOf starts.now (regions_of pieces.now) }
    requires apart { each_pair share_no_byte (regions_of pieces.now) ≡ true }
    ensures exact { 0 < len
        → is_some result ≡ list_any (has_range address len) (regions_of pieces.now) }
    ensures found { IfSome result (λ place. HasRangeAt pieces.now place address len) }
{
    match last_up_to(starts, address) {
        Some(place) => {
            if has_range(&pieces[place], address, len) {
                Some(place)
            } else {
                None
            }
        }
        None => None,
    }
}
