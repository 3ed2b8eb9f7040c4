//! Where two images differ, and in how many places. Bytes are compared 32 at a time.
ghost use Rattle.std.specs.Prelude.{◌≡◌, true, not, ◌&&◌, count_by};
ghost use Rattle.std.specs.List.{range_with_len};
ghost use Rattle.memory_image.specs.Differences.{differs, range_covers, count_in, IsLeast};
ghost use Rattle.ffm_model.specs.Reach.{covers};
ghost use Rattle.memory_image.specs.Pieces.{byte_at, regions_of, is_inside};

use crate::image::Image;
use crate::lanes::{count_unequal, first_unequal, lesser};
use ffm_model::Region;

impl Image {
    /// The least address of a range whose byte differs in two images. `None` where there is none.
    /// In each image the range is empty or lies whole in one region.
    #[tactic(auto, using(crate::proofs::Stored::stay_apart))]
    pub fn first_difference_in(&self, other: &Image, address: u32, len: u32) -> Option<u32>
        requires one { is_inside address len (regions_of self.now) ≡ true }
        requires other { is_inside address len (regions_of other.now) ≡ true }
        ensures { IsLeast (λ x.
            differs (byte_at self.now) (byte_at other.now) x
            && range_covers (address, len) x) result }
    {
        self.keeps_its_limits();
        let before = self.bytes(address, len as usize);
        let after = other.bytes(address, len as usize);
        match first_unequal(before, after) {
            Some(place) => Some(address + place as u32),
            None => None,
        }
    }

    /// In how many addresses of a range two images differ. In each image the range is empty or lies
    /// whole in one region.
    pub fn count_differences_in(&self, other: &Image, address: u32, len: u32) -> u32
        requires one { is_inside address len (regions_of self.now) ≡ true }
        requires other { is_inside address len (regions_of other.now) ≡ true }
        ensures { result ≡ count_by (differs (byte_at self.now) (byte_at other.now))
            (range_with_len address len) }
    {
        let before = self.bytes(address, len as usize);
        let after = other.bytes(address, len as usize);
        count_unequal(before, after) as u32
    }
}

/// The least address whose byte differs in two images of the same regions. `None` where there is
/// none.
pub fn first_difference(one: &Image, other: &Image) -> Option<u32>
    requires { regions_of one.now ≡ regions_of other.now }
    ensures { IsLeast (differs (byte_at one.now) (byte_at other.now)) result }
{
    one.keeps_its_limits();
    let mut least = None;
    for piece in one.pieces() {
        let found = one.first_difference_in(other, piece.address, piece.content.len() as u32);
        least = lesser(least, found);
    }
    least
}

/// In how many addresses two images of the same regions differ.
pub fn count_differences(one: &Image, other: &Image) -> u32
    requires { regions_of one.now ≡ regions_of other.now }
    ensures { result ≡ count_in
        (differs (byte_at one.now) (byte_at other.now)) (regions_of one.now) }
{
    one.keeps_its_limits();
    let mut total = 0;
    for piece in one.pieces() {
        total += one.count_differences_in(other, piece.address, piece.content.len() as u32);
    }
    total
}

// The least address of a range, outside of `skip`, whose byte differs in two images. In each image
// the range is empty or lies whole in one region.
fn first_difference_around(
    one: &Image,
    other: &Image,
    address: u32,
    len: u32,
    skip: Region,
) -> Option<u32>
    requires one { is_inside address len (regions_of one.now) ≡ true }
    requires other { is_inside address len (regions_of other.now) ≡ true }
    ensures { IsLeast (λ x.
        (differs (byte_at one.now) (byte_at other.now) x && not (covers skip x))
        && range_covers (address, len) x) result }
{
    one.keeps_its_limits();
    let before = len.min(skip.base.saturating_sub(address));
    let found = one.first_difference_in(other, address, before);
    if found.is_some() {
        return found;
    }
    let end = skip.base as u64 + skip.size as u64;
    let passed = end.saturating_sub(address as u64);
    if passed >= len as u64 {
        return None;
    }
    one.first_difference_in(other, address + passed as u32, len - passed as u32)
}

/// The least address outside of a region whose byte differs in two images of the same regions.
/// `None` where there is none. The region need not be one of theirs.
pub fn first_difference_outside(one: &Image, other: &Image, skip: Region) -> Option<u32>
    requires { regions_of one.now ≡ regions_of other.now }
    ensures { IsLeast
        (λ x. differs (byte_at one.now) (byte_at other.now) x && not (covers skip x)) result }
{
    one.keeps_its_limits();
    let mut least = None;
    for piece in one.pieces() {
        let len = piece.content.len() as u32;
        let found = first_difference_around(one, other, piece.address, len, skip);
        least = lesser(least, found);
    }
    least
}
