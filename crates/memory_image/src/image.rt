//! The bytes of a system's regions.
ghost use Rattle.std.specs.Prelude.{◌≡◌, ◌<◌, ◌≤◌, ◌*◌, ◌^◌, ℕ, length, true, is_some, IfOk, IfSome, map};
ghost use Rattle.std.specs.List.{list_any};
ghost use Rattle.ffm_model.specs.Accesses.{is_access_size};
ghost use Rattle.ffm_model.specs.Memory.{bytes_at, write_bytes, copy_bytes, number_of, load_number, store_number, words_stored, opening_memory};
ghost use Rattle.ffm_model.specs.Ranges.{ranges_of, has_range};
ghost use Rattle.memory_image.specs.Pieces.{byte_at, regions_of, is_inside, fit_an_image, open_within, zero_piece, HasRangeAt, IsPlaceOf};

use crate::index::piece_with;
use crate::pieces::{
    bytes_among, copy_among, copy_pieces, store_among, store_words_among, zero_pieces,
};
use ffm_model::{Bytes, List, Memory, Region, Start, starts_by_address};
use std::alloc::Global;
use std::marker::Model;

// The number in four bytes, the lowest first.
fn word_of(bytes: &[u8]) -> u32
    requires { length bytes.now ≡ 4 }
    ensures { result ≡ number_of bytes.now }
{
    bytes[0] as u32 + 256 * (bytes[1] as u32 + 256 * (bytes[2] as u32 + 256 * bytes[3] as u32))
}

// The number in bytes, the lowest first.
fn number_of(bytes: &[u8]) -> u32
    requires { length bytes.now ≤ 4 }
    ensures small { result < 256 ^ length bytes.now }
    ensures number { result ≡ number_of bytes.now }
{
    if bytes.len() == 4 {
        return word_of(bytes);
    }
    match bytes {
        [] => 0,
        [first, rest @ ..] => *first as u32 + 256 * number_of(rest),
    }
}

/// The bytes of each region. No two regions share a byte, each ends by 2^32, and all together
/// have at most 16 MiB. They are fewer than 2^31. Contracts see the pieces, one for each region in
/// the regions' order.
#[derive(Drop)]
pub struct Image {
    pieces: Vec<Bytes>,
    starts: Vec<Start>,
}

impl Model for Image {
    ghost use Rattle.std.specs.Prelude.{List};
    ghost use Rattle.ffm_model.specs.declared.scenario.Bytes.{Bytes};
    ghost use Rattle.memory_image.specs.Index.{IsImage};

    ghost Value = { List Bytes };

    ghost view = { λ m. m.pieces.items };

    ghost invariant = { λ m. IsImage m.pieces.items m.starts.items };
}

impl Image {
    // An image of zeros.
    fn of_zeros(alloc: Global, regions: &[Region]) -> Result<Image, Memory>
        requires fit { fit_an_image (ranges_of regions.now) ≡ true }
        requires few { length regions.now < 2 ^ 31 }
        ensures { IfOk result (λ image. image ≡ map zero_piece regions.now) }
    {
        let pieces = zero_pieces(alloc, regions)?;
        let starts = starts_by_address(alloc, regions)?;
        Ok(Image { pieces, starts })
    }

    /// Zeros in each region, and then the opening bytes, piece by piece in order, so that a later
    /// piece wins. Each piece lies whole in one region. `Memory` where memory is wanting.
    pub fn new(
        alloc: Global,
        regions: &List<Region>,
        opening: &List<Bytes>,
    ) -> Result<Image, Memory>
        requires regions { fit_an_image (ranges_of regions.now) ≡ true }
        requires few { length regions.now < 2 ^ 31 }
        requires opening { open_within regions.now opening.now ≡ true }
        ensures regions { IfOk result (λ image. regions_of image ≡ ranges_of regions.now) }
        ensures bytes { IfOk result (λ image. byte_at image ≡ opening_memory opening.now) }
    {
        let mut image = Image::of_zeros(alloc, regions.as_slice())?;
        for bytes in opening.as_slice() {
            image.store_bytes(bytes.address, bytes.content.as_slice());
        }
        Ok(image)
    }

    /// The same regions with the same bytes. `Memory` where memory is wanting.
    pub fn copy_of(&self, alloc: Global) -> Result<Image, Memory>
        ensures { IfOk result (λ image. image ≡ self.now) }
    {
        let pieces = copy_pieces(alloc, self.pieces.as_slice())?;
        let starts = self.starts.as_slice().to_vec(alloc)?;
        Ok(Image { pieces, starts })
    }

    // The pieces, one for each region in the regions' order.
    pub(crate) fn pieces(&self) -> &[Bytes]
        ensures { result.now ≡ self.now }
    {
        self.pieces.as_slice()
    }

    /// What holds of each image, for callers that compute with its ranges: no two regions share a
    /// byte, each ends by 2^32, and all together have at most 16 MiB.
    pub fn keeps_its_limits(&self)
        ensures { fit_an_image (regions_of self.now) ≡ true }
    {
        let _pieces = &self.pieces;
    }

    /// The place of the region that has the whole range. None where no region has it, and only there
    /// where the range isn't empty.
    #[tactic(auto, using(crate::proofs::Stored::stay_apart))]
    pub(crate) fn place_with(&self, address: u32, len: usize) -> Option<usize>
        ensures exact { 0 < len
            → is_some result ≡ list_any (has_range address len) (regions_of self.now) }
        ensures found { IfSome result (λ place. HasRangeAt self.now place address len) }
    {
        piece_with(self.pieces.as_slice(), self.starts.as_slice(), address, len)
    }

    /// The number of the region that has an address, and the address's offset in it. None where
    /// no region has the address.
    #[tactic(auto, using(crate::proofs::Stored::stay_apart))]
    pub fn locate(&self, address: u32) -> Option<(u32, u32)>
        ensures exact { is_some result ≡ is_inside address 1 (regions_of self.now) }
        ensures place { IfSome result (λ place. IsPlaceOf address place (regions_of self.now)) }
    {
        let place = piece_with(self.pieces.as_slice(), self.starts.as_slice(), address, 1)?;
        Some((place as u32, address - self.pieces[place].address))
    }

    /// The number in the bytes at an address, the lowest byte first. The size is 1, 2 or 4 bytes,
    /// and the range lies whole in one region.
    pub fn load(&self, address: u32, size: u32) -> u32
        requires size { is_access_size size ≡ true }
        requires inside { is_inside address size (regions_of self.now) ≡ true }
        ensures { result ≡ load_number (byte_at self.now) address size }
    {
        number_of(self.bytes(address, size as usize))
    }

    /// Puts the low bytes of a value at an address, the lowest byte first. The size is 1, 2 or 4
    /// bytes, and the range lies whole in one region.
    pub fn store(&mut self, address: u32, size: u32, value: u32)
        requires size { is_access_size size ≡ true }
        requires inside { is_inside address size (regions_of self.old) ≡ true }
        ensures stored { byte_at self.new ≡ store_number (byte_at self.old) address size value }
        ensures regions { regions_of self.new ≡ regions_of self.old }
    {
        let bytes = value.to_le_bytes();
        self.store_bytes(address, &bytes[..size as usize]);
    }

    /// Puts words of four bytes at an address, one after the other, as the twelve words of a
    /// `psa_msg_t`. The range lies whole in one region.
    #[tactic(auto, using(crate::proofs::Stored::stay_apart))]
    pub fn store_words(&mut self, address: u32, words: &[u32])
        requires { is_inside address (4 * length words.now) (regions_of self.old) ≡ true }
        ensures stored { byte_at self.new ≡ words_stored (byte_at self.old) address words.now }
        ensures regions { regions_of self.new ≡ regions_of self.old }
    {
        self.keeps_its_limits();
        let place = self.place_with(address, 4 * words.len());
        // Only an empty range lies in no piece.
        if let Some(place) = place {
            store_words_among(self.pieces.as_mut_slice(), place, address, words);
        }
    }

    /// Copies `len` bytes from one range to another, as if all were read before the first one is
    /// written. Each range is empty or lies whole in one region; the two may overlap.
    #[tactic(auto, using(crate::proofs::Stored::stay_apart))]
    pub fn copy(&mut self, from: u32, to: u32, len: u32)
        requires from { is_inside from len (regions_of self.old) ≡ true }
        requires to { is_inside to len (regions_of self.old) ≡ true }
        ensures copied { byte_at self.new ≡ copy_bytes (byte_at self.old) from to len }
        ensures regions { regions_of self.new ≡ regions_of self.old }
    {
        let len = len as usize;
        let source = self.place_with(from, len);
        let target = self.place_with(to, len);
        // Only an empty range lies in no piece.
        if let (Some(source), Some(target)) = (source, target) {
            copy_among(self.pieces.as_mut_slice(), source, target, from, to, len);
        }
    }

    /// The bytes of a range, lent. The range is empty or lies whole in one region.
    #[tactic(auto, using(crate::proofs::Stored::stay_apart))]
    pub fn bytes(&self, address: u32, len: usize) -> &[u8]
        requires { is_inside address len (regions_of self.now) ≡ true }
        ensures { result.now ≡ bytes_at (byte_at self.now) address len }
    {
        match self.place_with(address, len) {
            Some(place) => bytes_among(self.pieces.as_slice(), place, address, len),
            // Only an empty range lies in no piece.
            None => &[],
        }
    }

    /// Puts bytes at an address and after it. Their range is empty or lies whole in one region.
    #[tactic(auto, using(crate::proofs::Stored::stay_apart))]
    pub fn store_bytes(&mut self, address: u32, bytes: &[u8])
        requires { is_inside address (length bytes.now) (regions_of self.old) ≡ true }
        ensures stored { byte_at self.new ≡ write_bytes (byte_at self.old) address bytes.now }
        ensures regions { regions_of self.new ≡ regions_of self.old }
    {
        let place = self.place_with(address, bytes.len());
        // Only an empty range lies in no piece.
        if let Some(place) = place {
            store_among(self.pieces.as_mut_slice(), place, address, bytes);
        }
    }
}
