//! Work on the pieces of an image, one for each region.
ghost use Rattle.std.specs.Prelude.{◌≡◌, ◌≢◌, ℕ, ◌<◌, ◌≤◌, ◌+◌, ◌-◌, ◌*◌, ◌^◌, length, slice_index, true, get_or, map, take, drop, IfOk};
ghost use Rattle.ffm_model.specs.Memory.{write_bytes, bytes_at, copy_bytes, store_number, words_stored};
ghost use Rattle.ffm_model.specs.WellFormed.{each_pair};
ghost use Rattle.ffm_model.specs.Ranges.{has_range, share_no_byte};
ghost use Rattle.memory_image.specs.Pieces.{byte_at, range_of, no_piece, zero_piece, IsPut, regions_of};

use ffm_model::{Bytes, List, Memory, Region};
use std::alloc::Global;

fn zero_piece(alloc: Global, region: &Region) -> Result<Bytes, Memory>
    ensures { IfOk result (λ piece. piece ≡ zero_piece region.now) }
{
    let content = vec![in alloc; 0u8; region.size as usize]?;
    Ok(Bytes {
        address: region.base,
        content: List::of(content),
    })
}

/// A piece of zeros for each region.
pub fn zero_pieces(alloc: Global, regions: &[Region]) -> Result<Vec<Bytes>, Memory>
    ensures { IfOk result (λ pieces. pieces.items ≡ map zero_piece regions.now) }
{
    let mut pieces = Vec::new(alloc);
    for region in regions {
        pieces.push(zero_piece(alloc, region)?)?;
    }
    Ok(pieces)
}

// The bytes are put at a place and after it.
fn put_bytes(content: &mut [u8], place: usize, bytes: &[u8])
    requires { place + length bytes.now ≤ length content.old }
    ensures { (x : ℕ)
        → slice_index content.new x
        ≡ write_bytes (λ y. slice_index content.old y) place bytes.now x }
{
    content[place..place + bytes.len()].copy_from_slice(bytes);
}

/// Whether a piece has the whole range.
pub fn has_range(piece: &Bytes, address: u32, len: usize) -> bool
    ensures { result ≡ has_range address len (range_of piece.now) }
{
    if address < piece.address {
        return false;
    }
    let offset = (address - piece.address) as usize;
    offset <= piece.content.len() && len <= piece.content.len() - offset
}

fn put_in(piece: &mut Bytes, address: u32, bytes: &[u8])
    requires { has_range address (length bytes.now) (range_of piece.old) ≡ true }
    ensures { IsPut piece.old piece.new address bytes.now }
{
    let place = (address - piece.address) as usize;
    put_bytes(piece.content.as_mut_slice(), place, bytes);
}

/// Puts bytes into the piece at a place.
pub fn store_among(pieces: &mut [Bytes], place: usize, address: u32, bytes: &[u8])
    requires exists { place < length pieces.old }
    requires inside { has_range address (length bytes.now)
        (range_of (get_or pieces.old place no_piece)) ≡ true }
    requires apart { each_pair share_no_byte (regions_of pieces.old) ≡ true }
    ensures stored { (x : ℕ)
        → byte_at pieces.new x ≡ write_bytes (byte_at pieces.old) address bytes.now x }
    ensures regions { regions_of pieces.new ≡ regions_of pieces.old }
{
    let piece = &mut pieces[place];
    put_in(piece, address, bytes);
}

// Puts a word of four bytes into the piece at a place.
fn store_word_among(pieces: &mut [Bytes], place: usize, address: u32, word: u32)
    requires exists { place < length pieces.old }
    requires inside { has_range address 4 (range_of (get_or pieces.old place no_piece)) ≡ true }
    requires apart { each_pair share_no_byte (regions_of pieces.old) ≡ true }
    ensures stored { (x : ℕ)
        → byte_at pieces.new x ≡ store_number (byte_at pieces.old) address 4 word x }
    ensures regions { regions_of pieces.new ≡ regions_of pieces.old }
{
    store_among(pieces, place, address, &word.to_le_bytes());
}

/// Puts words of four bytes into the piece at a place, one after the other.
pub fn store_words_among(pieces: &mut [Bytes], place: usize, address: u32, words: &[u32])
    requires exists { place < length pieces.old }
    requires inside { has_range address (4 * length words.now)
        (range_of (get_or pieces.old place no_piece)) ≡ true }
    requires apart { each_pair share_no_byte (regions_of pieces.old) ≡ true }
    requires end { address + 4 * length words.now ≤ 2 ^ 32 }
    ensures stored { (x : ℕ)
        → byte_at pieces.new x ≡ words_stored (byte_at pieces.old) address words.now x }
    ensures regions { regions_of pieces.new ≡ regions_of pieces.old }
{
    for (k, word) in words.iter().enumerate() {
        store_word_among(pieces, place, address + 4 * k as u32, *word);
    }
}

fn copy_piece(alloc: Global, piece: &Bytes) -> Result<Bytes, Memory>
    ensures { IfOk result (λ copy. copy ≡ piece.now) }
{
    let content = piece.content.as_slice().to_vec(alloc)?;
    Ok(Bytes {
        address: piece.address,
        content: List::of(content),
    })
}

/// The same pieces.
pub fn copy_pieces(alloc: Global, pieces: &[Bytes]) -> Result<Vec<Bytes>, Memory>
    ensures { IfOk result (λ copies. copies.items ≡ pieces.now) }
{
    let mut copies = Vec::new(alloc);
    for piece in pieces {
        copies.push(copy_piece(alloc, piece)?)?;
    }
    Ok(copies)
}

fn part_of(piece: &Bytes, address: u32, len: usize) -> &[u8]
    requires { has_range address len (range_of piece.now) ≡ true }
    ensures { result.now ≡ take len (drop (address - piece.now.address) piece.now.content) }
{
    let start = (address - piece.address) as usize;
    &piece.content.as_slice()[start..start + len]
}

/// The bytes of a range that lies in the piece at a place.
pub fn bytes_among(pieces: &[Bytes], place: usize, address: u32, len: usize) -> &[u8]
    requires exists { place < length pieces.now }
    requires inside { has_range address len (range_of (get_or pieces.now place no_piece)) ≡ true }
    requires apart { each_pair share_no_byte (regions_of pieces.now) ≡ true }
    ensures { result.now ≡ bytes_at (byte_at pieces.now) address len }
{
    part_of(&pieces[place], address, len)
}

// Bytes are copied as if all were read first.
fn copy_part(content: &mut [u8], start: usize, place: usize, len: usize)
    requires from { start + len ≤ length content.old }
    requires to { place + len ≤ length content.old }
    ensures { (x : ℕ)
        → slice_index content.new x
        ≡ write_bytes (λ y. slice_index content.old y) place (take len (drop start content.old)) x }
{
    content.copy_within(start..start + len, place);
}

fn copy_in(piece: &mut Bytes, from: u32, to: u32, len: usize)
    requires from { has_range from len (range_of piece.old) ≡ true }
    requires to { has_range to len (range_of piece.old) ≡ true }
    ensures { IsPut piece.old piece.new to
        (take len (drop (from - piece.old.address) piece.old.content)) }
{
    let start = (from - piece.address) as usize;
    let place = (to - piece.address) as usize;
    copy_part(piece.content.as_mut_slice(), start, place, len);
}

// Within the piece at a place.
fn copy_within(pieces: &mut [Bytes], place: usize, from: u32, to: u32, len: usize)
    requires exists { place < length pieces.old }
    requires from { has_range from len (range_of (get_or pieces.old place no_piece)) ≡ true }
    requires to { has_range to len (range_of (get_or pieces.old place no_piece)) ≡ true }
    requires apart { each_pair share_no_byte (regions_of pieces.old) ≡ true }
    ensures copied { (x : ℕ)
        → byte_at pieces.new x ≡ copy_bytes (byte_at pieces.old) from to len x }
    ensures regions { regions_of pieces.new ≡ regions_of pieces.old }
{
    let piece = &mut pieces[place];
    copy_in(piece, from, to, len);
}

// From the piece at one place to that at a later one.
fn copy_forward(pieces: &mut [Bytes], source: usize, target: usize, from: u32, to: u32, len: usize)
    requires before { source < target }
    requires exists { target < length pieces.old }
    requires from { has_range from len (range_of (get_or pieces.old source no_piece)) ≡ true }
    requires to { has_range to len (range_of (get_or pieces.old target no_piece)) ≡ true }
    requires apart { each_pair share_no_byte (regions_of pieces.old) ≡ true }
    ensures copied { (x : ℕ)
        → byte_at pieces.new x ≡ copy_bytes (byte_at pieces.old) from to len x }
    ensures regions { regions_of pieces.new ≡ regions_of pieces.old }
{
    let (front, back) = pieces.split_at_mut(target);
    let bytes = part_of(&front[source], from, len);
    put_in(&mut back[0], to, bytes);
}

// From the piece at one place to that at an earlier one.
fn copy_back(pieces: &mut [Bytes], source: usize, target: usize, from: u32, to: u32, len: usize)
    requires before { target < source }
    requires exists { source < length pieces.old }
    requires from { has_range from len (range_of (get_or pieces.old source no_piece)) ≡ true }
    requires to { has_range to len (range_of (get_or pieces.old target no_piece)) ≡ true }
    requires apart { each_pair share_no_byte (regions_of pieces.old) ≡ true }
    ensures copied { (x : ℕ)
        → byte_at pieces.new x ≡ copy_bytes (byte_at pieces.old) from to len x }
    ensures regions { regions_of pieces.new ≡ regions_of pieces.old }
{
    let (front, back) = pieces.split_at_mut(source);
    let bytes = part_of(&back[0], from, len);
    put_in(&mut front[target], to, bytes);
}

/// Copies from the piece at one place to that at another, as if all bytes were read first.
pub fn copy_among(
    pieces: &mut [Bytes],
    source: usize,
    target: usize,
    from: u32,
    to: u32,
    len: usize,
)
    requires source { source < length pieces.old }
    requires target { target < length pieces.old }
    requires from { has_range from len (range_of (get_or pieces.old source no_piece)) ≡ true }
    requires to { has_range to len (range_of (get_or pieces.old target no_piece)) ≡ true }
    requires apart { each_pair share_no_byte (regions_of pieces.old) ≡ true }
    ensures copied { (x : ℕ)
        → byte_at pieces.new x ≡ copy_bytes (byte_at pieces.old) from to len x }
    ensures regions { regions_of pieces.new ≡ regions_of pieces.old }
{
    if source < target {
        copy_forward(pieces, source, target, from, to, len);
    } else if target < source {
        copy_back(pieces, source, target, from, to, len);
    } else {
        copy_within(pieces, source, from, to, len);
    }
}
