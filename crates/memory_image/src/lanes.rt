//! Where two slices of bytes differ, and in how many places: 32 bytes at a time. And the lesser of two addresses.

ghost use Rattle.std.specs.Prelude.{◌≡◌, ◌≤◌, ◌+◌, length, drop, map, count_by, IsTrue};
ghost use Rattle.std.specs.List.{zip, position, position_or_len};
ghost use Rattle.std.specs.Simd.Lanes.{chunk, mask_l};
ghost use Rattle.memory_image.specs.Differences.{lesser};
ghost use Rattle.memory_image.specs.Unequal.{are_unequal};

use std::simd::prelude::*;

// Bit k is set where the bytes at `at + k` differ.
#[inline(always)]
fn unequal_bits(a: &[u8], b: &[u8], at: usize) -> u64
    requires a { at + 32 ≤ length a.now }
    requires b { at + 32 ≤ length b.now }
    ensures { result ≡ mask_l (map are_unequal (chunk at 32 (zip a.now b.now))) }
{
    u8x32::from_slice(&a[at..])
        .simd_ne(u8x32::from_slice(&b[at..]))
        .to_bitmask()
}

// Whether the 32 bytes at `at` are equal: then a search may pass over them.
#[inline(always)]
fn are_equal_at(a: &[u8], b: &[u8], at: usize) -> bool
    requires a { at + 32 ≤ length a.now }
    requires b { at + 32 ≤ length b.now }
    ensures { IsTrue result
        → position_or_len are_unequal (drop at (zip a.now b.now))
        ≡ 32 + position_or_len are_unequal (drop (at + 32) (zip a.now b.now)) }
{
    unequal_bits(a, b, at) == 0
}

// How many of the 32 bytes at `at` differ.
#[inline(always)]
fn count_at(a: &[u8], b: &[u8], at: usize) -> usize
    requires a { at + 32 ≤ length a.now }
    requires b { at + 32 ≤ length b.now }
    ensures { count_by are_unequal (drop at (zip a.now b.now))
        ≡ result + count_by are_unequal (drop (at + 32) (zip a.now b.now)) }
{
    unequal_bits(a, b, at).count_ones() as usize
}

// How many bytes a search may pass over: the blocks of 32 that are equal, from the first on.
fn equal_blocks(a: &[u8], b: &[u8]) -> usize
    requires { length a.now ≡ length b.now }
    ensures within { result ≤ length a.now }
    ensures passed { position_or_len are_unequal (zip a.now b.now)
        ≡ result + position_or_len are_unequal (drop result (zip a.now b.now)) }
{
    let mut at = 0;
    while 32 <= a.len() - at && are_equal_at(a, b, at) {
        at += 32;
    }
    at
}

// `first_unequal`, one byte at a time.
fn first_by_one(a: &[u8], b: &[u8]) -> Option<usize>
    ensures { result ≡ position are_unequal (zip a.now b.now) }
{
    a.iter().zip(b.iter()).position(|(x, y)| *x != *y)
}

// `count_unequal`, one byte at a time.
fn count_by_one(a: &[u8], b: &[u8]) -> usize
    ensures { result ≡ count_by are_unequal (zip a.now b.now) }
{
    a.iter().zip(b.iter()).filter(|(x, y)| **x != **y).count()
}

/// The least place where two slices of one length differ. `None` where they are equal.
pub fn first_unequal(a: &[u8], b: &[u8]) -> Option<usize>
    requires { length a.now ≡ length b.now }
    ensures { result ≡ position are_unequal (zip a.now b.now) }
{
    let start = equal_blocks(a, b);
    match first_by_one(&a[start..], &b[start..]) {
        Some(found) => Some(start + found),
        None => None,
    }
}

/// In how many places two slices of one length differ.
#[tactic(auto, using(crate::proofs::Blocks::count_le, crate::proofs::Zips::zip_rest))]
pub fn count_unequal(a: &[u8], b: &[u8]) -> usize
    requires { length a.now ≡ length b.now }
    ensures { result ≡ count_by are_unequal (zip a.now b.now) }
{
    let mut total = 0;
    let mut at = 0;
    while 32 <= a.len() - at {
        total += count_at(a, b, at);
        at += 32;
    }
    total + count_by_one(&a[at..], &b[at..])
}

/// The lesser of two addresses, each of which may be missing. `None` where both are.
pub fn lesser(one: Option<u32>, other: Option<u32>) -> Option<u32>
    ensures { result ≡ lesser one other }
{
    match (one, other) {
        (None, _) => other,
        (Some(_), None) => one,
        (Some(a), Some(b)) => { if a < b { one } else { other } }
    }
}
