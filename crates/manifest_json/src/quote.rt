//! Decimals between quotation marks.
ghost use Rattle.std.specs.Prelude.{◌≡◌, ◌<◌, ◌≤◌, ◌++◌, drop, length, slice_index, take_while, true, IfOk, OnOk};
ghost use Rattle.std.specs.List.{list_any, prefix_len};
ghost use Rattle.ffm_model.specs.Quote.{is_fraction_byte, is_run_byte, is_marked, marks, outside, in_string, quote};
ghost use Rattle.manifest_json.specs.Leads.{Leads, is_text_byte, is_other_byte};

use ffm_model::Memory;
use std::alloc::{AllocError, Global};

/// The most bytes of a number that stays as it is.
const LONGEST_NUMBER: usize = 19;

#[tactic(auto, unfolding(ffm_model::specs::Quote::is_fraction_byte))]
fn is_fraction_byte(b: u8) -> bool
    ensures { result ≡ is_fraction_byte b }
{
    matches!(b, b'.' | b'e' | b'E')
}

#[tactic(auto, unfolding(ffm_model::specs::Quote::is_run_byte))]
fn is_run_byte(b: u8) -> bool
    ensures { result ≡ is_run_byte b }
{
    b.is_ascii_digit() || b == b'+' || b == b'-' || is_fraction_byte(b)
}

fn is_text_byte(b: u8) -> bool
    ensures { result ≡ is_text_byte b }
{
    b != b'"' && b != b'\\'
}

fn is_other_byte(b: u8) -> bool
    ensures { result ≡ is_other_byte b }
{
    b != b'"' && !is_run_byte(b)
}

fn has_fraction_byte(run: &[u8]) -> bool
    ensures { result ≡ list_any is_fraction_byte run.now }
{
    run.iter().any(|b| is_fraction_byte(*b))
}

fn run_len(bytes: &[u8]) -> usize
    ensures { result ≡ prefix_len is_run_byte bytes.now }
{
    bytes.iter().take_while(|b| is_run_byte(**b)).count()
}

/// Whether a run begins as a number does, and is no integer that JSON keeps whole.
#[tactic(auto, unfolding(ffm_model::specs::Quote::is_marked))]
fn is_marked(run: &[u8]) -> bool
    ensures { result ≡ is_marked run.now }
{
    if run.is_empty() || !(run[0].is_ascii_digit() || run[0] == b'-') {
        return false;
    }
    has_fraction_byte(run) || run == b"-0".as_slice() || run.len() > LONGEST_NUMBER
}

/// Adds a run, with its marks.
fn put_run(out: &mut Vec<u8>, run: &[u8]) -> Result<(), AllocError>
    ensures { OnOk result (out.new.items
        ≡ out.old.items ++ (marks (is_marked run.now) ++ run.now ++ marks (is_marked run.now))) }
{
    let marked = is_marked(run);
    if marked {
        out.push(b'"')?;
    }
    out.extend_from_slice(run)?;
    if marked {
        out.push(b'"')?;
    }
    Ok(())
}

/// The run at the front, and what follows it.
fn split_run(bytes: &[u8]) -> (&[u8], &[u8])
    ensures run { result.0.now ≡ take_while is_run_byte bytes.now }
    ensures behind { result.1.now ≡ drop (prefix_len is_run_byte bytes.now) bytes.now }
{
    bytes.split_at(run_len(bytes))
}

/// How many bytes at the front of a string's text are neither its closing mark nor a backslash.
fn text_len(bytes: &[u8]) -> usize
    ensures front { result ≡ prefix_len is_text_byte bytes.now }
    ensures bound { result ≤ length bytes.now }
{
    bytes.iter().take_while(|b| is_text_byte(**b)).count()
}

/// How many bytes a string has after its opening mark, with its closing one: all where it has none.
fn string_len(bytes: &[u8]) -> usize
    ensures { Leads in_string result outside bytes.now }
{
    let mut at = 0;
    while at < bytes.len() {
        let rest = &bytes[at..];
        if rest[0] == b'"' {
            return at + 1;
        }
        if rest[0] == b'\\' {
            at += rest.len().min(2);
        } else {
            at += text_len(rest);
        }
    }
    at
}

/// How many bytes at the front are in no run and in no string.
fn other_len(bytes: &[u8]) -> usize
    ensures front { result ≡ prefix_len is_other_byte bytes.now }
    ensures bound { result ≤ length bytes.now }
{
    bytes.iter().take_while(|b| is_other_byte(**b)).count()
}

/// How many bytes stand before the first decimal: all where there is none.
fn plain_len(bytes: &[u8]) -> usize
    ensures plain { Leads outside result outside bytes.now }
    ensures run { result < length bytes.now → is_run_byte (slice_index bytes.now result) ≡ true }
{
    let mut at = 0;
    while at < bytes.len() {
        let rest = &bytes[at..];
        if rest[0] == b'"' {
            at += 1 + string_len(&rest[1..]);
        } else if is_run_byte(rest[0]) {
            let (run, _) = split_run(rest);
            if is_marked(run) {
                return at;
            }
            at += run.len();
        } else {
            at += other_len(rest);
        }
    }
    at
}

/// Whether the bytes have no decimal outside strings, so that none gets marks.
pub(crate) fn has_no_decimal(bytes: &[u8]) -> bool
    ensures { result ≡ true → quote bytes.now ≡ bytes.now }
{
    plain_len(bytes) == bytes.len()
}

/// The bytes of a JSON file with each decimal outside strings put between quotation marks, so
/// that `1.0` and `"1.0"` read alike.
///
/// A decimal is a longest run of digits, `+`, `-`, `.`, `e` and `E` that begins with a digit or
/// `-`, and has a dot or an exponent, is `-0`, or has more than 19 bytes. All other bytes stay.
/// The only error is want of memory.
pub fn quote_decimals(alloc: Global, bytes: &[u8]) -> Result<Vec<u8>, Memory>
    ensures { IfOk result (λ v. v.items ≡ quote bytes.now) }
{
    let mut out = Vec::with_capacity(alloc, bytes.len())?;
    let mut rest = bytes;
    while !rest.is_empty() {
        let (plain, decimal) = rest.split_at(plain_len(rest));
        out.extend_from_slice(plain)?;
        let (run, behind) = split_run(decimal);
        put_run(&mut out, run)?;
        rest = behind;
    }
    Ok(out)
}
