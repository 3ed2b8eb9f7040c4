//! Numbers and names in a line.

ghost use Rattle.std.specs.Prelude.{◌≡◌, ◌+◌, ◌-◌, ◌*◌, ◌≤◌, ◌<◌, ◌^◌, ◌∷◌, ◌++◌, length};
ghost use Rattle.std.specs.Fmt.{decimal, signed_decimal};
ghost use Rattle.std.specs.List.{flat_map, sum_by};
ghost use Rattle.trace_print.specs.Buffer.{line_len};
ghost use Rattle.ffm_model.specs.TraceText.{AreFourSizes, hexadecimal_digit, hexadecimal_word, size_fields, spaced, spaced_field};
ghost use Rattle.trace_print.specs.Fields.{number_of, numbers, width_of};

use crate::line_buffer::{LINE_CAPACITY, Line};
use itoa::Buffer;

/// A number as a line shows it.
#[derive(Clone, Copy, Debug, PartialEq, Eq)]
pub enum Field {
    /// `0x` and eight lower-case digits.
    Hex(u32),
    /// Decimal, without leading zeros.
    Unsigned(u32),
    /// Decimal, without leading zeros, and with a `-` where it is negative.
    Signed(i32),
}

/// Appends bytes.
pub fn append(line: &mut Line, bytes: &[u8])
    requires { line_len line.old + length bytes.now ≤ LINE_CAPACITY }
    ensures items { line.new.items ≡ line.old.items ++ bytes.now }
    ensures grows { line_len line.new ≡ line_len line.old + length bytes.now }
{
    line.append(bytes);
}

fn hexadecimal_digit(digit: u8) -> u8
    requires { digit < 16 }
    ensures { result ≡ hexadecimal_digit digit }
{
    if digit < 10 {
        b'0' + digit
    } else {
        b'a' + (digit - 10)
    }
}

// `0x` and eight digits.
#[tactic(auto, unfolding(ffm_model::specs::TraceText::hexadecimal_word, ffm_model::specs::TraceText::hexadecimal_digits))]
fn hexadecimal_word(n: u32) -> [u8; 10]
    ensures { result ≡ hexadecimal_word n }
{
    let seven = n / 16;
    let six = seven / 16;
    let five = six / 16;
    let four = five / 16;
    let three = four / 16;
    let two = three / 16;
    let one = two / 16;
    [
        b'0',
        b'x',
        hexadecimal_digit((one % 16) as u8),
        hexadecimal_digit((two % 16) as u8),
        hexadecimal_digit((three % 16) as u8),
        hexadecimal_digit((four % 16) as u8),
        hexadecimal_digit((five % 16) as u8),
        hexadecimal_digit((six % 16) as u8),
        hexadecimal_digit((seven % 16) as u8),
        hexadecimal_digit((n % 16) as u8),
    ]
}

fn append_hexadecimal(line: &mut Line, n: u32)
    requires { line_len line.old + 10 ≤ LINE_CAPACITY }
    ensures items { line.new.items ≡ line.old.items ++ hexadecimal_word n }
    ensures grows { line_len line.new ≤ line_len line.old + 10 }
{
    let word = hexadecimal_word(n);
    append(line, &word);
}

/// `0x` and eight lower-case digits, as traces and listings show an address.
pub fn hexadecimal(n: u32) -> Line
    ensures { result.items ≡ hexadecimal_word n }
{
    let mut word = Line::new();
    append_hexadecimal(&mut word, n);
    word
}

fn decimal_digit(digit: u32) -> u8
    requires { digit < 10 }
    ensures { result ≡ 48 + digit }
{
    b'0' + digit as u8
}

#[tactic(auto, using(crate::proofs::Decimals::two_digits))]
fn two_digits(n: u32) -> [u8; 2]
    requires { (10 ≤ n) × (n < 100) }
    ensures { result ≡ decimal n }
{
    [decimal_digit(n / 10), decimal_digit(n % 10)]
}

#[tactic(auto, using(crate::proofs::Decimals::three_digits))]
fn three_digits(n: u32) -> [u8; 3]
    requires { (100 ≤ n) × (n < 1000) }
    ensures { result ≡ decimal n }
{
    let tens = n / 10;
    [
        decimal_digit(tens / 10),
        decimal_digit(tens % 10),
        decimal_digit(n % 10),
    ]
}

#[tactic(auto, using(crate::proofs::Decimals::four_digits))]
fn four_digits(n: u32) -> [u8; 4]
    requires { (1000 ≤ n) × (n < 10000) }
    ensures { result ≡ decimal n }
{
    let tens = n / 10;
    let hundreds = tens / 10;
    [
        decimal_digit(hundreds / 10),
        decimal_digit(hundreds % 10),
        decimal_digit(tens % 10),
        decimal_digit(n % 10),
    ]
}

/// Appends an unsigned number.
#[tactic(auto, using(crate::proofs::Decimals::one_digit, crate::proofs::Decimals::short))]
pub fn append_unsigned(line: &mut Line, n: u32)
    requires { line_len line.old + 10 ≤ LINE_CAPACITY }
    ensures items { line.new.items ≡ line.old.items ++ decimal n }
    ensures grows { line_len line.new ≤ line_len line.old + 10 }
    ensures two_digits { n < 100 → line_len line.new ≤ line_len line.old + 2 }
{
    if n < 10 {
        line.push(decimal_digit(n));
    } else if n < 100 {
        append(line, &two_digits(n));
    } else if n < 1000 {
        append(line, &three_digits(n));
    } else if n < 10_000 {
        append(line, &four_digits(n));
    } else {
        append(line, Buffer::new().format(n).as_bytes());
    }
}

fn append_signed(line: &mut Line, n: i32)
    requires { line_len line.old + 11 ≤ LINE_CAPACITY }
    ensures items { line.new.items ≡ line.old.items ++ signed_decimal n }
    ensures grows { line_len line.new ≤ line_len line.old + 11 }
{
    if n < 0 {
        line.push(b'-');
    }
    append_unsigned(line, n.unsigned_abs());
}

// Appends a space and a number.
fn append_number(line: &mut Line, field: Field)
    requires { line_len line.old + 12 ≤ LINE_CAPACITY }
    ensures items { line.new.items ≡ line.old.items ++ spaced_field (number_of field) }
    ensures grows { line_len line.new ≤ line_len line.old + width_of (number_of field) }
{
    line.push(b' ');
    match field {
        Field::Hex(n) => append_hexadecimal(line, n),
        Field::Unsigned(n) => append_unsigned(line, n),
        Field::Signed(n) => append_signed(line, n),
    }
}

/// Appends a space and a number for each field.
pub fn append_fields(line: &mut Line, fields: &[Field])
    requires { line_len line.old + 12 * length fields.now ≤ LINE_CAPACITY }
    ensures items { line.new.items ≡ line.old.items ++ flat_map spaced_field (numbers fields.now) }
    ensures grows { line_len line.new ≤ line_len line.old + sum_by width_of (numbers fields.now) }
{
    for field in fields {
        append_number(line, *field);
    }
}

/// Appends a space and a name, and then a space and a number for each field.
pub fn append_phrase(line: &mut Line, name: &[u8], fields: &[Field])
    requires { line_len line.old + 1 + length name.now + 12 * length fields.now ≤ LINE_CAPACITY }
    ensures items { line.new.items
        ≡ line.old.items ++ (spaced name.now ++ flat_map spaced_field (numbers fields.now)) }
    ensures grows { line_len line.new
        ≤ line_len line.old + 1 + length name.now + sum_by width_of (numbers fields.now) }
{
    append(line, b" ");
    append(line, name);
    append_fields(line, fields);
}

/// Appends a space and a number for each of four sizes.
pub fn append_sizes(line: &mut Line, sizes: &[u32; 4])
    requires { line_len line.old + 48 ≤ LINE_CAPACITY }
    ensures items { line.new.items
        ≡ line.old.items ++ flat_map spaced_field (size_fields sizes.now) }
    ensures grows { line_len line.new ≤ line_len line.old + 44 }
    ensures fits { AreFourSizes sizes.now }
{
    for size in sizes {
        append_number(line, Field::Unsigned(*size));
    }
}
