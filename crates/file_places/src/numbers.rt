//! Numbers as the files write them.

ghost use Rattle.std.specs.Prelude.{◌≤◌};

/// The number that at most ten digits of a base spell.
pub(crate) fn digits_of(digits: &[u8], base: u32) -> Option<u32>
    requires base { 2 ≤ base × base ≤ 36 }
{
    if digits.is_empty() || digits.len() > 10 {
        return None;
    }
    let mut number: u64 = 0;
    for digit in digits {
        let value = char::from(*digit).to_digit(base)?;
        number = number
            .saturating_mul(u64::from(base))
            .saturating_add(u64::from(value));
    }
    u32::try_from(number).ok()
}

/// The number that decimal digits, or `0x` and hexadecimal ones, spell.
pub fn number_of(word: &[u8]) -> Option<u32> {
    match word.strip_prefix(b"0x") {
        Some(digits) => digits_of(digits, 16),
        None => digits_of(word, 10),
    }
}
