//! Parts of bytes, empty where they aren't there.

ghost use Rattle.std.specs.Prelude.{◌≡◌, drop, take};

/// The bytes from a place on.
pub fn rest_of(bytes: &[u8], at: usize) -> &[u8]
    ensures { result.now ≡ drop at bytes.now }
{
    &bytes[at.min(bytes.len())..]
}

/// The bytes before a place.
pub fn front_of(bytes: &[u8], at: usize) -> &[u8]
    ensures { result.now ≡ take at bytes.now }
{
    &bytes[..at.min(bytes.len())]
}

/// Whether JSON has this byte between values.
pub fn is_blank(byte: u8) -> bool {
    matches!(byte, b' ' | b'\t' | b'\n' | b'\r')
}

/// Whether a byte may stand in a word.
pub fn is_word_byte(byte: u8) -> bool {
    byte.is_ascii_alphanumeric() || byte == b'_'
}

/// The longest word at the front.
pub fn word_at(bytes: &[u8]) -> &[u8] {
    let len = bytes.iter().take_while(|b| is_word_byte(**b)).count();
    front_of(bytes, len)
}

/// The bytes from one place up to another.
#[derive(Clone, Copy)]
pub struct Span {
    pub from: usize,
    pub to: usize,
}

impl Span {
    /// So many bytes from a place on.
    pub fn of(from: usize, len: usize) -> Span {
        let to = from.saturating_add(len);
        Span { from, to }
    }

    /// The same bytes of a text that begins so many bytes further.
    pub fn behind(self, at: usize) -> Span {
        let (from, to) = (at.saturating_add(self.from), at.saturating_add(self.to));
        Span { from, to }
    }

    /// These bytes of a text.
    pub fn part(self, bytes: &[u8]) -> &[u8] {
        bytes.get(self.from..self.to).unwrap_or(&[])
    }
}
