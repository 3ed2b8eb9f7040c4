//! A line of text of a fixed capacity, which is emptied and filled again.

ghost use Rattle.std.specs.Prelude.{◌≡◌, ◌+◌, ◌≤◌, ◌<◌, [], ◌∷◌, ◌++◌, length};
ghost use Rattle.trace_print.specs.Buffer.{line_len};

use std::marker::Model;

/// How many bytes a `Line` has room for.
pub const LINE_CAPACITY: usize = 256;

/// A line of a trace's text, with no allocation. A line that is emptied keeps its bytes as they
/// are, so that no byte is written but those of the text.
#[derive(Drop)]
pub struct Line {
    bytes: [u8; LINE_CAPACITY],
    len: usize,
}

impl Model for Line {
    ghost use Rattle.std.specs.Prelude.{◌≡◌, ◌≤◌, ℕ, length, take};
    ghost use Rattle.trace_print.specs.Buffer.{LineText};

    ghost Value = { LineText };

    ghost view = { λ v. record { items = take v.len v.bytes } };

    ghost invariant = { λ v. (v.len ≤ 256) × (length v.bytes ≡ 256) };
}

impl Line {
    /// A line with no text.
    pub fn new() -> Line
        ensures { result.items ≡ [] }
    {
        Line {
            bytes: [0; LINE_CAPACITY],
            len: 0,
        }
    }

    /// Takes the text away.
    pub fn clear(&mut self)
        ensures { self.new.items ≡ [] }
    {
        self.len = 0;
    }

    /// The text.
    pub fn as_slice(&self) -> &[u8]
        ensures value { result.now ≡ self.now.items }
        ensures fits { length result.now ≤ LINE_CAPACITY }
    {
        &self.bytes[..self.len]
    }

    /// Appends a byte.
    #[inline]
    pub fn push(&mut self, byte: u8)
        requires { line_len self.old < LINE_CAPACITY }
        ensures items { self.new.items ≡ self.old.items ++ byte ∷ [] }
        ensures grows { line_len self.new ≡ line_len self.old + 1 }
    {
        let len = self.len;
        self.bytes[len] = byte;
        self.len = len + 1;
    }

    /// Appends bytes.
    #[inline]
    pub fn append(&mut self, bytes: &[u8])
        requires { line_len self.old + length bytes.now ≤ LINE_CAPACITY }
        ensures items { self.new.items ≡ self.old.items ++ bytes.now }
        ensures grows { line_len self.new ≡ line_len self.old + length bytes.now }
    {
        let start = self.len;
        let end = start + bytes.len();
        self.bytes[start..end].copy_from_slice(bytes);
        self.len = end;
    }
}
