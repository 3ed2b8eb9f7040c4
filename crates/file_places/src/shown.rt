//! Bytes of a file as they are shown.

use std::fmt;

/// Bytes of a file; what is no UTF-8 is shown as `?`.
#[derive(Clone, Copy)]
pub struct Shown<'a>(pub &'a [u8]);

impl fmt::Display for Shown<'_> {
    fn fmt<W: fmt::Write>(&self, f: &mut fmt::Formatter<W>) -> fmt::Result {
        for chunk in self.0.utf8_chunks() {
            f.write_str(chunk.valid())?;
            if !chunk.invalid().is_empty() {
                f.write_str("?")?;
            }
        }
        Ok(())
    }
}

/// Words with `, ` between them, the first twelve.
#[derive(Clone, Copy)]
pub struct Listed<'a>(pub &'a [&'a [u8]]);

const MOST_LISTED: usize = 12;

impl fmt::Display for Listed<'_> {
    fn fmt<W: fmt::Write>(&self, f: &mut fmt::Formatter<W>) -> fmt::Result {
        for (i, word) in self.0.iter().take(MOST_LISTED).enumerate() {
            if i > 0 {
                f.write_str(", ")?;
            }
            write!(f, "{}", Shown(*word))?;
        }
        if self.0.len() > MOST_LISTED {
            f.write_str(" ..")?;
        }
        Ok(())
    }
}
