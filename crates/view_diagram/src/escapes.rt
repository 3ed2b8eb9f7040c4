//! Texts as they may stand in a page of HTML or in a Mermaid text.

use std::alloc::AllocError;

/// Appends a text as HTML.
pub fn push_html(out: &mut String, text: &str) -> Result<(), AllocError> {
    for c in text.chars() {
        match c {
            '&' => out.push_str("&amp;")?,
            '<' => out.push_str("&lt;")?,
            '>' => out.push_str("&gt;")?,
            '"' => out.push_str("&quot;")?,
            '\'' => out.push_str("&#39;")?,
            _ => out.push(c)?,
        }
    }
    Ok(())
}

// What may stand in a Mermaid text as it is.
fn is_plain(c: char) -> bool {
    c.is_ascii_alphanumeric() || matches!(c, ' ' | '_' | '-' | '.' | ',' | ':' | '(' | ')')
}

/// Appends a text as a part of a Mermaid line: each other character as its entity code, and each
/// control character as a space.
pub fn push_mermaid(out: &mut String, text: &str) -> Result<(), AllocError> {
    for c in text.chars() {
        if is_plain(c) {
            out.push(c)?;
        } else if c.is_control() {
            out.push(' ')?;
        } else {
            let code = c as u32;
            write!(out, "#{code};")?;
        }
    }
    Ok(())
}
