//! Values of a system's files by their attributes, and which of them is meant.

use ffm_model::Key;
use file_places::{Listed, Shown, Spot, nearest, put_place};
use std::alloc::{AllocError, Global};

/// The values of an attribute of these objects.
pub fn values_of<'a>(
    alloc: Global,
    objects: &[Spot<'a>],
    key: Key,
) -> Result<Vec<&'a [u8]>, AllocError> {
    objects
        .iter()
        .map(|object| object.value(key))
        .collect(alloc)
}

/// The first of these objects with this value of an attribute.
pub fn object_with<'a>(objects: &[Spot<'a>], key: Key, value: &[u8]) -> Option<Spot<'a>> {
    objects
        .iter()
        .find(|object| object.value(key) == value)
        .copied()
}

/// Writes where an earlier value stands.
pub fn put_earlier(text: &mut String, spot: Spot<'_>) -> Result<(), AllocError> {
    text.push_str("earlier: ")?;
    put_place(
        text,
        spot.source.name,
        spot.source.bytes,
        spot.node.span.from,
    )?;
    text.push('\n')
}

/// Writes which names there are, if there are some.
pub fn put_names(text: &mut String, names: &[&[u8]], more: &str) -> Result<(), AllocError> {
    if names.is_empty() && more.is_empty() {
        return Ok(());
    }
    writeln!(text, "expected: one of {}{more}", Listed(names))
}

/// Writes which of these names is perhaps meant, between two marks.
pub fn put_perhaps(
    alloc: Global,
    text: &mut String,
    names: &[&[u8]],
    given: &[u8],
    mark: &str,
) -> Result<(), AllocError> {
    match nearest(alloc, names, given)? {
        Some(name) => writeln!(text, "hint: perhaps {mark}{}{mark}", Shown(name)),
        None => Ok(()),
    }
}
