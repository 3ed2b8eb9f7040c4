//! What passes unread in files that are admitted, and may be a mistake.

use ffm_model::Key;
use file_places::{FileRead, Shown, Source, Sources, Spot, nearest, put_place};
use std::alloc::{AllocError, Global};

const SYSTEM: [Key; 6] = [
    Key::IsolationLevel,
    Key::Manifests,
    Key::Regions,
    Key::NonSecureRam,
    Key::Clients,
    Key::Connections,
];

const SCENARIO: [Key; 6] = [
    Key::EventLimit,
    Key::Scripts,
    Key::Schedule,
    Key::Interrupts,
    Key::Memory,
    Key::Restarts,
];

const MANIFEST: [Key; 12] = [
    Key::PsaFrameworkVersion,
    Key::Name,
    Key::RotKind,
    Key::Priority,
    Key::Model,
    Key::EntryPoint,
    Key::StackSize,
    Key::HeapSize,
    Key::MmioRegions,
    Key::Services,
    Key::Dependencies,
    Key::Irqs,
];

const SERVICE: [Key; 8] = [
    Key::Name,
    Key::Sid,
    Key::NonSecureClients,
    Key::Version,
    Key::VersionPolicy,
    Key::ConnectionBased,
    Key::StatelessHandle,
    Key::MmIovec,
];

// The lists of objects, and which attributes those may have.
const LISTS: [(Key, &[Key]); 9] = [
    (Key::Manifests, &MANIFEST),
    (Key::Services, &SERVICE),
    (
        Key::Irqs,
        &[Key::Source, Key::Signal, Key::Name, Key::Handling],
    ),
    (
        Key::MmioRegions,
        &[Key::Name, Key::Base, Key::Size, Key::Permission],
    ),
    (Key::Regions, &[Key::Name, Key::Base, Key::Size]),
    (Key::Connections, &[Key::Client, Key::Service, Key::Count]),
    (Key::Scripts, &[Key::Actor, Key::Lines]),
    (Key::Interrupts, &[Key::Source, Key::RaiseResult]),
    (Key::Memory, &[Key::Address, Key::Bytes]),
];

// Those of which a manifest of 1.0 has none.
const LATER: [Key; 3] = [Key::Model, Key::ConnectionBased, Key::MmIovec];

// The attributes that an object may have; none for one that isn't known.
fn keys_of(sources: &Sources<'_>, object: Spot<'_>) -> &'static [Key] {
    let Some(list) = object.around() else {
        return match object.source.number {
            0 => &SYSTEM,
            number if sources.scenario == Some(number) => &SCENARIO,
            _ => &MANIFEST,
        };
    };
    match LISTS
        .iter()
        .find(|row| row.0.text().as_bytes() == list.name())
    {
        Some(row) => row.1,
        None => &[],
    }
}

// Whether a name is one of these attributes.
fn is_key(keys: &[Key], name: &[u8]) -> bool {
    keys.iter().any(|key| key.text().as_bytes() == name)
}

// Whether an object is a manifest of 1.0, or stands in a list of one.
fn is_of_1_0(object: Spot<'_>) -> bool {
    let manifest = match object.around() {
        Some(list) if object.value(Key::PsaFrameworkVersion).is_empty() => {
            list.around().unwrap_or(object)
        }
        _ => object,
    };
    matches!(manifest.value(Key::PsaFrameworkVersion), b"1.0")
}

// Whether an earlier attribute of the same object has this name.
fn is_repeated(spot: Spot<'_>) -> bool {
    spot.source.nodes.iter().take(spot.number).any(|node| {
        node.parent == spot.node.parent
            && node.name.is_some()
            && Spot {
                node: *node,
                ..spot
            }
            .name()
                == spot.name()
    })
}

// The attribute that isn't there and is nearest to a name.
fn meant(
    alloc: Global,
    object: Spot<'_>,
    keys: &[Key],
    name: &[u8],
) -> Result<Option<&'static [u8]>, AllocError> {
    let mut missing = Vec::new(alloc);
    for key in keys {
        if object.named(*key).is_none() {
            missing.push(key.text().as_bytes())?;
        }
    }
    nearest(alloc, &missing, name)
}

// Writes what is to be said of an attribute, and whether something is.
fn put_note(text: &mut String, sources: &Sources<'_>, spot: Spot<'_>) -> Result<bool, AllocError> {
    let (name, source) = (spot.name(), spot.source);
    let Some(object) = spot.around() else {
        return Ok(false);
    };
    let keys = keys_of(sources, object);
    let (words, right, end): (&str, &[u8], &str) = if keys.is_empty() || name.is_empty() {
        return Ok(false);
    } else if is_repeated(spot) {
        ("stands here twice: the last one counts", b"", "")
    } else if is_key(&LATER, name) && is_of_1_0(object) {
        ("isn't read in a manifest of 1.0", b"", "")
    } else if is_key(keys, name) {
        return Ok(false);
    } else {
        match meant(sources.alloc, object, keys, name)? {
            Some(right) => ("isn't read: perhaps `", right, "`"),
            None => return Ok(false),
        }
    };
    text.push_str("note: ")?;
    put_place(text, source.name, source.bytes, spot.node.start())?;
    writeln!(text, ": `{}` {words}{}{end}", Shown(name), Shown(right))?;
    Ok(true)
}

// Writes the notes of a file, so many at most, and tells how many more there may be.
fn put_notes(
    text: &mut String,
    sources: &Sources<'_>,
    source: &Source<'_>,
    most: usize,
) -> Result<usize, AllocError> {
    let mut left = most;
    for (number, node) in source.nodes.iter().enumerate() {
        let spot = Spot {
            source: &*source,
            number,
            node: *node,
        };
        if left > 0 && put_note(text, sources, spot)? {
            left = left.saturating_sub(1);
        }
    }
    Ok(left)
}

const MOST_NOTES: usize = 7;

/// A note for each attribute that passes unread in these files, the system file first, and is probably meant to be
/// read, at most seven.
pub fn note_words(
    alloc: Global,
    scenario: Option<&str>,
    files: &[FileRead<'_>],
) -> Result<String, AllocError> {
    let sources = Sources::new(alloc, files, scenario)?;
    let mut text = String::new(alloc);
    let mut left = MOST_NOTES;
    for source in &sources.files {
        left = put_notes(&mut text, &sources, source, left)?;
    }
    Ok(text)
}
