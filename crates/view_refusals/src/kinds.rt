//! What may stand at a place of a system file, a manifest or a scenario.

use ffm_model::{Key, PathStep};

/// What is told of a value that is out of its range.
#[derive(Clone, Copy, PartialEq, Eq)]
pub enum Sort {
    Number,
    Name,
    Bytes,
    Other,
}

const NUMBER: &str =
    "a whole number from 0 to 4294967295, or \"0x\" and one to eight hexadecimal digits";

const NAME: &str =
    "a name: 1 to 64 letters, digits and _, of which the first is no digit; not device";

const SIGNAL_NAME: &str =
    "a name of at most 57 letters, digits and _, of which the first is no digit";

const LIST: &str = "a list, between [ and ]";

const OBJECT: &str = "an object, between { and }";

/// What an attribute may be, and what it is where it isn't there; nothing where it has to be there.
pub fn attribute(key: Key) -> (Sort, &'static str, &'static str) {
    match key {
        Key::StackSize | Key::Sid | Key::Base | Key::Size | Key::Address => (
            Sort::Number,
            NUMBER,
            "",
        ),
        Key::HeapSize => (Sort::Number, NUMBER, "0"),
        Key::NonSecureRam => (Sort::Number, NUMBER, "65536"),
        Key::RotKind => (Sort::Other, "\"PSA-ROT\" or \"APPLICATION-ROT\"", ""),
        Key::Priority => (Sort::Other, "\"LOW\", \"NORMAL\" or \"HIGH\"", ""),
        Key::Model => (Sort::Other, "\"IPC\" or \"SFN\"", "\"IPC\""),
        Key::Permission => (Sort::Other, "\"READ-ONLY\" or \"READ-WRITE\"", ""),
        Key::VersionPolicy => (Sort::Other, "\"STRICT\" or \"RELAXED\"", "\"STRICT\""),
        Key::MmIovec => (Sort::Other, "\"enable\" or \"disable\"", "\"disable\""),
        Key::Handling => (Sort::Other, "\"FLIH\" or \"SLIH\"", ""),
        Key::NonSecureClients => (Sort::Other, "true or false", ""),
        Key::ConnectionBased => (Sort::Other, "true or false", "true"),
        Key::PsaFrameworkVersion => (Sort::Other, "1.0 or 1.1", ""),
        Key::IsolationLevel => (Sort::Other, "a whole number from 1 to 3", ""),
        Key::Count => (Sort::Other, "a whole number from 0 to 256", ""),
        Key::EventLimit => (Sort::Other, "a whole number from 1 to 262144", "4096"),
        Key::Restarts => (Sort::Other, "a whole number from 0 to 15", "0"),
        Key::RaiseResult => (Sort::Other, "0 or 1", ""),
        Key::StatelessHandle => (
            Sort::Other,
            "\"auto\", or a whole number from 1 to 32",
            "\"auto\"",
        ),
        Key::Version => (
            Sort::Number,
            "a number above 0: whole, or \"0x\" and one to eight hexadecimal digits",
            "1",
        ),
        Key::Bytes => (Sort::Bytes, "two hexadecimal digits for each byte", ""),
        Key::Source => (
            Sort::Name,
            "a name, or a whole number from 0 to 4294967295",
            "",
        ),
        Key::Name | Key::EntryPoint | Key::Signal | Key::Client | Key::Service | Key::Actor => (
            Sort::Name,
            NAME,
            "",
        ),
        Key::Lines => (Sort::Other, "a list of texts, one for each line", ""),
        Key::Dependencies => (
            Sort::Other,
            "a list of names of services, between [ and ]",
            "[]",
        ),
        Key::Clients => (
            Sort::Other,
            "a list of at most 16 names, between [ and ]",
            "[]",
        ),
        Key::Schedule => (
            Sort::Other,
            "a list of names of actors, between [ and ]",
            "[]",
        ),
        Key::Manifests => (
            Sort::Other,
            "a list of at most 256 manifests or names of files, between [ and ]",
            "",
        ),
        Key::MmioRegions
        | Key::Services
        | Key::Irqs
        | Key::Regions
        | Key::Connections
        | Key::Scripts
        | Key::Interrupts
        | Key::Memory => (Sort::Other, LIST, "[]"),
    }
}

/// The attribute that a place is of: the last name of its path.
pub fn key_at(steps: &[PathStep]) -> Option<Key> {
    for step in steps.iter().rev() {
        if let PathStep::Key(key) = step {
            return Some(*key);
        }
    }
    None
}

/// What may stand at a place.
pub fn wanted_at(steps: &[PathStep]) -> (Sort, &'static str) {
    let is_of_irq = steps.contains(&PathStep::Key(Key::Irqs));
    match (steps.last(), key_at(steps)) {
        (Some(PathStep::Key(Key::Name)), _) if is_of_irq => (Sort::Name, SIGNAL_NAME),
        (Some(PathStep::Key(key)), _) => {
            let (sort, words, _) = attribute(*key);
            (sort, words)
        }
        (_, Some(Key::Dependencies | Key::Clients)) => (Sort::Name, NAME),
        (_, Some(Key::Schedule)) => (Sort::Name, "an actor's name, or \"device\""),
        (_, Some(Key::Interrupts)) => (
            Sort::Name,
            "a source: a name or a whole number, or { \"source\": .., \"result\": 0 or 1 }",
        ),
        (_, Some(Key::Manifests)) => (
            Sort::Other,
            "a manifest, between { and }, or the name of a file that holds one",
        ),
        (_, Some(Key::Lines)) => (Sort::Other, "a text"),
        _ => (Sort::Other, OBJECT),
    }
}
