//! The files of a command as they were read, with what stands where in them.

use crate::outline::{Kind, Node, Outline, outlined};
use crate::slices::Span;
use ffm_model::{Key, PathStep, Root};
use serde_json::Value;
use std::alloc::{AllocError, Global};

/// A file that was read.
#[derive(Clone, Copy)]
pub struct FileRead<'a> {
    pub name: &'a str,
    pub bytes: &'a [u8],
}

/// A file with the values in it; of a file that is no JSON an empty one.
#[derive(Drop)]
pub struct Source<'a> {
    /// Which file it is, from 0.
    pub number: usize,
    pub name: &'a str,
    pub bytes: &'a [u8],
    pub nodes: Vec<Node>,
}

/// A value of a file, with its number there.
#[derive(Clone, Copy)]
pub struct Spot<'a> {
    pub source: &'a Source<'a>,
    pub number: usize,
    pub node: Node,
}

/// All sources of a command, the system file first.
#[derive(Drop)]
pub struct Sources<'a> {
    pub alloc: Global,
    pub files: Vec<Source<'a>>,
    /// The scenario's number, where one was read.
    pub scenario: Option<usize>,
}

// Without the marks around it.
fn inner(whole: &[u8]) -> &[u8] {
    match whole.strip_prefix(b"\"") {
        Some(rest) => rest.strip_suffix(b"\"").unwrap_or(rest),
        None => whole,
    }
}

// The value of a file that is no JSON.
const EMPTY: Node = Node {
    kind: Kind::Null,
    span: Span { from: 0, to: 0 },
    parent: None,
    name: None,
    index: 0,
};

impl<'a> Source<'a> {
    fn new(alloc: Global, number: usize, file: FileRead<'a>) -> Result<Source<'a>, AllocError> {
        let nodes = match outlined(alloc, file.bytes)? {
            Outline::Json(nodes) => nodes,
            Outline::Broken(_) => vec![in alloc; EMPTY]?,
        };
        let (name, bytes) = (file.name, file.bytes);
        Ok(Source {
            number,
            name,
            bytes,
            nodes,
        })
    }
}

impl<'a> Spot<'a> {
    /// The value of this number.
    pub fn new(source: &'a Source<'a>, number: usize) -> Option<Spot<'a>> {
        let node = *source.nodes.get(number)?;
        Some(Spot {
            source,
            number,
            node,
        })
    }

    /// The bytes of a value, without the marks of a text.
    pub fn text(self) -> &'a [u8] {
        inner(self.node.span.part(self.source.bytes))
    }

    /// The name of a value in its object, without marks; empty where it has none.
    pub fn name(self) -> &'a [u8] {
        match self.node.name {
            Some(name) => inner(name.part(self.source.bytes)),
            None => &[],
        }
    }

    /// The object or the list that a value stands in.
    pub fn around(self) -> Option<Spot<'a>> {
        Spot::new(self.source, self.node.parent?)
    }

    /// The last value of this name in an object.
    pub fn named(self, key: Key) -> Option<Spot<'a>> {
        let mut found = None;
        for (number, node) in self.source.nodes.iter().enumerate() {
            let spot = Spot {
                number,
                node: *node,
                ..self
            };
            if node.parent == Some(self.number) && spot.name() == key.text().as_bytes() {
                found = Some(spot);
            }
        }
        found
    }

    /// The text of an attribute of an object; empty where it isn't there.
    pub fn value(self, key: Key) -> &'a [u8] {
        match self.named(key) {
            Some(spot) => spot.text(),
            None => &[],
        }
    }

    // The value that a step leads to.
    fn step(self, step: PathStep) -> Option<Spot<'a>> {
        let index = match step {
            PathStep::Key(key) => return self.named(key),
            PathStep::Index(index) => usize::try_from(index).ok()?,
        };
        let number = self.source.nodes.iter().position(|node| {
            node.parent == Some(self.number) && node.name.is_none() && node.index == index
        });
        Spot::new(self.source, number?)
    }

    /// The items of the list of this name in an object.
    pub fn items(self, alloc: Global, key: Key) -> Result<Vec<Spot<'a>>, AllocError> {
        let mut items = Vec::new(alloc);
        let list = self.named(key).map(|list| list.number);
        for (number, node) in self.source.nodes.iter().enumerate() {
            if list.is_some() && node.parent == list {
                items.push(Spot {
                    number,
                    node: *node,
                    ..self
                })?;
            }
        }
        Ok(items)
    }
}

// The text that JSON bytes spell.
fn spelled(alloc: Global, bytes: &[u8]) -> Option<String> {
    let value = Value::from_slice(alloc, bytes).ok()?;
    String::from_str(alloc, value.as_str()?).ok()
}

impl<'a> Sources<'a> {
    /// The files that were read, the system file first.
    pub fn new(
        alloc: Global,
        read: &[FileRead<'a>],
        name: Option<&str>,
    ) -> Result<Sources<'a>, AllocError> {
        let (mut files, mut scenario) = (Vec::new(alloc), None);
        for (i, file) in read.iter().enumerate() {
            files.push(Source::new(alloc, i, *file)?)?;
            if i > 0 && name == Some(file.name) {
                scenario = Some(i);
            }
        }
        Ok(Sources {
            alloc,
            files,
            scenario,
        })
    }

    /// The whole system file or scenario.
    pub fn root(&self, root: Root) -> Option<Spot<'_>> {
        let number = match root {
            Root::System => 0,
            Root::Scenario => self.scenario?,
            Root::Trace => return None,
        };
        Spot::new(self.files.get(number)?, 0)
    }

    // What a value stands for: an item of `manifests` that is a text stands for the last file of that name.
    fn followed<'s>(&'s self, spot: Spot<'s>) -> Option<Spot<'s>> {
        if !matches!(spot.node.kind, Kind::Text | Kind::Decimal) {
            return Some(spot);
        }
        let name = spelled(self.alloc, spot.node.span.part(spot.source.bytes))?;
        let number = self
            .files
            .iter()
            .rposition(|file| file.name == name.as_str())?;
        Spot::new(self.files.get(number)?, 0)
    }

    /// The value at a place.
    pub fn spot(&self, root: Root, steps: &[PathStep]) -> Option<Spot<'_>> {
        let mut spot = self.root(root)?;
        for (i, step) in steps.iter().enumerate() {
            spot = spot.step(*step)?;
            if i == 1 && steps.first() == Some(&PathStep::Key(Key::Manifests)) {
                spot = self.followed(spot).unwrap_or(spot);
            }
        }
        Some(spot)
    }

    /// The items of the list of this name in the system file.
    pub fn items(&self, key: Key) -> Result<Vec<Spot<'_>>, AllocError> {
        match self.root(Root::System) {
            Some(system) => system.items(self.alloc, key),
            None => Ok(Vec::new(self.alloc)),
        }
    }

    /// The manifests, each in its file.
    pub fn manifests(&self) -> Result<Vec<Spot<'_>>, AllocError> {
        let mut spots = Vec::new(self.alloc);
        for item in &self.items(Key::Manifests)? {
            if let Some(manifest) = self.followed(*item) {
                spots.push(manifest)?;
            }
        }
        Ok(spots)
    }

    /// The items of a list of all manifests, in their order.
    pub fn items_of_manifests(&self, key: Key) -> Result<Vec<Spot<'_>>, AllocError> {
        let mut spots = Vec::new(self.alloc);
        for manifest in &self.manifests()? {
            spots.extend_from_slice(&manifest.items(self.alloc, key)?)?;
        }
        Ok(spots)
    }
}
