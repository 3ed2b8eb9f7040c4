//! The values of a JSON text with the place of each, or where the text stops being JSON.
//!
//! Decimals are taken as the reader of files takes them: a run of digits, `+`, `-`, `.`, `e` and `E` that begins with
//! a digit or `-` and is no plain whole number stands for a text.

use crate::lexemes::{Lexeme, lexeme_at};
use crate::slices::{Span, is_blank, rest_of};
use std::alloc::{AllocError, Global};

/// What a value is.
#[derive(Clone, Copy, PartialEq, Eq)]
pub enum Kind {
    Object,
    List,
    /// Between quotation marks.
    Text,
    /// With a dot or an exponent, or of more digits than a number may have: read as a text.
    Decimal,
    Whole,
    Boolean,
    Null,
}

/// A value of a text.
#[derive(Clone, Copy)]
pub struct Node {
    pub kind: Kind,
    pub span: Span,
    /// The object or the list that it stands in, by its number; none for the whole text.
    pub parent: Option<usize>,
    /// Its name, with quotation marks, where it stands in an object.
    pub name: Option<Span>,
    /// How many stand before it there.
    pub index: usize,
}

impl Node {
    /// Where it begins, or its name, where it has one.
    pub fn start(self) -> usize {
        self.name.unwrap_or(self.span).from
    }
}

/// Why a text is no JSON.
#[derive(Clone, Copy, PartialEq, Eq)]
pub enum Cause {
    NotUtf8,
    /// No value begins here.
    NoValue,
    /// No name of an attribute begins here.
    NoName,
    NoColon,
    /// Neither a comma nor the closing bracket.
    NoComma,
    /// A comma stands before a closing bracket.
    CommaLast,
    /// The text ends.
    Ends,
    /// Something stands behind the value.
    More,
    NoEscape,
    /// A control character in a text.
    Control,
    /// Half of a surrogate pair.
    HalfOfPair,
    /// Digits that are no number.
    NoNumber,
    TooDeep,
}

/// Where a text stops being JSON, and why.
#[derive(Clone, Copy)]
pub struct Fault {
    pub at: usize,
    pub cause: Cause,
    /// Where the innermost object or list begins that isn't closed.
    pub open: Option<usize>,
}

/// What a text is.
#[derive(Drop)]
pub enum Outline {
    Json(Vec<Node>),
    Broken(Fault),
}

// What may stand next.
#[derive(Clone, Copy, PartialEq, Eq)]
enum Next {
    Value,
    ValueOrEnd,
    Name,
    NameOrEnd,
    Colon,
    /// Behind a value a comma or the closing bracket, or nothing where nothing is open.
    Behind,
}

// An object or a list that isn't closed, and how many values stand in it.
#[derive(Clone, Copy)]
struct Open {
    node: usize,
    from: usize,
    closing: u8,
    count: usize,
}

const DEEPEST: usize = 127;

#[derive(Drop)]
struct Scanner<'a> {
    bytes: &'a [u8],
    at: usize,
    nodes: Vec<Node>,
    open: Vec<Open>,
    name: Option<Span>,
    next: Next,
}

impl Scanner<'_> {
    fn fault(&self, at: usize, cause: Cause) -> Option<Fault> {
        let open = self.open.last().map(|open| open.from);
        Some(Fault { at, cause, open })
    }

    // Keeps a value that begins here and has so many bytes.
    fn keep(&mut self, kind: Kind, len: usize) -> Result<usize, AllocError> {
        let span = Span::of(self.at, len);
        let (mut parent, mut index) = (None, 0);
        if let Some(open) = self.open.last_mut() {
            parent = Some(open.node);
            index = open.count;
            open.count = index.saturating_add(1);
        }
        let (number, name) = (self.nodes.len(), self.name);
        self.nodes.push(Node {
            kind,
            span,
            parent,
            name,
            index,
        })?;
        self.name = None;
        self.at = span.to;
        self.next = Next::Behind;
        Ok(number)
    }

    // Opens an object or a list.
    fn open(&mut self, kind: Kind, closing: u8, next: Next) -> Result<Option<Fault>, AllocError> {
        let (from, count) = (self.at, 0);
        if self.open.len() >= DEEPEST {
            return Ok(self.fault(from, Cause::TooDeep));
        }
        let node = self.keep(kind, 1)?;
        self.open.push(Open {
            node,
            from,
            closing,
            count,
        })?;
        self.next = next;
        Ok(None)
    }

    fn close(&mut self) {
        self.at = self.at.saturating_add(1);
        self.next = Next::Behind;
        if let Some(open) = self.open.pop() {
            if let Some(node) = self.nodes.get_mut(open.node) {
                node.span.to = self.at;
            }
        }
    }

    // Reads a text, a number or a word: a name, or a value.
    fn lexeme(&mut self, is_name: bool) -> Result<Option<Fault>, AllocError> {
        let from = self.at;
        match lexeme_at(rest_of(self.bytes, from)) {
            Lexeme::Value { kind, len } if !is_name => {
                self.keep(kind, len)?;
                Ok(None)
            }
            Lexeme::Value {
                kind: Kind::Text | Kind::Decimal,
                len,
            } => {
                let name = Span::of(from, len);
                self.name = Some(name);
                self.at = name.to;
                self.next = Next::Colon;
                Ok(None)
            }
            Lexeme::Wrong {
                cause: Cause::NoValue | Cause::NoNumber,
                ..
            } if is_name => { Ok(self.fault(from, Cause::NoName)) }
            Lexeme::Wrong { at, cause } => Ok(self.fault(from.saturating_add(at), cause)),
            Lexeme::Value { .. } => Ok(self.fault(from, Cause::NoName)),
        }
    }

    // Reads the next part of the text, which begins with this byte.
    fn step(&mut self, byte: u8) -> Result<Option<Fault>, AllocError> {
        let at = self.at;
        let closing = self.open.last().map(|open| open.closing);
        let next = match (self.next, byte) {
            (Next::Value | Next::Name, _) if closing == Some(byte) => {
                return Ok(self.fault(at, Cause::CommaLast));
            }
            (Next::ValueOrEnd | Next::NameOrEnd | Next::Behind, _) if closing == Some(byte) => {
                self.close();
                return Ok(None);
            }
            (Next::Value | Next::ValueOrEnd, b'{') => {
                return self.open(Kind::Object, b'}', Next::NameOrEnd);
            }
            (Next::Value | Next::ValueOrEnd, b'[') => {
                return self.open(Kind::List, b']', Next::ValueOrEnd);
            }
            (Next::Value | Next::ValueOrEnd, _) => return self.lexeme(false),
            (Next::Name | Next::NameOrEnd, _) => return self.lexeme(true),
            (Next::Colon, b':') => Next::Value,
            (Next::Colon, _) => return Ok(self.fault(at, Cause::NoColon)),
            (Next::Behind, _) if closing.is_none() => return Ok(self.fault(at, Cause::More)),
            (Next::Behind, b',') if closing == Some(b'}') => Next::Name,
            (Next::Behind, b',') => Next::Value,
            (Next::Behind, _) => return Ok(self.fault(at, Cause::NoComma)),
        };
        self.at = at.saturating_add(1);
        self.next = next;
        Ok(None)
    }

    // Reads the whole text, or up to a fault. Each step takes a byte at least.
    fn run(&mut self) -> Result<Option<Fault>, AllocError> {
        for _ in 0..=self.bytes.len() {
            let rest = rest_of(self.bytes, self.at);
            let blanks = rest.iter().take_while(|b| is_blank(**b)).count();
            self.at = self.at.saturating_add(blanks);
            let Some(byte) = self.bytes.get(self.at).copied() else {
                break;
            };
            if let Some(fault) = self.step(byte)? {
                return Ok(Some(fault));
            }
        }
        let at = self.at;
        let is_whole = self.next == Next::Behind && self.open.is_empty();
        Ok(if is_whole {
            None
        } else {
            self.fault(at, Cause::Ends)
        })
    }
}

/// The values of a text, an object or a list before those in it, or where it stops being JSON. Err where no memory
/// was found.
pub fn outlined(alloc: Global, bytes: &[u8]) -> Result<Outline, AllocError> {
    if let Err(error) = std::str::from_utf8(bytes) {
        let (at, cause, open) = (error.valid_up_to(), Cause::NotUtf8, None);
        return Ok(Outline::Broken(Fault { at, cause, open }));
    }
    let mut scanner = Scanner {
        bytes,
        at: 0,
        nodes: Vec::new(alloc),
        open: Vec::new(alloc),
        name: None,
        next: Next::Value,
    };
    match scanner.run()? {
        Some(fault) => Ok(Outline::Broken(fault)),
        None => Ok(Outline::Json(scanner.nodes)),
    }
}
