//! Words for a value that isn't there, is of the wrong kind, or is out of its range.

use crate::explain::Refused;
use crate::kinds::{Sort, attribute};
use crate::names::{object_with, put_perhaps};
use ffm_model::Key;
use file_places::{Kind, Shown, Spot, is_word_byte, line_of, nearest, rest_of, word_at};
use std::alloc::{AllocError, Global};

// The first attribute of an object that is near to a missing one.
fn misspelt<'a>(alloc: Global, object: Spot<'a>, key: Key) -> Result<Option<Spot<'a>>, AllocError> {
    for (number, node) in object.source.nodes.iter().enumerate() {
        let spot = Spot {
            number,
            node: *node,
            ..object
        };
        let is_of_object = node.parent == Some(object.number) && node.name.is_some();
        if is_of_object && nearest(alloc, &[key.text().as_bytes()], spot.name())?.is_some() {
            return Ok(Some(spot));
        }
    }
    Ok(None)
}

// What an object has in place of a missing attribute.
fn told_by_others(object: Spot<'_>, missing: Key) -> &'static str {
    let is_scenario = object.named(Key::Scripts).is_some() || object.named(Key::Memory).is_some();
    match missing {
        Key::Name if object.named(Key::Signal).is_some() => {
            "hint: in a manifest of 1.1 an interrupt has `name` and `handling` in place of `signal`\n"
        }
        Key::Signal if object.named(Key::Handling).is_some() => {
            "hint: in a manifest of 1.0 an interrupt has `signal` in place of `name` and `handling`\n"
        }
        Key::IsolationLevel if is_scenario => {
            "hint: this looks like a scenario: the system file is named first\n"
        }
        Key::IsolationLevel if object.named(Key::PsaFrameworkVersion).is_some() => {
            "hint: this looks like a manifest: a system file names it in `manifests`\n"
        }
        Key::EntryPoint if matches!(object.value(Key::Model), b"SFN") => {
            "hint: `model` isn't read in a manifest of 1.0\n"
        }
        _ => "",
    }
}

fn kind_words(kind: Kind) -> &'static str {
    match kind {
        Kind::Object => "an object",
        Kind::List => "a list",
        Kind::Text => "a text",
        Kind::Decimal => "a decimal, which is read as a text,",
        Kind::Whole => "a whole number",
        Kind::Boolean => "true or false",
        Kind::Null => "null",
    }
}

fn is_digits(word: &[u8]) -> bool {
    !word.is_empty() && word.iter().all(|b| b.is_ascii_digit())
}

// The first byte that is no hexadecimal digit.
fn no_hexadecimal(word: &[u8]) -> Option<u8> {
    word.iter().find(|b| !b.is_ascii_hexdigit()).copied()
}

// The digits of a hexadecimal number that is spelled as other tools do.
fn hexadecimal_digits(word: &[u8]) -> Option<&[u8]> {
    let digits = match word {
        [b'0', b'x' | b'X', digits @ ..] => digits,
        [digits @ .., b'h' | b'H'] => digits,
        _ => return None,
    };
    let zeros = digits.iter().take_while(|b| **b == b'0').count();
    let digits = rest_of(digits, zeros);
    let is_number = matches!(digits.len(), 1..=8) && no_hexadecimal(digits).is_none();
    if is_number { Some(digits) } else { None }
}

// The digits of a decimal number with nothing but zeros behind its dot.
fn whole_part(word: &[u8]) -> Option<&[u8]> {
    let front = word_at(word);
    let zeros = rest_of(word, front.len()).strip_prefix(b".")?;
    let is_whole = is_digits(front) && zeros.iter().all(|b| *b == b'0');
    if is_whole { Some(front) } else { None }
}

// Why a text is no hexadecimal number, behind a colon.
fn put_why_no_number(text: &mut String, word: &[u8]) -> Result<(), AllocError> {
    let [b'0', x @ (b'x' | b'X'), digits @ ..] = word else {
        return text.push('\n');
    };
    match no_hexadecimal(digits) {
        _ if *x == b'X' => text.push_str(": the x has to be a small letter\n"),
        Some(byte) => writeln!(text, ": {} is no hexadecimal digit", Shown(&[byte])),
        None if digits.is_empty() => text.push_str(": it has no digit\n"),
        None => text.push_str(": it has more than eight digits\n"),
    }
}

// Writes how a number would be spelled, if that can be told.
fn put_number_hint(text: &mut String, kind: Kind, word: &[u8]) -> Result<(), AllocError> {
    if kind == Kind::Text && is_digits(word) {
        writeln!(text, "hint: write {}", Shown(word))
    } else if let Some(whole) = whole_part(word) {
        writeln!(text, "hint: write {}", Shown(whole))
    } else if let Some(digits) = hexadecimal_digits(word) {
        writeln!(text, "hint: write \"0x{}\"", Shown(digits))
    } else if kind == Kind::Text && word_at(word) == word && !matches!(word, [b'0'..=b'9', ..]) {
        text.push_str("hint: a file knows no names of numbers: write the number itself\n")
    } else {
        Ok(())
    }
}

// Writes a name with an underscore in place of each byte that no name has.
fn put_mended(text: &mut String, word: &[u8]) -> Result<(), AllocError> {
    text.push_str("hint: write \"")?;
    for byte in word {
        let is_right = is_word_byte(*byte);
        text.push(if is_right { char::from(*byte) } else { '_' })?;
    }
    text.push_str("\"\n")
}

impl Refused<'_> {
    /// Writes that an object has no attribute of this name.
    pub fn put_missing(&self, text: &mut String) -> Result<(), AllocError> {
        let Some(key) = self.key else {
            return Ok(());
        };
        let (missing, expected) = (key.text(), self.expected);
        writeln!(text, "wrong: this object has no `{missing}`")?;
        writeln!(text, "expected: {expected}")?;
        let Some(spot) = misspelt(self.sources.alloc, self.spot, key)? else {
            return text.push_str(told_by_others(self.spot, key));
        };
        let line = line_of(spot.source.bytes, spot.node.start());
        let name = Shown(spot.name());
        write!(text, "hint: line {line} has `{name}`, which isn't read")?;
        writeln!(text, ": perhaps `{missing}`")
    }

    /// Writes that a value is of another kind than its place wants.
    pub fn put_kind(&self, text: &mut String) -> Result<(), AllocError> {
        let (kind, given) = (self.spot.node.kind, Shown(self.word));
        if kind == Kind::Whole && self.word.starts_with(b"-") {
            writeln!(text, "wrong: {given} is below 0")?;
        } else {
            writeln!(text, "wrong: {} stands here", kind_words(kind))?;
        }
        writeln!(text, "expected: {}", self.expected)?;
        let Some(key) = self.key else {
            return Ok(());
        };
        let is_bare = is_digits(self.word) || matches!(self.word, b"true" | b"false");
        match (kind, key) {
            (Kind::Text, Key::Lines) => {
                text.push_str("hint: write [ and ] around it, and a text for each line\n")
            }
            (Kind::Text, Key::Dependencies | Key::Clients | Key::Schedule) => {
                text.push_str("hint: write [ and ] around it\n")
            }
            (Kind::Text, _) if is_bare => {
                writeln!(text, "hint: write {given}, without quotation marks")
            }
            (Kind::Whole, Key::PsaFrameworkVersion) => writeln!(text, "hint: write {given}.0"),
            (Kind::Whole, Key::NonSecureClients | Key::ConnectionBased) => {
                text.push_str("hint: write true or false\n")
            }
            (Kind::Null, key) => match attribute(key).2 {
                "" => Ok(()),
                default => {
                    writeln!(
                        text,
                        "hint: leave the attribute out: its default is {default}"
                    )
                }
            },
            _ => Ok(()),
        }
    }

    fn put_no_number(&self, text: &mut String) -> Result<(), AllocError> {
        let (kind, given) = (self.spot.node.kind, Shown(self.word));
        if kind == Kind::Decimal {
            writeln!(text, "wrong: {given} is no whole number")?;
        } else if kind == Kind::Whole {
            writeln!(text, "wrong: {given} is not allowed here")?;
        } else {
            write!(text, "wrong: \"{given}\" is no number")?;
            if is_digits(self.word) {
                text.push_str(": a decimal one stands without quotation marks\n")?;
            } else {
                put_why_no_number(text, self.word)?;
            }
        }
        writeln!(text, "expected: {}", self.expected)?;
        put_number_hint(text, kind, self.word)
    }

    fn put_no_name(&self, text: &mut String) -> Result<(), AllocError> {
        let word = self.word;
        let wrong = word.get(word_at(word).len()).copied();
        let is_number = matches!(word, [b'0'..=b'9', ..]);
        write!(text, "wrong: \"{}\" is no name", Shown(word))?;
        match wrong {
            _ if is_number => text.push_str(": its first character is a digit\n")?,
            Some(b' ') => text.push_str(": a blank stands in it\n")?,
            Some(byte @ 0..128) => writeln!(text, ": {} stands in it", Shown(&[byte]))?,
            Some(_) => text.push_str(": a letter stands in it that isn't ASCII\n")?,
            None if word.is_empty() => text.push_str(": it is empty\n")?,
            None if matches!(word, b"device") => text.push_str(": it is taken\n")?,
            None => text.push_str(": it is too long\n")?,
        }
        writeln!(text, "expected: {}", self.expected)?;
        let services = self.sources.items_of_manifests(Key::Services)?;
        match object_with(&services, Key::Sid, word) {
            Some(service) if self.key == Some(Key::Service) => {
                let name = Shown(service.value(Key::Name));
                writeln!(text, "hint: the service of this SID is \"{name}\"")
            }
            _ if is_number || !matches!(wrong, Some(0..128)) => Ok(()),
            _ => put_mended(text, word),
        }
    }

    // Why these are no bytes of an item of `memory`.
    fn put_no_bytes(&self, text: &mut String) -> Result<(), AllocError> {
        let (word, expected) = (self.word, self.expected);
        if word.contains(&b' ') {
            text.push_str("wrong: a blank stands between the digits\n")?;
            write!(text, "expected: {expected}\nhint: write \"")?;
            for part in word.split(|b| *b == b' ') {
                write!(text, "{}", Shown(part))?;
            }
            return text.push_str("\"\n");
        }
        match no_hexadecimal(word) {
            _ if word.len() % 2 == 1 => {
                writeln!(
                    text,
                    "wrong: \"{}\" has an odd number of digits",
                    Shown(word)
                )?
            }
            Some(byte) => writeln!(text, "wrong: {} is no hexadecimal digit", Shown(&[byte]))?,
            None => writeln!(text, "wrong: \"{}\" is not allowed here", Shown(word))?,
        }
        writeln!(text, "expected: {expected}")
    }

    /// Writes that a value is of an allowed kind and out of its range.
    pub fn put_bad(&self, text: &mut String) -> Result<(), AllocError> {
        let (kind, given) = (self.spot.node.kind, Shown(self.word));
        match (self.sort, kind) {
            (Sort::Number, _) => return self.put_no_number(text),
            (Sort::Name, Kind::Text | Kind::Decimal) => return self.put_no_name(text),
            (Sort::Bytes, _) => return self.put_no_bytes(text),
            (_, Kind::Text) => writeln!(text, "wrong: \"{given}\" is not allowed here")?,
            (_, Kind::Object | Kind::List) => {
                writeln!(
                    text,
                    "wrong: {} like this is not allowed here",
                    kind_words(kind)
                )?
            }
            _ => writeln!(text, "wrong: {given} is not allowed here")?,
        }
        writeln!(text, "expected: {}", self.expected)?;
        // Words that may stand there are between quotation marks where they are told.
        let mut choices = Vec::new(self.sources.alloc);
        for choice in self.expected.split('"').skip(1).step_by(2) {
            choices.push(choice.as_bytes())?;
        }
        put_perhaps(self.sources.alloc, text, &choices, self.word, "\"")
    }
}
