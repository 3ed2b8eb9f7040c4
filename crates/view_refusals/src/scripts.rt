//! Words for a wrong line of a script.

use crate::explain::Refused;
use crate::lines::{Form, Word, form_in, has_part, nearest_form, whole, words_of};
use crate::names::{object_with, put_earlier, put_names, put_perhaps, values_of};
use ffm_model::{Key, Operand};
use file_places::{Kind, Shown, Sources, Span, Spot, put_line, word_at};
use script_asm::operand_of;
use std::alloc::{AllocError, Global};

// Whose script it is.
#[derive(Clone, Copy, PartialEq, Eq)]
enum Actor {
    Client,
    /// A partition with a loop of its own.
    Loop,
    /// A partition whose script has a function for each service.
    Functions,
}

// First words with their operands, and the actors whose scripts have such lines.
const LINES: [(&[Actor], &[Form]); 5] = [
    (
        &[Actor::Client, Actor::Loop, Actor::Functions],
        &[
            Form("set", "R V"),
            Form("add", "R V"),
            Form("sub", "R V"),
            Form("and", "R V"),
            Form("or", "R V"),
            Form("xor", "R V"),
            Form("jmp", "L"),
            Form("jeq", "R V L"),
            Form("jne", "R V L"),
            Form("jlt", "R V L"),
            Form("framework_version", ""),
            Form("version", "SID"),
            Form("connect", "SID VERSION"),
            Form("call", "HANDLE KIND INVEC INLEN OUTVEC OUTLEN"),
            Form("close", "HANDLE"),
            Form("load", "ADDRESS SIZE"),
            Form("store", "ADDRESS SIZE VALUE"),
        ],
    ),
    (
        &[Actor::Loop, Actor::Functions],
        &[
            Form("set_rhandle", "HANDLE VALUE"),
            Form("read", "HANDLE INDEX BUFFER LEN"),
            Form("skip", "HANDLE INDEX LEN"),
            Form("write", "HANDLE INDEX BUFFER LEN"),
            Form("notify", "ID"),
            Form("panic", ""),
        ],
    ),
    (
        &[Actor::Loop],
        &[
            Form("wait", "MASK TIMEOUT"),
            Form("get", "SIGNAL MSG"),
            Form("reply", "HANDLE STATUS"),
            Form("clear", ""),
            Form("eoi", "SIGNAL"),
            Form("irq_enable", "SIGNAL"),
            Form("irq_disable", "SIGNAL"),
            Form("reset_signal", "SIGNAL"),
            Form("map_in", "HANDLE INDEX"),
            Form("unmap_in", "HANDLE INDEX"),
            Form("map_out", "HANDLE INDEX"),
            Form("unmap_out", "HANDLE INDEX LEN"),
        ],
    ),
    (&[Actor::Client, Actor::Loop], &[Form("end", "")]),
    (
        &[Actor::Functions],
        &[Form("sfn", "SERVICE"), Form("return", "V")],
    ),
];

// Names in C, and their numbers.
const NUMBERS: [Form; 12] = [
    Form("PSA_BLOCK", "0x80000000"),
    Form("PSA_POLL", "0"),
    Form("PSA_WAIT_ANY", "0xffffffff"),
    Form("PSA_DOORBELL", "8"),
    Form("PSA_SUCCESS", "0"),
    Form("PSA_NULL_HANDLE", "0"),
    Form("PSA_IPC_CONNECT", "-1"),
    Form("PSA_IPC_DISCONNECT", "-2"),
    Form("PSA_IPC_CALL", "0"),
    Form("PSA_ERROR_PROGRAMMER_ERROR", "-129"),
    Form("PSA_ERROR_CONNECTION_REFUSED", "-130"),
    Form("PSA_ERROR_CONNECTION_BUSY", "-131"),
];

// The forms of the lines that an actor's script has, or of all lines.
fn forms_of(alloc: Global, actor: Option<Actor>) -> Result<Vec<Form>, AllocError> {
    let mut forms = Vec::new(alloc);
    for (actors, of_these) in &LINES {
        let has_these = match actor {
            Some(actor) => actors.contains(&actor),
            None => true,
        };
        if has_these {
            forms.extend_from_slice(of_these)?;
        }
    }
    Ok(forms)
}

// A line without the blanks around it.
fn trimmed(line: &[u8]) -> &[u8] {
    match std::str::from_utf8(line) {
        Ok(text) => text.trim().as_bytes(),
        Err(_) => line,
    }
}

// Whether a line is the head of a function.
fn is_head(line: &[u8]) -> bool {
    trimmed(line).starts_with(b"sfn ")
}

// The label that a line is.
fn label_of(line: &[u8]) -> Option<&[u8]> {
    let name = trimmed(line).strip_suffix(b":")?;
    let is_label = !name.is_empty() && word_at(name) == name;
    if is_label { Some(name) } else { None }
}

const VALUES: &str =
    "an operand is r0 to r15, a decimal number, or 0x and one to eight hexadecimal digits";

// A script with a wrong line.
#[derive(Drop)]
struct Script<'a> {
    alloc: Global,
    sources: &'a Sources<'a>,
    actor: &'a [u8],
    kind: Actor,
    /// The partition's manifest, and its lines.
    manifest: Option<Spot<'a>>,
    items: Vec<Spot<'a>>,
    /// The wrong line, and its place, from 0.
    line: &'a [u8],
    place: usize,
}

impl<'a> Script<'a> {
    // The script of a line of the scenario.
    fn of(sources: &'a Sources<'a>, line: Spot<'a>) -> Result<Option<Script<'a>>, AllocError> {
        let alloc = sources.alloc;
        let Some(object) = line.around().and_then(|list| list.around()) else {
            return Ok(None);
        };
        let actor = object.value(Key::Actor);
        let manifest = object_with(&sources.manifests()?, Key::Name, actor);
        let kind = match manifest {
            None => Actor::Client,
            Some(manifest)
                if matches!(manifest.value(Key::PsaFrameworkVersion), b"1.1")
                    && matches!(manifest.value(Key::Model), b"SFN") => { Actor::Functions }
            Some(_) => Actor::Loop,
        };
        let (items, place) = (object.items(alloc, Key::Lines)?, line.node.index);
        let line = line.text();
        Ok(Some(Script {
            alloc,
            sources,
            actor,
            kind,
            manifest,
            items,
            line,
            place,
        }))
    }

    // The labels to which the wrong line may jump: in a script with functions, those of its own.
    fn labels(&self) -> Result<Vec<&'a [u8]>, AllocError> {
        let mut labels = Vec::new(self.alloc);
        for (i, item) in self.items.iter().enumerate() {
            let line = item.text();
            if is_head(line) && i <= self.place {
                labels.clear();
            } else if is_head(line) {
                return Ok(labels);
            } else if let Some(label) = label_of(line) {
                labels.push(label)?;
            }
        }
        Ok(labels)
    }

    // Writes what is wrong with a label, or with a colon, if something is.
    fn put_label(&self, text: &mut String, words: &[Word<'_>]) -> Result<Option<Span>, AllocError> {
        let (first, label) = match words {
            [first] => (first, label_of(first.text)),
            [first, colon] if matches!(colon.text, b":") => {
                let name = Shown(first.text);
                text.push_str("a blank stands before the colon of a label\n")?;
                writeln!(text, "hint: write {name}:")?;
                let (from, to) = (first.from, colon.span().to);
                return Ok(Some(Span { from, to }));
            }
            [first, ..] if first.text.ends_with(b":") => {
                text.push_str(
                    "a label stands in a line of its own\nhint: write what follows it into a line of its own\n",
                )?;
                return Ok(Some(first.span()));
            }
            _ => return Ok(None),
        };
        let earlier = self
            .items
            .iter()
            .position(|item| label_of(item.text()) == label);
        match (label, earlier) {
            (Some(label), Some(earlier)) if earlier < self.place => {
                let number = earlier.saturating_add(1);
                writeln!(text, "line {number} has the label {}, too", Shown(label))?;
                if let Some(item) = self.items.get(earlier) {
                    put_earlier(text, *item)?;
                }
                Ok(Some(first.span()))
            }
            _ => Ok(None),
        }
    }

    // Writes that no line of this script has a first word.
    fn put_no_form(&self, text: &mut String, word: &[u8]) -> Result<(), AllocError> {
        let all = forms_of(self.alloc, None)?;
        let given = Shown(word);
        match self.kind {
            _ if form_in(&all, word).is_none() => {
                writeln!(text, "no line begins with {given}")?;
                match nearest_form(self.alloc, &all, word_at(word))? {
                    Some(form) => writeln!(text, "hint: perhaps {form}"),
                    None => Ok(()),
                }
            }
            Actor::Client => writeln!(
                text,
                "a client may not call `{given}`\nexpected: framework_version, version, connect, call, close, load, store or end"
            ),
            Actor::Functions if matches!(word, b"end") => {
                text.push_str("a function may not call `end`\nhint: a function ends by return V\n")
            }
            Actor::Functions => writeln!(
                text,
                "a function may not call `{given}`\nhint: the round of an SFN partition waits, gets and replies by itself"
            ),
            Actor::Loop => writeln!(
                text,
                "no line begins with {given}\nhint: functions are for a manifest of 1.1 with `model` SFN"
            ),
        }
    }

    fn put_no_service(&self, text: &mut String, word: &[u8]) -> Result<(), AllocError> {
        let services = match self.manifest {
            Some(manifest) => manifest.items(self.alloc, Key::Services)?,
            None => Vec::new(self.alloc),
        };
        let names = values_of(self.alloc, &services, Key::Name)?;
        if names.contains(&word) {
            return writeln!(text, "a function of {} stands above it", Shown(word));
        }
        writeln!(text, "the partition has no service {}", Shown(word))?;
        put_names(text, &names, "")?;
        put_perhaps(self.alloc, text, &names, word, "")
    }

    // Writes a hint for a word that is no value: the number that it names.
    fn put_value_hint(&self, text: &mut String, word: &[u8]) -> Result<(), AllocError> {
        if let Some(Form(_, number)) = form_in(&NUMBERS, word) {
            return writeln!(text, "hint: write {number}");
        }
        let services = self.sources.items_of_manifests(Key::Services)?;
        if let Some(service) = object_with(&services, Key::Name, word) {
            let sid = Shown(service.value(Key::Sid));
            return writeln!(text, "hint: the SID of {} is {sid}", Shown(word));
        }
        text.push_str(match word {
            b"-0" => "hint: write 0\n",
            [b'A'..=b'Z' | b'a'..=b'q' | b's'..=b'z', ..] => {
                "hint: a script knows no names: write the number itself\n"
            }
            _ => "",
        })
    }

    // Writes what is wrong with an operand, and whether something is.
    fn put_operand(
        &self,
        text: &mut String,
        form: Form,
        name: &str,
        word: &[u8],
    ) -> Result<bool, AllocError> {
        let is_function = self.kind == Actor::Functions;
        let last = if is_function { 13 } else { 15 };
        let given = Shown(word);
        match (name, operand_of(word)) {
            ("L", _) => {
                let labels = self.labels()?;
                if labels.contains(&word) {
                    return Ok(false);
                }
                writeln!(text, "no label is named {given}")?;
                put_names(text, &labels, "")?;
                put_perhaps(self.alloc, text, &labels, word, "")?;
            }
            (_, Some(Operand::Register(number))) if number <= last => return Ok(false),
            ("R", _) => {
                writeln!(text, "{given} is no register")?;
                writeln!(text, "expected: {form}; R is r0 to r{last}")?;
            }
            (_, Some(Operand::Number(_))) => return Ok(false),
            _ => {
                let name = if name == "V" { "the value" } else { name };
                writeln!(text, "{name} is {given}, which is no value")?;
                writeln!(text, "expected: {form}; {VALUES}")?;
                self.put_value_hint(text, word)?;
            }
        }
        Ok(true)
    }

    // Writes what is wrong with what stands behind a first word, and says which word it is.
    fn put_operands(
        &self,
        text: &mut String,
        form: Form,
        first: Word<'_>,
        operands: &[Word<'_>],
    ) -> Result<Option<Span>, AllocError> {
        let stray = operands.iter().find(|word| word.text.starts_with(b"#")
            || word.text.contains(&b','));
        if let Some(word) = stray {
            if word.text.starts_with(b"#") {
                text.push_str(
                    "a comment stands behind a call\nhint: put it in a line of its own, above\n",
                )?;
            } else {
                writeln!(text, "a comma stands in {}", Shown(word.text))?;
                writeln!(
                    text,
                    "expected: {form}\nhint: write blanks alone between words"
                )?;
            }
            return Ok(Some(word.span()));
        }
        let (wanted, count) = (form.1.split_ascii_whitespace().count(), operands.len());
        if wanted != count {
            let word = form.0;
            writeln!(text, "`{word}` has {wanted} operands, and here are {count}")?;
            writeln!(text, "expected: {form}")?;
            return Ok(Some(first.span()));
        }
        for (name, word) in form.1.split_ascii_whitespace().zip(operands.iter()) {
            if self.put_operand(text, form, name, word.text)? {
                return Ok(Some(word.span()));
            }
        }
        Ok(None)
    }

    // Writes what is wrong with a line of a call, an operation or a jump, if something is.
    fn put_call(&self, text: &mut String, words: &[Word<'_>]) -> Result<Option<Span>, AllocError> {
        let Some((first, operands)) = words.split_first() else {
            return Ok(None);
        };
        let forms = forms_of(self.alloc, Some(self.kind))?;
        match (form_in(&forms, first.text), operands) {
            (None, _) => {
                self.put_no_form(text, first.text)?;
                Ok(Some(first.span()))
            }
            (Some(Form("sfn", _)), [service]) => {
                self.put_no_service(text, service.text)?;
                Ok(Some(service.span()))
            }
            (Some(form), _) => self.put_operands(text, form, *first, operands),
        }
    }

    // Writes why the line is wrong, and says which part of it is.
    fn put_reason(&self, text: &mut String) -> Result<Span, AllocError> {
        let begun = self.place.saturating_add(1);
        let words = words_of(self.alloc, self.line)?;
        if has_part(self.line, b"\\r") {
            text.push_str("a carriage return stands in it\nhint: take \\r out\n")?;
        } else if has_part(self.line, b"\\n") {
            text.push_str(
                "a line feed stands in it\nhint: put each line between quotation marks of its own, with commas between them\n",
            )?;
        } else if self.kind == Actor::Functions
            && !self
                .items
                .iter()
                .take(begun)
                .any(|item| is_head(item.text()))
        {
            writeln!(
                text,
                "no function begins above it\nexpected: sfn SERVICE, and below it the lines of its function\nhint: {} is an SFN partition: its script has a function for each service, and no loop",
                Shown(self.actor)
            )?;
        } else if let Some(span) = self.put_label(text, &words)? {
            return Ok(span);
        } else if let Some(span) = self.put_call(text, &words)? {
            return Ok(span);
        } else {
            text.push_str("it is no line of this script\n")?;
        }
        Ok(whole(self.line))
    }
}

impl Refused<'_> {
    /// Writes a wrong line of a script with carets below the word that is wrong, and why it is.
    pub fn put_wrong_line(&self, text: &mut String) -> Result<(), AllocError> {
        let Some(script) = Script::of(self.sources, self.spot)? else {
            return Ok(());
        };
        let (node, bytes) = (self.spot.node, self.spot.source.bytes);
        let mut words = String::new(self.sources.alloc);
        let part = script.put_reason(&mut words)?;
        // Below the whole text where that has an escape.
        let is_plain = node.kind == Kind::Text && !script.line.contains(&b'\\');
        let first = node.span.from.saturating_add(1);
        let place = if is_plain {
            part.behind(first)
        } else {
            node.span
        };
        put_line(text, bytes, place)?;
        let (number, actor) = (script.place.saturating_add(1), Shown(script.actor));
        write!(text, "wrong: line {number} of {actor}: {words}")
    }
}
