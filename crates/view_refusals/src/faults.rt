//! Words for a text that is no JSON.

use file_places::{
    Cause, Fault, FileRead, Shown, Span, front_of, is_blank, put_line, put_place, rest_of, word_at,
};
use std::alloc::AllocError;

// The bytes before a place, without the blanks at their end.
fn text_before(bytes: &[u8], at: usize) -> &[u8] {
    let front = front_of(bytes, at);
    let blanks = front.iter().rev().take_while(|b| is_blank(**b)).count();
    front_of(front, front.len().saturating_sub(blanks))
}

// How much is wrong at a fault.
fn span_of(bytes: &[u8], fault: Fault) -> Span {
    let rest = rest_of(bytes, fault.at);
    let len = match fault.cause {
        Cause::Ends => {
            let to = text_before(bytes, fault.at).len();
            let from = to.saturating_sub(1);
            return Span { from, to };
        }
        Cause::Control => {
            let front = front_of(bytes, fault.at).iter().rev();
            let len = front.take_while(|b| **b != b'"').count();
            let from = fault.at.saturating_sub(len.saturating_add(1));
            return Span { from, to: fault.at };
        }
        Cause::NoEscape => 2,
        Cause::HalfOfPair => 6,
        Cause::NoComma if rest.starts_with(b"\"") => {
            let inner = rest_of(rest, 1).iter();
            let len = inner.take_while(|b| !matches!(**b, b'"' | b'\n')).count();
            len.saturating_add(2)
        }
        Cause::NoNumber => rest
            .iter()
            .take_while(|b| !is_blank(**b) && !matches!(**b, b',' | b'}' | b']'))
            .count(),
        _ => word_at(rest).len(),
    };
    Span::of(fault.at, len.max(1))
}

// No value begins here.
fn put_no_value(text: &mut String, file: FileRead<'_>, fault: Fault) -> Result<(), AllocError> {
    let word = word_at(rest_of(file.bytes, fault.at));
    if word.is_empty() {
        return text.push_str(
            "wrong: no value of JSON begins here\nexpected: a text, a number, true, false, null, { or [\n",
        );
    }
    writeln!(text, "wrong: {} is no value of JSON", Shown(word))?;
    // A file of YAML begins with a name and a colon.
    let is_named = file.name.ends_with(".yaml") || file.name.ends_with(".yml");
    if fault.at == 0 && (is_named || rest_of(file.bytes, word.len()).starts_with(b":")) {
        text.push_str("hint: this looks like YAML, which isn't read: convert the file to JSON\n")
    } else if word.eq_ignore_ascii_case(b"true") {
        text.push_str("hint: write true\n")
    } else if word.eq_ignore_ascii_case(b"false") {
        text.push_str("hint: write false\n")
    } else {
        writeln!(text, "hint: write \"{}\"", Shown(word))
    }
}

// Which bytes may close what is open, or go on in it.
fn closing_words(bytes: &[u8], fault: Fault) -> &'static str {
    match fault.open {
        Some(open) if rest_of(bytes, open).starts_with(b"{") => "expected: , or }\n",
        Some(_) => "expected: , or ]\n",
        None => "",
    }
}

// The text ends where something is open.
fn put_end(text: &mut String, file: FileRead<'_>, fault: Fault) -> Result<(), AllocError> {
    let Some(open) = fault.open else {
        return text.push_str("wrong: the file ends here\nexpected: a value of JSON\n");
    };
    let bracket = Shown(Span::of(open, 1).part(file.bytes));
    write!(text, "wrong: the file ends here, before the {bracket} at ")?;
    put_place(text, file.name, file.bytes, open)?;
    text.push_str(" is closed\n")?;
    match text_before(file.bytes, fault.at).last() {
        Some(b',' | b':' | b'{' | b'[') => Ok(()),
        _ => text.push_str(closing_words(file.bytes, fault)),
    }
}

// Words for a fault of which no more is told than its cause.
fn cause_words(cause: Cause) -> &'static str {
    match cause {
        Cause::NoColon => "wrong: a colon stands between a name and its value\nexpected: :\n",
        Cause::CommaLast => {
            "wrong: a comma stands before this bracket, and no item follows it\nhint: take the comma out\n"
        }
        Cause::More => {
            "wrong: the file's value has ended before this\nhint: a file has one object\n"
        }
        Cause::Control =>
            "wrong: this text has no end in its line\nhint: end it with \" in this line\n",
        Cause::HalfOfPair => "wrong: this is half of a pair of escapes\n",
        Cause::NoNumber => {
            "wrong: this is no number of JSON\nhint: a number has no + and no 0 before it, and digits on both sides of its dot\n"
        }
        Cause::TooDeep => "wrong: more than 127 lists and objects stand in each other\n",
        _ => "wrong: the file is no JSON\n",
    }
}

// Writes that a text stands between other marks: its end is in its line, and it has none of those that it lacks.
fn put_single_quoted(text: &mut String, inner: &[u8]) -> Result<(), AllocError> {
    text.push_str("wrong: a text stands between double quotation marks\n")?;
    match inner
        .iter()
        .position(|b| matches!(*b, b'\'' | b'\n' | b'"'))
    {
        Some(len) if rest_of(inner, len).starts_with(b"'") => {
            writeln!(text, "hint: write \"{}\"", Shown(front_of(inner, len)))
        }
        _ => Ok(()),
    }
}

// Why the text is no JSON.
fn put_cause(text: &mut String, file: FileRead<'_>, fault: Fault) -> Result<(), AllocError> {
    let rest = rest_of(file.bytes, fault.at);
    let word = word_at(rest);
    match (fault.cause, rest) {
        (Cause::NotUtf8, _) => {
            let byte = rest.first().copied().unwrap_or(0);
            writeln!(text, "wrong: the byte {byte:#04x} is no UTF-8")?;
            text.push_str("hint: save the file as UTF-8\n")
        }
        (_, [b'#', ..] | [b'/', b'/' | b'*', ..]) => text.push_str(
            "wrong: JSON has no comments\nhint: take it out; an attribute \"description\" passes unread\n",
        ),
        (_, [b'\'', inner @ ..]) => put_single_quoted(text, inner),
        (Cause::NoValue, _) => put_no_value(text, file, fault),
        (Cause::NoName, _) => {
            text.push_str("wrong: an attribute's name stands between double quotation marks\n")?;
            if word.is_empty() {
                return Ok(());
            }
            writeln!(text, "hint: write \"{}\"", Shown(word))
        }
        (Cause::NoComma, [b'x' | b'X', ..]) if front_of(file.bytes, fault.at).ends_with(b"0") => {
            let digits = Shown(rest_of(word, 1));
            text.push_str("wrong: a number of JSON is decimal\n")?;
            writeln!(text, "hint: write \"0x{digits}\"")
        }
        (Cause::NoComma, _) => {
            text.push_str("wrong: a comma is missing before this\n")?;
            text.push_str(closing_words(file.bytes, fault))
        }
        (Cause::Ends, _) => put_end(text, file, fault),
        (Cause::NoEscape, _) => {
            let escape = Span::of(0, 2).part(rest);
            writeln!(text, "wrong: {} is no escape in a text", Shown(escape))?;
            text.push_str(if matches!(escape, b"\\u") {
                "hint: four hexadecimal digits stand behind \\u; a backslash is \\\\\n"
            } else {
                "hint: write / between the parts of a file name, or \\\\ for a backslash\n"
            })
        }
        (cause, _) => text.push_str(cause_words(cause)),
    }
}

// What is to be said of a whole file, before its text is looked at.
fn whole_file(bytes: &[u8]) -> Option<&'static str> {
    match bytes {
        [0xff, 0xfe, ..] | [0xfe, 0xff, ..] => {
            Some("wrong: the file is UTF-16\nhint: save it as UTF-8\n")
        }
        [0xef, 0xbb, 0xbf, ..] => Some(
            "wrong: the file begins with a byte order mark\nhint: save it as UTF-8 without a byte order mark\n",
        ),
        _ if text_before(bytes, bytes.len()).is_empty() => {
            Some("wrong: the file is empty\nexpected: an object, between { and }\n")
        }
        _ => None,
    }
}

/// Writes the place where a file stops being JSON, and why.
pub fn put_fault(text: &mut String, file: FileRead<'_>, fault: Fault) -> Result<(), AllocError> {
    let words = whole_file(file.bytes);
    let span = match words {
        Some(_) => Span::of(0, 0),
        None => span_of(file.bytes, fault),
    };
    text.push_str("--> ")?;
    put_place(text, file.name, file.bytes, span.from)?;
    text.push('\n')?;
    let Some(words) = words else {
        put_line(text, file.bytes, span)?;
        return put_cause(text, file, fault);
    };
    text.push_str(words)
}
