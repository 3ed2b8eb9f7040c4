//! Words for a text that is no trace.

use crate::lines::{Form, Word, form_in, has_part, nearest_form, whole, words_of};
use ffm_model::{Counts, MAX_ENTRIES};
use file_places::{FileRead, Shown, Span, number_of, put_line, word_at};
use std::alloc::{AllocError, Global};

// Calls and outcomes with the letters of their operands.
const CALLS: [Form; 25] = [
    Form("framework_version", ""),
    Form("version", "h"),
    Form("connect", "h u"),
    Form("call", "d d h u h u"),
    Form("close", "d"),
    Form("wait", "h h"),
    Form("get", "h h"),
    Form("set_rhandle", "d h"),
    Form("read", "d u h u"),
    Form("skip", "d u u"),
    Form("write", "d u h u"),
    Form("reply", "d d"),
    Form("notify", "d"),
    Form("clear", ""),
    Form("eoi", "h"),
    Form("irq_enable", "h"),
    Form("irq_disable", "h"),
    Form("reset_signal", "h"),
    Form("panic", ""),
    Form("load", "h u"),
    Form("store", "h u h"),
    Form("raise", "u"),
    Form("fire", "u u"),
    Form("stop", "w"),
    Form("resume", ""),
];

const OUTCOMES: [Form; 7] = [
    Form("value", "d"),
    Form("number", "u"),
    Form("signals", "h"),
    Form("blocked", ""),
    Form("done", ""),
    Form("panicked", ""),
    Form("message", "d d d h u u u u u u u u"),
];

// What each letter means.
const LETTERS: [(&str, &str); 4] = [
    ("h", "; h is 0x and eight digits, with small letters"),
    ("u", "; u is decimal, up to 4294967295"),
    ("d", "; d is decimal, perhaps with - before it"),
    ("w", "; w is end or spent"),
];

// The number that decimal digits spell, of which the first of several is no 0.
fn decimal(digits: &[u8]) -> Option<u32> {
    if digits.len() > 1 && digits.starts_with(b"0") {
        return None;
    }
    number_of(digits)
}

// Whether a word is an operand of this letter.
fn is_operand(letter: &str, word: &[u8]) -> bool {
    match letter {
        "h" => {
            word.len() == 10
                && word.starts_with(b"0x")
                && number_of(word).is_some()
                && !word.iter().any(|b| b.is_ascii_uppercase())
        }
        "u" => decimal(word).is_some(),
        "d" => match word.strip_prefix(b"-") {
            Some(digits) => matches!(decimal(digits), Some(1..=2147483648)),
            None => matches!(decimal(word), Some(0..=2147483647)),
        },
        _ => matches!(word, b"end" | b"spent"),
    }
}

// Whether the system has the actor of this word.
fn is_actor(counts: Counts, word: &[u8]) -> bool {
    let (digits, most) = match word.split_first() {
        Some((b'p', digits)) => (digits, counts.partitions),
        Some((b'n', digits)) => (digits, counts.clients),
        _ => return counts.device && matches!(word, b"dev"),
    };
    let number = decimal(digits).unwrap_or(0);
    1 <= number && number <= u32::from(most)
}

// Writes what is wrong with the operands of a call or an outcome, if something is.
fn put_operands(
    text: &mut String,
    form: Form,
    head: Word<'_>,
    operands: &[Word<'_>],
) -> Result<Option<Span>, AllocError> {
    let (wanted, count) = (form.1.split_ascii_whitespace().count(), operands.len());
    let mut pairs = form.1.split_ascii_whitespace().zip(operands.iter());
    let span = match pairs.find(|(letter, word)| !is_operand(letter, word.text)) {
        Some((_, word)) => {
            writeln!(text, "{} is no operand of {}", Shown(word.text), form.0)?;
            word.span()
        }
        None if count == wanted => return Ok(None),
        None => {
            let word = form.0;
            writeln!(text, "{word} has {wanted} operands, and here are {count}")?;
            head.span()
        }
    };
    write!(text, "expected: {form}")?;
    for (letter, words) in &LETTERS {
        if form.1.contains(*letter) {
            text.push_str(words)?;
        }
    }
    text.push('\n')?;
    Ok(Some(span))
}

// Writes what is wrong with a call and the words behind its arrow, if something is.
fn put_step(
    alloc: Global,
    text: &mut String,
    call: &[Word<'_>],
    outcome: &[Word<'_>],
) -> Result<Option<Span>, AllocError> {
    let (Some((call, operands)), Some((outcome, values))) = (
        call.split_first(),
        outcome.split_first(),
    ) else {
        return Ok(None);
    };
    let Some(form) = form_in(&CALLS, call.text) else {
        writeln!(text, "no call is named {}", Shown(call.text))?;
        if let Some(Form(word, _)) = nearest_form(alloc, &CALLS, call.text)? {
            writeln!(text, "hint: perhaps {word}")?;
        }
        return Ok(Some(call.span()));
    };
    if let Some(span) = put_operands(text, form, *call, operands)? {
        return Ok(Some(span));
    }
    if let Some(form) = form_in(&OUTCOMES, outcome.text) {
        return put_operands(text, form, *outcome, values);
    }
    writeln!(
        text,
        "no outcome is {}\nexpected: value d, number u, signals h, blocked, done, panicked or message",
        Shown(outcome.text)
    )?;
    Ok(Some(outcome.span()))
}

// Writes what is wrong with a line of an entry, if something is.
fn put_entry(
    alloc: Global,
    text: &mut String,
    counts: Counts,
    line: &[u8],
) -> Result<Option<Span>, AllocError> {
    let words = words_of(alloc, line)?;
    let Some((actor, rest)) = words.split_first() else {
        return Ok(None);
    };
    if !is_actor(counts, actor.text) {
        let (partitions, clients) = (counts.partitions, counts.clients);
        writeln!(text, "the system has no actor {}", Shown(actor.text))?;
        write!(text, "expected: p1 to p{partitions}")?;
        if clients > 0 {
            write!(text, ", n1 to n{clients}")?;
        }
        text.push_str(if counts.device { " or dev\n" } else { "\n" })?;
        return Ok(Some(actor.span()));
    }
    let arrow = rest.iter().position(|word| matches!(word.text, b"->"));
    let (call, outcome) = rest.split_at(arrow.unwrap_or(rest.len()));
    if call.is_empty() || outcome.len() < 2 {
        text.push_str("this line has no outcome\nexpected: -> and the outcome behind the call\n")?;
        return Ok(Some(whole(line)));
    }
    put_step(alloc, text, call, &outcome[1..])
}

// A wrong blank or line end.
fn blank_words(line: &[u8]) -> Option<&'static str> {
    let words = match line {
        [.., b'\r'] => {
            "a carriage return ends this line\nhint: end each line by a line feed alone, as tr -d '\\r' does"
        }
        [.., b' '] => "a blank ends this line",
        [b' ', ..] => "a blank begins this line",
        _ if has_part(line, b"  ") => "two blanks stand between words",
        _ if line.contains(&b'\t') => "a tab stands in this line",
        [] => "this line is empty",
        _ => return None,
    };
    Some(words)
}

// A line of a trace.
#[derive(Clone, Copy)]
struct Line<'a> {
    /// Where it begins in the file.
    from: usize,
    text: &'a [u8],
    /// Whether a line feed ends it.
    ended: bool,
}

// The line of this number, from 1; an empty one at the end where there is none.
fn line_at(bytes: &[u8], number: u32) -> Line<'_> {
    let mut from: usize = 0;
    let mut left = number;
    for text in bytes.split(|b| *b == b'\n') {
        left = left.saturating_sub(1);
        let to = from.saturating_add(text.len());
        if left == 0 {
            let ended = to < bytes.len();
            return Line { from, text, ended };
        }
        from = to.saturating_add(1);
    }
    Line {
        from: bytes.len(),
        text: &[],
        ended: false,
    }
}

// Writes what is wrong with a line, and says which part of it is.
fn put_reason(
    alloc: Global,
    text: &mut String,
    counts: Counts,
    number: u32,
    line: Line<'_>,
) -> Result<Span, AllocError> {
    let first = word_at(line.text);
    if !line.ended {
        text.push_str("the last line has no line feed\n")?;
    } else if let Some(words) = blank_words(line.text) {
        writeln!(text, "{words}")?;
    } else if matches!(first, b"quiet" | b"stalled" | b"full") {
        let (verdict, entries) = (Shown(first), number.saturating_sub(1));
        text.push_str("the verdict has another number than that of the entries before it\n")?;
        writeln!(text, "expected: {verdict} {entries}")?;
    } else if let Some(span) = put_entry(alloc, text, counts, line.text)? {
        return Ok(span);
    } else if number > MAX_ENTRIES {
        text.push_str("a trace has at most 262144 entries\n")?;
    } else {
        text.push_str("this line can't stand here: a verdict stands above it\n")?;
    }
    Ok(whole(line.text))
}

/// The first wrong line of a text that is no trace, counted from 1, and what is wrong with it.
pub fn wrong_trace_words(
    alloc: Global,
    counts: Counts,
    number: u32,
    file: FileRead<'_>,
) -> Result<String, AllocError> {
    let line = line_at(file.bytes, number);
    let mut text = format!(in alloc; "--> {}:{number}:1\n", file.name)?;
    if line.text.is_empty() && !line.ended {
        let entries = number.saturating_sub(1);
        text.push_str("wrong: the text ends here, without a verdict\n")?;
        write!(text, "expected: quiet {entries}, stalled {entries}")?;
        writeln!(text, " or full {entries}")?;
        return Ok(text);
    }
    let mut words = String::new(alloc);
    let span = put_reason(alloc, &mut words, counts, number, line)?;
    put_line(&mut text, file.bytes, span.behind(line.from))?;
    write!(text, "wrong: {words}")?;
    Ok(text)
}

/// The line of a trace that is the first illegal one, counted from 1.
pub fn illegal_words(alloc: Global, number: u32, file: FileRead<'_>) -> Result<String, AllocError> {
    let line = line_at(file.bytes, number);
    let actor = Span::of(line.from, word_at(line.text).len());
    let mut text = format!(in alloc; "--> {}:{number}:1\n", file.name)?;
    put_line(&mut text, file.bytes, actor)?;
    text.push_str("hint: ffm_view why says which rule this line breaks\n")?;
    Ok(text)
}
