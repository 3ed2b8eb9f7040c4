//! The lines that say which bytes the entries of a trace changed.

ghost use Rattle.std.specs.Prelude.{◌≡◌, ◌≤◌, ◌+◌, ◌++◌, length};
ghost use Rattle.std.specs.Fmt.{decimal};
ghost use Rattle.ffm_model.specs.TraceText.{hexadecimal_word, spaced};
ghost use Rattle.judge_command.specs.Audits.{change_line, change_lines, outside_word};
ghost use Rattle.outside_io.specs.Sink.{Writes};

use itoa::Buffer;
use machine_check::Change;
use outside_io::{Failed, Sink, put_all};
use trace_print::{Line, hexadecimal};

// A number in decimal.
#[tactic(auto, using(trace_print::proofs::LineLengths::decimal_long))]
fn number_word(number: u32) -> Line
    ensures word { result.items ≡ decimal number }
    ensures short { length result.items ≤ 10 }
{
    let mut word = Line::new();
    word.append(Buffer::new().format(number).as_bytes());
    word
}

// An address.
#[tactic(auto, using(crate::proofs::Audits::address_length))]
fn address_word(address: u32) -> Line
    ensures word { result.items ≡ hexadecimal_word address }
    ensures short { length result.items ≤ 10 }
{
    hexadecimal(address)
}

// The least changed address outside of the actor's own RAM, or `-`.
fn outside_word(outside: Option<u32>) -> Line
    ensures word { result.items ≡ outside_word outside }
    ensures short { length result.items ≤ 10 }
{
    match outside {
        Some(address) => address_word(address),
        None => {
            let mut word = Line::new();
            word.push(b'-');
            word
        }
    }
}

// Appends a space and a word.
fn append_word(text: &mut Line, word: &Line)
    requires room { length text.old.items ≤ 100 }
    requires short { length word.now.items ≤ 10 }
    ensures items { text.new.items ≡ text.old.items ++ spaced word.now.items }
    ensures grows { length text.new.items ≤ length text.old.items + 11 }
{
    text.push(b' ');
    text.append(word.as_slice());
}

// The line of a change: its place, the least address, how many bytes, and the least address outside of
// the actor's own RAM.
#[tactic(auto, unfolding(crate::specs::Audits::change_line))]
fn change_line(change: &Change) -> Line
    ensures { result.items ≡ change_line change.now }
{
    let mut text = number_word(change.place);
    append_word(&mut text, &address_word(change.lowest));
    append_word(&mut text, &number_word(change.count));
    append_word(&mut text, &outside_word(change.outside));
    text.push(b'\n');
    text
}

// Puts the line of a change.
fn put_change<S: Sink>(out: &mut S, change: &Change) -> Result<(), Failed>
    ensures { Writes (S.seen out.old) (S.seen out.new) result (change_line change.now) }
{
    let line = change_line(change);
    put_all(out, line.as_slice())
}

/// Puts the lines of changes, one after the other.
pub fn put_changes<S: Sink>(out: &mut S, changes: &[Change]) -> Result<(), Failed>
    ensures { Writes (S.seen out.old) (S.seen out.new) result (change_lines changes.now) }
{
    for change in changes {
        put_change(out, change)?;
    }
    Ok(())
}
