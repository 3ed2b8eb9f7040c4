//! The text that says where the scripts of a scenario stand.
ghost use Rattle.std.specs.Prelude.{◌≡◌, ◌<◌, ◌^◌, ◌==◌, ◌++◌, OnOk, codes, if◌then◌else◌, length, option_map};
ghost use Rattle.std.specs.List.{enumerate_from, flat_map, list_all};
ghost use Rattle.view_scripts.specs.ScriptsText.{call_text, context_text, end_word, heading, label_text, line_text, mark_word, register_text, registers_text, row_text, rows_text, scripts_text, spent_text, told_text, value_text};
ghost use Rattle.text_lines.specs.Words.{word_text};

use crate::rows::{NumberedContext, ScriptRow, Told};
use crate::standing::End;
use ffm_model::{Call, System};
use std::alloc::AllocError;
use text_lines::{Word, append, append_words};
use view_texts::{actor_name, actor_width, call_name, pad, put_left};

// ---- registers

// A register's value: in decimal below 65536, and else as an address.
fn value_word(value: u32) -> Word<'static>
    ensures { word_text result ≡ value_text value }
{
    if value < 65536 {
        Word::Number(value)
    } else {
        Word::Hexadecimal(value)
    }
}

// Appends a register that isn't 0.
fn put_register(text: &mut Vec<u8>, register: u32, value: u32) -> Result<(), AllocError>
    ensures { OnOk result (text.new.items ≡ text.old.items ++ register_text (register, value)) }
{
    if value == 0 {
        return Ok(());
    }
    append_words(
        text,
        &[
            Word::Text("  r"),
            Word::Number(register),
            Word::Text(" "),
            value_word(value),
        ],
    )
}

fn put_some_registers(text: &mut Vec<u8>, registers: &[u32]) -> Result<(), AllocError>
    requires { length registers.now ≡ 16 }
    ensures { OnOk result (text.new.items
        ≡ text.old.items ++ flat_map register_text (enumerate_from 0 registers.now)) }
{
    for (register, value) in registers.iter().enumerate() {
        put_register(text, register as u32, *value)?;
    }
    Ok(())
}

fn are_zero(registers: &[u32]) -> bool
    ensures { result ≡ list_all (λ value. value == 0) registers.now }
{
    registers.iter().all(|value| *value == 0)
}

// Appends the registers that aren't 0.
#[tactic(auto, unfolding(crate::specs::ScriptsText::registers_text))]
fn put_registers(text: &mut Vec<u8>, registers: &[u32]) -> Result<(), AllocError>
    requires { length registers.now ≡ 16 }
    ensures { OnOk result (text.new.items ≡ text.old.items ++ registers_text registers.now) }
{
    if are_zero(registers) {
        return append(text, "  -");
    }
    put_some_registers(text, registers)
}

// ---- what is told

fn spent_word(is_spent: bool) -> &'static str
    ensures { result.now ≡ spent_text is_spent }
{
    if is_spent {
        "  its local lines are spent"
    } else {
        ""
    }
}

// Appends a line with its number and the registers.
#[tactic(auto, unfolding(crate::specs::ScriptsText::line_text))]
fn put_line(
    text: &mut Vec<u8>,
    number: u32,
    line: &str,
    registers: &[u32; 16],
    is_spent: bool,
) -> Result<(), AllocError>
    ensures { OnOk result (text.new.items
        ≡ text.old.items ++ line_text number line.now registers.now is_spent) }
{
    append(text, "line ")?;
    put_left(text, Word::Number(number), 4)?;
    put_left(text, Word::Text(line), 44)?;
    put_registers(text, registers)?;
    append(text, spent_word(is_spent))
}

#[tactic(auto, unfolding(crate::specs::ScriptsText::call_text))]
fn put_call(text: &mut Vec<u8>, call: Call, registers: &[u32; 16]) -> Result<(), AllocError>
    ensures { OnOk result (text.new.items ≡ text.old.items ++ call_text call registers.now) }
{
    append(text, "calls ")?;
    put_left(text, Word::Text(call_name(call)), 47)?;
    put_registers(text, registers)
}

/// How an actor ended, in a word.
pub fn end_word(end: End) -> &'static str
    ensures { result.now ≡ end_word end }
{
    match end {
        End::Stopped => "ended",
        End::Spent => "ended, its local lines spent",
        End::Panicked => "panicked",
    }
}

fn put_told(text: &mut Vec<u8>, told: &Told) -> Result<(), AllocError>
    ensures { OnOk result (text.new.items ≡ text.old.items ++ told_text told.now) }
{
    match told {
        Told::Line {
            number,
            text: line,
            registers,
            is_spent,
        } => put_line(text, *number, line.as_str(), registers, *is_spent),
        Told::Call { call, registers } => put_call(text, *call, registers),
        Told::Ended(end) => append(text, end_word(*end)),
        Told::Left(place) => append_words(
            text,
            &[
                Word::Text("left its script at entry "),
                Word::Number(*place),
            ],
        ),
    }
}

// ---- rows

// Appends the number of a context behind its client's name.
fn put_context(text: &mut Vec<u8>, context: Option<NumberedContext>) -> Result<(), AllocError>
    ensures { OnOk result (text.new.items ≡ text.old.items ++ context_text context) }
{
    match context {
        Some(context) => append_words(text, &[Word::Text("."), Word::Number(context.number)]),
        None => Ok(()),
    }
}

// A context that calls next has a mark.
fn mark(context: Option<NumberedContext>) -> &'static str
    ensures { result.now ≡ mark_word context }
{
    match context {
        Some(NumberedContext { is_next: true, .. }) => "> ",
        _ => "  ",
    }
}

// Appends an actor's name, with the number of a context where one is given.
#[tactic(auto, unfolding(crate::specs::ScriptsText::label_text, view_texts::specs::Columns::left))]
fn put_label(
    text: &mut Vec<u8>,
    system: &System,
    actor: u32,
    context: Option<NumberedContext>,
) -> Result<(), AllocError>
    ensures { OnOk result (text.new.items
        ≡ text.old.items ++ label_text system.now actor context) }
{
    let Some(width) = actor_width(system).checked_add(4) else {
        return Err(AllocError);
    };
    append(text, mark(context))?;
    let start = text.len();
    append(text, actor_name(system, actor))?;
    put_context(text, context)?;
    pad(text, start, width)
}

#[tactic(auto, unfolding(crate::specs::ScriptsText::row_text))]
fn put_row(text: &mut Vec<u8>, system: &System, row: &ScriptRow) -> Result<(), AllocError>
    ensures { OnOk result (text.new.items ≡ text.old.items ++ row_text system.now row.now) }
{
    put_label(text, system, row.actor, row.context)?;
    put_told(text, &row.told)?;
    append(text, "\n")
}

fn put_rows(text: &mut Vec<u8>, system: &System, rows: &[ScriptRow]) -> Result<(), AllocError>
    ensures { OnOk result (text.new.items
        ≡ text.old.items ++ flat_map (row_text system.now) rows.now) }
{
    for row in rows {
        put_row(text, system, row)?;
    }
    Ok(())
}

#[tactic(auto, unfolding(crate::specs::ScriptsText::heading))]
fn heading() -> &'static str
    ensures { result.now ≡ heading }
{
    "scripts, each with what it calls next and its registers that aren't 0\n"
}

// Appends rows under their heading.
#[tactic(auto, unfolding(crate::specs::ScriptsText::rows_text))]
fn put_section(text: &mut Vec<u8>, system: &System, rows: &[ScriptRow]) -> Result<(), AllocError>
    ensures { OnOk result (text.new.items ≡ text.old.items ++ rows_text system.now rows.now) }
{
    append(text, heading())?;
    put_rows(text, system, rows)
}

/// Appends the text of where scripts stand; nothing where there are no rows to be told.
pub fn put_scripts(
    text: &mut Vec<u8>,
    system: &System,
    rows: Option<&[ScriptRow]>,
) -> Result<(), AllocError>
    ensures { OnOk result (text.new.items ≡ text.old.items
        ++ scripts_text system.now (option_map (λ rows. rows.now) rows.entry)) }
{
    match rows {
        Some(rows) => put_section(text, system, rows),
        None => Ok(()),
    }
}
