//! A scenario's file with an order of turns as its schedule.
ghost use Rattle.std.specs.Prelude.{◌≡◌, ◌++◌, IfOk, OnOk, codes, option_map};
ghost use Rattle.std.specs.List.{flat_map};
ghost use Rattle.explore_commands.specs.Rescheduling.{before_schedule, bytes_kept, front_of, is_opened, named, names_text, rescheduled};

use ffm_model::{ActorId, Memory, System};
use file_places::KeptFile;
use std::alloc::{AllocError, Global};
use text_lines::{Word, append, append_words};
use view_texts::actor_name;

/// What was read of the file of this name.
pub(crate) fn bytes_kept<'a>(kept: &'a [KeptFile], name: &str) -> Option<&'a [u8]>
    ensures { option_map (λ b. b.now) result ≡ bytes_kept kept.entry.now name.now }
{
    let file = kept.iter().find(|file| file.name.as_str() == name)?;
    Some(file.bytes.as_slice())
}

// A file up to the last thing before the bracket that ends it.
fn front_of(bytes: &[u8]) -> &[u8]
    ensures { result.now ≡ front_of bytes.now }
{
    let whole = bytes.trim_ascii_end();
    let inner = &whole[..whole.len().saturating_sub(1)];
    inner.trim_ascii_end()
}

// Whether no attribute stands there.
fn is_opened(front: &[u8]) -> bool
    ensures { result ≡ is_opened front.now }
{
    match front.last() {
        Some(byte) => *byte == b'{',
        None => false,
    }
}

// What stands between that and the schedule.
#[tactic(auto, unfolding(crate::specs::Rescheduling::before_schedule))]
fn before_schedule(front: &[u8]) -> &'static str
    ensures { result.now ≡ before_schedule front.now }
{
    if is_opened(front) {
        "\n  \"schedule\": ["
    } else {
        ",\n  \"schedule\": ["
    }
}

// Appends an actor's name in quotation marks, after a text.
fn put_named<'a>(
    text: &mut Vec<u8>,
    system: &'a System,
    before: &'a str,
    actor: ActorId,
) -> Result<(), AllocError>
    ensures { OnOk result
        (text.new.items ≡ text.old.items ++ named system.now before.now actor) }
{
    append_words(
        text,
        &[
            Word::Text(before),
            Word::Text("\""),
            Word::Text(actor_name(system, actor.0)),
            Word::Text("\""),
        ],
    )
}

// Appends the names of actors, each after a comma.
fn put_more_names(text: &mut Vec<u8>, system: &System, turns: &[ActorId]) -> Result<(), AllocError>
    ensures { OnOk result (text.new.items
        ≡ text.old.items ++ flat_map (named system.now (codes ", ")) turns.now) }
{
    for actor in turns {
        put_named(text, system, ", ", *actor)?;
    }
    Ok(())
}

// Appends the names of actors, with commas between them.
#[tactic(auto, unfolding(crate::specs::Rescheduling::names_text))]
fn put_names(text: &mut Vec<u8>, system: &System, turns: &[ActorId]) -> Result<(), AllocError>
    ensures { OnOk result (text.new.items ≡ text.old.items ++ names_text system.now turns.now) }
{
    match turns {
        [] => Ok(()),
        [first, rest @ ..] => {
            put_named(text, system, "", *first)?;
            put_more_names(text, system, rest)
        }
    }
}

/// The file of a scenario with these turns as its schedule. `Memory` where memory is wanting.
#[tactic(auto, unfolding(crate::specs::Rescheduling::rescheduled))]
pub(crate) fn rescheduled(
    alloc: Global,
    system: &System,
    bytes: &[u8],
    turns: &[ActorId],
) -> Result<Vec<u8>, Memory>
    ensures { IfOk result (λ text. text.items ≡ rescheduled system.now bytes.now turns.now) }
{
    let front = front_of(bytes);
    let mut text = Vec::from_slice(alloc, front)?;
    append(&mut text, before_schedule(front))?;
    put_names(&mut text, system, turns)?;
    append(&mut text, "]\n}\n")?;
    Ok(text)
}
