//! What the words of `ffm_view` ask for.
ghost use Rattle.std.specs.Prelude.{◌≡◌, ◌⊎◌, MatchOption, IfErr, IfOk, map, string_bytes};
ghost use Rattle.clap.specs.Words.{found_of, kind_of, rows_of, subcommand_rows_of};
ghost use Rattle.program_words.specs.Arguments.{AskNothing, told_status};
ghost use Rattle.program_words.specs.View.{AreExplainedOf, AreNamesOf, AskNoAspect, AsksFor, IsAskedOf, IsAspectOf, IsFormatAt, IsRequestOf, IsTold, IsWritingAt};
ghost use Rattle.program_words.specs.declared.view.Aspect.{Aspect as AspectSeen};
ghost use Rattle.program_words.specs.declared.view.ExplainedNames.{ExplainedNames as ExplainedSeen};
ghost use Rattle.program_words.specs.declared.view.FileNames.{FileNames as NamesSeen};

use crate::arguments::{no_command, number_of, number_or, parsed, word_of};
use crate::view_line::command_line;
use clap::error::ErrorKind;
use clap::{ArgMatches, Error};
use std::alloc::Global;

/// The names of the files that a command reads.
#[derive(Clone, Copy)]
pub struct FileNames<'a> {
    pub system: &'a str,
    pub scenario: &'a str,
    pub trace: &'a str,
}

/// The names of files of which the first refusal is to be told: a system, perhaps with a scenario, and then perhaps with
/// a trace.
#[derive(Clone, Copy)]
pub struct ExplainedNames<'a> {
    pub system: &'a str,
    pub scenario: Option<&'a str>,
    pub trace: Option<&'a str>,
}

/// How a diagram is to be written.
#[derive(Clone, Copy)]
pub enum Format {
    /// As a text for Mermaid.
    Mermaid,
    /// As a page of HTML.
    Html,
}

/// How an aspect other than a diagram is to be written.
#[derive(Clone, Copy)]
pub enum Writing {
    /// As a text for people.
    Text,
    /// As one line of JSON.
    Json,
}

/// What is to be shown.
#[derive(Clone, Copy)]
pub enum Aspect<'a> {
    /// The state after the entry at a place, or after the last legal one.
    State(Option<u32>),
    /// What was due at a legal place, or how the trace is judged and why.
    Why(Option<u32>),
    /// The answer to a call, by its text, after the entry at a place.
    Ask {
        place: u32,
        call: &'a str,
    },
    /// The entries between two places, or from the first and up to the last one; perhaps of the actors alone whose names,
    /// separated by commas, are given.
    Diagram {
        from: Option<u32>,
        to: Option<u32>,
        format: Format,
        actors: Option<&'a str>,
    },
    Stats,
}

/// An aspect of a trace that is asked for.
#[derive(Clone, Copy)]
pub struct Request<'a> {
    pub names: FileNames<'a>,
    pub aspect: Aspect<'a>,
    /// `Text` where the command has no JSON.
    pub writing: Writing,
}

/// What the words ask for.
#[derive(Clone, Copy)]
pub enum Asked<'a> {
    View(Request<'a>),
    Explain(ExplainedNames<'a>),
}

fn names_of<'a>(found: &ArgMatches<'a>) -> Option<FileNames<'a>>
    ensures { MatchOption result
        ((names : NamesSeen) → AreNamesOf (rows_of (found_of found.now)) names → ⊥)
        (AreNamesOf (rows_of (found_of found.now))) }
{
    Some(FileNames {
        system: word_of(found, "system")?,
        scenario: word_of(found, "scenario")?,
        trace: word_of(found, "trace")?,
    })
}

fn format_of(found: &ArgMatches<'_>) -> Format
    ensures { IsFormatAt (rows_of (found_of found.now)) result }
{
    match word_of(found, "format") {
        Some("html") => Format::Html,
        _ => Format::Mermaid,
    }
}

fn writing_of(found: &ArgMatches<'_>) -> Writing
    ensures { IsWritingAt (rows_of (found_of found.now)) result }
{
    match word_of(found, "json") {
        Some("true") => Writing::Json,
        _ => Writing::Text,
    }
}

// What the command of this name shows.
fn aspect_of<'a>(name: &str, found: &ArgMatches<'a>) -> Option<Aspect<'a>>
    ensures { MatchOption result
        ((a : AspectSeen) → IsAspectOf name.now (rows_of (found_of found.now)) a → ⊥)
        (IsAspectOf name.now (rows_of (found_of found.now))) }
{
    match name {
        "state" => Some(Aspect::State(number_of(found, "place"))),
        "why" => Some(Aspect::Why(number_of(found, "place"))),
        "ask" => Some(Aspect::Ask {
            // `clap` requires it.
            place: number_or(found, "place", 0),
            call: word_of(found, "call")?,
        }),
        "diagram" => Some(Aspect::Diagram {
            from: number_of(found, "from"),
            to: number_of(found, "to"),
            format: format_of(found),
            actors: word_of(found, "actors"),
        }),
        "stats" => Some(Aspect::Stats),
        _ => None,
    }
}

// What a command over the files of a trace shows.
fn request_in<'a>(name: &str, found: &ArgMatches<'a>) -> Option<Request<'a>>
    ensures { MatchOption result (AskNoAspect name.now (rows_of (found_of found.now)))
        (IsRequestOf name.now (rows_of (found_of found.now))) }
{
    Some(Request {
        names: names_of(found)?,
        aspect: aspect_of(name, found)?,
        writing: writing_of(found),
    })
}

// The files of which the first refusal is to be told.
fn explained_in<'a>(found: &ArgMatches<'a>) -> Option<ExplainedNames<'a>>
    ensures { MatchOption result
        ((names : ExplainedSeen) → AreExplainedOf (rows_of (found_of found.now)) names → ⊥)
        (AreExplainedOf (rows_of (found_of found.now))) }
{
    Some(ExplainedNames {
        system: word_of(found, "system")?,
        scenario: word_of(found, "scenario"),
        trace: word_of(found, "trace"),
    })
}

fn asked_in<'a>(matches: &ArgMatches<'a>) -> Option<Asked<'a>>
    ensures { MatchOption result (AskNothing IsAskedOf (subcommand_rows_of matches.now))
        (IsAskedOf (subcommand_rows_of matches.now)) }
{
    let (name, found) = matches.subcommand()?;
    if name == "explain" {
        Some(Asked::Explain(explained_in(found)?))
    } else {
        Some(Asked::View(request_in(name, found)?))
    }
}

/// What the words ask for, of which the first is the program's name. Where they are no command, or ask for help or
/// the version, the text that `clap` has for that.
pub fn asked_of<'a>(alloc: Global, words: &'a [String]) -> Result<Asked<'a>, Error>
    ensures asked { IfOk result (AsksFor (map string_bytes words.entry.now)) }
    ensures told { IfErr result (λ e.
        (kind_of e ≡ ErrorKind.OutOfMemory)
        ⊎ IsTold (map string_bytes words.entry.now) (told_status (kind_of e))) }
{
    let matches = parsed(command_line(alloc)?, words)?;
    match asked_in(&matches) {
        Some(asked) => Ok(asked),
        None => Err(no_command(command_line(alloc)?)?),
    }
}
