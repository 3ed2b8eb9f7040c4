//! What the words of `ffm_explore` ask for.
ghost use Rattle.std.specs.Prelude.{◌≡◌, ◌⊎◌, MatchOption, IfErr, IfOk, map, string_bytes};
ghost use Rattle.clap.specs.Words.{found_of, kind_of, rows_of, subcommand_rows_of};
ghost use Rattle.program_words.specs.Arguments.{AskNothing, told_status};
ghost use Rattle.program_words.specs.Explore.{AreNamesOf, AsksFor, IsLineOf, IsQuestionOf, IsRequestBy, IsRequestOf, IsTold};
ghost use Rattle.program_words.specs.declared.explore.FileNames.{FileNames as NamesSeen};
ghost use Rattle.program_words.specs.declared.explore.Question.{Question as QuestionSeen};
ghost use Rattle.program_words.specs.declared.explore.Request.{Request as RequestSeen};
ghost use Rattle.program_words.specs.declared.explore.ScriptLine.{ScriptLine as LineSeen};

use crate::arguments::{flag_of, no_command, number_or, parsed, word_of};
use crate::explore_line::command_line;
use clap::error::ErrorKind;
use clap::{ArgMatches, Error};
use std::alloc::Global;

/// The limit of states where none is asked for.
pub const STATES: u32 = 1_000_000;

/// The names of the files that a command reads.
#[derive(Clone, Copy)]
pub struct FileNames<'a> {
    pub system: &'a str,
    pub scenario: &'a str,
}

/// A line of a script, by its actor's name, by its script's place among those of the actor, and by its
/// place among the script's lines, both from 0.
#[derive(Clone, Copy)]
pub struct ScriptLine<'a> {
    pub actor: &'a str,
    pub context: u32,
    pub line: u32,
}

/// What is asked of all interleavings.
#[derive(Clone, Copy)]
pub enum Question<'a> {
    /// What becomes of all runs.
    All,
    /// A shortest order of turns to a stall.
    Stall,
    /// A shortest order of turns to a panic.
    Panic,
    /// A shortest order of turns to an event, which has this line in a trace.
    Entry(&'a str),
    /// What the call of a line comes to, and a shortest order of turns to each outcome.
    Line(ScriptLine<'a>),
}

/// What the words ask for.
#[derive(Clone, Copy)]
pub struct Request<'a> {
    pub names: FileNames<'a>,
    pub question: Question<'a>,
    /// At most so many states.
    pub states: u32,
    /// Whether an order of turns is to be told as the schedule of the scenario's file.
    pub as_scenario: bool,
}

fn names_of<'a>(found: &ArgMatches<'a>) -> Option<FileNames<'a>>
    ensures { MatchOption result
        ((names : NamesSeen) → AreNamesOf (rows_of (found_of found.now)) names → ⊥)
        (AreNamesOf (rows_of (found_of found.now))) }
{
    Some(FileNames {
        system: word_of(found, "system")?,
        scenario: word_of(found, "scenario")?,
    })
}

fn line_of<'a>(found: &ArgMatches<'a>) -> Option<ScriptLine<'a>>
    ensures { MatchOption result
        ((l : LineSeen) → IsLineOf (rows_of (found_of found.now)) l → ⊥)
        (IsLineOf (rows_of (found_of found.now))) }
{
    Some(ScriptLine {
        actor: word_of(found, "actor")?,
        context: number_or(found, "context", 0),
        line: number_or(found, "line", 0),
    })
}

// The question of the command of this name.
fn question_of<'a>(name: &str, found: &ArgMatches<'a>) -> Option<Question<'a>>
    ensures { MatchOption result
        ((q : QuestionSeen) → IsQuestionOf name.now (rows_of (found_of found.now)) q → ⊥)
        (IsQuestionOf name.now (rows_of (found_of found.now))) }
{
    match name {
        "all" => Some(Question::All),
        "stall" => Some(Question::Stall),
        "panic" => Some(Question::Panic),
        "entry" => Some(Question::Entry(word_of(found, "entry")?)),
        "line" => Some(Question::Line(line_of(found)?)),
        _ => None,
    }
}

// What the command of this name asks for.
fn request_by<'a>(name: &str, found: &ArgMatches<'a>) -> Option<Request<'a>>
    ensures { MatchOption result
        ((r : RequestSeen) → IsRequestBy name.now (rows_of (found_of found.now)) r → ⊥)
        (IsRequestBy name.now (rows_of (found_of found.now))) }
{
    Some(Request {
        names: names_of(found)?,
        question: question_of(name, found)?,
        states: number_or(found, "states", STATES),
        as_scenario: flag_of(found, "as_scenario"),
    })
}

fn request_in<'a>(matches: &ArgMatches<'a>) -> Option<Request<'a>>
    ensures { MatchOption result (AskNothing IsRequestOf (subcommand_rows_of matches.now))
        (IsRequestOf (subcommand_rows_of matches.now)) }
{
    let (name, found) = matches.subcommand()?;
    request_by(name, found)
}

/// What the words ask for, of which the first is the program's name. Where they are no command, or ask
/// for help or the version, the text that `clap` has for that.
pub fn asked_of<'a>(alloc: Global, words: &'a [String]) -> Result<Request<'a>, Error>
    ensures asked { IfOk result (AsksFor (map string_bytes words.entry.now)) }
    ensures told { IfErr result (λ e.
        (kind_of e ≡ ErrorKind.OutOfMemory)
        ⊎ IsTold (map string_bytes words.entry.now) (told_status (kind_of e))) }
{
    let matches = parsed(command_line(alloc)?, words)?;
    match request_in(&matches) {
        Some(request) => Ok(request),
        None => Err(no_command(command_line(alloc)?)?),
    }
}
