//! The words of the command line.

ghost use Rattle.std.specs.Prelude.{◌≡◌, map, string_bytes};
ghost use Rattle.std.specs.Option.{option_map};
ghost use Rattle.command_words.specs.Words.{is_file_word, order_of, command_words, compile_words, run_files, is_flag, flagged_words, run_words, trace_files, trace_over, trace_words, make_words, rounds_of, order};

use crate::limits::MAX_ROUNDS;

/// How a trace is judged.
#[derive(Clone, Copy, Debug, PartialEq, Eq)]
pub enum Inspection {
    /// Whether it is legal.
    Replay,
    /// Whether it is legal, and which bytes each of its entries changed.
    Audit,
}

/// What an accepted list of words asks for, by the names of the files or by a number.
#[derive(Clone, Copy, Debug, PartialEq, Eq)]
pub enum Command<'a> {
    /// The listing of a system.
    Compile {
        system: &'a str,
    },
    /// The run of a scenario's programs over a system, with a thread for each actor or without.
    Run {
        threads: bool,
        system: &'a str,
        scenario: &'a str,
    },
    /// The judgement of a trace for a scenario over a system.
    Judge {
        inspection: Inspection,
        system: &'a str,
        scenario: &'a str,
        trace: &'a str,
    },
    /// The run of a generated system, with so many requests of each client.
    Make {
        rounds: u32,
    },
}

/// The command of these words, of which the first is the program's name. None exactly where the
/// list isn't accepted.
pub fn command_of(words: &Vec<String>) -> Option<Command<'_>>
    ensures { option_map order result ≡ order_of (map string_bytes words.now.items) }
{
    let (_program, words) = words.as_slice().split_first()?;
    let (name, words) = words.split_first()?;
    command_named(name.as_str(), words)
}

// The command with this name, of the words after it.
fn command_named<'a>(name: &str, words: &'a [String]) -> Option<Command<'a>>
    ensures { option_map order result ≡ command_words name.now (map string_bytes words.now) }
{
    if name == "compile" {
        compile_of(words)
    } else if name == "run" {
        run_of(words)
    } else if name == "replay" {
        trace_of(Inspection::Replay, words)
    } else if name == "audit" {
        trace_of(Inspection::Audit, words)
    } else if name == "make" {
        make_of(words)
    } else {
        None
    }
}

fn compile_of(words: &[String]) -> Option<Command<'_>>
    ensures { option_map order result ≡ compile_words (map string_bytes words.now) }
{
    let (system, words) = words.split_first()?;
    if words.is_empty() && is_file_word(system.as_str()) {
        Some(Command::Compile {
            system: system.as_str(),
        })
    } else {
        None
    }
}

// A run of a scenario over a system.
fn run_files<'a>(threads: bool, system: &'a str, scenario: &'a str) -> Option<Command<'a>>
    ensures { option_map order result ≡ run_files threads system.now scenario.now }
{
    if is_file_word(system) && is_file_word(scenario) {
        Some(Command::Run {
            threads,
            system,
            scenario,
        })
    } else {
        None
    }
}

fn is_flag(word: &str) -> bool
    ensures { result ≡ is_flag word.now }
{
    word == "--threads"
}

// A run's three words, of which one is the flag.
fn flagged<'a>(first: &'a str, second: &'a str, third: &'a str) -> Option<Command<'a>>
    ensures { option_map order result ≡ flagged_words first.now second.now third.now }
{
    if is_flag(first) {
        run_files(true, second, third)
    } else if is_flag(second) {
        run_files(true, first, third)
    } else if is_flag(third) {
        run_files(true, first, second)
    } else {
        None
    }
}

fn run_of(words: &[String]) -> Option<Command<'_>>
    ensures { option_map order result ≡ run_words (map string_bytes words.now) }
{
    match words {
        [system, scenario] => run_files(false, system.as_str(), scenario.as_str()),
        [first, second, third] => flagged(first.as_str(), second.as_str(), third.as_str()),
        _ => None,
    }
}

// A trace, for a scenario over a system.
fn trace_files<'a>(
    inspection: Inspection,
    system: &'a str,
    scenario: &'a str,
    trace: &'a str,
) -> Option<Command<'a>>
    ensures { option_map order result ≡ trace_files inspection system.now scenario.now trace.now }
{
    if is_file_word(system) && is_file_word(scenario) && is_file_word(trace) {
        Some(Command::Judge {
            inspection,
            system,
            scenario,
            trace,
        })
    } else {
        None
    }
}

// A trace and a scenario, over a system.
fn trace_over<'a>(
    inspection: Inspection,
    system: &'a str,
    words: &'a [String],
) -> Option<Command<'a>>
    ensures { option_map order result
        ≡ trace_over inspection system.now (map string_bytes words.now) }
{
    let (scenario, words) = words.split_first()?;
    let (trace, words) = words.split_first()?;
    if words.is_empty() {
        trace_files(inspection, system, scenario.as_str(), trace.as_str())
    } else {
        None
    }
}

fn trace_of(inspection: Inspection, words: &[String]) -> Option<Command<'_>>
    ensures { option_map order result ≡ trace_words inspection (map string_bytes words.now) }
{
    let (system, words) = words.split_first()?;
    trace_over(inspection, system.as_str(), words)
}

fn make_of(words: &[String]) -> Option<Command<'_>>
    ensures { option_map order result ≡ make_words (map string_bytes words.now) }
{
    let (rounds, words) = words.split_first()?;
    if words.is_empty() {
        let rounds = rounds_of(rounds.as_str())?;
        Some(Command::Make { rounds })
    } else {
        None
    }
}

/// The number from 1 to `MAX_ROUNDS` that decimal digits without a leading zero spell.
#[tactic(auto, unfolding(crate::specs::Words::rounds_of))]
pub fn rounds_of(word: &str) -> Option<u32>
    ensures { result ≡ rounds_of word.now }
{
    let digits = word.as_bytes();
    if digits.is_empty() || digits[0] == b'0' {
        return None;
    }
    let mut rounds = 0;
    for digit in digits {
        rounds = rounds * 10 + char::from(*digit).to_digit(10)?;
        if rounds > MAX_ROUNDS {
            return None;
        }
    }
    Some(rounds)
}

// A file's name isn't empty and doesn't begin with `-`.
fn is_file_word(word: &str) -> bool
    ensures { result ≡ is_file_word word.now }
{
    match word.as_bytes() {
        [] => false,
        [first, ..] => *first != b'-',
    }
}
