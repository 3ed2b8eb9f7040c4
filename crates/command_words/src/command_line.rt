//! The words of an accepted list, read by `clap`.
ghost use Rattle.std.specs.Prelude.{◌≡◌, Bool, List, ℕ, IfOk, IfErr, Some, false, is_some, map, option_map, string_bytes, true};
ghost use Rattle.clap.specs.Words.{app_of, first_of, found_of, kind_of, one_of, rows_of, rule_of, subcommand_rows_of};
ghost use Rattle.clap.specs.declared.builder.command.Command.TheViews.{out-Command as fields_of};
ghost use Rattle.command_words.specs.Words.{Order, compile, judge, make, order, order_of, run};
ghost use Rattle.command_words.specs.CommandLine.{compile_app, ffm_app, make_app, run_app, threads_rule, trace_app, word_rule};
ghost use Rattle.command_words.specs.Matches.{AskFor, HasArguments, flag_text, name_of};

use crate::words::{Command, Inspection, rounds_of};
use clap::error::ErrorKind;
use clap::{Arg, ArgAction, ArgMatches, Error};
use std::alloc::{AllocError, Global};

// An argument of one word.
fn word_argument(alloc: Global, id: &str) -> Arg<'_>
    ensures rule { rule_of result ≡ word_rule id.entry.now }
    ensures own { result.global ≡ false }
{
    Arg::new(alloc, id).required(true).action(ArgAction::Set)
}

// The flag of a run.
fn threads_argument<'a>(alloc: Global) -> Arg<'a>
    ensures rule { rule_of result ≡ threads_rule }
    ensures own { result.global ≡ false }
{
    Arg::new(alloc, "threads")
        .long("threads")
        .action(ArgAction::SetTrue)
}

fn compile_command<'a>(alloc: Global) -> Result<clap::Command<'a>, AllocError>
    ensures app { IfOk result (λ c. app_of c ≡ compile_app) }
    ensures own { IfOk result (λ c. (fields_of c).has_globals ≡ false) }
{
    clap::Command::new(alloc, "compile").arg(word_argument(alloc, "system"))
}

fn run_command<'a>(alloc: Global) -> Result<clap::Command<'a>, AllocError>
    ensures app { IfOk result (λ c. app_of c ≡ run_app) }
    ensures own { IfOk result (λ c. (fields_of c).has_globals ≡ false) }
{
    clap::Command::new(alloc, "run")
        .arg(threads_argument(alloc))?
        .arg(word_argument(alloc, "system"))?
        .arg(word_argument(alloc, "scenario"))
}

// A command that judges a trace.
fn trace_command<'a>(alloc: Global, name: &'a str) -> Result<clap::Command<'a>, AllocError>
    ensures app { IfOk result (λ c. app_of c ≡ trace_app name.entry.now) }
    ensures own { IfOk result (λ c. (fields_of c).has_globals ≡ false) }
{
    clap::Command::new(alloc, name)
        .arg(word_argument(alloc, "system"))?
        .arg(word_argument(alloc, "scenario"))?
        .arg(word_argument(alloc, "trace"))
}

fn make_command<'a>(alloc: Global) -> Result<clap::Command<'a>, AllocError>
    ensures app { IfOk result (λ c. app_of c ≡ make_app) }
    ensures own { IfOk result (λ c. (fields_of c).has_globals ≡ false) }
{
    clap::Command::new(alloc, "make").arg(word_argument(alloc, "rounds"))
}

// The commands and their arguments.
fn command_line<'a>(alloc: Global) -> Result<clap::Command<'a>, AllocError>
    ensures { IfOk result (λ c. app_of c ≡ ffm_app) }
{
    clap::Command::new(alloc, "ffm")
        .subcommand(compile_command(alloc)?)?
        .subcommand(run_command(alloc)?)?
        .subcommand(trace_command(alloc, "replay")?)?
        .subcommand(trace_command(alloc, "audit")?)?
        .subcommand(make_command(alloc)?)
}

// The word of an argument.
#[tactic(auto, using(crate::proofs::Getters::word_read))]
fn word_of<'a>(found: &ArgMatches<'a>, id: &str) -> Option<&'a str>
    ensures { option_map (λ s. s.now) result ≡ first_of id.now (rows_of (found_of found.now)) }
{
    found.get_str(id)
}

// The value of a flag.
fn flag_of(found: &ArgMatches<'_>, id: &str) -> bool
    ensures { (flag : Bool) → one_of id.now (rows_of (found_of found.now)) ≡ Some (flag_text flag)
        → result ≡ flag }
{
    found.get_flag(id)
}

fn compile_of<'a>(found: &ArgMatches<'a>) -> Option<Command<'a>>
    ensures { (system : List ℕ) → HasArguments (rows_of (found_of found.now)) (compile system)
        → option_map order result ≡ Some (compile system) }
{
    let system = word_of(found, "system")?;
    Some(Command::Compile { system })
}

fn run_of<'a>(found: &ArgMatches<'a>) -> Option<Command<'a>>
    ensures { (threads : Bool) (system scenario : List ℕ)
        → HasArguments (rows_of (found_of found.now)) (run threads system scenario)
        → option_map order result ≡ Some (run threads system scenario) }
{
    let system = word_of(found, "system")?;
    let scenario = word_of(found, "scenario")?;
    Some(Command::Run {
        threads: flag_of(found, "threads"),
        system,
        scenario,
    })
}

fn trace_of<'a>(inspection: Inspection, found: &ArgMatches<'a>) -> Option<Command<'a>>
    ensures { (system scenario trace : List ℕ)
        → HasArguments (rows_of (found_of found.now)) (judge inspection system scenario trace)
        → option_map order result ≡ Some (judge inspection system scenario trace) }
{
    let system = word_of(found, "system")?;
    let scenario = word_of(found, "scenario")?;
    let trace = word_of(found, "trace")?;
    Some(Command::Judge {
        inspection,
        system,
        scenario,
        trace,
    })
}

fn make_of<'a>(found: &ArgMatches<'a>) -> Option<Command<'a>>
    ensures { (rounds : ℕ) → HasArguments (rows_of (found_of found.now)) (make rounds)
        → option_map order result ≡ Some (make rounds) }
{
    let rounds = rounds_of(word_of(found, "rounds")?)?;
    Some(Command::Make { rounds })
}

// The command of this name.
fn command_named<'a>(name: &str, found: &ArgMatches<'a>) -> Option<Command<'a>>
    ensures { (o : Order) → name.now ≡ name_of o → HasArguments (rows_of (found_of found.now)) o
        → option_map order result ≡ Some o }
{
    match name {
        "compile" => compile_of(found),
        "run" => run_of(found),
        "replay" => trace_of(Inspection::Replay, found),
        "audit" => trace_of(Inspection::Audit, found),
        "make" => make_of(found),
        _ => None,
    }
}

// The command that the matches ask for.
fn command_in<'a>(matches: &ArgMatches<'a>) -> Option<Command<'a>>
    ensures { (o : Order) → AskFor (subcommand_rows_of matches.now) o
        → option_map order result ≡ Some o }
{
    let (name, found) = matches.subcommand()?;
    command_named(name, found)
}

// The matches of the words.
fn parsed<'a>(alloc: Global, words: &'a [String]) -> Result<ArgMatches<'a>, Error>
    ensures ok { (o : Order) → order_of (map string_bytes words.entry.now) ≡ Some o
        → IfOk result (λ m. AskFor (subcommand_rows_of m) o) }
    ensures err { (o : Order) → order_of (map string_bytes words.entry.now) ≡ Some o
        → IfErr result (λ e. kind_of e ≡ ErrorKind.OutOfMemory) }
{
    command_line(alloc)?.try_get_matches_from(words)
}

// The command as `clap` reads it.
fn read<'a>(alloc: Global, words: &'a [String]) -> Result<Option<Command<'a>>, Error>
    ensures ok { (o : Order) → order_of (map string_bytes words.entry.now) ≡ Some o
        → IfOk result (λ read. option_map order read ≡ Some o) }
    ensures err { (o : Order) → order_of (map string_bytes words.entry.now) ≡ Some o
        → IfErr result (λ e. kind_of e ≡ ErrorKind.OutOfMemory) }
{
    let matches = parsed(alloc, words)?;
    Ok(command_in(&matches))
}

/// The command of an accepted list of words, with the values that `clap` reads.
pub fn confirmed<'a>(
    alloc: Global,
    words: &'a [String],
    command: Command<'a>,
) -> Result<Command<'a>, AllocError>
    requires { order_of (map string_bytes words.now) ≡ Some (order command) }
    ensures { IfOk result (λ read. order read ≡ order command.entry) }
{
    match read(alloc, words) {
        Ok(Some(found)) => Ok(found),
        Ok(None) => unreachable!(),
        Err(error) => match error.kind() {
            ErrorKind::OutOfMemory => Err(AllocError),
            _ => unreachable!(),
        },
    }
}
