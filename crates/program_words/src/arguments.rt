//! The arguments that the commands of both programs have, and what is read of them.
ghost use Rattle.std.specs.Prelude.{◌≡◌, IfOk, codes, false, map, string_bytes, true};
ghost use Rattle.std.specs.Option.{option_map};
ghost use Rattle.clap.specs.Words.{FailsBy, app_of, fault_of, first_of, found_of, is_simple_and_free, kind_of, rows_of, rule_of, subcommand_of, subcommand_rows_of};
ghost use Rattle.clap.specs.declared.builder.command.Command.TheViews.{out-Command as fields_of};
ghost use Rattle.program_words.specs.Arguments.{IsFlagAt, IsNumberAt, IsNumberOr, file_rule, flag_rule, number_rule, option_rule, scenario_app, system_app, top_app};

use clap::error::ErrorKind;
use clap::{Arg, ArgAction, ArgMatches, Command, Error, value_parser};
use std::alloc::{AllocError, Global};

/// What `--version` shows.
pub const VERSION: &str = "1.0.0";

// ---- the commands and their arguments

// A file's name, or another word.
pub(crate) fn file_argument<'a>(alloc: Global, id: &'a str, name: &'a str) -> Arg<'a>
    ensures rule { rule_of result ≡ file_rule id.entry.now }
    ensures own { result.global ≡ false }
{
    Arg::new(alloc, id)
        .required(true)
        .action(ArgAction::Set)
        .value_name(name)
}

// A number, which may be left out.
pub(crate) fn number_argument<'a>(alloc: Global, id: &'a str, name: &'a str) -> Arg<'a>
    ensures rule { rule_of result ≡ number_rule id.entry.now }
    ensures own { result.global ≡ false }
{
    Arg::new(alloc, id)
        .action(ArgAction::Set)
        .value_name(name)
        .value_parser(value_parser!(u32))
}

// A number from 1, after an option.
pub(crate) fn number_option<'a>(alloc: Global, id: &'a str, help: &'a str) -> Arg<'a>
    ensures rule { rule_of result ≡ option_rule id.entry.now }
    ensures own { result.global ≡ false }
{
    Arg::new(alloc, id)
        .long(id)
        .action(ArgAction::Set)
        .value_name("N")
        .value_parser(value_parser!(u32).range(1..))
        .help(help)
}

// A flag, by its word on the command line.
pub(crate) fn flag<'a>(alloc: Global, id: &'a str, long: &'a str, help: &'a str) -> Arg<'a>
    ensures rule { rule_of result ≡ flag_rule id.entry.now long.entry.now }
    ensures own { result.global ≡ false }
{
    Arg::new(alloc, id)
        .long(long)
        .action(ArgAction::SetTrue)
        .help(help)
}

fn system_argument<'a>(alloc: Global) -> Arg<'a>
    ensures rule { rule_of result ≡ file_rule (codes "system") }
    ensures own { result.global ≡ false }
{
    file_argument(alloc, "system", "SYSTEM")
}

fn scenario_argument<'a>(alloc: Global) -> Arg<'a>
    ensures rule { rule_of result ≡ file_rule (codes "scenario") }
    ensures own { result.global ≡ false }
{
    file_argument(alloc, "scenario", "SCENARIO")
}

// A command over a system.
pub(crate) fn system_command<'a>(
    alloc: Global,
    name: &'a str,
    about: &'a str,
) -> Result<Command<'a>, AllocError>
    ensures app { IfOk result (λ c. app_of c ≡ system_app name.entry.now) }
    ensures own { IfOk result (λ c. (fields_of c).has_globals ≡ false) }
{
    Command::new(alloc, name)
        .about(about)
        .arg(system_argument(alloc))
}

// A command over a system and a scenario.
pub(crate) fn scenario_command<'a>(
    alloc: Global,
    name: &'a str,
    about: &'a str,
) -> Result<Command<'a>, AllocError>
    ensures app { IfOk result (λ c. app_of c ≡ scenario_app name.entry.now) }
    ensures own { IfOk result (λ c. (fields_of c).has_globals ≡ false) }
{
    system_command(alloc, name, about)?.arg(scenario_argument(alloc))
}

// A program without its commands.
pub(crate) fn program<'a>(alloc: Global, name: &'a str, about: &'a str) -> Command<'a>
    ensures { app_of result ≡ top_app name.entry.now }
{
    Command::new(alloc, name)
        .version(VERSION)
        .about(about)
        .subcommand_required(true)
}

// ---- what the words give

// The matches of the words.
pub(crate) fn parsed<'a>(command: Command<'a>, words: &'a [String]) -> Result<ArgMatches<'a>, Error>
    requires { is_simple_and_free (app_of command) ≡ true }
    ensures rows { IfOk result (λ m. subcommand_rows_of m
        ≡ subcommand_of (app_of command.entry) (map string_bytes words.entry.now)) }
    ensures faults { FailsBy
        (fault_of (app_of command.entry) (map string_bytes words.entry.now)) result }
{
    command.try_get_matches_from(words)
}

// The error of words that ask for nothing.
pub(crate) fn no_command(command: Command<'_>) -> Result<Error, AllocError>
    ensures { IfOk result (λ e. kind_of e ≡ ErrorKind.MissingSubcommand) }
{
    let mut command = command;
    command.error(ErrorKind::MissingSubcommand, "no command")
}

// The word of an argument.
#[tactic(auto, using(crate::proofs::Getters::word_read))]
pub(crate) fn word_of<'a>(found: &ArgMatches<'a>, id: &str) -> Option<&'a str>
    ensures { option_map (λ s. s.now) result ≡ first_of id.now (rows_of (found_of found.now)) }
{
    found.get_str(id)
}

// The number of an argument.
pub(crate) fn number_of(found: &ArgMatches<'_>, id: &str) -> Option<u32>
    ensures { IsNumberAt (rows_of (found_of found.now)) id.now result }
{
    found.get_one::<u32>(id)
}

// The number of an argument, or another one where it isn't given.
pub(crate) fn number_or(found: &ArgMatches<'_>, id: &str, default: u32) -> u32
    ensures { IsNumberOr (rows_of (found_of found.now)) id.now default result }
{
    number_of(found, id).unwrap_or(default)
}

// Whether a flag is given.
pub(crate) fn flag_of(found: &ArgMatches<'_>, id: &str) -> bool
    ensures { IsFlagAt (rows_of (found_of found.now)) id.now result }
{
    found.get_flag(id)
}
