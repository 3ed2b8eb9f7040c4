//! The command line of `ffm_explore`.
ghost use Rattle.std.specs.Prelude.{◌≡◌, codes, IfOk, false, true};
ghost use Rattle.clap.specs.Words.{app_of, is_simple_and_free, rule_of};
ghost use Rattle.clap.specs.declared.builder.command.Command.TheViews.{out-Command as fields_of};
ghost use Rattle.program_words.specs.Arguments.{file_rule};
ghost use Rattle.program_words.specs.ExploreLine.{command_app, context_rule, entry_app, explore_app, line_app, line_rule, scenario_rule, script_app, seek_app, states_rule};

use crate::arguments::{
    file_argument, flag, number_argument, number_option, program, scenario_command,
};
use clap::{Arg, Command};
use std::alloc::{AllocError, Global};

fn scenario_flag<'a>(alloc: Global) -> Arg<'a>
    ensures rule { rule_of result ≡ scenario_rule }
    ensures own { result.global ≡ false }
{
    let help = "Writes the scenario again, with the order as its schedule";
    flag(alloc, "as_scenario", "scenario", help)
}

fn actor_argument<'a>(alloc: Global) -> Arg<'a>
    ensures rule { rule_of result ≡ file_rule (codes "actor") }
    ensures own { result.global ≡ false }
{
    file_argument(alloc, "actor", "ACTOR").help("The actor's name")
}

fn line_argument<'a>(alloc: Global) -> Arg<'a>
    ensures rule { rule_of result ≡ line_rule }
    ensures own { result.global ≡ false }
{
    number_argument(alloc, "line", "LINE").required(true).help(
        "A line of the actor's script that makes a call, counted from 0",
    )
}

fn context_option<'a>(alloc: Global) -> Arg<'a>
    ensures rule { rule_of result ≡ context_rule }
    ensures own { result.global ≡ false }
{
    number_argument(alloc, "context", "K").long("context").help(
        "Which of the actor's scripts, counted from 0; by default 0",
    )
}

fn states_option<'a>(alloc: Global) -> Arg<'a>
    ensures rule { rule_of result ≡ states_rule }
    ensures own { result.global ≡ false }
{
    let help = "At most so many states; by default 1000000";
    number_option(alloc, "states", help)
}

// A command over a system and a scenario, of at most so many states.
fn command<'a>(alloc: Global, name: &'a str, about: &'a str) -> Result<Command<'a>, AllocError>
    ensures app { IfOk result (λ c. app_of c ≡ command_app name.entry.now) }
    ensures own { IfOk result (λ c. (fields_of c).has_globals ≡ false) }
{
    scenario_command(alloc, name, about)?.arg(states_option(alloc))
}

// A command that seeks a state or an event.
fn seek_command<'a>(alloc: Global, name: &'a str, about: &'a str) -> Result<Command<'a>, AllocError>
    ensures app { IfOk result (λ c. app_of c ≡ seek_app name.entry.now) }
    ensures own { IfOk result (λ c. (fields_of c).has_globals ≡ false) }
{
    command(alloc, name, about)?.arg(scenario_flag(alloc))
}

fn entry_command<'a>(alloc: Global) -> Result<Command<'a>, AllocError>
    ensures app { IfOk result (λ c. app_of c ≡ entry_app) }
    ensures own { IfOk result (λ c. (fields_of c).has_globals ≡ false) }
{
    let about = "Tells a shortest order of turns to an event";
    let help = "The event's line in a trace, in one word: 'n1 connect 0x00000040 1 -> value -130'";
    seek_command(alloc, "entry", about)?.arg(file_argument(alloc, "entry", "ENTRY").help(help))
}

// A command over an actor's script.
fn script_command<'a>(alloc: Global) -> Result<Command<'a>, AllocError>
    ensures app { IfOk result (λ c. app_of c ≡ script_app) }
    ensures own { IfOk result (λ c. (fields_of c).has_globals ≡ false) }
{
    let about = "Tells each outcome of a script's line, and a shortest order of turns to it";
    command(alloc, "line", about)?.arg(actor_argument(alloc))
}

fn line_command<'a>(alloc: Global) -> Result<Command<'a>, AllocError>
    ensures app { IfOk result (λ c. app_of c ≡ line_app) }
    ensures own { IfOk result (λ c. (fields_of c).has_globals ≡ false) }
{
    script_command(alloc)?
        .arg(line_argument(alloc))?
        .arg(context_option(alloc))
}

// The commands and their arguments.
pub(crate) fn command_line<'a>(alloc: Global) -> Result<Command<'a>, AllocError>
    ensures app { IfOk result (λ c. app_of c ≡ explore_app) }
    ensures simple { IfOk result (λ c. is_simple_and_free (app_of c) ≡ true) }
{
    let about = "Explores every interleaving of a scenario's scripts";
    let all = "Tells what becomes of all runs: how many end quiet or stalled, panics, the longest";
    let stall = "Tells a shortest order of turns to a stall";
    let panic = "Tells a shortest order of turns to a panic";
    program(alloc, "ffm_explore", about)
        .subcommand(command(alloc, "all", all)?)?
        .subcommand(seek_command(alloc, "stall", stall)?)?
        .subcommand(seek_command(alloc, "panic", panic)?)?
        .subcommand(entry_command(alloc)?)?
        .subcommand(line_command(alloc)?)
}
