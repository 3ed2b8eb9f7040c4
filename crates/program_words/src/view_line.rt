//! The command line of `ffm_view`.
ghost use Rattle.std.specs.Prelude.{◌≡◌, codes, IfOk, false, true};
ghost use Rattle.clap.specs.Words.{app_of, is_simple_and_free, rule_of};
ghost use Rattle.clap.specs.declared.builder.command.Command.TheViews.{out-Command as fields_of};
ghost use Rattle.clap.specs.declared.builder.value_parser.ValueParser.{ValueParser as ParserSeen};
ghost use Rattle.program_words.specs.Arguments.{file_rule, option_rule};
ghost use Rattle.program_words.specs.ViewLine.{IsFormatParser, actors_rule, ask_app, diagram_app, explain_app, files_app, format_rule, further_rule, json_rule, part_app, place_app, place_rule, stats_app, view_app};

use crate::arguments::{
    file_argument, flag, number_argument, number_option, program, scenario_command, system_command,
};
use clap::{Arg, ArgAction, Command};
use std::alloc::{AllocError, Global};

fn trace_argument<'a>(alloc: Global) -> Arg<'a>
    ensures rule { rule_of result ≡ file_rule (codes "trace") }
    ensures own { result.global ≡ false }
{
    file_argument(alloc, "trace", "TRACE")
}

// A command over the files of a trace.
fn view_command<'a>(alloc: Global, name: &'a str, about: &'a str) -> Result<Command<'a>, AllocError>
    ensures app { IfOk result (λ c. app_of c ≡ files_app name.entry.now) }
    ensures own { IfOk result (λ c. (fields_of c).has_globals ≡ false) }
{
    scenario_command(alloc, name, about)?.arg(trace_argument(alloc))
}

// The place of an entry; 0 is the opening.
fn place_argument<'a>(alloc: Global, help: &'a str) -> Arg<'a>
    ensures rule { rule_of result ≡ place_rule }
    ensures own { result.global ≡ false }
{
    number_argument(alloc, "place", "PLACE").help(help)
}

fn json_flag<'a>(alloc: Global) -> Arg<'a>
    ensures rule { rule_of result ≡ json_rule }
    ensures own { result.global ≡ false }
{
    flag(alloc, "json", "json", "Writes one line of JSON")
}

fn state_command<'a>(alloc: Global) -> Result<Command<'a>, AllocError>
    ensures app { IfOk result (λ c. app_of c ≡ place_app (codes "state")) }
    ensures own { IfOk result (λ c. (fields_of c).has_globals ≡ false) }
{
    let about = "Shows the state after an entry, and at a stall who waits for whom";
    let help = "After this entry, counted from 1; 0 is the opening; by default the last legal one";
    view_command(alloc, "state", about)?
        .arg(place_argument(alloc, help))?
        .arg(json_flag(alloc))
}

// The place after which a call is asked for.
fn place_asked<'a>(alloc: Global) -> Arg<'a>
    ensures rule { rule_of result ≡ record place_rule { required = true } }
    ensures own { result.global ≡ false }
{
    place_argument(alloc, "After this entry, counted from 1; 0 is the opening").required(true)
}

fn call_argument<'a>(alloc: Global) -> Arg<'a>
    ensures rule { rule_of result ≡ file_rule (codes "call") }
    ensures own { result.global ≡ false }
{
    let help = "An actor and its call as a trace has them, in one word: 'p1 wait 0xffffffff 0'";
    file_argument(alloc, "call", "CALL").help(help)
}

fn ask_command<'a>(alloc: Global) -> Result<Command<'a>, AllocError>
    ensures app { IfOk result (λ c. app_of c ≡ ask_app) }
    ensures own { IfOk result (λ c. (fields_of c).has_globals ≡ false) }
{
    let about = "Tells what the machine answers to a call after an entry";
    view_command(alloc, "ask", about)?
        .arg(place_asked(alloc))?
        .arg(call_argument(alloc))
}

fn format_option<'a>(alloc: Global) -> Arg<'a>
    ensures rule { (p : ParserSeen) × IsFormatParser p × (rule_of result ≡ format_rule p) }
    ensures own { result.global ≡ false }
{
    Arg::new(alloc, "format")
        .long("format")
        .action(ArgAction::Set)
        .value_parser(["mermaid", "html"].as_slice())
        .help("The form of the diagram; by default mermaid")
}

fn actors_option<'a>(alloc: Global) -> Arg<'a>
    ensures rule { rule_of result ≡ actors_rule }
    ensures own { result.global ≡ false }
{
    Arg::new(alloc, "actors")
        .long("actors")
        .action(ArgAction::Set)
        .value_name("NAMES")
        .help("Only the lanes of these actors, and what goes between them: A,B,..")
}

fn from_option<'a>(alloc: Global) -> Arg<'a>
    ensures rule { rule_of result ≡ option_rule (codes "from") }
    ensures own { result.global ≡ false }
{
    number_option(alloc, "from", "The first entry to be drawn")
}

fn to_option<'a>(alloc: Global) -> Arg<'a>
    ensures rule { rule_of result ≡ option_rule (codes "to") }
    ensures own { result.global ≡ false }
{
    number_option(alloc, "to", "The last entry to be drawn")
}

// Which entries are to be drawn.
fn part_command<'a>(alloc: Global) -> Result<Command<'a>, AllocError>
    ensures app { IfOk result (λ c. app_of c ≡ part_app) }
    ensures own { IfOk result (λ c. (fields_of c).has_globals ≡ false) }
{
    view_command(alloc, "diagram", "Draws a sequence diagram")?
        .arg(from_option(alloc))?
        .arg(to_option(alloc))
}

fn diagram_command<'a>(alloc: Global) -> Result<Command<'a>, AllocError>
    ensures app { IfOk result (λ c.
        (p : ParserSeen) × IsFormatParser p × (app_of c ≡ diagram_app p)) }
    ensures own { IfOk result (λ c. (fields_of c).has_globals ≡ false) }
{
    part_command(alloc)?
        .arg(format_option(alloc))?
        .arg(actors_option(alloc))
}

fn why_command<'a>(alloc: Global) -> Result<Command<'a>, AllocError>
    ensures app { IfOk result (λ c. app_of c ≡ place_app (codes "why")) }
    ensures own { IfOk result (λ c. (fields_of c).has_globals ≡ false) }
{
    let about = "Says why a trace is illegal, and what the machine answers there";
    let help = "Tells what was due at this entry, counted from 1, where the trace is legal so far";
    view_command(alloc, "why", about)?
        .arg(place_argument(alloc, help))?
        .arg(json_flag(alloc))
}

fn stats_command<'a>(alloc: Global) -> Result<Command<'a>, AllocError>
    ensures app { IfOk result (λ c. app_of c ≡ stats_app) }
    ensures own { IfOk result (λ c. (fields_of c).has_globals ≡ false) }
{
    let about = "Counts calls, bytes moved, waits and live objects";
    view_command(alloc, "stats", about)?.arg(json_flag(alloc))
}

// A file that may be left out, with those after it.
fn further_argument<'a>(alloc: Global, id: &'a str, name: &'a str) -> Arg<'a>
    ensures rule { rule_of result ≡ further_rule id.entry.now }
    ensures own { result.global ≡ false }
{
    Arg::new(alloc, id).action(ArgAction::Set).value_name(name)
}

fn explain_command<'a>(alloc: Global) -> Result<Command<'a>, AllocError>
    ensures app { IfOk result (λ c. app_of c ≡ explain_app) }
    ensures own { IfOk result (λ c. (fields_of c).has_globals ≡ false) }
{
    let about = "Says in words why ffm refuses these files: where, what is wrong, what is expected";
    system_command(alloc, "explain", about)?
        .arg(further_argument(alloc, "scenario", "SCENARIO"))?
        .arg(further_argument(alloc, "trace", "TRACE"))
}

// The commands and their arguments.
pub(crate) fn command_line<'a>(alloc: Global) -> Result<Command<'a>, AllocError>
    ensures app { IfOk result (λ c.
        (p : ParserSeen) × IsFormatParser p × (app_of c ≡ view_app p)) }
    ensures simple { IfOk result (λ c. is_simple_and_free (app_of c) ≡ true) }
{
    let about = "Shows what a trace of ffm says, or why ffm refuses files";
    program(alloc, "ffm_view", about)
        .subcommand(state_command(alloc)?)?
        .subcommand(why_command(alloc)?)?
        .subcommand(ask_command(alloc)?)?
        .subcommand(diagram_command(alloc)?)?
        .subcommand(stats_command(alloc)?)?
        .subcommand(explain_command(alloc)?)
}
