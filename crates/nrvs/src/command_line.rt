//! The words that the program knows.
ghost use Rattle.std.specs.Prelude.{◌≡◌, false, IfOk};
ghost use Rattle.clap.specs.Words.{app_of, rule_of};
ghost use Rattle.audit_commands.specs.Words.{IsLocal};
ghost use Rattle.nrvs.specs.CommandLine.{chain_option, command_line, levels_option, number_option, replicas_option, run_app};
ghost use Rattle.nrvs.specs.CommandLine.{segment_option, simulate_app, tables_option, trace_option, turns_option};

use audit_commands::{VERSION, with_command, with_inspections};
use clap::builder::ValueParser;
use clap::{Arg, ArgAction, Command};
use std::alloc::{AllocError, Global};

/// What `--help` prints after the commands.
const AFTER_HELP: &str = "\
yes, verified  The run is right: one address space gives each answer, in an order that fits the log (status 0)
no, refused    The record of the run is not right, and its first fault is printed (status 1)
Status 2       Words, input or output are unusable, or a thread could not be started
Status 3       Memory ran out";

/// An option whose value is read so.
fn number<'a>(
    alloc: Global,
    id: &'a str,
    parser: ValueParser<'a>,
    default: &'a str,
    help: &'a str,
) -> Arg<'a>
    ensures rule { rule_of result ≡ number_option id.entry.now parser.entry default.entry.now }
    ensures local { result.global ≡ false }
{
    Arg::new(alloc, id)
        .long(id)
        .value_parser(parser)
        .default_value(default)
        .help(help)
}

/// The levels of paging.
fn levels<'a>(alloc: Global) -> Arg<'a>
    ensures rule { rule_of result ≡ levels_option }
    ensures local { result.global ≡ false }
{
    let parser = ValueParser::signed(4, 5);
    number(alloc, "levels", parser, "4", "The levels of paging: 4 or 5")
}

/// The number of replicas.
fn replicas<'a>(alloc: Global) -> Arg<'a>
    ensures rule { rule_of result ≡ replicas_option }
    ensures local { result.global ≡ false }
{
    let parser = ValueParser::signed(1, 4);
    number(
        alloc,
        "replicas",
        parser,
        "1",
        "The number of replicas: 1 to 4",
    )
}

/// The most tables of each replica.
fn tables<'a>(alloc: Global) -> Arg<'a>
    ensures rule { rule_of result ≡ tables_option }
    ensures local { result.global ≡ false }
{
    let parser = ValueParser::signed(1, 4096);
    number(
        alloc,
        "tables",
        parser,
        "4096",
        "The most tables of each replica: 1 to 4096",
    )
}

/// The most turns of each call.
fn turns<'a>(alloc: Global) -> Arg<'a>
    ensures rule { rule_of result ≡ turns_option }
    ensures local { result.global ≡ false }
{
    let parser = ValueParser::signed(1, 4_294_967_295);
    let help = "The most turns of each call, before it is stopped: 1 to 4294967295";
    number(alloc, "turns", parser, "100000", help)
}

/// Whether the run is made in segments.
fn chain<'a>(alloc: Global) -> Arg<'a>
    ensures rule { rule_of result ≡ chain_option }
    ensures local { result.global ≡ false }
{
    let help = "Reads a script of any length, and runs it in segments, which are one chain";
    Arg::new(alloc, "chain")
        .long("chain")
        .action(ArgAction::SetTrue)
        .help(help)
}

/// The most requests of a segment.
fn segment<'a>(alloc: Global) -> Arg<'a>
    ensures rule { rule_of result ≡ segment_option }
    ensures local { result.global ≡ false }
{
    let parser = ValueParser::signed(1, 65_536);
    let help = "With --chain, the most requests of a segment: 1 to 65536";
    number(alloc, "segment", parser, "65536", help)
}

/// Whether the trace is printed.
fn trace<'a>(alloc: Global, help: &'a str) -> Arg<'a>
    ensures rule { rule_of result ≡ trace_option }
    ensures local { result.global ≡ false }
{
    Arg::new(alloc, "trace")
        .long("trace")
        .action(ArgAction::SetTrue)
        .help(help)
}

fn simulate<'a>(alloc: Global) -> Result<Command<'a>, AllocError>
    ensures app { IfOk result (λ command. app_of command ≡ simulate_app) }
    ensures local { IfOk result IsLocal }
{
    let about =
        "Takes the steps of a script on standard input, and prints whether their trace is right";
    Command::new(alloc, "simulate")
        .about(about)
        .arg(levels(alloc))?
        .arg(replicas(alloc))?
        .arg(tables(alloc))?
        .arg(trace(alloc, "Prints the trace itself, and doesn't judge it"))
}

fn run<'a>(alloc: Global) -> Result<Command<'a>, AllocError>
    ensures app { IfOk result (λ command. app_of command ≡ run_app) }
    ensures local { IfOk result IsLocal }
{
    let about =
        "Runs the threads of a script on standard input, and prints the answers and whether the run is verified";
    Command::new(alloc, "run")
        .about(about)
        .arg(levels(alloc))?
        .arg(replicas(alloc))?
        .arg(tables(alloc))?
        .arg(turns(alloc))?
        .arg(chain(alloc))?
        .arg(segment(alloc))?
        .arg(trace(alloc, "Prints the trace of the run instead of the answers"))
}

/// The program's words.
///
/// # Errors
///
/// Out of memory.
pub fn command_line<'a>(alloc: Global) -> Result<Command<'a>, AllocError>
    ensures app { IfOk result (λ command. app_of command ≡ command_line) }
{
    let line = Command::new(alloc, "nrvs")
        .about("Checks recorded runs of replicated address spaces")
        .version(VERSION)
        .subcommand_required(true)
        .after_help(AFTER_HELP);
    let line = with_inspections(alloc, line)?;
    let line = with_command(line, simulate(alloc))?;
    with_command(line, run(alloc))
}
