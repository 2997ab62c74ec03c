//! The words of the commands.
ghost use Rattle.std.specs.Prelude.{◌≡◌, false, IfOk};
ghost use Rattle.clap.specs.Words.{App, app_of, rule_of, with_subcommand};
ghost use Rattle.audit_commands.specs.Words.{address_option, audit_app, explain_app, file_argument, files_argument, flag_option};
ghost use Rattle.audit_commands.specs.Words.{order_app, pages_app};
ghost use Rattle.audit_commands.specs.Words.{least_option, most_steps_option, replica_option, resolve_app, with_inspections, IsLocal};

use clap::builder::ValueParser;
use clap::{Arg, ArgAction, Command, value_parser};
use std::alloc::{AllocError, Global};

/// The version that `--version` prints.
pub const VERSION: &str = "0.1.0";

/// The file that is read in place of standard input.
fn file<'a>(alloc: Global) -> Arg<'a>
    ensures rule { rule_of result ≡ file_argument }
    ensures local { result.global ≡ false }
{
    Arg::new(alloc, "file")
        .value_name("FILE")
        .help("The trace; standard input where it is - or not given")
}

/// The files that are read in place of standard input.
fn files<'a>(alloc: Global) -> Arg<'a>
    ensures rule { rule_of result ≡ files_argument }
    ensures local { result.global ≡ false }
{
    Arg::new(alloc, "file")
        .value_name("FILE")
        .action(ArgAction::Append)
        .help("The traces, of several a line each; standard input where it is - or none is given")
}

/// An option that has no value.
fn flag<'a>(alloc: Global, id: &'a str, help: &'a str) -> Arg<'a>
    ensures rule { rule_of result ≡ flag_option id.entry.now }
    ensures local { result.global ≡ false }
{
    Arg::new(alloc, id)
        .long(id)
        .action(ArgAction::SetTrue)
        .help(help)
}

/// The address that is looked up.
fn address<'a>(alloc: Global) -> Arg<'a>
    ensures rule { rule_of result ≡ address_option }
    ensures local { result.global ≡ false }
{
    Arg::new(alloc, "address")
        .long("address")
        .required(true)
        .help("A canonical address: 0x and 1 to 16 hexadecimal digits")
}

/// The replica whose dump is looked into.
fn replica<'a>(alloc: Global) -> Arg<'a>
    ensures rule { rule_of result ≡ replica_option }
    ensures local { result.global ≡ false }
{
    Arg::new(alloc, "replica")
        .long("replica")
        .value_parser(value_parser!(u8))
        .default_value("0")
        .help("The number of the replica whose dump is looked into")
}

/// How many calls are to overlap.
fn least_overlap<'a>(alloc: Global) -> Arg<'a>
    ensures rule { rule_of result ≡ least_option }
    ensures local { result.global ≡ false }
{
    Arg::new(alloc, "least-overlap")
        .long("least-overlap")
        .value_parser(value_parser!(u32))
        .default_value("0")
        .help("Ends with status 2 if the answer is yes and fewer calls overlap another one")
}

/// The words of `audit`.
fn audit<'a>(alloc: Global) -> Result<Command<'a>, AllocError>
    ensures app { IfOk result (λ command. app_of command ≡ audit_app) }
    ensures local { IfOk result IsLocal }
{
    let chain =
        "The input is a chain: prints whether its segments are right, each as soon as it is read";
    let quiet = "With --chain: prints nothing of the segments that are right";
    let progress =
        "With --chain: shows on standard error how far it has come, if that is a terminal";
    let json = "Prints a JSON object on a line: for each file, or for each segment and at the end";
    let tap = "Prints a line of the Test Anything Protocol for each file that is named";
    Command::new(alloc, "audit")
        .about("Prints whether a trace is right")
        .arg(flag(alloc, "json", json))?
        .arg(flag(alloc, "chain", chain))?
        .arg(flag(alloc, "quiet", quiet))?
        .arg(flag(alloc, "progress", progress))?
        .arg(least_overlap(alloc))?
        .arg(flag(alloc, "tap", tap))?
        .arg(files(alloc))
}

/// The words of `explain`.
fn explain<'a>(alloc: Global) -> Result<Command<'a>, AllocError>
    ensures app { IfOk result (λ command. app_of command ≡ explain_app) }
    ensures local { IfOk result IsLocal }
{
    let json = "Prints one JSON object";
    let all = "Prints what is wrong with each other dump, too";
    let chain =
        "The input is a chain: prints how much it has, or the first fault and what shows it";
    Command::new(alloc, "explain")
        .about("Prints whether a trace is right, and what shows a fault")
        .arg(flag(alloc, "json", json))?
        .arg(flag(alloc, "all", all))?
        .arg(flag(alloc, "chain", chain))?
        .arg(file(alloc))
}

/// The most steps of a search.
fn most_steps<'a>(alloc: Global) -> Arg<'a>
    ensures rule { rule_of result ≡ most_steps_option }
    ensures local { result.global ≡ false }
{
    Arg::new(alloc, "steps")
        .long("steps")
        .value_parser(ValueParser::signed(1, 4_294_967_295))
        .default_value("8000000")
        .help("The most steps of the search: 1 to 4294967295")
}

/// The words of `order`.
fn order<'a>(alloc: Global) -> Result<Command<'a>, AllocError>
    ensures app { IfOk result (λ command. app_of command ≡ order_app) }
    ensures local { IfOk result IsLocal }
{
    let trace = "Prints the trace that has the order as its log, if one is found";
    Command::new(alloc, "order")
        .about("Looks for an order of the calls with which a trace is right, whatever its log is")
        .arg(flag(alloc, "trace", trace))?
        .arg(most_steps(alloc))?
        .arg(file(alloc))
}

/// The words of `resolve`.
fn resolve<'a>(alloc: Global) -> Result<Command<'a>, AllocError>
    ensures app { IfOk result (λ command. app_of command ≡ resolve_app) }
    ensures local { IfOk result IsLocal }
{
    Command::new(alloc, "resolve")
        .about("Prints where an address leads in a dump of a trace")
        .arg(address(alloc))?
        .arg(replica(alloc))?
        .arg(flag(
            alloc,
            "steps",
            "Prints the entries that the walk reads, too",
        ))?
        .arg(file(alloc))
}

/// The words of `pages`.
fn pages<'a>(alloc: Global) -> Result<Command<'a>, AllocError>
    ensures app { IfOk result (λ command. app_of command ≡ pages_app) }
    ensures local { IfOk result IsLocal }
{
    let ranges = "Prints pages that follow one another on one line";
    let chain = "The input is a chain: prints the pages at one of its ends";
    let start = "With --chain: the pages with which its first segment begins";
    let end = "With --chain: the pages after its last segment, where all are right";
    Command::new(alloc, "pages")
        .about("Prints the pages of a dump of a trace, or at an end of a chain")
        .arg(replica(alloc))?
        .arg(flag(alloc, "ranges", ranges))?
        .arg(flag(alloc, "chain", chain))?
        .arg(flag(alloc, "start", start))?
        .arg(flag(alloc, "end", end))?
        .arg(file(alloc))
}

/// A program's words with a command's, if memory was there for these.
///
/// # Errors
///
/// Out of memory.
pub fn with_command<'a>(
    line: Command<'a>,
    command: Result<Command<'a>, AllocError>,
) -> Result<Command<'a>, AllocError>
    ensures { (app : App) → IfOk command.entry (λ given. (app_of given ≡ app) × IsLocal given)
        → IfOk result (λ whole. app_of whole ≡ with_subcommand (app_of line.entry) app.top) }
{
    let given = command?;
    line.subcommand(given)
}

/// A program's words with those of `audit`, `explain`, `order`, `resolve` and `pages`.
///
/// # Errors
///
/// Out of memory.
pub fn with_inspections<'a>(alloc: Global, line: Command<'a>) -> Result<Command<'a>, AllocError>
    ensures app { IfOk result (λ whole. app_of whole ≡ with_inspections (app_of line.entry)) }
{
    let line = with_command(line, audit(alloc))?;
    let line = with_command(line, explain(alloc))?;
    let line = with_command(line, order(alloc))?;
    let line = with_command(line, resolve(alloc))?;
    with_command(line, pages(alloc))
}
