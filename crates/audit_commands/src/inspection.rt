//! What the words of `audit`, `explain`, `order`, `resolve` and `pages` ask for.

ghost use Rattle.std.specs.Prelude.{◌≡◌, ◌⊎◌, ◌↔◌, [], IfErr, IfOk, IsSomeAnd, IsTrue, MatchBool, Some, codes, false, map, option_map, true};
ghost use Rattle.std.specs.List.{All};
ghost use Rattle.clap.specs.Walk.{one_of};
ghost use Rattle.clap.specs.Words.{first_of, found_of, kind_of, rows_of, subcommand_rows_of, HasKind};
ghost use Rattle.audit_commands.specs.Words.{AsksAudit, AsksAudits, AsksExplain, AsksInspection, AsksOrder, AsksPages, AsksResolve};
ghost use Rattle.audit_commands.specs.Words.{AsksTests, AsksTraces};
ghost use Rattle.audit_commands.specs.Words.{HasNoOtherOption, HasOtherOption, IsAuditMisuse, IsPlain, IsTestsMisuse};
ghost use Rattle.audit_commands.specs.Words.{IsFlag, IsLeast, IsMisuse, IsMisused, IsPagesMisuse, IsPoint, IsPointMisuse};
ghost use Rattle.audit_commands.specs.Words.{input_of, named_file};

use crate::task::{ChainPoint, Task};
use audit_texts::Style;
use clap::error::ErrorKind;
use clap::{ArgMatches, Command, Error};
use std::alloc::Global;

/// What the words of `audit`, `explain`, `order`, `resolve` or `pages` ask for.
#[derive(Debug, Drop)]
pub enum Inspection<'a> {
    /// A task on one input: the file of this name, or standard input.
    One(Task<'a>, Option<&'a str>),
    /// An audit of each of these files, a line each, and whether as JSON; `-` is standard input.
    Each(bool, Vec<&'a str>),
    /// A test of each of these files; `-` is standard input.
    Tests(Vec<&'a str>),
}

/// The file of this name, or none where it is `-`, which is standard input.
fn named_file(name: &str) -> Option<&str>
    ensures { option_map (λ name. name.now) result ≡ named_file name.entry.now }
{
    if name == "-" { None } else { Some(name) }
}

/// The file that was named, if it isn't standard input.
fn input_of<'a>(given: &ArgMatches<'a>) -> Option<&'a str>
    ensures { option_map (λ name. name.now) result
        ≡ input_of (first_of (codes "file") (rows_of (found_of given.now))) }
{
    match given.get_str("file") {
        Some(name) => named_file(name),
        None => None,
    }
}

/// How many calls are to overlap.
fn read_least(given: &ArgMatches<'_>) -> u32
    ensures { IsLeast (rows_of (found_of given.now)) result }
{
    given.get_one::<u32>("least-overlap").unwrap_or(0)
}

/// The audit of one trace or of several that was asked for; of one so that so many calls overlap.
fn read_traces<'a>(
    alloc: Global,
    line: &mut Command<'a>,
    given: &ArgMatches<'a>,
    least: u32,
) -> Result<Inspection<'a>, Error>
    requires { IsLeast (rows_of (found_of given.now)) least }
    ensures asks { IfOk result (AsksTraces (rows_of (found_of given.now))) }
    ensures misused { IfErr result (λ error. (kind_of error ≡ ErrorKind.OutOfMemory)
        ⊎ IsMisuse (rows_of (found_of given.now)) (kind_of error)) }
{
    let as_json = is_given(given, "json");
    match given.get_raw("file") {
        Some(names) => {
            if 1 < names.len() {
                if least > 0 {
                    let several = line.error(
                        ErrorKind::TooManyValues,
                        "--least-overlap is for one file",
                    )?;
                    return Err(several);
                }
                let names = Vec::from_slice(alloc, names)?;
                return Ok(Inspection::Each(as_json, names));
            }
            Ok(Inspection::One(Task::Audit(as_json, least), input_of(given)))
        }
        None => Ok(Inspection::One(Task::Audit(as_json, least), input_of(given))),
    }
}

/// The audit of one chain that was asked for, where the files that were named would ask for this without `--chain`.
fn read_chain<'a>(
    line: &mut Command<'a>,
    given: &ArgMatches<'a>,
    asked: Inspection<'a>,
    least: u32,
) -> Result<Inspection<'a>, Error>
    requires chain { IsFlag (one_of (codes "chain") (rows_of (found_of given.now))) true }
    requires asked { AsksTraces (rows_of (found_of given.now)) asked }
    requires least { IsLeast (rows_of (found_of given.now)) least }
    ensures asks { IfOk result (AsksAudit (rows_of (found_of given.now))) }
    ensures misused { IfErr result (λ error. (kind_of error ≡ ErrorKind.OutOfMemory)
        ⊎ IsMisuse (rows_of (found_of given.now)) (kind_of error)) }
{
    match asked {
        Inspection::One(_, input) => {
            let as_json = is_given(given, "json");
            let quiet = is_given(given, "quiet");
            let watched = is_given(given, "progress");
            let style = Style { as_json, quiet };
            return Ok(Inspection::One(Task::AuditChain(style, watched, least), input));
        }
        _ => {
            let several = line.error(ErrorKind::TooManyValues, "one chain is audited at a time")?;
            return Err(several);
        }
    }
}

/// What was given with `audit` asks for. The line is that of the program, for what it says of its words.
///
/// # Errors
///
/// `TooManyValues` where several chains are named, or several traces of which calls are to overlap; `MissingRequiredArgument` where it is to
/// be quiet of no chain, or to show how far it has come with none; out of memory.
fn read_audit<'a>(
    alloc: Global,
    line: &mut Command<'a>,
    given: &ArgMatches<'a>,
) -> Result<Inspection<'a>, Error>
    ensures asks { IfOk result (AsksAudit (rows_of (found_of given.now))) }
    ensures misused { IfErr result (λ error. (kind_of error ≡ ErrorKind.OutOfMemory)
        ⊎ IsMisuse (rows_of (found_of given.now)) (kind_of error)) }
{
    let least = read_least(given);
    let asked = read_traces(alloc, line, given, least)?;
    if is_given(given, "chain") {
        return read_chain(line, given, asked, least);
    }
    if is_given(given, "quiet") {
        let alone = line.error(
            ErrorKind::MissingRequiredArgument,
            "--quiet is for --chain alone",
        )?;
        return Err(alone);
    }
    if is_given(given, "progress") {
        let unchained = line.error(
            ErrorKind::MissingRequiredArgument,
            "--progress is for --chain alone",
        )?;
        return Err(unchained);
    }
    Ok(asked)
}

/// Whether a test may have this name: it has no control character, which could end its line, and no `#`, which could begin a directive.
fn is_plain(name: &str) -> bool
    ensures { IsTrue result ↔ IsPlain name.now }
{
    name.as_bytes()
        .iter()
        .all(|byte| *byte >= b' ' && *byte != b'#' && *byte != 127)
}

/// Whether tests may have these names.
fn are_plain(names: &[&str]) -> bool
    ensures { IsTrue result ↔ All (λ name. IsPlain name.now) names.now }
{
    names.iter().all(|name| is_plain(*name))
}

/// Whether an option was given with which no file is a test.
fn has_other_option(given: &ArgMatches<'_>) -> bool
    ensures { MatchBool result (HasOtherOption (rows_of (found_of given.now)))
        (HasNoOtherOption (rows_of (found_of given.now))) }
{
    let least = read_least(given);
    if least > 0 {
        return true;
    }
    let json = is_given(given, "json");
    let chain = is_given(given, "chain");
    let quiet = is_given(given, "quiet");
    let progress = is_given(given, "progress");
    (json | chain) | (quiet | progress)
}

/// What was given with `audit` and `--tap` asks for.
///
/// # Errors
///
/// `ArgumentConflict` if there is another option, `MissingRequiredArgument` if no file is named, `ValueValidation` if one has a name that
/// no test can have; out of memory.
fn read_tests<'a>(
    alloc: Global,
    line: &mut Command<'a>,
    given: &ArgMatches<'a>,
) -> Result<Inspection<'a>, Error>
    ensures asks { IfOk result (AsksTests (rows_of (found_of given.now))) }
    ensures misused { IfErr result (λ error. (kind_of error ≡ ErrorKind.OutOfMemory)
        ⊎ IsTestsMisuse (rows_of (found_of given.now)) (kind_of error)) }
{
    let other = has_other_option(given);
    if other {
        let conflict = line.error(ErrorKind::ArgumentConflict, "--tap takes no other option")?;
        return Err(conflict);
    }
    match given.get_raw("file") {
        Some(names) => {
            let plain = are_plain(names);
            if plain {
                let names = Vec::from_slice(alloc, names)?;
                return Ok(Inspection::Tests(names));
            }
            let unfit = line.error(
                ErrorKind::ValueValidation,
                "--tap takes no name with # or a control character",
            )?;
            Err(unfit)
        }
        None => {
            let none = line.error(
                ErrorKind::MissingRequiredArgument,
                "--tap takes the names of files",
            )?;
            Err(none)
        }
    }
}

/// What was given with `audit` asks for, as tests or not. The line is that of the program, for what it says of its words.
///
/// # Errors
///
/// Those of `read_audit` and of `read_tests`.
fn read_audits<'a>(
    alloc: Global,
    line: &mut Command<'a>,
    given: &ArgMatches<'a>,
) -> Result<Inspection<'a>, Error>
    ensures asks { IfOk result (AsksAudits (rows_of (found_of given.now))) }
    ensures misused { IfErr result (λ error. (kind_of error ≡ ErrorKind.OutOfMemory)
        ⊎ IsAuditMisuse (rows_of (found_of given.now)) (kind_of error)) }
{
    let tap = is_given(given, "tap");
    if tap {
        return read_tests(alloc, line, given);
    }
    read_audit(alloc, line, given)
}

/// What was given with `explain` asks for.
fn read_explain<'a>(given: &ArgMatches<'a>) -> Inspection<'a>
    ensures { AsksExplain (rows_of (found_of given.now)) result }
{
    let as_json = is_given(given, "json");
    if is_given(given, "chain") {
        return Inspection::One(Task::ExplainChain(as_json), input_of(given));
    }
    let with_dumps = is_given(given, "all");
    Inspection::One(Task::Explain(as_json, with_dumps), input_of(given))
}

/// What was given with `order` asks for.
fn read_order<'a>(given: &ArgMatches<'a>) -> Inspection<'a>
    ensures { AsksOrder (rows_of (found_of given.now)) result }
{
    let as_trace = is_given(given, "trace");
    let steps = given.get_one::<u32>("steps").unwrap_or(0);
    Inspection::One(Task::Order(as_trace, steps), input_of(given))
}

/// What was given with `resolve` asks for.
fn read_resolve<'a>(given: &ArgMatches<'a>) -> Inspection<'a>
    ensures { AsksResolve (rows_of (found_of given.now)) result }
{
    let address = given.get_str("address").unwrap_or("");
    let replica = given.get_one::<u8>("replica").unwrap_or(0);
    let with_steps = given.get_flag("steps");
    Inspection::One(Task::Resolve(address, replica, with_steps), input_of(given))
}

/// Whether an option was given that has no value.
fn is_given(given: &ArgMatches<'_>, id: &str) -> bool
    ensures { IsFlag (one_of id.now (rows_of (found_of given.now))) result }
{
    given.get_flag(id)
}

/// At which point of a chain its pages were asked for.
fn read_point<'a>(line: &mut Command<'a>, given: &ArgMatches<'a>) -> Result<ChainPoint, Error>
    ensures point { IfOk result (IsPoint (rows_of (found_of given.now))) }
    ensures misused { IfErr result (λ error. (kind_of error ≡ ErrorKind.OutOfMemory)
        ⊎ IsPointMisuse (rows_of (found_of given.now)) (kind_of error)) }
{
    let start = is_given(given, "start");
    let end = is_given(given, "end");
    if start && end {
        let both = line.error(
            ErrorKind::ArgumentConflict,
            "--chain takes --start or --end, and not both",
        )?;
        return Err(both);
    }
    if start {
        return Ok(ChainPoint::Start);
    }
    if end {
        return Ok(ChainPoint::End);
    }
    let none = line.error(
        ErrorKind::MissingRequiredArgument,
        "--chain takes --start or --end",
    )?;
    Err(none)
}

/// The pages of a trace's dump that were asked for.
fn read_dump_pages<'a>(
    line: &mut Command<'a>,
    given: &ArgMatches<'a>,
) -> Result<Inspection<'a>, Error>
    requires { IsFlag (one_of (codes "chain") (rows_of (found_of given.now))) false }
    ensures asks { IfOk result (AsksPages (rows_of (found_of given.now))) }
    ensures misused { IfErr result (λ error. (kind_of error ≡ ErrorKind.OutOfMemory)
        ⊎ IsPagesMisuse (rows_of (found_of given.now)) (kind_of error)) }
{
    let start = is_given(given, "start");
    let end = is_given(given, "end");
    if start || end {
        let alone = line.error(
            ErrorKind::MissingRequiredArgument,
            "--start and --end are for --chain alone",
        )?;
        return Err(alone);
    }
    let replica = given.get_one::<u8>("replica").unwrap_or(0);
    let as_ranges = is_given(given, "ranges");
    Ok(Inspection::One(Task::Pages(replica, as_ranges), input_of(given)))
}

/// What was given with `pages` asks for. The line is that of the program, for what it says of its words.
///
/// # Errors
///
/// `ArgumentConflict` where both ends of a chain are asked for, `MissingRequiredArgument` where none is, or one but no chain; out of
/// memory.
fn read_pages<'a>(line: &mut Command<'a>, given: &ArgMatches<'a>) -> Result<Inspection<'a>, Error>
    ensures asks { IfOk result (AsksPages (rows_of (found_of given.now))) }
    ensures misused { IfErr result (λ error. (kind_of error ≡ ErrorKind.OutOfMemory)
        ⊎ IsPagesMisuse (rows_of (found_of given.now)) (kind_of error)) }
{
    if !is_given(given, "chain") {
        return read_dump_pages(line, given);
    }
    let point = read_point(line, given)?;
    let as_ranges = is_given(given, "ranges");
    Ok(Inspection::One(Task::PagesOfChain(point, as_ranges), input_of(given)))
}

/// What the subcommand of this name and what was given with it ask for.
///
/// # Errors
///
/// Those of `read_inspection`.
fn read_named<'a>(
    alloc: Global,
    line: &mut Command<'a>,
    name: &str,
    given: &ArgMatches<'a>,
) -> Result<Inspection<'a>, Error>
    ensures asks { IfOk result (AsksInspection (name.now, rows_of (found_of given.now))) }
    ensures fault { IfErr result (λ error. HasKind [] error
        ⊎ IsMisused (Some (name.now, rows_of (found_of given.now))) (kind_of error)) }
{
    match name {
        "audit" => read_audits(alloc, line, given),
        "explain" => Ok(read_explain(given)),
        "order" => Ok(read_order(given)),
        "resolve" => Ok(read_resolve(given)),
        "pages" => read_pages(line, given),
        _ => {
            let other = line.error(ErrorKind::MissingSubcommand, "a subcommand is required")?;
            Err(other)
        }
    }
}

/// What `audit`, `explain`, `order`, `resolve` or `pages` and what was given with it ask for. The line is that of the program, for what it
/// says of its words.
///
/// # Errors
///
/// `MissingSubcommand` where none of these was given, and out of memory. Otherwise what is wrong with what was given: `TooManyValues` where
/// several chains are named to `audit`; `ArgumentConflict` where both ends of a chain are asked of `pages`, or `--tap` has another option.
/// `MissingRequiredArgument` where an option lacks the one or the files that it is for; `ValueValidation` where a test can't have the name
/// of a file.
pub fn read_inspection<'a>(
    alloc: Global,
    line: &mut Command<'a>,
    matches: &ArgMatches<'a>,
) -> Result<Inspection<'a>, Error>
    ensures asks { IfOk result (λ inspection. IsSomeAnd (subcommand_rows_of matches.now)
        (λ given. AsksInspection given inspection)) }
    ensures fault { IfErr result (λ error. HasKind [] error
        ⊎ IsMisused (subcommand_rows_of matches.now) (kind_of error)) }
{
    match matches.subcommand() {
        Some((name, given)) => read_named(alloc, line, name, given),
        None => {
            let none = line.error(ErrorKind::MissingSubcommand, "a subcommand is required")?;
            Err(none)
        }
    }
}
