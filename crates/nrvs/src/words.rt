//! What the program's words ask for.

ghost use Rattle.std.specs.Prelude.{◌≡◌, ◌≤◌, ◌⊎◌, [], false, IfOk, IfErr, Some, MatchResult, codes, map, string_bytes};
ghost use Rattle.vs_types.specs.declared.limits.TheConstants.{MOST_LEVELS};
ghost use Rattle.vs_types.specs.Depth.{levels};
ghost use Rattle.clap.specs.Words.{fault_of, found_of, kind_of, one_text, rows_of, subcommand_of, subcommand_rows_of, HasKind};
ghost use Rattle.audit_commands.specs.Words.{kinds_of_no_words, IsRefusal};
ghost use Rattle.nrvs.specs.CommandLine.{command_line, Asks, AsksRun, IsMisusedHere, IsNumber, IsSegmentSize, IsSetup, IsTurns};

use crate::command::Command;
use crate::command_line::command_line;
use crate::runs::{ChainSetup, Setup};
use audit_commands::{NoWords, read_inspection};
use clap::error::ErrorKind;
use clap::{ArgMatches, Error};
use std::alloc::{AllocError, Global};
use vs_types::Depth;

/// The number that was given, which lies within its limits since clap has tested it; or the default.
fn read_number(given: &ArgMatches<'_>, id: &str, least: u16, most: u16, default: u16) -> u16
    requires low { least ≤ default }
    requires high { default ≤ most }
    ensures number { IsNumber least most default (one_text (found_of given.now) id.now) result }
    ensures least { least ≤ result }
    ensures most { result ≤ most }
{
    match given.get_one::<u16>(id) {
        Some(number) if least <= number && number <= most => number,
        _ => default,
    }
}

fn depth_of(count: u16) -> Depth
    requires low { 4 ≤ count }
    requires high { count ≤ MOST_LEVELS }
    ensures { levels result ≡ count }
{
    if count == 5 { Depth::Five } else { Depth::Four }
}

/// The most turns of a call: what was given, where it is at least 1, or the default.
fn read_turns(given: &ArgMatches<'_>) -> u32
    ensures { IsTurns (one_text (found_of given.now) (codes "turns")) result }
{
    match given.get_one::<u32>("turns") {
        Some(turns) if 1 <= turns => turns,
        _ => 100_000,
    }
}

/// The most requests of a segment: what was given, where it is from 1 to 65,536, or the default.
fn read_segment(given: &ArgMatches<'_>) -> u32
    ensures size { IsSegmentSize (one_text (found_of given.now) (codes "segment")) result }
    ensures low { 1 ≤ result }
    ensures high { result ≤ 65536 }
{
    match given.get_one::<u32>("segment") {
        Some(most) if 1 <= most && most <= 65_536 => most,
        _ => 65_536,
    }
}

/// How a simulation or a run is laid out.
fn read_setup(given: &ArgMatches<'_>) -> Setup
    ensures { IsSetup (rows_of (found_of given.now)) result }
{
    let depth = depth_of(read_number(given, "levels", 4, 5, 4));
    let replicas = read_number(given, "replicas", 1, 4, 1);
    let tables = read_number(given, "tables", 1, 4096, 4096);
    Setup {
        depth,
        replicas: replicas as u8,
        tables,
    }
}

/// A run, or one in segments.
fn read_run<'a>(given: &ArgMatches<'_>) -> Command<'a>
    ensures { AsksRun (rows_of (found_of given.now)) result }
{
    let setup = read_setup(given);
    let turns = read_turns(given);
    let as_trace = given.get_flag("trace");
    if given.get_flag("chain") {
        let most = read_segment(given);
        Command::RunChain(
            setup,
            ChainSetup {
                turns,
                most,
                as_trace,
            },
        )
    } else {
        Command::Run(setup, turns, as_trace)
    }
}

/// What the subcommand of this name and what was given with it ask for, or what is wrong with that.
fn read_named<'a>(
    alloc: Global,
    line: &mut clap::Command<'a>,
    matches: &ArgMatches<'a>,
    name: &str,
    given: &ArgMatches<'a>,
) -> Result<Command<'a>, Error>
    requires { subcommand_rows_of matches.now ≡ Some (name.now, rows_of (found_of given.now)) }
    ensures asks { IfOk result (Asks (subcommand_rows_of matches.now)) }
    ensures fault { IfErr result (λ error. HasKind [] error
        ⊎ IsMisusedHere (subcommand_rows_of matches.now) (kind_of error)) }
{
    match name {
        "simulate" => {
            let setup = read_setup(given);
            let as_trace = given.get_flag("trace");
            Ok(Command::Simulate(setup, as_trace))
        }
        "run" => Ok(read_run(given)),
        _ => Ok(Command::Inspect(read_inspection(alloc, line, matches)?)),
    }
}

/// What a subcommand and what was given with it ask for, or what is wrong with that.
fn read_matches<'a>(
    alloc: Global,
    line: &mut clap::Command<'a>,
    matches: &ArgMatches<'a>,
) -> Result<Command<'a>, Error>
    ensures asks { IfOk result (Asks (subcommand_rows_of matches.now)) }
    ensures fault { IfErr result (λ error. HasKind [] error
        ⊎ IsMisusedHere (subcommand_rows_of matches.now) (kind_of error)) }
{
    match matches.subcommand() {
        Some((name, given)) => read_named(alloc, line, matches, name, given),
        None => Ok(Command::Inspect(read_inspection(alloc, line, matches)?)),
    }
}

/// What the words ask for, or what clap answers to them.
fn read_words<'a>(alloc: Global, words: &'a [String]) -> Result<Command<'a>, Error>
    ensures asks { IfOk result
        (Asks (subcommand_of command_line (map (λ word. string_bytes word) words.entry.now))) }
    ensures faultless { IfOk result
        (λ _. fault_of command_line (map (λ word. string_bytes word) words.entry.now) ≡ []) }
    ensures fault { IfErr result
        (IsRefusal IsMisusedHere command_line (map (λ word. string_bytes word) words.entry.now)) }
{
    let mut line = command_line(alloc)?;
    let matches = line.try_get_matches_from_mut(words)?;
    read_matches(alloc, &mut line, &matches)
}

/// The same, if the words are known.
///
/// # Errors
///
/// What clap answers to the words, also to those that ask for help or the version, and where memory ran out.
pub fn read_program_words<'a>(
    alloc: Global,
    words: &'a Result<Vec<String>, NoWords>,
) -> Result<Command<'a>, Error>
    ensures asks { IfOk words.entry.now
        (λ given.
        IfOk result
        (Asks (subcommand_of command_line (map (λ word. string_bytes word) given.items)))) }
    ensures faultless { IfOk words.entry.now
        (λ given.
        IfOk result
        (λ _. fault_of command_line (map (λ word. string_bytes word) given.items) ≡ [])) }
    ensures fault { IfOk words.entry.now
        (λ given. IfErr result
        (IsRefusal IsMisusedHere command_line (map (λ word. string_bytes word) given.items))) }
    ensures no_words { IfErr words.entry.now
        (λ why. MatchResult result (λ _. ⊥) (HasKind (kinds_of_no_words why))) }
{
    match words {
        Ok(words) => read_words(alloc, words.as_slice()),
        Err(NoWords::Memory) => Err(Error::from(AllocError)),
        Err(NoWords::NotText) => {
            let mut line = command_line(alloc)?;
            Err(line.error(ErrorKind::ValueValidation, "a word is not UTF-8")?)
        }
    }
}
