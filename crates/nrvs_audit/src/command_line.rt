//! The words that the program knows.
ghost use Rattle.std.specs.Prelude.{◌≡◌, IfOk};
ghost use Rattle.clap.specs.Words.{app_of};
ghost use Rattle.nrvs_audit.specs.CommandLine.{nrvs_audit_line};

use audit_commands::{VERSION, with_inspections};
use clap::Command;
use std::alloc::{AllocError, Global};

/// What `--help` prints after the commands.
const AFTER_HELP: &str = "\
yes       The run is right: one address space gives each answer, in an order that fits the log (status 0)
no        The record of the run is not right, and its first fault is printed (status 1)
Status 2  Words, input or output are unusable
Status 3  Memory ran out";

/// The program's words.
///
/// # Errors
///
/// Out of memory.
pub fn command_line<'a>(alloc: Global) -> Result<Command<'a>, AllocError>
    ensures app { IfOk result (λ command. app_of command ≡ nrvs_audit_line) }
{
    let line = Command::new(alloc, "nrvs_audit")
        .about("Checks recorded runs of replicated address spaces")
        .version(VERSION)
        .subcommand_required(true)
        .after_help(AFTER_HELP);
    with_inspections(alloc, line)
}
