//! The program of the audit alone: from its words to its exit status.

ghost use Rattle.audit_commands.specs.Tasks.{EndsWith, Runs, RunsInspection};

use audit_commands::{
    Diagnostics, FilesByName, Inspection, exit_status, run_inspection, tell_outcome, tell_refusal,
};
use audit_readers::{Input, ProgFault, Sink};
use clap::Error;
use std::alloc::Global;
use std::io::Read;

/// Makes the inspection that was asked for.
fn try_run<F: FilesByName, R: Read + Drop, W: Sink, E: Diagnostics>(
    files: &F,
    alloc: Global,
    asked: Result<Inspection<'_>, Error>,
    reader: R,
    output: &mut W,
    errors: &mut E,
) -> Result<u8, ProgFault>
    ensures { Runs (RunsInspection (F.file_bytes files.now)) asked.entry (R.remaining reader)
        W.contents output.old output.new result }
{
    let mut input = Input::new(reader);
    match asked {
        Ok(inspection) => run_inspection(files, alloc, inspection, &mut input, output, errors),
        Err(refusal) => {
            let outcome = tell_refusal(alloc, refusal, output, errors);
            let _ = tell_outcome(alloc, &outcome, None, None, &*output, errors);
            outcome
        }
    }
}

/// The whole program over what its words ask for and its three ends: gives the exit status.
pub fn run<F: FilesByName, R: Read + Drop, W: Sink, E: Diagnostics>(
    files: &F,
    alloc: Global,
    asked: Result<Inspection<'_>, Error>,
    reader: R,
    output: &mut W,
    errors: &mut E,
) -> u8
    ensures { EndsWith (RunsInspection (F.file_bytes files.now)) asked.entry (R.remaining reader)
        W.contents output.old output.new result }
{
    let outcome = try_run(files, alloc, asked, reader, output, errors);
    exit_status(outcome)
}
