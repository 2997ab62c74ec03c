//! The program: from its words to its exit status.

ghost use Rattle.audit_commands.specs.Tasks.{EndsWith, Runs};
ghost use Rattle.nrvs.specs.Program.{RunsCommand};

use crate::command::Command;
use crate::runs::{KeptLines, run_chain_io, run_io, simulate_io};
use audit_commands::{
    Diagnostics, FilesByName, exit_status, remark, run_inspection, tell_outcome, tell_refusal,
};
use audit_readers::{Form, Input, ProgFault, Sink};
use clap::Error;
use nr_script::why_bad;
use std::alloc::Global;
use std::io::Read;
use std::sync::Wait;
use std::thread::Threads;
use vs_types::Depth;

/// What is said of an input of this form, where a line of it is bad, if it is no text.
fn other_form(form: Form) -> Option<&'static str> {
    match form {
        Form::Trace => Some("this is a trace, and no script: use audit"),
        Form::Chain => Some("this is a chain, and no script: use audit --chain"),
        Form::Gzip => Some("this is compressed: unpack it with gzip -dc"),
        Form::Xz => Some("this is compressed: unpack it with xz -dc"),
        Form::Empty | Form::Text | Form::Unknown => None,
    }
}

/// Writes to the errors why there is no answer to a script, where there is none, and on a terminal why a line of it is bad.
fn tell_script<R: Read, W: Sink, E: Diagnostics>(
    alloc: Global,
    outcome: &Result<u8, ProgFault>,
    depth: Depth,
    takes_steps: bool,
    input: &Input<KeptLines<R>>,
    output: &W,
    errors: &mut E,
) {
    let _ = tell_outcome(alloc, outcome, None, input.error(), output, errors);
    let Err(ProgFault::BadLine(number)) = outcome else {
        return;
    };
    match (other_form(input.form()), input.reader.line(*number)) {
        (Some(text), _) => remark(None, text, errors),
        (None, Some(line)) => remark(None, why_bad(depth, line, takes_steps), errors),
        (None, None) => {}
    }
}

/// Whether the lines of the input are to be kept: those of a script are, where somebody reads why one is bad.
fn keeps_lines<E: Diagnostics>(asked: &Result<Command<'_>, Error>, errors: &E) -> bool {
    match asked {
        Ok(Command::Simulate(_, _) | Command::Run(_, _, _) | Command::RunChain(_, _)) => {
            errors.is_terminal()
        }
        Ok(Command::Inspect(_)) | Err(_) => false,
    }
}

/// Runs what was asked for. It may wait, where that is a run.
fn try_run<T: FilesByName + Threads + Wait + Sync, R: Read + Drop, W: Sink, E: Diagnostics>(
    rt: &T,
    alloc: Global,
    asked: Result<Command<'_>, Error>,
    reader: R,
    output: &mut W,
    errors: &mut E,
) -> Result<u8, ProgFault>
    ensures { Runs (RunsCommand (T.file_bytes rt.now)) asked.entry (R.remaining reader)
        W.contents output.old output.new result }
{
    let keeps = keeps_lines(&asked, &*errors);
    let mut input = Input::new(KeptLines::new(alloc, reader, keeps));
    match asked {
        Ok(Command::Inspect(inspection)) => {
            run_inspection(rt, alloc, inspection, &mut input, output, errors)
        }
        Ok(Command::Simulate(setup, as_trace)) => {
            let outcome = simulate_io(alloc, &mut input, output, setup, as_trace);
            tell_script(alloc, &outcome, setup.depth, true, &input, &*output, errors);
            outcome
        }
        Ok(Command::Run(setup, turns, as_trace)) => {
            let depth = setup.depth;
            let outcome = run_io(rt, alloc, &mut input, output, setup, turns, as_trace);
            tell_script(alloc, &outcome, depth, false, &input, &*output, errors);
            outcome
        }
        Ok(Command::RunChain(setup, chain)) => {
            let depth = setup.depth;
            let outcome = run_chain_io(rt, alloc, &mut input, output, setup, chain);
            tell_script(alloc, &outcome, depth, false, &input, &*output, errors);
            outcome
        }
        Err(refusal) => {
            let outcome = tell_refusal(alloc, refusal, output, errors);
            let _ = tell_outcome(alloc, &outcome, None, None, &*output, errors);
            outcome
        }
    }
}

/// The whole program over what its words ask for and its three ends: gives the exit status.
pub fn run<T: FilesByName + Threads + Wait + Sync, R: Read + Drop, W: Sink, E: Diagnostics>(
    rt: &T,
    alloc: Global,
    asked: Result<Command<'_>, Error>,
    reader: R,
    output: &mut W,
    errors: &mut E,
) -> u8
    ensures { EndsWith (RunsCommand (T.file_bytes rt.now)) asked.entry (R.remaining reader)
        W.contents output.old output.new result }
{
    let outcome = try_run(rt, alloc, asked, reader, output, errors);
    exit_status(outcome)
}
