//! Runs of the replicated address space: a thread for each script.
ghost use Rattle.std.specs.Prelude.{◌≡◌, ◌+◌, ℕ, List, IfErr, IfOk, None, false, map, string_bytes, true};
ghost use Rattle.std.specs.Io.KnownBytes.{Appends};
ghost use Rattle.vs_types.specs.Query.{AreScripts};
ghost use Rattle.vs_types.specs.declared.limits.TheConstants.{LOG_PLACES};
ghost use Rattle.audit_readers.specs.Answers.{WritesReport};
ghost use Rattle.audit_readers.specs.Refusals.{WritesAnswersAlone};
ghost use Rattle.nrvs.specs.ServedRun.{IsRunEnd, IsRunFault, IsServedRun, TellsRun, outcome_status, told_of};
ghost use Rattle.nrvs.specs.Simulation.{HasReadAtMost};

use crate::runs::run_text::{refused_text, verified_text};
use crate::runs::script_input::input_script;
use crate::runs::setup::Setup;
use audit_readers::{ProgFault, Source, write_text};
use nr_ring::LogName;
use nr_serve::{AlwaysGo, NoThread, Outcome, run};
use std::alloc::Global;
use std::io::Write;
use std::marker::Brand;
use std::sync::Wait;
use std::thread::Threads;
use vs_types::{Config, Fail, Request};

/// The text of an outcome.
fn outcome_text<J: LogName>(alloc: Global, outcome: &Outcome<J>) -> Result<String, ProgFault>
    ensures ok { IfOk result (λ text. string_bytes text ≡ told_of false outcome.now) }
    ensures err { IfErr result (λ fault. fault ≡ ProgFault.Memory) }
{
    let text = match outcome {
        Outcome::Verified { answers, .. } => verified_text(alloc, answers.threads())?,
        Outcome::Refused { fault, .. } => refused_text(alloc, *fault)?,
    };
    Ok(text)
}

/// The bytes of an outcome's trace.
fn outcome_trace<J: LogName>(outcome: &Outcome<J>) -> &[u8]
    ensures { result.now ≡ told_of true outcome.now }
{
    match outcome {
        Outcome::Verified { trace, .. } => trace.as_slice(),
        Outcome::Refused { trace, .. } => trace.as_slice(),
    }
}

/// 0 where the run is verified, else 1.
fn outcome_status<J: LogName>(outcome: &Outcome<J>) -> u8
    ensures { result ≡ outcome_status outcome.now }
{
    match outcome {
        Outcome::Verified { .. } => 0,
        Outcome::Refused { .. } => 1,
    }
}

/// Writes the text of an outcome and nothing else, and gives its status.
fn write_outcome<J: LogName, W: Write>(
    alloc: Global,
    writer: &mut W,
    outcome: &Outcome<J>,
    as_trace: bool,
) -> Result<u8, ProgFault>
    ensures ok { IfOk result (λ status. (status ≡ outcome_status outcome.now)
        × Appends (W.contents writer.old) (W.contents writer.new) (told_of as_trace outcome.now)) }
    ensures err { IfErr result IsRunEnd }
    ensures alone { WritesAnswersAlone writer.old writer.new result }
{
    if as_trace {
        write_text(writer, outcome_trace(outcome))?;
    } else {
        let text = outcome_text(alloc, outcome)?;
        write_text(writer, text.as_bytes())?;
    }
    Ok(outcome_status(outcome))
}

/// Why there is no outcome.
fn run_fault(fail: Fail<NoThread>) -> ProgFault
    ensures { IsRunEnd result }
{
    match fail {
        Fail::Memory => ProgFault::Memory,
        Fail::Refused(NoThread) => ProgFault::NoThread,
    }
}

/// Runs the scripts on a log of this name, and writes what came of it.
fn run_named<J: LogName + Send + Sync, W: Write, T: Threads + Wait + Sync>(
    rt: &T,
    alloc: Global,
    writer: &mut W,
    config: Config,
    scripts: Vec<Vec<Request>>,
    turns: u32,
    as_trace: bool,
) -> Result<u8, ProgFault>
    requires depth { config.depth ≡ J.depth }
    requires replicas { config.replicas ≡ J.replicas }
    requires passes { J.passes ≡ config.replicas + config.threads }
    requires places { J.places ≡ LOG_PLACES }
    requires scripts { AreScripts config (map (λ script. script.items) scripts.items) }
    ensures ok { IfOk result (λ status. (text : List ℕ)
        × TellsRun config (map (λ script. script.items) scripts.items) as_trace text status
        × Appends (W.contents writer.old) (W.contents writer.new) text) }
    ensures err { IfErr result IsRunEnd }
    ensures alone { WritesAnswersAlone writer.old writer.new result }
{
    match run::<J, AlwaysGo, T>(rt, alloc, config, scripts, turns, &AlwaysGo) {
        Ok(outcome) => write_outcome(alloc, writer, &outcome, as_trace),
        Err(fail) => Err(run_fault(fail)),
    }
}

/// Reads a script that lists no steps, and runs it, a thread for each of its threads and each call up to so many turns. It writes
/// what came of each call, by thread and then by call, and that the run is verified; or that it is refused, and why. With
/// `as_trace` it writes the bytes of the run's trace alone. The status is 0 where the run is verified, else 1. It reads at most
/// 16,777,217 bytes. If it gives no answer, nothing was written but where that failed.
///
/// Waits for the threads. It takes what `input_script` and `run` of nr_serve take, and memory for the text.
///
/// # Errors
///
/// In this order: `CannotRead`, `InputTooLong`, `BadLine` as `input_script` gives them, or with the first line that is a step, where
/// no line is bad; `NoThread` where a thread could not be started; `CannotWrite` where the writer gave an error. `Memory` where a
/// growth of memory was refused; it may come before any of them.
pub fn run_io<T: Threads + Wait + Sync, R: Source, W: Write>(
    rt: &T,
    alloc: Global,
    reader: &mut R,
    writer: &mut W,
    setup: Setup,
    turns: u32,
    as_trace: bool,
) -> Result<u8, ProgFault>
    ensures ok { IfOk result (WritesReport (IsServedRun setup as_trace) (R.remaining reader.old)
        (W.contents writer.old) (W.contents writer.new)) }
    ensures err { IfErr result (IsRunFault setup.depth (R.remaining reader.old)) }
    ensures alone { WritesAnswersAlone writer.old writer.new result }
    ensures few { HasReadAtMost 16777217 (R.remaining reader.old) (R.remaining reader.new) }
    ensures unread { IfErr result (λ fault. fault ≡ ProgFault.CannotRead
        → R.last_read reader.new ≡ None) }
{
    let script = input_script(alloc, setup.depth, reader)?;
    if let Some(line) = script.first_step {
        return Err(ProgFault::BadLine(line));
    }
    let Ok(config) = Config::new(setup.depth, setup.replicas, script.threads, setup.tables) else {
        unreachable!()
    };
    run_named::<Brand, W, T>(rt, alloc, writer, config, script.requests, turns, as_trace)
}
