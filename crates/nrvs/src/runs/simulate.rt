//! The protocol's core, taken through the steps of a script.
ghost use Rattle.std.specs.Prelude.{◌≡◌, ◌≤◌, IfErr, IfOk, None, map};
ghost use Rattle.vs_types.specs.Config.{Layout};
ghost use Rattle.vs_types.specs.Query.{AreScripts};
ghost use Rattle.nr_trace.specs.Laws.{IsFaultless};
ghost use Rattle.audit_readers.specs.Answers.{WritesReport};
ghost use Rattle.audit_readers.specs.Refusals.{WritesAnswersAlone};
ghost use Rattle.nrvs.specs.Simulation.{HasReadAtMost, IsRecordingOfScript, IsSimulation, IsSimulationFault};

use crate::runs::script_input::input_script;
use crate::runs::setup::Setup;
use audit_readers::{ProgFault, Source, audit_read, write_report, write_text};
use nr_core::run_steps;
use nr_script::Script;
use nr_trace::{Trace, write};
use std::alloc::Global;
use std::io::Write;
use vs_types::{Config, Memory};

/// A recording of the core after the script's steps. It takes what `run_steps` takes.
fn simulate(alloc: Global, setup: Setup, script: Script) -> Result<Trace, Memory>
    requires threads { (1 ≤ script.threads) × (script.threads ≤ 64) }
    requires scripts { (layout : Layout) → layout.depth ≡ setup.depth
        → layout.threads ≡ script.threads
        → AreScripts layout (map (λ list. list.items) script.requests.items) }
    ensures recording { IfOk result (IsRecordingOfScript setup script) }
    ensures faultless { IfOk result IsFaultless }
{
    let Ok(config) = Config::new(setup.depth, setup.replicas, script.threads, setup.tables) else {
        unreachable!()
    };
    run_steps(alloc, config, script.requests, script.steps.as_slice())
}

/// Reads a script, takes the protocol's core through its steps, passing over those that are not enabled, and writes the verdict
/// on a recording of it; with `as_trace` the bytes of that recording, which it then doesn't judge. The status is 0: no list of
/// steps makes a fault. It reads at most 16,777,217 bytes. If it gives no answer, nothing was written but where that failed.
///
/// # Errors
///
/// In this order: `CannotRead`, `InputTooLong`, `BadLine` as `input_script` gives them; `CannotWrite` where the writer gave an error.
/// `Memory` where a growth of memory was refused; it may come before any of them.
pub fn simulate_io<R: Source, W: Write>(
    alloc: Global,
    reader: &mut R,
    writer: &mut W,
    setup: Setup,
    as_trace: bool,
) -> Result<u8, ProgFault>
    ensures ok { IfOk result (WritesReport (IsSimulation setup as_trace) (R.remaining reader.old)
        (W.contents writer.old) (W.contents writer.new)) }
    ensures yes { IfOk result (λ status. status ≡ 0) }
    ensures err { IfErr result (IsSimulationFault setup.depth (R.remaining reader.old)) }
    ensures alone { WritesAnswersAlone writer.old writer.new result }
    ensures few { HasReadAtMost 16777217 (R.remaining reader.old) (R.remaining reader.new) }
    ensures unread { IfErr result (λ fault. fault ≡ ProgFault.CannotRead
        → R.last_read reader.new ≡ None) }
{
    let script = input_script(alloc, setup.depth, reader)?;
    let trace = simulate(alloc, setup, script)?;
    if as_trace {
        let bytes = write(alloc, &trace)?;
        write_text(writer, bytes.as_slice())?;
        return Ok(0);
    }
    let report = audit_read(alloc, Ok(trace), false)?;
    write_report(writer, &report)
}
