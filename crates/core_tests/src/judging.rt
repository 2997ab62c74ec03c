//! The auditor's verdict on a run of steps.
ghost use Rattle.std.specs.Prelude.{◌≡◌, IfOk, map};
ghost use Rattle.vs_types.specs.Query.{AreScripts};
ghost use Rattle.nr_trace.specs.Orders.{recorded_order};
ghost use Rattle.nr_trace.specs.Recording.{Recording};
ghost use Rattle.nr_audit.specs.declared.verdicts.verdict.Verdict.TheVariants.{Yes};
ghost use Rattle.nr_core.specs.Run.{after_steps, IsRecordingOf};
ghost use Rattle.nr_core.specs.State.{start};

use nr_audit::{Verdict, audit};
use nr_core::{Step, run_steps};
use nr_trace::write;
use std::alloc::Global;
use vs_types::{Config, Memory, Request};

/// The verdict on the bytes of the recording after the steps in turn, from the start: it is yes, with the recorded order, whatever the
/// steps. There is one script for each thread, as `run_steps` wants them.
///
/// # Errors
///
/// Out of memory.
pub fn judge_steps(
    alloc: Global,
    config: Config,
    scripts: Vec<Vec<Request>>,
    steps: &[Step],
) -> Result<Verdict, Memory>
    requires { AreScripts config (map (λ script. script.items) scripts.items) }
    ensures { IfOk result (λ verdict. (trace : Recording)
        × IsRecordingOf
        (after_steps (start config (map (λ script. script.items) scripts.items)) steps.now) trace
        × (verdict ≡ Yes (recorded_order trace))) }
{
    let trace = run_steps(alloc, config, scripts, steps)?;
    let bytes = write(alloc, &trace)?;
    audit(alloc, &bytes)
}
