//! A whole run of steps.
ghost use Rattle.std.specs.Prelude.{ℕ, IfOk, map};
ghost use Rattle.nr_trace.specs.Faults.{HasFault};
ghost use Rattle.nr_trace.specs.FirstFault.{HasFormatFault};
ghost use Rattle.nr_trace.specs.Laws.{HasCleanLog, IsFaultless};
ghost use Rattle.nr_trace.specs.Recording.{IsRecording};
ghost use Rattle.nr_trace.specs.Spelling.{spelling};
ghost use Rattle.nr_trace.specs.declared.refusals.fault.Format.{Format};
ghost use Rattle.nr_trace.specs.declared.refusals.fault.Fault.TheVariants.{Early, WrongAnswer};
ghost use Rattle.nr_core.specs.Faultless.{HasRightDumps};
ghost use Rattle.nr_core.specs.Run.{after_steps, IsRecordingOf};
ghost use Rattle.vs_types.specs.Query.{AreScripts};
ghost use Rattle.nr_core.specs.State.{start};

use crate::runs::step::Step;
use crate::states::state::Core;
use nr_trace::Trace;
use std::alloc::Global;
use vs_types::{Config, Memory, Request};

/// A recording of the state after the steps in turn, from the start, with a script for each thread; steps that are not enabled are
/// passed over. Whatever the steps, it is within the format's ranges and has no fault. It allocates the memory of `Core::new`, of each step
/// and of `Core::trace`. There is one script for each thread, with at most 65,536 requests in all, each well formed at the depth.
///
/// # Errors
///
/// Out of memory.
pub fn run_steps(
    alloc: Global,
    config: Config,
    scripts: Vec<Vec<Request>>,
    steps: &[Step],
) -> Result<Trace, Memory>
    requires { AreScripts config (map (λ script. script.items) scripts.items) }
    ensures recording { IfOk result (IsRecordingOf
        (after_steps (start config (map (λ script. script.items) scripts.items)) steps.now)) }
    ensures in_range { IfOk result IsRecording }
    ensures spelled { IfOk result (λ trace.
        (fault : Format) → HasFormatFault (spelling trace) fault → ⊥) }
    ensures well_formed { IfOk result HasCleanLog }
    ensures dumps { IfOk result HasRightDumps }
    ensures answers { IfOk result (λ trace. (call : ℕ) → HasFault trace (WrongAnswer call) → ⊥) }
    ensures in_time { IfOk result (λ trace. (call : ℕ) → HasFault trace (Early call) → ⊥) }
    ensures faultless { IfOk result IsFaultless }
{
    let mut core = Core::new(alloc, config, scripts)?;
    for step in steps {
        core.step(*step)?;
    }
    let trace = core.trace()?;
    Ok(trace)
}
