//! A segment of a run: the threads work, and the ending judges what they did.
ghost use Rattle.std.specs.Prelude.{◌≡◌, IfOk, map};
ghost use Rattle.vs_types.specs.Query.{AreScripts};
ghost use Rattle.nr_serve.specs.ChainOfRun.{IsOutcomeOf};
ghost use Rattle.nr_serve.specs.inside.Segment.{IsRunOf, state_of};

use crate::endings::ending::parts_of;
use crate::endings::segment_ending::segment_ending;
use crate::endings::segment_outcome::SegmentOutcome;
use crate::instances::no_segment::NoSegment;
use crate::instances::no_thread::NoThread;
use crate::threading::chain_run::Between;
use crate::threading::running::quotas_of;
use crate::threading::team::Team;
use crate::threading::threads::serve_all;
use nr_record::pens;
use nr_replicas::{Gate, ReplicasName};
use nr_ring::LogName;
use std::alloc::Global;
use std::sync::Wait;
use std::thread::Threads;
use vs_types::{Fail, Request};

/// Runs the next segment, where the log and the place of the last cut have their names.
pub(crate) fn serve_on<
    J: LogName + Send + Sync,
    K: ReplicasName + Send + Sync,
    G: Gate + Sync,
    R: Threads + Wait + Sync,
>(
    rt: &R,
    alloc: Global,
    between: Between<J>,
    scripts: Vec<Vec<Request>>,
    turns: u32,
    gate: &G,
) -> Result<SegmentOutcome<J>, Fail<NoSegment>>
    requires run { IsRunOf J.depth J.replicas between.opened between.passes.items between.config
        between.past }
    requires log { (between.opened.log ≡ K.log) × (between.opened.base ≡ K.base) }
    requires tables { between.config.tables ≡ K.tables }
    requires scripts { AreScripts between.config (map (λ script. script.items) scripts.items) }
    ensures { IfOk result
        (IsOutcomeOf
        (state_of between.opened between.passes.items between.config between.past)
        (map (λ script. script.items) scripts.items)) }
{
    let Between {
        opened,
        passes,
        config,
        past,
    } = between;
    let base = opened.base();
    let quotas = quotas_of(alloc, &scripts)?;
    let (clock, pens) = pens(alloc, config, &quotas)?;
    let replicas = opened.named::<K>()?;
    let team = Team {
        replicas: &replicas,
        clock: &clock,
        gate,
        turns,
        base,
    };
    match serve_all(rt, alloc, &team, scripts, pens, passes) {
        Ok(workers) => {
            let parts = parts_of(alloc, workers)?;
            segment_ending(alloc, clock, replicas, config, past, parts)
        }
        Err(Fail::Memory) => Err(Fail::Memory),
        Err(Fail::Refused(NoThread)) => Err(Fail::Refused(NoSegment::NoThread)),
    }
}
