//! A run that goes on in segments, of one log.
ghost use Rattle.std.specs.Prelude.{◌≡◌, ◌+◌, IfOk, map};
ghost use Rattle.vs_types.specs.Query.{AreScripts};
ghost use Rattle.nr_ring.specs.declared.cells.words.TheConstants.{MOST_PLACES};
ghost use Rattle.nr_serve.specs.ChainOfRun.{IsOutcomeOf};
ghost use Rattle.nr_serve.specs.RunState.{new_run};

use crate::endings::segment_outcome::SegmentOutcome;
use crate::instances::no_segment::NoSegment;
use crate::threading::serving::serve_on;
use nr_audit::Past;
use nr_replicas::{Gate, OpenReplicas};
use nr_ring::{LogName, LogPass, MOST_PLACES};
use std::alloc::Global;
use std::marker::{Brand, Model};
use std::sync::Wait;
use std::thread::Threads;
use vs_types::{Config, Fail, Memory, Request};

/// What there is between two segments: the replicas, with a log that was cut behind the last one; a pass for each thread; and what the
/// segments so far left, if there are some.
#[derive(Drop)]
pub(crate) struct Between<J: LogName> {
    pub(crate) opened: OpenReplicas<J>,
    pub(crate) passes: Vec<LogPass<J>>,
    pub(crate) config: Config,
    pub(crate) past: Option<Past>,
}

/// A run that goes on in segments, between two of them. Contracts see what it has come to.
#[derive(Drop)]
pub struct ChainRun<J: LogName> {
    pub(crate) between: Between<J>,
}

impl<J: LogName> Model for ChainRun<J> {
    ghost use Rattle.std.specs.Coded.{codes};
    ghost use Rattle.nr_audit.specs.contracts.histories.past.Past as past_contract;
    ghost use Rattle.nr_ring.specs.contracts.ring.view.View as view_contract;
    ghost use Rattle.nr_serve.specs.RunState.{RunState};
    ghost use Rattle.nr_serve.specs.inside.Segment.{IsRunOf, state_of};

    ghost Value = { RunState };

    ghost coded = { Prim.hlevel (
      codes,
      view_contract.the_row.coded,
      past_contract.the_row.coded,
    ) };

    ghost view = { λ r.
        state_of r.between.opened r.between.passes.items r.between.config r.between.past };

    ghost invariant = { λ r.
        IsRunOf J.depth J.replicas r.between.opened r.between.passes.items r.between.config
        r.between.past };
}

impl<J: LogName> ChainRun<J> {
    /// A run of which no segment is made. The log's name has the depth, the replicas, as many passes as there are replicas and threads, and
    /// the most places that a log may have. It allocates the memory of the replicas.
    ///
    /// # Errors
    ///
    /// Out of memory.
    pub fn new(alloc: Global, config: Config) -> Result<ChainRun<J>, Memory>
        requires depth { config.depth ≡ J.depth }
        requires replicas { config.replicas ≡ J.replicas }
        requires passes { J.passes ≡ config.replicas + config.threads }
        requires places { J.places ≡ MOST_PLACES }
        ensures { IfOk result (λ run. run ≡ new_run config run.log) }
    {
        let (opened, passes) = OpenReplicas::with_places(alloc, config, MOST_PLACES)?;
        let between = Between {
            opened,
            passes,
            config,
            past: None,
        };
        let run = ChainRun { between };
        Ok(run)
    }

    /// Runs the next segment: a thread for each script makes its calls in order, each up to so many turns; they are joined, and the
    /// segment is written and judged. There is a script for each thread of the configuration, with at most 65,536 requests in all.
    /// Where all requests are answered, the log is cut, and the run goes on. A thread ends with its first call that is stopped, and
    /// then this segment is the last.
    ///
    /// Waits for the threads and for locks. It allocates the memory of the record, and at the end that of the segment and of its
    /// judgement; the threads take none.
    ///
    /// # Errors
    ///
    /// `NoThread` where a thread could not be started, `NotCut` where an update has no answer though no thread was stopped, or out of
    /// memory. All threads that were started have ended then too.
    pub fn segment<G: Gate + Sync, R: Threads + Wait + Sync>(
        self,
        rt: &R,
        alloc: Global,
        scripts: Vec<Vec<Request>>,
        turns: u32,
        gate: &G,
    ) -> Result<SegmentOutcome<J>, Fail<NoSegment>>
    where
        J: Send + Sync,
        requires { AreScripts self.layout (map (λ script. script.items) scripts.items) }
        ensures { IfOk result (IsOutcomeOf self (map (λ script. script.items) scripts.items)) }
    {
        let ChainRun { between } = self;
        serve_on::<J, Brand, G, R>(rt, alloc, between, scripts, turns, gate)
    }
}
