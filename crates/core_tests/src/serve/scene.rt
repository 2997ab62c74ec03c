//! A run, and what it shows.
ghost use Rattle.std.specs.Prelude.{◌≡◌, ◌+◌, map};
ghost use Rattle.vs_types.specs.Query.{AreScripts};
ghost use Rattle.vs_types.specs.declared.limits.TheConstants.{LOG_PLACES};

use crate::scripts::assert_scripts;
use nr_audit::Order;
use nr_replicas::Gate;
use nr_ring::LogName;
use nr_serve::{Answers, CallOutcome, NoThread, Outcome, TraceBytes, run};
use nr_trace::{Trace, read};
use std::alloc::Global;
use std::marker::Brand;
use std::process::Abort;
use std::sync::Wait;
use std::thread::Threads;
use vs_types::{Config, Depth, Fail, Request};

/// How many turns a call has, where a test says nothing else.
pub const TURNS: u32 = 100_000;

/// What a verified run shows.
#[derive(Drop)]
pub struct Shown {
    pub answers: Answers,
    pub trace: TraceBytes,
    pub order: Order,
}

impl Shown {
    /// What came of the calls of a thread.
    pub fn assert_said(&self, rt: &impl Abort, thread: usize, said: &[CallOutcome]) {
        let all = self.answers.threads();
        assert!(rt; thread < all.len());
        assert_eq!(rt; all[thread].as_slice(), said);
    }

    /// What came of the call of a thread that makes one.
    pub fn said_once(&self, rt: &impl Abort, thread: u16) -> CallOutcome {
        let said = self
            .answers
            .threads()
            .get(usize::from(thread))
            .expect(rt, "a thread of the run");
        assert!(rt; said.len() == 1);
        said[0]
    }

    /// The trace.
    pub fn read(&self, rt: &impl Abort, alloc: Global) -> Trace {
        read(alloc, self.trace.as_slice()).expect(rt, "a trace")
    }
}

/// The run of a log that has its name.
fn run_on_log<J: LogName + Send + Sync, G: Gate + Sync, R: Threads + Wait + Abort + Sync>(
    rt: &R,
    alloc: Global,
    config: Config,
    scripts: Vec<Vec<Request>>,
    turns: u32,
    gate: &G,
) -> Result<Shown, Fail<NoThread>>
    requires depth { config.depth ≡ J.depth }
    requires replicas { config.replicas ≡ J.replicas }
    requires passes { J.passes ≡ config.replicas + config.threads }
    requires places { J.places ≡ LOG_PLACES }
    requires scripts { AreScripts config (map (λ script. script.items) scripts.items) }
{
    match run::<J, G, R>(rt, alloc, config, scripts, turns, gate)? {
        Outcome::Verified {
            answers,
            trace,
            order,
            passes: _,
        } => Ok(Shown {
            answers,
            trace,
            order,
        }),
        Outcome::Refused { trace: _, fault } => panic!(rt; "refused: {fault:?}"),
    }
}

/// So many turns for each call of these scripts, one for each thread; the run has to be verified.
pub fn shown_by<G: Gate + Sync, R: Threads + Wait + Abort + Sync>(
    rt: &R,
    alloc: Global,
    replicas: u8,
    scripts: &[&[Request]],
    gate: &G,
) -> Shown {
    let mut all = Vec::new(alloc);
    for script in scripts {
        let script = Vec::from_slice(alloc, *script).expect(rt, "memory");
        all.push(script).expect(rt, "memory");
    }
    verified(rt, alloc, replicas, all, TURNS, gate).expect(rt, "a run")
}

/// A run of a configuration, which has to be verified.
pub fn verified_of<G: Gate + Sync, R: Threads + Wait + Abort + Sync>(
    rt: &R,
    alloc: Global,
    config: Config,
    scripts: Vec<Vec<Request>>,
    turns: u32,
    gate: &G,
) -> Result<Shown, Fail<NoThread>> {
    assert_scripts(rt, config, &scripts);
    run_on_log::<Brand, G, R>(rt, alloc, config, scripts, turns, gate)
}

/// A run that has to be verified, with 4,096 tables and four levels.
pub fn verified<G: Gate + Sync, R: Threads + Wait + Abort + Sync>(
    rt: &R,
    alloc: Global,
    replicas: u8,
    scripts: Vec<Vec<Request>>,
    turns: u32,
    gate: &G,
) -> Result<Shown, Fail<NoThread>> {
    assert!(rt; scripts.len() <= 64);
    let config = Config::new(Depth::Four, replicas, scripts.len() as u16, 4096).expect(
        rt,
        "a configuration",
    );
    verified_of(rt, alloc, config, scripts, turns, gate)
}
