//! Scripts, and what is said of their recordings.
ghost use Rattle.std.specs.Prelude.{All, map};
ghost use Rattle.vs_types.specs.Query.{IsQuery};
ghost use Rattle.vs_types.specs.Query.{AreScripts};

use crate::judging::judge_steps;
use nr_audit::{Order, Verdict, audit};
use nr_core::{Core, Step, run_steps};
use nr_trace::{Trace, write};
use std::alloc::Global;
use std::process::Abort;
use vs_types::{Config, Depth, Request};

/// Asserts that each request of a script is well formed at the depth.
fn assert_fits(rt: &impl Abort, depth: Depth, script: &[Request])
    ensures { All (IsQuery depth) script.now }
{
    for request in script {
        assert!(rt; request.fits(depth));
    }
}

/// Asserts that there is one script for each thread, with requests that are few enough and well formed.
pub fn assert_scripts(rt: &impl Abort, config: Config, scripts: &[Vec<Request>])
    ensures { AreScripts config (map (λ script. script.items) scripts.now) }
{
    assert!(rt; scripts.len() == usize::from(config.threads()));
    let mut left: usize = 65_536;
    for script in scripts {
        assert!(rt; script.len() <= left);
        left -= script.len();
        assert_fits(rt, config.depth(), script);
    }
}

/// The recording of a run of the steps.
pub fn run_at_once(
    rt: &impl Abort,
    alloc: Global,
    config: Config,
    scripts: Vec<Vec<Request>>,
    steps: &[Step],
) -> Trace {
    assert_scripts(rt, config, &scripts);
    run_steps(alloc, config, scripts, steps).expect(rt, "memory")
}

/// How often a call is tried to which memory is refused: one that it is refused to changes nothing.
#[derive(Clone, Copy)]
pub enum Tries {
    Once,
    Twice,
}

/// Takes a step.
fn take(rt: &impl Abort, core: &mut Core, step: Step, tries: Tries) -> bool {
    if let Tries::Twice = tries
        && let Ok(done) = core.step(step)
    {
        return done;
    }
    core.step(step).expect(rt, "memory")
}

/// The recording of the core as it is.
fn recording_of(rt: &impl Abort, core: &Core, tries: Tries) -> Trace {
    if let Tries::Twice = tries
        && let Ok(trace) = core.trace()
    {
        return trace;
    }
    core.trace().expect(rt, "memory")
}

/// The recording of the core after the steps; and of each step, whether it was made.
pub fn run_one_by_one(
    rt: &impl Abort,
    alloc: Global,
    config: Config,
    scripts: Vec<Vec<Request>>,
    steps: &[Step],
    tries: Tries,
) -> (Trace, Vec<bool>) {
    assert_scripts(rt, config, &scripts);
    let mut core = Core::new(alloc, config, scripts).expect(rt, "memory");
    let mut made = Vec::new(alloc);
    for step in steps {
        let done = take(rt, &mut core, *step, tries);
        made.push(done).expect(rt, "memory");
    }
    (recording_of(rt, &core, tries), made)
}

/// The order of a verdict, which has to be yes.
fn order_in(rt: &impl Abort, verdict: Verdict) -> Order {
    match verdict {
        Verdict::Yes(order) => order,
        Verdict::No(fault) => panic!(rt; "{fault:?}"),
    }
}

/// The order with which the auditor says yes to the spelling of a trace.
pub fn order_of(rt: &impl Abort, alloc: Global, trace: &Trace) -> Order {
    let bytes = write(alloc, trace).expect(rt, "memory");
    order_in(rt, audit(alloc, &bytes).expect(rt, "memory"))
}

/// The order with which the auditor says yes to a run of the steps.
pub fn order_at_once(
    rt: &impl Abort,
    alloc: Global,
    config: Config,
    scripts: Vec<Vec<Request>>,
    steps: &[Step],
) -> Order {
    assert_scripts(rt, config, &scripts);
    let verdict = judge_steps(alloc, config, scripts, steps);
    order_in(rt, verdict.expect(rt, "memory"))
}

/// Asserts that two traces are spelled alike.
pub fn assert_alike(rt: &impl Abort, alloc: Global, one: &Trace, other: &Trace) {
    let first = write(alloc, one).expect(rt, "memory");
    let second = write(alloc, other).expect(rt, "memory");
    assert!(rt; first == second);
}
