//! A run: the replicas, the clock and the pens are made, the threads work, and the ending judges what they did.
ghost use Rattle.std.specs.Prelude.{◌≡◌, ◌+◌, ◌≤◌, All, IfOk, length, map, sum};
ghost use Rattle.vs_types.specs.declared.limits.TheConstants.{LOG_PLACES};
ghost use Rattle.nr_record.specs.Pen.{new_pens};
ghost use Rattle.nr_serve.specs.Run.{IfRunRefused, IfVerified, IsRefusedRun, IsVerifiedRun};
ghost use Rattle.vs_types.specs.Query.{AreScripts};

use crate::endings::ending::ending;
use crate::endings::outcome::Outcome;
use crate::instances::no_thread::NoThread;
use crate::threading::team::Team;
use crate::threading::threads::serve_all;
use nr_record::{Clock, Pen, pens};
use nr_replicas::{Gate, OpenReplicas, ReplicasName};
use nr_ring::{LogName, LogPass};
use std::alloc::Global;
use std::marker::Brand;
use std::sync::Wait;
use std::thread::Threads;
use vs_types::{Config, Fail, Memory, Request};

/// What a run begins with, before its log has a name.
struct Beginning<J: LogName> {
    opened: OpenReplicas<J>,
    passes: Vec<LogPass<J>>,
    clock: Clock,
    pens: Vec<Pen>,
}

/// How many calls each thread may make: as many as its script has requests.
pub(crate) fn quotas_of(alloc: Global, scripts: &[Vec<Request>]) -> Result<Vec<u32>, Memory>
    requires { All (λ script. length script.items ≤ LOG_PLACES) scripts.now }
    ensures { IfOk result
        (λ quotas. quotas.items ≡ map (λ script. length script.items) scripts.now) }
{
    let mut quotas = Vec::with_capacity(alloc, scripts.len())?;
    for script in scripts {
        quotas.push(script.len() as u32)?;
    }
    Ok(quotas)
}

/// New replicas with a pass for each thread, and a new clock with a pen for each.
fn begin<J: LogName>(
    alloc: Global,
    config: Config,
    scripts: &[Vec<Request>],
) -> Result<Beginning<J>, Memory>
    requires depth { config.depth ≡ J.depth }
    requires replicas { config.replicas ≡ J.replicas }
    requires passes { J.passes ≡ config.replicas + config.threads }
    requires places { J.places ≡ LOG_PLACES }
    requires scripts { AreScripts config (map (λ script. script.items) scripts.now) }
    ensures layout { IfOk result
        (λ made. (made.opened.layout ≡ config) × (made.clock.layout ≡ config)) }
    ensures base { IfOk result (λ made. made.opened.base ≡ 0) }
    ensures passes { IfOk result
        (λ made. (length made.passes.items ≡ config.threads)
        × All (λ pass. pass.log ≡ made.opened.log) made.passes.items) }
    ensures calls { IfOk result
        (λ made. made.clock.calls ≡ sum (map (λ script. length script.items) scripts.now)) }
    ensures pens { IfOk result
        (λ made. made.pens.items
        ≡ new_pens made.clock 0 (map (λ script. length script.items) scripts.now)) }
{
    let quotas = quotas_of(alloc, scripts)?;
    let (clock, pens) = pens(alloc, config, &quotas)?;
    let (opened, passes) = OpenReplicas::<J>::new(alloc, config)?;
    Ok(Beginning {
        opened,
        passes,
        clock,
        pens,
    })
}

/// The rest of a run, when its log has its name.
fn go_on<
    J: LogName + Send + Sync,
    K: ReplicasName + Send + Sync,
    G: Gate + Sync,
    R: Threads + Wait + Sync,
>(
    rt: &R,
    alloc: Global,
    config: Config,
    beginning: Beginning<J>,
    scripts: Vec<Vec<Request>>,
    turns: u32,
    gate: &G,
) -> Result<Outcome<J>, Fail<NoThread>>
    requires depth { config.depth ≡ J.depth }
    requires replicas { config.replicas ≡ J.replicas }
    requires places { J.places ≡ LOG_PLACES }
    requires tables { config.tables ≡ K.tables }
    requires log { beginning.opened.log ≡ K.log }
    requires base { (beginning.opened.base ≡ 0) × (K.base ≡ 0) }
    requires scripts { AreScripts config (map (λ script. script.items) scripts.items) }
    requires layout { (beginning.opened.layout ≡ config) × (beginning.clock.layout ≡ config) }
    requires passes { (length beginning.passes.items ≡ config.threads)
        × All (λ pass. pass.log ≡ K.log) beginning.passes.items }
    requires calls { beginning.clock.calls
        ≡ sum (map (λ script. length script.items) scripts.items) }
    requires pens { beginning.pens.items
        ≡ new_pens beginning.clock 0 (map (λ script. length script.items) scripts.items) }
    ensures verified { IfOk result
        (IfVerified (IsVerifiedRun config (map (λ script. script.items) scripts.items))) }
    ensures refused { IfOk result
        (IfRunRefused (IsRefusedRun config (map (λ script. script.items) scripts.items))) }
{
    let Beginning {
        opened,
        passes,
        clock,
        pens,
    } = beginning;
    let replicas = opened.named::<K>()?;
    let team = Team {
        replicas: &replicas,
        clock: &clock,
        gate,
        turns,
        base: 0,
    };
    let workers = serve_all(rt, alloc, &team, scripts, pens, passes)?;
    let outcome = ending(alloc, clock, replicas, config, workers)?;
    Ok(outcome)
}

/// A run of the replicated address space: a thread for each script makes its calls in order, each up to so many turns, and the
/// auditor judges the trace of what they asked and were answered.
///
/// A thread stamps its call, asks the gate, has its replica answer it, asks the gate, and stamps its reply. It ends after the last
/// request of its script, or with the first call that is stopped: by the gate, by the limit of turns, or as its replica doesn't confirm
/// the answer.
/// There is a script for each thread of the configuration, with at most 65,536 requests in all; the log's name has the depth, the
/// replicas, as many passes as there are replicas and threads, and 65,536 places.
///
/// Waits for the threads and for locks. It allocates the memory of the replicas and of the record, and at the end
/// that of the trace and of its audit; the threads take none.
///
/// # Errors
///
/// `NoThread` where a thread could not be started, or out of memory. All threads that were started have ended then too.
pub fn run<J: LogName + Send + Sync, G: Gate + Sync, R: Threads + Wait + Sync>(
    rt: &R,
    alloc: Global,
    config: Config,
    scripts: Vec<Vec<Request>>,
    turns: u32,
    gate: &G,
) -> Result<Outcome<J>, Fail<NoThread>>
    requires depth { config.depth ≡ J.depth }
    requires replicas { config.replicas ≡ J.replicas }
    requires passes { J.passes ≡ config.replicas + config.threads }
    requires places { J.places ≡ LOG_PLACES }
    requires scripts { AreScripts config (map (λ script. script.items) scripts.items) }
    ensures verified { IfOk result
        (IfVerified (IsVerifiedRun config (map (λ script. script.items) scripts.items))) }
    ensures refused { IfOk result
        (IfRunRefused (IsRefusedRun config (map (λ script. script.items) scripts.items))) }
{
    let beginning = begin(alloc, config, &scripts)?;
    go_on::<J, Brand, G, R>(rt, alloc, config, beginning, scripts, turns, gate)
}
