//! The end of a run: its threads have ended, and what they hand back is settled, written down and audited.
ghost use Rattle.std.specs.Prelude.{◌≡◌, List, All, IfOk, length, map};
ghost use Rattle.vs_types.specs.declared.limits.TheConstants.{LOG_PLACES};
ghost use Rattle.vs_types.specs.declared.requests.request.Query.{Query};
ghost use Rattle.nr_audit.specs.Headline.{AreRightWith};
ghost use Rattle.nr_audit.specs.Verdict.{IsVerdictOf};
ghost use Rattle.nr_audit.specs.declared.verdicts.verdict.Verdict.TheVariants.{Yes};
ghost use Rattle.nr_record.specs.Pen.{AreAllPens};
ghost use Rattle.nr_trace.specs.Faults.{IsFirstOf};
ghost use Rattle.nr_serve.specs.inside.Calls.{AreServed, since};
ghost use Rattle.nr_serve.specs.Run.{IfRunRefused, IfVerified, IsRefusedRun, IsVerifiedRun};
ghost use Rattle.nr_serve.specs.inside.Ending.{IsWrittenOf, answers_of, passes_of, pens_of};

use crate::endings::call_outcome::CallOutcome;
use crate::endings::outcome::{Answers, Outcome, Passes, TraceBytes};
use crate::threading::worker::Worker;
use nr_audit::{Verdict, audit};
use nr_record::{Clock, Pen, finish};
use nr_replicas::{Replicas, ReplicasName};
use nr_ring::{LogName, LogPass};
use nr_trace::write;
use std::alloc::Global;
use vs_types::{Config, Memory};

/// What the threads have handed back, by kind.
pub(crate) struct Parts<J: LogName> {
    pub(crate) pens: Vec<Pen>,
    pub(crate) passes: Vec<LogPass<J>>,
    pub(crate) answers: Vec<Vec<CallOutcome>>,
}

/// The pens, the passes and the answers of all threads.
pub(crate) fn parts_of<J: LogName>(
    alloc: Global,
    workers: Vec<Worker<J>>,
) -> Result<Parts<J>, Memory>
    ensures pens { IfOk result (λ parts. parts.pens.items ≡ pens_of workers.items) }
    ensures passes { IfOk result (λ parts. parts.passes.items ≡ passes_of workers.items) }
    ensures answers { IfOk result
        (λ parts. map (λ said. said.items) parts.answers.items ≡ answers_of workers.items) }
{
    let mut pens = Vec::with_capacity(alloc, workers.len())?;
    let mut passes = Vec::with_capacity(alloc, workers.len())?;
    let mut answers = Vec::with_capacity(alloc, workers.len())?;
    for worker in workers {
        let Worker { pen, pass, said } = worker;
        pens.push(pen)?;
        passes.push(pass)?;
        answers.push(said)?;
    }
    Ok(Parts {
        pens,
        passes,
        answers,
    })
}

/// The bytes of the run's trace: what the pens were given, the log, and a dump of each replica.
fn written<J: LogName, K: ReplicasName>(
    alloc: Global,
    clock: Clock,
    replicas: Replicas<J, K>,
    config: Config,
    pens: Vec<Pen>,
    passes: &mut [LogPass<J>],
) -> Result<Vec<u8>, Memory>
    requires config { config ≡ clock.layout }
    requires names { (config.depth ≡ J.depth) × (config.replicas ≡ J.replicas) }
    requires places { (J.places ≡ LOG_PLACES) × (K.base ≡ 0) }
    requires pens { AreAllPens clock pens.items }
    requires passes { All (λ pass. pass.log ≡ K.log) passes.old }
    ensures passes { passes.new ≡ passes.old }
    ensures written { IfOk result (λ bytes. IsWrittenOf config pens.items passes.old bytes.items) }
{
    let (log, dumps) = replicas.settle(passes)?;
    let trace = finish(alloc, clock, pens, config, log, dumps)?;
    write(alloc, &trace)
}

/// The auditor's verdict on the bytes, with what the run has to show for it.
fn judged<J: LogName>(
    alloc: Global,
    answers: Vec<Vec<CallOutcome>>,
    bytes: Vec<u8>,
    passes: Vec<LogPass<J>>,
) -> Result<Outcome<J>, Memory>
    ensures answers { IfOk result
        (IfVerified (λ shown trace order seen. shown ≡ map (λ said. said.items) answers.items)) }
    ensures bytes { IfOk result (IfVerified (λ shown trace order seen. trace ≡ bytes.items)) }
    ensures passes { IfOk result (IfVerified (λ shown trace order seen. seen ≡ passes.items)) }
    ensures verdict { IfOk result
        (IfVerified (λ shown trace order seen. IsVerdictOf trace (Yes order))) }
    ensures right { IfOk result (IfVerified (λ shown trace order seen. AreRightWith trace order)) }
    ensures refused { IfOk result (IfRunRefused (λ trace fault. IsFirstOf trace fault)) }
    ensures refused_bytes { IfOk result (IfRunRefused (λ trace fault. trace ≡ bytes.items)) }
{
    let verdict = audit(alloc, &bytes)?;
    let trace = TraceBytes::of(bytes);
    match verdict {
        Verdict::Yes(order) => Ok(Outcome::Verified {
            answers: Answers::of(answers),
            trace,
            order,
            passes: Passes::of(passes),
        }),
        Verdict::No(fault) => Ok(Outcome::Refused { trace, fault }),
    }
}

/// What came of a run whose threads have ended: their passes, pens and answers are settled with the replicas and the clock, the
/// trace is written, and its bytes are audited.
///
/// It allocates memory.
///
/// # Errors
///
/// Out of memory.
pub(crate) fn ending<J: LogName, K: ReplicasName>(
    alloc: Global,
    clock: Clock,
    replicas: Replicas<J, K>,
    config: Config,
    workers: Vec<Worker<J>>,
) -> Result<Outcome<J>, Memory>
    requires config { config ≡ clock.layout }
    requires names { (config.depth ≡ J.depth) × (config.replicas ≡ J.replicas) }
    requires places { (J.places ≡ LOG_PLACES) × (K.base ≡ 0) }
    requires pens { AreAllPens clock (pens_of workers.items) }
    requires passes { All (λ pass. pass.log ≡ K.log) (passes_of workers.items) }
    ensures verified { (scripts : List (List Query)) → length scripts ≡ config.threads
        → AreServed clock (since K.log 0) scripts workers.items
        → IfOk result (IfVerified (IsVerifiedRun config scripts)) }
    ensures refused { (scripts : List (List Query)) → length scripts ≡ config.threads
        → AreServed clock (since K.log 0) scripts workers.items
        → IfOk result (IfRunRefused (IsRefusedRun config scripts)) }
{
    let Parts {
        pens,
        mut passes,
        answers,
    } = parts_of(alloc, workers)?;
    let bytes = written(alloc, clock, replicas, config, pens, &mut passes)?;
    judged(alloc, answers, bytes, passes)
}
