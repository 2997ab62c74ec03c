//! One thread for each script.
ghost use Rattle.std.specs.Prelude.{◌≡◌, ◌≤◌, [], All, IfOk, IfSome, length, map, true, vec_capacity};
ghost use Rattle.std.specs.List.{AllZip};
ghost use Rattle.vs_types.specs.declared.limits.TheConstants.{THREADS};
ghost use Rattle.nr_record.specs.Pen.{new_pens};
ghost use Rattle.nr_serve.specs.SegmentRun.{HasSeenMore};
ghost use Rattle.nr_serve.specs.inside.Calls.{AreServed, since};
ghost use Rattle.nr_serve.specs.inside.Ending.{passes_of};
ghost use Rattle.vs_types.specs.Query.{AreScripts};
ghost use Rattle.nr_serve.specs.inside.Working.{IsDone, IsNamed, IsReadyJob, jobs_from};

use crate::endings::call_outcome::CallOutcome;
use crate::endings::promise::Finished;
use crate::instances::no_thread::NoThread;
use crate::threading::job::Job;
use crate::threading::team::Team;
use crate::threading::worker::Worker;
use core::thread::Stack;
use nr_record::Pen;
use nr_replicas::{Gate, ReplicasName};
use nr_ring::{LogName, LogPass};
use std::alloc::Global;
use std::sync::Wait;
use std::thread;
use std::thread::{PromisedHandle, Scope, Threads};
use vs_types::{Fail, Memory, Request};

/// The stack of a thread in bytes; 64 threads reserve 16 MiB of addresses.
const STACK_BYTES: usize = 262_144;

/// A thread that was started, and what it promises.
type Started<J, K> = PromisedHandle<Worker<J>, Finished<J, K>>;

/// Works through all scripts, each in a thread of its own: the workers, by thread. All threads have ended.
///
/// Waits for the threads. It allocates all memory that they need: for what comes of each request, and for a handle of each thread.
///
/// # Errors
///
/// `NoThread` where a thread could not be started, or out of memory.
pub(crate) fn serve_all<
    J: LogName + Send + Sync,
    K: ReplicasName + Send + Sync,
    G: Gate + Sync,
    R: Threads + Wait + Sync,
>(
    rt: &R,
    alloc: Global,
    team: &Team<'_, J, K, G>,
    scripts: Vec<Vec<Request>>,
    pens: Vec<Pen>,
    passes: Vec<LogPass<J>>,
) -> Result<Vec<Worker<J>>, Fail<NoThread>>
    requires layout { team.now.replicas.now ≡ team.now.clock.now.layout }
    requires names { IsNamed team.now.clock.now.layout team.now.base J.depth J.replicas K.tables K.base }
    requires few { team.now.clock.now.layout.threads ≤ THREADS }
    requires scripts { AreScripts team.now.clock.now.layout
        (map (λ script. script.items) scripts.items) }
    requires pens { pens.items
        ≡ new_pens team.now.clock.now 0 (map (λ script. length script.items) scripts.items) }
    requires passes { length passes.items ≡ length scripts.items }
    requires of_log { All (λ pass. pass.log ≡ K.log) passes.items }
    ensures served { IfOk result
        (λ workers.
        AreServed team.now.clock.now (since K.log K.base)
        (map (λ script. script.items) scripts.items) workers.items) }
    ensures heard { IfOk result
        (λ workers. AllZip HasSeenMore passes.items (passes_of workers.items)) }
{
    let jobs = jobs_of(alloc, scripts, pens, passes)?;
    let handles = Vec::with_capacity(alloc, jobs.len())?;
    let workers = Vec::with_capacity(alloc, jobs.len())?;
    match run_all(rt, team, jobs, handles, workers) {
        Some(workers) => Ok(workers),
        None => Err(Fail::Refused(NoThread)),
    }
}

/// The jobs: a script, a pen and a pass for each thread.
fn jobs_of<J: LogName>(
    alloc: Global,
    scripts: Vec<Vec<Request>>,
    pens: Vec<Pen>,
    passes: Vec<LogPass<J>>,
) -> Result<Vec<Job<J>>, Memory>
    requires few { length scripts.items ≤ THREADS }
    requires pens { length pens.items ≡ length scripts.items }
    requires passes { length passes.items ≡ length scripts.items }
    ensures { IfOk result
        (λ jobs. jobs.items
        ≡ jobs_from 0 (map (λ script. script.items) scripts.items) pens.items passes.items) }
{
    let mut jobs = Vec::with_capacity(alloc, scripts.len())?;
    let mut pens = pens.into_iter();
    let mut passes = passes.into_iter();
    for script in scripts {
        let (Some(pen), Some(pass)) = (pens.next(), passes.next()) else {
            unreachable!()
        };
        let job = job_of(alloc, jobs.len() as u16, script, pen, pass)?;
        jobs.push(job)?;
    }
    Ok(jobs)
}

/// A job, with room for what comes of each call.
fn job_of<J: LogName>(
    alloc: Global,
    thread: u16,
    script: Vec<Request>,
    pen: Pen,
    pass: LogPass<J>,
) -> Result<Job<J>, Memory>
    ensures { IfOk result
        (λ job. job ≡ record { thread = thread; script = script.items; pen = pen; pass = pass }) }
{
    let said = Vec::with_capacity(alloc, script.len())?;
    Ok(Job {
        thread,
        script,
        pen,
        pass,
        said,
    })
}

/// Does all jobs, each in a thread of its own, or none where a thread could not be started.
fn run_all<
    J: LogName + Send + Sync,
    K: ReplicasName + Send + Sync,
    G: Gate + Sync,
    R: Threads + Wait + Sync,
>(
    rt: &R,
    team: &Team<'_, J, K, G>,
    jobs: Vec<Job<J>>,
    handles: Vec<Started<J, K>>,
    workers: Vec<Worker<J>>,
) -> Option<Vec<Worker<J>>>
    requires layout { team.now.replicas.now ≡ team.now.clock.now.layout }
    requires names { IsNamed team.now.clock.now.layout team.now.base J.depth J.replicas K.tables K.base }
    requires ready { All (IsReadyJob team.now.clock.now K.log) jobs.items }
    requires handles { (handles.items ≡ []) × (length jobs.items ≤ vec_capacity handles) }
    requires workers { (workers.items ≡ []) × (length jobs.items ≤ vec_capacity workers) }
    ensures { IfSome result
        (λ workers. AllZip (IsDone team.now.clock.now (since K.log K.base)) jobs.items workers.items) }
{
    thread::scope(
        thread::scope_env(),
        rt,
        |scope| -> Option<Vec<Worker<J>>>
            requires { (team.now.replicas.now ≡ team.now.clock.now.layout)
                × IsNamed team.now.clock.now.layout team.now.base J.depth J.replicas K.tables K.base
                × All (IsReadyJob team.now.clock.now K.log) jobs.items
                × ((handles.items ≡ []) × (length jobs.items ≤ vec_capacity handles))
                × ((workers.items ≡ []) × (length jobs.items ≤ vec_capacity workers)) }
            ensures { IfSome result
                (λ workers.
                AllZip (IsDone team.entry.now.clock.now (since K.log K.base)) jobs.items workers.items) }
        {
            let (all, handles) = start_all(rt, scope, team, jobs, handles);
            let workers = join_all(rt, handles, workers);
            if all { Some(workers) } else { None }
        },
    )
}

/// Starts a thread for each job, up to the first that cannot be started: whether all were, and those that were.
fn start_all<
    's,
    E,
    J: LogName + Send + Sync,
    K: ReplicasName + Send + Sync,
    G: Gate + Sync,
    R: Threads + Wait + Sync,
>(
    rt: &'s R,
    scope: &Scope<'s, E>,
    team: &'s Team<'s, J, K, G>,
    jobs: Vec<Job<J>>,
    handles: Vec<Started<J, K>>,
) -> (bool, Vec<Started<J, K>>)
    requires layout { team.now.replicas.now ≡ team.now.clock.now.layout }
    requires names { IsNamed team.now.clock.now.layout team.now.base J.depth J.replicas K.tables K.base }
    requires ready { All (IsReadyJob team.now.clock.now K.log) jobs.items }
    requires handles { (handles.items ≡ []) × (length jobs.items ≤ vec_capacity handles) }
    ensures few { length result.1.items ≤ length jobs.items }
    ensures all { result.0 ≡ true
        → map (λ handle. handle.promise.job.value) result.1.items ≡ jobs.items }
{
    let mut handles = handles;
    for job in jobs {
        let promise = Finished::of(&job);
        let worker = move || -> Worker<J>
            requires { (team.now.replicas.now ≡ team.now.clock.now.layout)
                × IsNamed team.now.clock.now.layout team.now.base J.depth J.replicas K.tables K.base
                × IsReadyJob team.now.clock.now K.log job }
            ensures { IsDone team.entry.now.clock.now (since K.log K.base) job result }
        { job.work(rt, team) };
        let stack = Stack::new().stack_size(STACK_BYTES);
        let Ok(handle) = stack.spawn_scoped_with(scope, promise, worker) else {
            return (false, handles);
        };
        let Ok(()) = handles.push(handle) else {
            unreachable!()
        };
    }
    (true, handles)
}

/// Joins all threads: what they hand back.
fn join_all<J: LogName, K: ReplicasName, R: Threads>(
    rt: &R,
    handles: Vec<Started<J, K>>,
    workers: Vec<Worker<J>>,
) -> Vec<Worker<J>>
    requires { (workers.items ≡ []) × (length handles.items ≤ vec_capacity workers) }
    ensures { AllZip (λ job worker. IsDone job.pen.clock (since K.log K.base) job worker)
        (map (λ handle. handle.promise.job.value) handles.items) result.items }
{
    let mut workers = workers;
    for handle in handles {
        let Ok(()) = workers.push(handle.join(rt)) else {
            unreachable!()
        };
    }
    workers
}
