//! Threads that make drawn calls at the same time. Afterwards each answer is held against the log.
//!
//! The environment's ROUNDS may say how many times each layout of threads and replicas is tried, and its SEED from which number the
//! calls are drawn.

use crate::batches::assert_batches;
use crate::caller::{Caller, Made, Said};
use crate::draws::Draws;
use crate::gate::CountingGate;
use crate::judge::judge;
use crate::scene::{Test, run};
use crate::steps::TURNS;
use crossbeam_utils::Backoff;
use nr_replicas::{ReplicasName, UpdateFault};
use nr_ring::LogName;
use std::alloc::Global;
use std::process::Abort;
use std::rt::Env;
use std::sync::Wait;
use std::sync::atomic::{AtomicU64, Ordering};
use std::thread::Threads;
use std::{env, thread};
use vs_types::{BadConfig, Config, Depth, Query};

/// How many calls each thread makes.
const EACH: u32 = 64;

/// What the threads of a run share beside the replicas.
#[derive(Drop)]
pub struct Shared {
    threads: u64,
    /// How many threads have come to the start.
    come: AtomicU64,
    /// How many entries of the log some answered call has made known.
    known: AtomicU64,
}

impl Shared {
    pub fn new(threads: u64) -> Shared {
        Shared {
            threads,
            come: AtomicU64::new(0),
            known: AtomicU64::new(0),
        }
    }

    /// Waits until all threads have come.
    pub fn start<R: Wait>(&self, rt: &R) {
        self.come.fetch_add(1, Ordering::SeqCst);
        let backoff = Backoff::new();
        for _ in rt.forever() {
            if self.come.load(Ordering::SeqCst) >= self.threads {
                return;
            }
            backoff.snooze();
        }
        unreachable!()
    }

    /// Passes some time, the more the greater the number.
    fn linger(&self, number: u64) {
        for _ in 0..number {
            self.come.load(Ordering::SeqCst);
        }
    }
}

/// A call to be made.
#[derive(Clone, Copy)]
pub struct Drawn {
    pub query: Query,
    pub turns: u32,
}

/// What one thread of a run does.
#[derive(Drop)]
pub struct Part<'a, J: LogName, K: ReplicasName> {
    pub caller: Caller<'a, J, K>,
    /// The number of its first call.
    pub first: u32,
    pub script: Vec<Drawn>,
    pub made: Vec<Made>,
}

/// Makes one call. It knows of all entries that calls had made known before it.
pub fn make<J: LogName, K: ReplicasName, R: Wait + Abort>(
    rt: &R,
    caller: &mut Caller<J, K>,
    shared: &Shared,
    call: u32,
    drawn: Drawn,
) -> Made {
    let known = shared.known.load(Ordering::SeqCst);
    let open = CountingGate::new(None);
    let said = caller.ask(rt, call, drawn.query, drawn.turns, &open);
    if let Said::Answer(at, _) = said {
        assert!(rt;
            known <= at,
            "call {call} is at {at}, and {known} entries were known"
        );
        let entries = match drawn.query {
            Query::Update(_) => at.saturating_add(1),
            _ => at,
        };
        shared.known.fetch_max(entries, Ordering::SeqCst);
    }
    let [called, batches, answered] = open.asked();
    assert_eq!(rt; (called, answered), (0, 0));
    Made {
        call,
        query: drawn.query,
        said,
        batches,
    }
}

/// Whether a call may be answered so: where an update of the thread was stopped the later ones are refused, and no other is; a call that
/// has turns enough is answered.
fn may_be_told(drawn: Drawn, said: Said, was_stopped: bool) -> bool {
    match (drawn.query, said) {
        (Query::Update(_), _) if was_stopped => said == Said::Fault(UpdateFault::Occupied),
        (_, Said::Answer(_, _)) => true,
        (_, _) => drawn.turns < TURNS && said != Said::Fault(UpdateFault::Occupied),
    }
}

/// Makes the calls of a part, when all threads have come.
fn work<'a, J: LogName, K: ReplicasName, R: Wait + Abort>(
    rt: &R,
    part: Part<'a, J, K>,
    shared: &Shared,
) -> Part<'a, J, K> {
    let Part {
        mut caller,
        first,
        script,
        mut made,
    } = part;
    let mut call = first;
    let mut was_stopped = false;
    shared.start(rt);
    for drawn in script.as_slice() {
        let one = make(rt, &mut caller, shared, call, *drawn);
        let said = one.said;
        let may = may_be_told(*drawn, said, was_stopped);
        assert!(rt; may, "call {call}: {said:?}");
        was_stopped = was_stopped || matches!(said, Said::Fault(_));
        made.push(one).expect(rt, "memory");
        shared.linger(u64::from(call % 61));
        call = call.wrapping_add(1);
    }
    Part {
        caller,
        first,
        script,
        made,
    }
}

/// All threads at once, each with its script. What their calls were answered.
pub fn make_at_once<
    'a,
    J: LogName + Send + Sync,
    K: ReplicasName + Send + Sync,
    R: Wait + Abort + Threads + Sync,
>(
    rt: &R,
    alloc: Global,
    callers: Vec<Caller<'a, J, K>>,
    scripts: Vec<Vec<Drawn>>,
) -> (Vec<Caller<'a, J, K>>, Vec<Made>) {
    let shared = Shared::new(callers.len() as u64);
    let parts = parts_of(rt, alloc, callers, scripts);
    let parts = thread::map_vec(rt, parts, &|part: Part<J, K>| work(rt, part, &shared));
    callers_of(rt, alloc, parts.expect(rt, "memory"))
}

/// The callers of these parts, and what their calls were answered.
pub fn callers_of<'a, J: LogName, K: ReplicasName>(
    rt: &impl Abort,
    alloc: Global,
    parts: Vec<Part<'a, J, K>>,
) -> (Vec<Caller<'a, J, K>>, Vec<Made>) {
    let mut callers = Vec::new(alloc);
    let mut made = Vec::new(alloc);
    for part in parts {
        made.extend_from_slice(&part.made).expect(rt, "memory");
        callers.push(part.caller).expect(rt, "memory");
    }
    (callers, made)
}

/// The parts of these callers, in order.
fn parts_of<'a, J: LogName, K: ReplicasName>(
    rt: &impl Abort,
    alloc: Global,
    callers: Vec<Caller<'a, J, K>>,
    scripts: Vec<Vec<Drawn>>,
) -> Vec<Part<'a, J, K>> {
    let mut scripts = scripts;
    let mut parts = Vec::new(alloc);
    let mut first = 0;
    for caller in callers {
        let script = scripts.pop().expect(rt, "a script for each thread");
        let part = Part {
            caller,
            first,
            script,
            made: Vec::new(alloc),
        };
        parts.push(part).expect(rt, "memory");
        first = first.wrapping_add(EACH);
    }
    parts
}

fn drawn_config(draws: &mut Draws, replicas: u8, threads: u16) -> Result<Config, BadConfig> {
    let depth = if draws.below(2) == 0 {
        Depth::Four
    } else {
        Depth::Five
    };
    let tables = if draws.below(2) == 0 {
        4096
    } else {
        draws.below(20) as u16 + 1
    };
    Config::new(depth, replicas, threads, tables)
}

/// A script of drawn calls for each thread. If some are to stop, one in eight has few turns.
fn drawn_scripts(
    rt: &impl Abort,
    alloc: Global,
    draws: &mut Draws,
    config: Config,
    some_stop: bool,
) -> Vec<Vec<Drawn>> {
    let mut scripts = Vec::new(alloc);
    for _ in 0..config.threads() {
        let script = drawn_script(rt, alloc, draws, config.depth(), some_stop);
        scripts.push(script).expect(rt, "memory");
    }
    scripts
}

fn drawn_script(
    rt: &impl Abort,
    alloc: Global,
    draws: &mut Draws,
    depth: Depth,
    some_stop: bool,
) -> Vec<Drawn> {
    let mut script = Vec::new(alloc);
    for _ in 0..EACH {
        let query = draws.query(rt, depth);
        let few = draws.below(64);
        let turns = if some_stop && few < 8 { few } else { TURNS };
        script.push(Drawn { query, turns }).expect(rt, "memory");
    }
    script
}

/// A number of the environment, or this one.
fn number_of<R: Env + Alloc + Abort>(rt: &R, name: &str, otherwise: u64) -> u64 {
    match env::var(rt, name) {
        Ok(text) => text.as_str().parse::<u64>().expect(rt, "a number"),
        Err(_) => otherwise,
    }
}

/// A run of drawn calls. How many there were.
fn drawn_run<R: Wait + Abort + Threads + Alloc<A = Global> + Sync>(
    rt: &R,
    draws: &mut Draws,
    threads: u16,
    replicas: u8,
    some_stop: bool,
) -> u64 {
    let config = drawn_config(draws, replicas, threads).expect(rt, "a configuration");
    let scripts = drawn_scripts(rt, rt.alloc(), draws, config, some_stop);
    let settled = run(rt, rt.alloc(), config, Test::Scripts(scripts));
    judge(rt, rt.alloc(), config, &settled);
    assert_batches(rt, config, &settled, EACH);
    settled.made.len() as u64
}

/// Two, four and eight threads on one, two and four replicas, at both depths, with many tables or few. How many runs and calls there
/// were, which no schedule changes.
fn drawn_runs<R: Wait + Abort + Threads + Env + Alloc<A = Global> + Sync>(
    rt: &R,
    rounds: u64,
    some_stop: bool,
) -> (u64, u64) {
    let mut draws = Draws::new(number_of(rt, "SEED", 1));
    let mut runs = 0u64;
    let mut calls = 0u64;
    for _ in 0..number_of(rt, "ROUNDS", rounds) {
        for threads in [2, 4, 8] {
            for replicas in [1, 2, 4] {
                let made = drawn_run(rt, &mut draws, threads, replicas, some_stop);
                runs = runs.wrapping_add(1);
                calls = calls.wrapping_add(made);
            }
        }
    }
    (runs, calls)
}

/// Each call is answered.
#[test]
fn drawn_calls(rt: HostRuntime) {
    let (runs, calls) = drawn_runs(&rt, 3, false);
    println!(rt; "{runs} runs, {calls} calls").expect(&rt, "output");
}

/// Some calls are stopped, and then the updates of the same thread are refused; the other threads go on.
#[test]
fn drawn_calls_that_stop(rt: HostRuntime) {
    let (runs, calls) = drawn_runs(&rt, 3, true);
    println!(rt; "{runs} runs, {calls} calls").expect(&rt, "output");
}
