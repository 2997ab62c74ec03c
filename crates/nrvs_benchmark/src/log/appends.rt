//! Appends: each thread owns a replica, appends entries, and takes all that there are.
ghost use Rattle.std.specs.Prelude.{◌≡◌, ◌+◌, ◌≤◌, ◌∷◌, ℕ, [], All, length};
ghost use Rattle.vs_types.specs.LogEntry.{IsLogEntry};
ghost use Rattle.vs_types.specs.declared.addresses.depth.Depth.TheVariants.{Four};
ghost use Rattle.vs_types.specs.declared.limits.TheConstants.{LOG_PLACES};

use crate::clock::now;
use crate::fault::ProgFault;
use crate::log::entry::entry_of;
use arrayvec::ArrayVec;
use crossbeam_utils::Backoff;
use nr_ring::{AppendFault, LogName, LogPass, RingLog, Tails};
use std::alloc::Global;
use std::rt::Clock;
use std::sync::Wait;
use std::thread;
use std::thread::Threads;
use std::time::Duration;
use vs_types::{Depth, LogEntry};

/// How often a thread tries what the others may hinder, before it says that it is stuck.
const TRIES: u32 = 1 << 30;

/// What a replica has taken.
#[derive(Clone, Copy, Debug)]
pub struct Taken {
    /// How many entries.
    pub entries: u32,
    /// The sum of the numbers of their calls.
    pub calls: u64,
}

/// The log when all threads have ended, what its replicas have taken, and the time that it took.
#[derive(Debug, Drop)]
pub struct Appends {
    pub tails: Tails,
    pub taken: Vec<Taken>,
    pub time: Duration,
}

/// So many threads, each of which owns a replica of a new log, append so many entries each, and take all of them.
pub fn append<J: LogName + Send + Sync, R: Threads + Wait + Clock + Sync>(
    rt: &R,
    alloc: Global,
    threads: u8,
    calls: u32,
) -> Result<Appends, ProgFault>
    requires depth { J.depth ≡ Four }
    requires threads { (threads ≡ J.replicas) × (1 ≤ threads) × (threads ≤ 4) }
    requires passes { J.passes ≡ threads + 1 }
    requires places { J.places ≡ LOG_PLACES }
    requires calls { calls ≤ 65536 }
{
    let (log, mut passes) = RingLog::<J>::new(alloc, Depth::Four, threads, 1)?;
    let Some(own) = passes.pop() else {
        unreachable!()
    };
    let all = calls * u32::from(threads);
    append_on(rt, &log, own, passes, calls, all)
}

/// The same, on a log, of which one pass looks at the end.
fn append_on<J: LogName + Send + Sync, R: Threads + Wait + Clock + Sync>(
    rt: &R,
    log: &RingLog<J>,
    mut own: LogPass<J>,
    passes: Vec<LogPass<J>>,
    calls: u32,
    all: u32,
) -> Result<Appends, ProgFault>
    requires depth { J.depth ≡ Four }
    requires own { own.log ≡ log.now }
    requires log { All (λ pass. pass.log ≡ log.now) passes.items }
    requires owners { All (λ pass. (replica : ℕ) × (pass.view.owns ≡ replica ∷ [])) passes.items }
    requires calls { calls ≤ 65536 }
{
    let start = now(rt)?;
    let taken = append_by_all(rt, log, passes, calls, all)?;
    let time = now(rt)?.duration_since(start);
    let tails = log.look(&mut own);
    Ok(Appends { tails, taken, time })
}

/// The threads append and take, each with its pass.
fn append_by_all<J: LogName + Send + Sync, R: Threads + Wait + Sync>(
    rt: &R,
    log: &RingLog<J>,
    passes: Vec<LogPass<J>>,
    calls: u32,
    all: u32,
) -> Result<Vec<Taken>, ProgFault>
    requires depth { J.depth ≡ Four }
    requires log { All (λ pass. pass.log ≡ log.now) passes.items }
    requires owners { All (λ pass. (replica : ℕ) × (pass.view.owns ≡ replica ∷ [])) passes.items }
    requires calls { calls ≤ 65536 }
{
    let taken = thread::map_vec(
        rt,
        passes,
        &|pass: LogPass<J>| -> Taken
            requires depth { J.depth ≡ Four }
            requires log { pass.log ≡ log.now }
            requires owner { (replica : ℕ) × (pass.view.owns ≡ replica ∷ []) }
            requires calls { calls ≤ 65536 }
        { append_and_take(log, pass, calls, all) },
    )?;
    if have_taken(&taken, all) {
        Ok(taken)
    } else {
        Err(ProgFault::Stuck)
    }
}

/// Whether each replica has taken so many entries.
fn have_taken(replicas: &[Taken], entries: u32) -> bool {
    for taken in replicas {
        if taken.entries != entries {
            return false;
        }
    }
    true
}

/// Appends so many entries, and takes entries until the replica has all that the threads append, or the thread is stuck.
fn append_and_take<J: LogName>(
    log: &RingLog<J>,
    mut pass: LogPass<J>,
    calls: u32,
    all: u32,
) -> Taken
    requires depth { J.depth ≡ Four }
    requires log { pass.log ≡ log.now }
    requires owner { (replica : ℕ) × (pass.view.owns ≡ replica ∷ []) }
    requires calls { calls ≤ 65536 }
{
    let mut taken = Taken {
        entries: 0,
        calls: 0,
    };
    for call in 0..calls {
        append_all(log, &mut pass, &[entry_of(call)], &mut taken);
    }
    let backoff = Backoff::new();
    for _ in 0..TRIES {
        if taken.entries == all {
            break;
        }
        take(log, &mut pass, &mut taken);
        backoff.snooze();
    }
    taken
}

/// Appends a batch; where the log is full, the replica takes what it has still to take.
fn append_all<J: LogName>(
    log: &RingLog<J>,
    pass: &mut LogPass<J>,
    batch: &[LogEntry],
    taken: &mut Taken,
)
    requires log { pass.old.log ≡ log.now }
    requires owner { (replica : ℕ) × (pass.old.view.owns ≡ replica ∷ []) }
    requires count { (1 ≤ length batch.now) × (length batch.now ≤ 16) }
    requires entries { All (IsLogEntry J.depth) batch.now }
    ensures log { pass.new.log ≡ pass.old.log }
    ensures owner { pass.new.view.owns ≡ pass.old.view.owns }
{
    let backoff = Backoff::new();
    for _ in 0..TRIES {
        match log.append(pass, batch) {
            Ok(_) | Err(AppendFault::LogEnded) => return,
            Err(AppendFault::Full(_)) => {
                take(log, pass, taken);
                backoff.snooze();
            }
            Err(AppendFault::Moved(_)) => backoff.spin(),
        }
    }
}

/// Takes all entries that the replica has still to take, or none where another thread's event comes between.
fn take<J: LogName>(log: &RingLog<J>, pass: &mut LogPass<J>, taken: &mut Taken)
    requires log { pass.old.log ≡ log.now }
    requires owner { (replica : ℕ) × (pass.old.view.owns ≡ replica ∷ []) }
    ensures log { pass.new.log ≡ pass.old.log }
    ensures owner { pass.new.view.owns ≡ pass.old.view.owns }
{
    let mut entries = ArrayVec::new();
    if log.take(pass, &mut entries).is_err() {
        return;
    }
    taken.entries = taken.entries.saturating_add(entries.len() as u32);
    for entry in &entries {
        taken.calls = taken.calls.wrapping_add(u64::from(entry.call()));
    }
}
