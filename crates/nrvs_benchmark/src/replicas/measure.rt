//! The calls of all threads, and the time that they take.
ghost use Rattle.std.specs.Prelude.{◌≡◌, ◌+◌, ◌<◌, ◌≤◌, All};
ghost use Rattle.vs_types.specs.declared.addresses.depth.Depth.TheVariants.{Four};
ghost use Rattle.vs_types.specs.declared.limits.TheConstants.{LOG_PLACES};

use crate::clock::now;
use crate::fault::ProgFault;
use crate::replicas::caller::{Caller, Numbers};
use crate::replicas::draws::{Drawn, Draws, PAGES};
use nr_replicas::{OpenReplicas, Replicas, ReplicasName};
use nr_ring::{LogName, LogPass};
use std::alloc::Global;
use std::marker::Brand;
use std::rt::Clock;
use std::sync::Wait;
use std::thread;
use std::thread::Threads;
use std::time::Duration;
use vs_types::{Answer, Config, Depth, Op, Rights, Size};

/// How many updates map the pages: the last 32 of them one in each table of the pages that are the threads' own.
const MAPS: u32 = 16_384 + 32;

/// How many updates all threads may make then: the log takes whole batches, as long as its tail is at most 65,520.
const UPDATES: u32 = 65_520 - MAPS;

/// What each thread does.
#[derive(Clone, Copy, Debug)]
pub struct Work {
    /// How many calls it makes.
    pub calls: u32,
    /// How many of a hundred read.
    pub reads: u8,
    /// Whether its updates map and unmap pages of its own, in turn; else they protect pages of all.
    pub maps: bool,
}

/// What a thread did.
#[derive(Clone, Copy, Debug)]
pub struct Done {
    pub reads: u32,
    pub updates: u32,
    /// The sum of the physical addresses that it read.
    pub sum: u64,
}

/// What the threads did, and the time from before the first was started until the last has ended.
#[derive(Debug, Drop)]
pub struct Measured {
    pub done: Vec<Done>,
    pub time: Duration,
}

/// New replicas of this configuration, on which all pages are mapped first; then each thread makes its calls.
pub fn measure<J: LogName + Send + Sync, R: Threads + Wait + Clock + Sync>(
    rt: &R,
    alloc: Global,
    config: Config,
    work: Work,
) -> Result<Measured, ProgFault>
    requires depth { (config.depth ≡ Four) × (J.depth ≡ Four) }
    requires replicas { config.replicas ≡ J.replicas }
    requires passes { J.passes ≡ config.replicas + config.threads }
    requires places { J.places ≡ LOG_PLACES }
{
    let (opened, passes) = OpenReplicas::<J>::new(alloc, config)?;
    measure_named::<J, Brand, R>(rt, alloc, config, opened, passes, work)
}

/// The same, where the replicas have their name.
fn measure_named<
    J: LogName + Send + Sync,
    K: ReplicasName + Send + Sync,
    R: Threads + Wait + Clock + Sync,
>(
    rt: &R,
    alloc: Global,
    config: Config,
    opened: OpenReplicas<J>,
    passes: Vec<LogPass<J>>,
    work: Work,
) -> Result<Measured, ProgFault>
    requires name { (opened.log ≡ K.log) × (opened.layout.tables ≡ K.tables)
        × (opened.base ≡ K.base) }
    requires config { (opened.layout ≡ config) × (J.depth ≡ Four) }
    requires passes { All (λ pass. pass.log ≡ K.log) passes.items }
{
    let replicas = opened.named::<K>()?;
    let callers = callers_of(alloc, &replicas, config, passes)?;
    measure_callers(rt, alloc, callers, work)
}

/// The first caller maps all pages, and then all make their calls.
fn measure_callers<
    J: LogName + Send + Sync,
    K: ReplicasName + Send + Sync,
    R: Threads + Wait + Clock + Sync,
>(
    rt: &R,
    alloc: Global,
    mut callers: Vec<Caller<J, K>>,
    work: Work,
) -> Result<Measured, ProgFault> {
    if let Some(first) = callers.first_mut() {
        map_pages(rt, first)?;
    }
    let start = now(rt)?;
    let done = call_by_all(rt, callers, work)?;
    let time = now(rt)?.duration_since(start);
    Ok(Measured {
        done: all_done(alloc, &done)?,
        time,
    })
}

/// Each caller makes its calls, in a thread of its own.
fn call_by_all<J: LogName + Send + Sync, K: ReplicasName + Send + Sync, R: Threads + Wait + Sync>(
    rt: &R,
    callers: Vec<Caller<J, K>>,
    work: Work,
) -> Result<Vec<Result<Done, ProgFault>>, ProgFault> {
    let done = thread::map_vec(
        rt,
        callers,
        &|caller: Caller<J, K>| -> Result<Done, ProgFault> { call_often(rt, caller, work) },
    )?;
    Ok(done)
}

/// What all threads did, or why the first of them that ended early did.
fn all_done(alloc: Global, results: &[Result<Done, ProgFault>]) -> Result<Vec<Done>, ProgFault> {
    let mut done = Vec::new(alloc);
    for result in results {
        done.push((*result)?)?;
    }
    Ok(done)
}

/// A caller for each thread. The calls of the first begin with those that map the pages.
fn callers_of<'a, J: LogName, K: ReplicasName>(
    alloc: Global,
    replicas: &'a Replicas<J, K>,
    config: Config,
    passes: Vec<LogPass<J>>,
) -> Result<Vec<Caller<'a, J, K>>, ProgFault>
    requires config { (replicas.now ≡ config) × (J.depth ≡ Four) }
    requires passes { All (λ pass. pass.log ≡ K.log) passes.items }
{
    let each = UPDATES / u32::from(config.threads());
    let mut callers = Vec::new(alloc);
    for pass in passes {
        let thread = callers.len();
        if thread >= usize::from(config.threads()) {
            return Err(ProgFault::Stuck);
        }
        let thread = thread as u16;
        let end = MAPS + (u32::from(thread) + 1) * each;
        let first = if thread == 0 { 0 } else { end - each };
        callers.push(Caller::new(replicas, pass, thread, Numbers { first, end }))?;
    }
    Ok(callers)
}

/// Maps all pages that are read, and one in each table of those that are the threads' own.
fn map_pages<J: LogName, K: ReplicasName, R: Wait>(
    rt: &R,
    caller: &mut Caller<J, K>,
) -> Result<(), ProgFault> {
    for page in 0..PAGES {
        map(rt, caller, page * 4096)?;
    }
    for table in 0..32u64 {
        map(rt, caller, (PAGES + table * 512) * 4096)?;
    }
    Ok(())
}

/// Maps a page to the physical address that is its own.
fn map<J: LogName, K: ReplicasName, R: Wait>(
    rt: &R,
    caller: &mut Caller<J, K>,
    base: u64,
) -> Result<(), ProgFault> {
    let op = Op::map(Depth::Four, base, Size::K4, base, Rights::ALL)?;
    match caller.update(rt, op)? {
        Answer::Done => Ok(()),
        _ => Err(ProgFault::Stuck),
    }
}

/// Unmaps the page that the thread has mapped, or else maps the one that is drawn: the page that it has mapped then.
fn map_or_unmap<J: LogName, K: ReplicasName, R: Wait>(
    rt: &R,
    caller: &mut Caller<J, K>,
    drawn: Drawn,
    mapped: Option<u64>,
) -> Result<Option<u64>, ProgFault> {
    let Some(base) = mapped else {
        map(rt, caller, drawn.own)?;
        return Ok(Some(drawn.own));
    };
    match caller.update(rt, Op::unmap(Depth::Four, base)?)? {
        Answer::Removed(_, _, _) => Ok(None),
        _ => Err(ProgFault::Stuck),
    }
}

/// Makes the calls of a thread.
fn call_often<J: LogName, K: ReplicasName, R: Wait>(
    rt: &R,
    mut caller: Caller<J, K>,
    work: Work,
) -> Result<Done, ProgFault> {
    let mut draws = Draws::new(caller.thread());
    let mut mapped = None;
    let mut done = Done {
        reads: 0,
        updates: 0,
        sum: 0,
    };
    for _ in 0..work.calls {
        let drawn = draws.next(work.reads);
        if drawn.reads {
            let phys = read(rt, &mut caller, drawn.address)?;
            done.reads = done.reads.wrapping_add(1);
            done.sum = done.sum.wrapping_add(phys);
            continue;
        }
        if work.maps {
            mapped = map_or_unmap(rt, &mut caller, drawn, mapped)?;
        } else {
            protect(rt, &mut caller, drawn)?;
        }
        done.updates = done.updates.wrapping_add(1);
    }
    Ok(done)
}

/// Reads an address of a mapped page, and gives the physical one.
fn read<J: LogName, K: ReplicasName, R: Wait>(
    rt: &R,
    caller: &mut Caller<J, K>,
    address: u64,
) -> Result<u64, ProgFault> {
    if !Depth::Four.is_canonical(address) {
        return Err(ProgFault::Stuck);
    }
    match caller.read(rt, address)? {
        Answer::Mapped(phys, _, _) => Ok(phys),
        _ => Err(ProgFault::Stuck),
    }
}

/// Changes the rights of a mapped page.
fn protect<J: LogName, K: ReplicasName, R: Wait>(
    rt: &R,
    caller: &mut Caller<J, K>,
    drawn: Drawn,
) -> Result<(), ProgFault> {
    let rights = Rights {
        write: drawn.rights % 2 == 1,
        user: drawn.rights / 2 % 2 == 1,
        exec: drawn.rights / 4 % 2 == 1,
    };
    let op = Op::protect(Depth::Four, drawn.address - drawn.address % 4096, rights)?;
    match caller.update(rt, op)? {
        Answer::Changed(_) => Ok(()),
        _ => Err(ProgFault::Stuck),
    }
}
