//! Looks: each thread looks at a log to which nothing is appended meanwhile.
ghost use Rattle.std.specs.Prelude.{◌≡◌, ◌+◌, ◌≤◌, All};
ghost use Rattle.vs_types.specs.declared.addresses.depth.Depth.TheVariants.{Four};
ghost use Rattle.vs_types.specs.declared.limits.TheConstants.{LOG_PLACES};

use crate::clock::now;
use crate::fault::ProgFault;
use crate::log::entry::entry_of;
use nr_ring::{LogName, LogPass, RingLog};
use std::alloc::Global;
use std::rt::Clock;
use std::sync::Wait;
use std::thread;
use std::thread::Threads;
use std::time::Duration;
use vs_types::Depth;

/// What the looks of all threads found, and the time that they took.
#[derive(Clone, Copy, Debug)]
pub struct Looks {
    /// The sum of the tails that were found.
    pub tails: u64,
    pub time: Duration,
}

/// So many threads look at a log of 16 entries, so many times each.
pub fn look<J: LogName + Send + Sync, R: Threads + Wait + Clock + Sync>(
    rt: &R,
    alloc: Global,
    threads: u8,
    calls: u32,
) -> Result<Looks, ProgFault>
    requires depth { J.depth ≡ Four }
    requires threads { (threads ≡ J.replicas) × (1 ≤ threads) × (threads ≤ 4) }
    requires passes { J.passes ≡ threads + 1 }
    requires places { J.places ≡ LOG_PLACES }
{
    let (log, mut passes) = RingLog::<J>::new(alloc, Depth::Four, threads, 1)?;
    let Some(mut own) = passes.pop() else {
        unreachable!()
    };
    if log.append(&mut own, &[entry_of(0); 16]).is_err() {
        return Err(ProgFault::Stuck);
    }
    look_on(rt, &log, passes, calls)
}

/// The same, on a log.
fn look_on<J: LogName + Send + Sync, R: Threads + Wait + Clock + Sync>(
    rt: &R,
    log: &RingLog<J>,
    passes: Vec<LogPass<J>>,
    calls: u32,
) -> Result<Looks, ProgFault>
    requires log { All (λ pass. pass.log ≡ log.now) passes.items }
{
    let start = now(rt)?;
    let tails = look_by_all(rt, log, passes, calls)?;
    let time = now(rt)?.duration_since(start);
    Ok(Looks { tails, time })
}

/// The threads look, each with its pass. The sum of the tails that they find.
fn look_by_all<J: LogName + Send + Sync, R: Threads + Wait + Sync>(
    rt: &R,
    log: &RingLog<J>,
    passes: Vec<LogPass<J>>,
    calls: u32,
) -> Result<u64, ProgFault>
    requires { All (λ pass. pass.log ≡ log.now) passes.items }
{
    let sums = thread::map_vec(
        rt,
        passes,
        &|pass: LogPass<J>| -> u64
            requires { pass.log ≡ log.now }
        { look_often(log, pass, calls) },
    )?;
    Ok(sum_of(&sums))
}

/// The sum of some numbers.
fn sum_of(numbers: &[u64]) -> u64 {
    let mut sum = 0u64;
    for number in numbers {
        sum = sum.wrapping_add(*number);
    }
    sum
}

/// Looks so many times, and adds up the tails that it finds.
fn look_often<J: LogName>(log: &RingLog<J>, mut pass: LogPass<J>, calls: u32) -> u64
    requires { pass.log ≡ log.now }
{
    let mut tails = 0u64;
    for _ in 0..calls {
        tails = tails.wrapping_add(log.look(&mut pass).tail);
    }
    tails
}
