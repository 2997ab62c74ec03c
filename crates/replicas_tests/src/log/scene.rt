//! New logs, of which tests have the parties make calls.
ghost use Rattle.std.specs.Prelude.{◌≡◌, ◌+◌, ◌≤◌, IfOk};
ghost use Rattle.vs_types.specs.declared.limits.TheConstants.{REPLICAS};
ghost use Rattle.nr_ring.specs.declared.cells.words.TheConstants.{MOST_PLACES, OTHERS};
ghost use Rattle.nr_ring.specs.Pass.{new_passes};

use crate::log::party::{OfLog, Party};
use crate::log::ring_calls::each_call;
use crate::log::ring_fresh::run_rounds;
use crate::log::ring_races::run_races;
use crate::log::ring_threads::share;
use crate::log::steps::{Step, append_each_size, fill, take_all};
use nr_ring::{LogName, LogPass, MOST_PLACES, OTHERS, RingLog};
use std::alloc::Global;
use std::marker::Brand;
use std::process::Abort;
use std::sync::Wait;
use std::thread::Threads;
use vs_types::{Depth, Memory, REPLICAS};

/// What the parties of a new log do.
#[derive(Clone, Copy)]
pub enum Test<'s> {
    /// These calls one after another.
    Steps(&'s [Step]),
    /// They fill it to its end, by so many batches of 16 entries.
    Fill(u32),
    /// They append batches of each size, and take them.
    Batches,
    /// Each makes each call after each event of another, where so many batches of 16 entries are in the log.
    EachCall(u32),
    /// They make calls at the same time, and no look is old.
    Rounds,
    /// The same, in short rounds.
    Races,
    /// They append and take entries at the same time.
    Share,
}

/// How a log is laid out.
#[derive(Clone, Copy)]
pub struct Layout {
    pub depth: Depth,
    pub replicas: u8,
    /// How many of its passes own no replica.
    pub others: u8,
    pub places: u64,
}

/// A log of four replicas at five levels, with as many passes that own none.
pub const OF_FOUR: Layout = Layout {
    depth: Depth::Five,
    replicas: 4,
    others: 4,
    places: 65_536,
};

impl Layout {
    pub fn new(depth: Depth, replicas: u8, others: u8) -> Layout
        ensures { (result.depth ≡ depth) × (result.replicas ≡ replicas) × (result.others ≡ others) }
    {
        Layout {
            depth,
            replicas,
            others,
            places: 65_536,
        }
    }
}

/// Makes a new log, and has its parties do what a test does.
pub fn run<R: Wait + Abort + Threads + Sync>(rt: &R, alloc: Global, layout: Layout, test: Test) {
    assert!(rt; 1 <= layout.replicas && layout.replicas <= REPLICAS);
    assert!(rt; layout.others <= OTHERS);
    assert!(rt; layout.places <= MOST_PLACES);
    run_on_log::<Brand, R>(rt, alloc, layout, test);
}

/// A new log that is laid out so, and its passes.
fn new_log<N: LogName>(
    alloc: Global,
    layout: Layout,
) -> Result<(RingLog<N>, Vec<LogPass<N>>), Memory>
    requires depth { layout.depth ≡ N.depth }
    requires replicas { (layout.replicas ≡ N.replicas) × (1 ≤ layout.replicas)
        × (layout.replicas ≤ REPLICAS) }
    requires passes { (layout.others ≤ OTHERS) × (N.passes ≡ layout.replicas + layout.others) }
    requires places { (layout.places ≡ N.places) × (layout.places ≤ MOST_PLACES) }
    ensures { IfOk result
        (λ made. made.1.items ≡ new_passes made.0 layout.replicas layout.others) }
{
    let Layout {
        depth,
        replicas,
        others,
        places,
    } = layout;
    if places == 65_536 {
        return RingLog::new(alloc, depth, replicas, others);
    }
    RingLog::with_places(alloc, depth, replicas, others, places)
}

/// The same, where the log has a name.
fn run_on_log<N: LogName + Send + Sync, R: Wait + Abort + Threads + Sync>(
    rt: &R,
    alloc: Global,
    layout: Layout,
    test: Test,
)
    requires depth { layout.depth ≡ N.depth }
    requires replicas { (layout.replicas ≡ N.replicas) × (1 ≤ layout.replicas)
        × (layout.replicas ≤ REPLICAS) }
    requires passes { (layout.others ≤ OTHERS) × (N.passes ≡ layout.replicas + layout.others) }
    requires places { (layout.places ≡ N.places) × (layout.places ≤ MOST_PLACES) }
{
    let (log, passes) = new_log::<N>(alloc, layout).expect(rt, "memory");
    assert_eq!(rt; log.depth(), layout.depth);
    run_named::<N, Brand, R>(rt, alloc, layout, &log, passes, test);
}

/// The same, where it is known which log it is.
fn run_named<N: LogName + Send + Sync, K: OfLog + Send + Sync, R: Wait + Abort + Threads + Sync>(
    rt: &R,
    alloc: Global,
    layout: Layout,
    log: &RingLog<N>,
    passes: Vec<LogPass<N>>,
    test: Test,
)
    requires depth { layout.depth ≡ N.depth }
    requires log { log.now ≡ K.log }
    requires passes { passes.items ≡ new_passes K.log layout.replicas layout.others }
{
    let parties = parties_of::<N, K>(rt, alloc, log, layout, passes);
    let count = usize::from(layout.replicas) + usize::from(layout.others);
    assert_eq!(rt; parties.len(), count);
    make_calls(rt, alloc, parties, test);
}

/// Has the parties of a new log do what a test does.
fn make_calls<N: LogName + Send + Sync, K: OfLog + Send + Sync, R: Wait + Abort + Threads + Sync>(
    rt: &R,
    alloc: Global,
    parties: Vec<Party<N, K>>,
    test: Test,
) {
    match test {
        Test::Steps(steps) => take_all(rt, parties, steps),
        Test::Fill(batches) => fill(rt, parties, batches),
        Test::Batches => append_each_size(rt, parties),
        Test::EachCall(batches) => each_call(rt, parties, batches),
        Test::Rounds => run_rounds(rt, alloc, parties),
        Test::Races => run_races(rt, alloc, parties),
        Test::Share => share(rt, alloc, parties),
    }
}

/// A party for each pass of a new log.
fn parties_of<'a, N: LogName, K: OfLog>(
    rt: &impl Abort,
    alloc: Global,
    log: &'a RingLog<N>,
    layout: Layout,
    passes: Vec<LogPass<N>>,
) -> Vec<Party<'a, N, K>>
    requires depth { layout.depth ≡ N.depth }
    requires log { log.now ≡ K.log }
    requires passes { passes.items ≡ new_passes K.log layout.replicas layout.others }
{
    let mut parties = Vec::new(alloc);
    for pass in passes {
        parties
            .push(Party::new(log, pass, layout.depth))
            .expect(rt, "memory");
    }
    parties
}
