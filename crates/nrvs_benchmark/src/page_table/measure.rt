//! A workload's rounds on a space, with the time of each kind of call.
ghost use Rattle.std.specs.Prelude.{◌≡◌, ◌⊎◌, All, IfErr, IfOk, OnOk};
ghost use Rattle.std.specs.FinMap as finite;
ghost use Rattle.vs_types.specs.Depth.{IsCanonical};
ghost use Rattle.vs_types.specs.Space as spaces;
ghost use Rattle.vs_types.specs.Operation.{IsAction};
ghost use Rattle.vs_space.specs.Table.{IsTableOf};
ghost use Rattle.nrvs_benchmark.specs.Work.{Applies, IsRound, IsWellFormed, after_rounds, no_progress, sum_of_looks};

use crate::clock::now;
use crate::fault::ProgFault;
use crate::page_table::load::{Load, all_fit};
use crate::page_table::sum::Sum;
use std::time::{Clock, Duration};
use vs_arena::FrameStore;
use vs_space::Space;
use vs_types::Op;

/// How many frames the store has.
pub const FRAMES: usize = 4096;

/// The number of its first frame: all pages lie below the tables.
pub const BASE: u64 = 1 << 39;

/// The time that each kind of call took.
#[derive(Clone, Copy, Debug)]
pub struct Times {
    pub map: Duration,
    pub resolve: Duration,
    pub protect: Duration,
    pub unmap: Duration,
}

impl Times {
    const ZERO: Times = Times {
        map: Duration::ZERO,
        resolve: Duration::ZERO,
        protect: Duration::ZERO,
        unmap: Duration::ZERO,
    };
}

/// The sum of all answers of some rounds of a workload, and the times of those after the first.
#[derive(Clone, Copy, Debug)]
pub struct Measured {
    pub sum: Sum,
    pub times: Times,
}

impl Measured {
    /// Before the first round.
    pub fn new() -> Measured
        ensures { result.sum.value ≡ 0 }
    {
        Measured {
            sum: Sum::new(),
            times: Times::ZERO,
        }
    }

    /// Leaves out the times of the first round, where others follow: it is the first to write the frames, and waits for the
    /// kernel to give each page of memory.
    fn begin_round(&mut self, done: u16)
        ensures { self.new.sum ≡ self.old.sum }
    {
        if done == 1 {
            self.times = Times::ZERO;
        }
    }

    /// One round: maps all pages, resolves an address in each, protects all and unmaps all. The sum takes in each answer, and
    /// the number of tables while the pages are there and when they are gone.
    pub fn round<S: FrameStore>(
        &mut self,
        clock: &impl Clock,
        space: &mut Space<S>,
        load: &Load,
    ) -> Result<(), ProgFault>
        requires depth { space.old.depth ≡ load.now.depth }
        requires fits { IsWellFormed load.now }
        ensures ok { OnOk result
            (IsRound space.old load.now self.old.sum.value space.new self.new.sum.value) }
        ensures err { IfErr result (λ fault. fault ≡ ProgFault.NoClock) }
    {
        let start = now(clock)?;
        self.sum = apply_all(space, &load.maps, self.sum);
        let mapped = now(clock)?;
        self.sum.add(space.tables() as u64);
        self.sum = resolve_all(space, &load.addresses, self.sum);
        let resolved = now(clock)?;
        self.sum = apply_all(space, &load.protects, self.sum);
        let protected = now(clock)?;
        self.sum = apply_all(space, &load.unmaps, self.sum);
        let unmapped = now(clock)?;
        self.sum.add(space.tables() as u64);
        let times = &mut self.times;
        times.map = times.map.saturating_add(mapped.duration_since(start));
        times.resolve = times
            .resolve
            .saturating_add(resolved.duration_since(mapped));
        times.protect = times
            .protect
            .saturating_add(protected.duration_since(resolved));
        times.unmap = times
            .unmap
            .saturating_add(unmapped.duration_since(protected));
        Ok(())
    }
}

/// Rounds of a workload, on a page table of its own, of the workload's depth, over this store.
pub fn measure<S: FrameStore + Drop>(
    clock: &impl Clock,
    store: S,
    load: &Load,
    rounds: u16,
) -> Result<Measured, ProgFault>
    requires empty { S.frames store ≡ finite.empty }
    requires size { (S.place store).size ≡ FRAMES }
    ensures ok { IfOk result (λ measured. measured.sum.value
        ≡ (after_rounds load.now.depth FRAMES load.now rounds no_progress).sum) }
    ensures err { IfErr result (λ fault. (fault ≡ ProgFault.NoClock)
        ⊎ ((fault ≡ ProgFault.BadPage) × (IsWellFormed load.now → ⊥))) }
{
    let depth = load.depth;
    if !all_fit(depth, &load.maps)
        || !all_fit(depth, &load.protects)
        || !all_fit(depth, &load.unmaps)
    {
        return Err(ProgFault::BadPage);
    }
    let Ok(mut space) = Space::new(store, depth) else {
        unreachable!();
    };
    let mut measured = Measured::new();
    for done in 0..rounds {
        measured.begin_round(done);
        measured.round(clock, &mut space, load)?;
    }
    Ok(measured)
}

/// Does the operations one after another, and gives the sum with their answers. It is a function of its own for each kind of store,
/// so that no other code takes its registers.
#[inline(never)]
fn apply_all<S: FrameStore>(space: &mut Space<S>, ops: &[Op], mut sum: Sum) -> Sum
    requires { All (IsAction space.old.depth) ops.now }
    ensures { Applies space.old ops.now sum.value space.new result.value }
{
    for op in ops {
        sum.add_answer(space.apply(*op));
    }
    sum
}

/// Resolves the addresses, and gives the sum with their answers. It is a function of its own, as `apply_all` is.
#[inline(never)]
fn resolve_all<S: FrameStore>(space: &Space<S>, addresses: &[u64], mut sum: Sum) -> Sum
    requires { All (IsCanonical space.now.depth) addresses.now }
    ensures { (s : spaces.Space) → IsTableOf space.now s
        → result.value ≡ sum_of_looks s sum.value addresses.now }
{
    for address in addresses {
        sum.add_answer(space.resolve(*address));
    }
    sum
}
