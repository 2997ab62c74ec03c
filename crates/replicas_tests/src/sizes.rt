//! The greatest configurations, and those in which a limit is met.

use crate::cases::{Case, Plan};
use crate::steps::{Asks, MAP, Step};
use nr_replicas::UpdateFault;
use std::alloc::Global;
use std::process::Abort;
use std::sync::Wait;
use std::thread::Threads;
use vs_types::{Answer, Depth, Rights, Size};

/// Each of 64 threads on four replicas maps a page, and then each reads the next one's.
#[test]
fn as_many_threads_as_can_be(rt: HostRuntime) {
    let mapped = Answer::Mapped(0x1000, Size::K4, Rights::ALL);
    let mut plan = Plan::new(rt.alloc());
    for thread in 0..64u16 {
        let place = u32::from(thread);
        let step = Step::update(
            thread,
            131_071 - place,
            Asks::Map(place),
            u64::from(place),
            Answer::Done,
        );
        plan.place(&rt, step);
    }
    for thread in 0..64u16 {
        let address = 0x400000 + 0x200000 * ((u64::from(thread) + 1) % 64);
        plan.add(&rt, Step::read(thread, address, 64, mapped));
    }
    Case {
        calls: &plan.calls,
        applied: [64; 4],
        batches: 64,
        ..Case::new(Depth::Five, 4, 64, 4096, &plan.steps)
    }
    .assert(&rt, rt.alloc());
}

/// The updates of 64 threads wait in the slots of one replica, more than are in a batch; the last thread's call puts them all.
#[test]
fn more_updates_than_a_batch(rt: HostRuntime) {
    let mut plan = Plan::new(rt.alloc());
    for thread in 0..63u16 {
        let call = 2 * u32::from(thread);
        let stopped = UpdateFault::Stopped(call);
        plan.place(&rt, Step::fault(thread, call, MAP, 0, stopped));
    }
    plan.place(
        &rt,
        Step::update(63, 200, MAP, 63, Answer::Overlap(0x400000)),
    );
    Case {
        calls: &plan.calls,
        applied: [64; 4],
        batches: 4,
        ..Case::new(Depth::Four, 1, 64, 4, &plan.steps)
    }
    .assert(&rt, rt.alloc());
}

/// Each page in 2 MiB of its own takes a table, and each 512 of them one more: with 4,086 of them all 4,096 tables are in use, at each
/// of the replicas.
#[test]
fn as_many_tables_as_can_be(rt: HostRuntime) {
    let mut plan = Plan::new(rt.alloc());
    for n in 0..4_088u32 {
        let answer = if n < 4_086 {
            Answer::Done
        } else {
            Answer::Full(4097)
        };
        let thread = (n % 2) as u16;
        plan.place(
            &rt,
            Step::update(thread, n, Asks::Map(n.min(4_086)), u64::from(n), answer),
        );
    }
    let case = Case {
        calls: &plan.calls,
        applied: [4_087, 4_088, 0, 0],
        batches: 4_088,
        ..Case::new(Depth::Four, 2, 2, 4096, &plan.steps)
    };
    case.assert(&rt, rt.alloc());
    let settled = case.settle(&rt, rt.alloc());
    for dump in settled.dumps.as_slice() {
        assert_eq!(rt; dump.count(), 4096);
    }
}

/// If there is a table too few, a map is answered how many it takes, at each replica.
fn map_with_too_few<R: Wait + Abort + Threads + Sync>(
    rt: &R,
    alloc: Global,
    depth: Depth,
    tables: u16,
) {
    let full = Answer::Full(u64::from(depth.levels()));
    let steps = [
        Step::update(2, 0, MAP, 0, full),
        Step::update(1, 1, MAP, 1, full),
        Step::update(0, 2, Asks::Unmap, 2, Answer::NotMapped),
        Step::read(1, 0x400000, 3, Answer::NotMapped),
    ];
    Case {
        calls: &[0, 1, 2],
        applied: [3, 3, 1, 0],
        batches: 3,
        ..Case::new(depth, 3, 3, tables, &steps)
    }
    .assert(rt, alloc);
}

#[test]
fn too_few_tables(rt: HostRuntime) {
    for (depth, tables) in [(Depth::Four, 3), (Depth::Five, 4), (Depth::Four, 1)] {
        map_with_too_few(&rt, rt.alloc(), depth, tables);
    }
}
