//! Calls one after another on few replicas.

use crate::cases::{Case, Plan};
use crate::steps::{Asks, MAP, Step};
use std::alloc::Global;
use std::process::Abort;
use std::sync::Wait;
use std::thread::Threads;
use vs_types::{Access, Answer, Depth, Rights, Size};

/// A page is mapped by the first of so many threads, and read by the last, which has made no call. Each thread has a replica with just
/// the tables that the page takes.
fn map_and_read<R: Wait + Abort + Threads + Sync>(rt: &R, alloc: Global, depth: Depth, count: u8) {
    let threads = u16::from(count);
    let last = threads.saturating_sub(1);
    let mapped = Answer::Mapped(0x1123, Size::K4, Rights::ALL);
    let steps = [
        Step::update(0, 0, MAP, 0, Answer::Done),
        Step::read(last, 0x400123, 1, mapped),
        Step::read(last, 0x401000, 1, Answer::NotMapped),
        Step::access(last, 0x400123, Access::Write, 1, Answer::Allowed(0x1123)),
        Step::access(last, 0x401000, Access::Fetch, 1, Answer::Fault(20)),
    ];
    Case {
        calls: &[0],
        applied: [1; 4],
        batches: 1,
        ..Case::new(depth, count, threads, u16::from(depth.levels()), &steps)
    }
    .assert(rt, alloc);
}

#[test]
fn one_replica(rt: HostRuntime) {
    map_and_read(&rt, rt.alloc(), Depth::Four, 1);
}

#[test]
fn two_replicas(rt: HostRuntime) {
    map_and_read(&rt, rt.alloc(), Depth::Four, 2);
}

#[test]
fn five_levels(rt: HostRuntime) {
    map_and_read(&rt, rt.alloc(), Depth::Five, 1);
    map_and_read(&rt, rt.alloc(), Depth::Five, 2);
}

/// Replicas at which nothing was done: each has a root, and nothing else.
#[test]
fn nothing_was_done(rt: HostRuntime) {
    Case::new(Depth::Four, 4, 4, 4096, &[]).assert(&rt, rt.alloc());
}

/// So many updates of thread 0, each answered, and how many of them a replica takes whose threads make no call.
fn leave_replicas_alone<R: Wait + Abort + Threads + Sync>(
    rt: &R,
    alloc: Global,
    updates: u32,
    taken: u32,
) {
    let mut plan = Plan::new(alloc);
    for call in 0..updates {
        let (asks, answer) = match call % 3 {
            0 => (MAP, Answer::Done),
            1 => (MAP, Answer::Overlap(0x400000)),
            _ => (Asks::Unmap, Answer::Removed(0x1000, Size::K4, Rights::ALL)),
        };
        plan.place(rt, Step::update(0, call, asks, u64::from(call), answer));
    }
    for replicas in [2, 3, 4] {
        Case {
            calls: &plan.calls,
            applied: [updates, taken, taken, taken],
            batches: updates,
            ..Case::new(Depth::Four, replicas, 4, 4, &plan.steps)
        }
        .assert(rt, alloc);
    }
}

/// A replica takes what the others have appended when one of its threads calls, or when the ring of 16 is full, and not before.
#[test]
fn replica_without_calls(rt: HostRuntime) {
    for (updates, taken) in [(1, 0), (16, 0), (17, 16), (32, 16), (33, 32), (40, 32)] {
        leave_replicas_alone(&rt, rt.alloc(), updates, taken);
    }
}

/// One update of thread 0 to 6, and what the three replicas have then applied.
fn update_once<R: Wait + Abort + Threads + Sync>(
    rt: &R,
    alloc: Global,
    steps: &[Step],
    applied: [u32; 4],
) {
    Case {
        calls: &[9],
        applied,
        batches: 1,
        ..Case::new(Depth::Four, 3, 7, 4, steps)
    }
    .assert(rt, alloc);
}

/// A thread updates alone, or reads or accesses after thread 0's update. The replicas that have then applied it.
fn work_at_a_replica<R: Wait + Abort + Threads + Sync>(
    rt: &R,
    alloc: Global,
    thread: u16,
    alone: [u32; 4],
    both: [u32; 4],
) {
    let mapped = Answer::Mapped(0x1000, Size::K4, Rights::ALL);
    let allowed = Answer::Allowed(0x1000);
    let first = Step::update(0, 9, MAP, 0, Answer::Done);
    let update = Step { thread, ..first };
    let read = Step::read(thread, 0x400000, 1, mapped);
    let access = Step::access(thread, 0x400000, Access::Write, 1, allowed);
    update_once(rt, alloc, &[update], alone);
    update_once(rt, alloc, &[first, read], both);
    update_once(rt, alloc, &[first, access], both);
}

/// Each of seven threads works at the replica of its number modulo three, whether it updates, reads or accesses.
#[test]
fn thread_works_at_its_replica(rt: HostRuntime) {
    for thread in [0, 3, 6] {
        work_at_a_replica(&rt, rt.alloc(), thread, [1, 0, 0, 0], [1, 0, 0, 0]);
    }
    for thread in [1, 4] {
        work_at_a_replica(&rt, rt.alloc(), thread, [0, 1, 0, 0], [1, 1, 0, 0]);
    }
    for thread in [2, 5] {
        work_at_a_replica(&rt, rt.alloc(), thread, [0, 0, 1, 0], [1, 0, 1, 0]);
    }
}
