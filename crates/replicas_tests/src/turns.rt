//! What a lone thread's update does in a turn: one poll, or one attempt at one replica's lock, with one batch at most.

use crate::caller::Said;
use crate::cases::{Case, Plan};
use crate::steps::{Asks, Step};
use nr_replicas::UpdateFault;
use std::alloc::Global;
use std::process::Abort;
use std::sync::Wait;
use std::thread::Threads;
use vs_types::{Answer, Depth};

/// The updates of 63 threads wait in their slots, and the last of 64 puts them all, with so many turns.
fn put_four_batches<R: Wait + Abort + Threads + Sync>(
    rt: &R,
    alloc: Global,
    turns: u32,
    wanted: Said,
) {
    let mut plan = Plan::new(alloc);
    for thread in 0..63u16 {
        let call = u32::from(thread);
        let stopped = UpdateFault::Stopped(call);
        plan.place(rt, Step::fault(thread, call, Asks::Unmap, 0, stopped));
    }
    let last = Step::update(63, 63, Asks::Unmap, 63, Answer::NotMapped);
    plan.place(
        rt,
        Step {
            turns,
            wanted,
            ..last
        },
    );
    Case {
        calls: &plan.calls,
        applied: [64; 4],
        batches: 4,
        ..Case::new(Depth::Four, 1, 64, 4, &plan.steps)
    }
    .assert(rt, alloc);
}

/// Each batch of 16 takes a turn, and a poll comes after it.
#[test]
fn batch_takes_a_turn(rt: HostRuntime) {
    let stopped = Said::Fault(UpdateFault::Stopped(63));
    let answered = Said::Answer(63, Answer::NotMapped);
    for (turns, wanted) in [(7, stopped), (8, answered)] {
        put_four_batches(&rt, rt.alloc(), turns, wanted);
    }
}

/// The first of four threads makes 16 updates, which fill the ring, and one more, which has so many turns; the other replicas have made no
/// call. What it is answered, how many were placed, and what was applied.
fn meet_a_full_ring<R: Wait + Abort + Threads + Sync>(
    rt: &R,
    alloc: Global,
    turns: u32,
    wanted: Said,
    placed: u32,
    applied: [u32; 4],
) {
    let mut plan = Plan::new(alloc);
    for call in 0..16 {
        let step = Step::update(0, call, Asks::Unmap, u64::from(call), Answer::NotMapped);
        plan.place(rt, step);
    }
    let last = Step {
        turns,
        wanted,
        ..Step::update(0, 16, Asks::Unmap, 16, Answer::NotMapped)
    };
    if placed > 16 {
        plan.place(rt, last);
    } else {
        plan.add(rt, last);
    }
    Case {
        calls: &plan.calls,
        applied,
        batches: placed,
        ..Case::new(Depth::Four, 4, 4, 4, &plan.steps)
    }
    .assert(rt, alloc);
}

/// If the ring is full, each replica catches up in a turn of its own, by number; then come a poll, the batch, and the poll that finds
/// the answer.
#[test]
fn full_ring_takes_a_turn_for_each_replica(rt: HostRuntime) {
    let stopped = Said::Fault(UpdateFault::Stopped(16));
    let answered = Said::Answer(16, Answer::NotMapped);
    let rows = [
        (1, stopped, 16, [16, 0, 0, 0]),
        (2, stopped, 16, [16, 0, 0, 0]),
        (3, stopped, 16, [16, 16, 0, 0]),
        (4, stopped, 16, [16, 16, 16, 0]),
        (5, stopped, 16, [16, 16, 16, 16]),
        (6, stopped, 16, [16, 16, 16, 16]),
        (7, stopped, 17, [17, 16, 16, 16]),
        (8, answered, 17, [17, 16, 16, 16]),
    ];
    for (turns, wanted, placed, applied) in rows {
        meet_a_full_ring(&rt, rt.alloc(), turns, wanted, placed, applied);
    }
}
