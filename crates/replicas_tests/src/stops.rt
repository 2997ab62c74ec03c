//! Calls that are stopped: their turns run out, or a gate says stop.

use crate::caller::Said;
use crate::cases::{Case, Plan};
use crate::steps::{Asks, MAP, Step, TURNS};
use nr_replicas::{Point, UpdateFault};
use std::alloc::Global;
use std::process::Abort;
use std::sync::Wait;
use std::thread::Threads;
use vs_types::{Access, Answer, Depth, Rights, Size};

/// An update that has no turn is not placed, and its slot stays occupied.
#[test]
fn update_without_turns(rt: HostRuntime) {
    let steps = [
        Step::fault(0, 5, MAP, 0, UpdateFault::Stopped(5)),
        Step::fault(0, 6, MAP, TURNS, UpdateFault::Occupied),
        Step::read(0, 0x400000, 0, Answer::NotMapped),
    ];
    Case::new(Depth::Four, 1, 1, 4, &steps).assert(&rt, rt.alloc());
}

/// An update of a lone thread, with a step, is placed and applied in its first turn.
fn update_alone<R: Wait + Abort + Threads + Sync>(rt: &R, alloc: Global, step: Step) {
    Case {
        calls: &[0],
        applied: [1; 4],
        batches: 1,
        ..Case::new(Depth::Four, 1, 1, 4, &[step])
    }
    .assert(rt, alloc);
}

/// One turn is one poll or one attempt, so that no update of a lone thread is answered in it.
#[test]
fn update_of_one_turn(rt: HostRuntime) {
    let step = Step::fault(0, 0, MAP, 1, UpdateFault::Stopped(0));
    update_alone(&rt, rt.alloc(), step);
}

/// Two turns are enough for an update of a lone thread: an attempt and a poll.
#[test]
fn update_of_two_turns(rt: HostRuntime) {
    let step = Step::update(0, 0, MAP, 0, Answer::Done);
    update_alone(&rt, rt.alloc(), Step { turns: 2, ..step });
}

/// So many turns for a read before an update of another replica, and for the same read twice after it.
fn read_in_turns<R: Wait + Abort + Threads + Sync>(
    rt: &R,
    alloc: Global,
    before: Step,
    after: Step,
    turns: u32,
) {
    let steps = [
        before.in_turns(turns, 1),
        Step::update(0, 0, MAP, 0, Answer::Done),
        after.in_turns(turns, 2),
        after.in_turns(turns, 1),
    ];
    Case {
        calls: &[0],
        applied: [1, turns.min(1), 0, 0],
        batches: 1,
        ..Case::new(Depth::Four, 2, 2, 4, &steps)
    }
    .assert(rt, alloc);
}

/// A read or an access takes a turn, and at a replica that lags one more, in which that catches up. With fewer it is stopped.
#[test]
fn reads_of_few_turns(rt: HostRuntime) {
    let mapped = Answer::Mapped(0x1000, Size::K4, Rights::ALL);
    let read = Step::read(1, 0x400000, 0, Answer::NotMapped);
    let later_read = Step::read(1, 0x400000, 1, mapped);
    let access = Step::access(1, 0x400000, Access::Read, 0, Answer::Fault(4));
    let later_access = Step::access(1, 0x400000, Access::Read, 1, Answer::Allowed(0x1000));
    for turns in 0..3 {
        read_in_turns(&rt, rt.alloc(), read, later_read, turns);
        read_in_turns(&rt, rt.alloc(), access, later_access, turns);
    }
}

/// A thread is stopped after the batch that it appended: its update is placed and applied, and its slot stays occupied. The gate is
/// asked after each batch, at no other point.
#[test]
fn stopped_after_the_batch(rt: HostRuntime) {
    let removed = Answer::Removed(0x1000, Size::K4, Rights::ALL);
    let steps = [
        Step::fault(0, 8, MAP, TURNS, UpdateFault::Stopped(8)),
        Step::fault(0, 9, MAP, TURNS, UpdateFault::Occupied),
        Step::update(1, 2, Asks::Unmap, 1, removed),
        Step::update(1, 1, Asks::Unmap, 2, Answer::NotMapped),
        Step::fault(0, 0, MAP, TURNS, UpdateFault::Occupied),
    ];
    Case {
        stops: Some((0, Point::Appended)),
        calls: &[8, 2, 1],
        applied: [3; 4],
        batches: 3,
        ..Case::new(Depth::Four, 1, 2, 4, &steps)
    }
    .assert(&rt, rt.alloc());
}

/// An update is asked for at no point but after a batch.
#[test]
fn other_points_are_not_asked(rt: HostRuntime) {
    let steps = [Step::update(0, 0, MAP, 0, Answer::Done)];
    for point in [Point::Called, Point::Answered] {
        Case {
            stops: Some((0, point)),
            calls: &[0],
            applied: [1; 4],
            batches: 1,
            ..Case::new(Depth::Four, 1, 1, 4, &steps)
        }
        .assert(&rt, rt.alloc());
    }
}

/// The gate stops the thread of this number after a batch. Thread 0 leaves its update in its slot, and thread 3 of the same replica
/// appends both.
fn stop_the_thread<R: Wait + Abort + Threads + Sync>(rt: &R, alloc: Global, stops: u16) {
    let mut plan = Plan::new(alloc);
    plan.add(
        rt,
        Step::fault(0, 0, Asks::Unmap, 0, UpdateFault::Stopped(0)),
    );
    for (thread, place) in [(1u16, 0), (2, 1), (3, 3), (4, 4), (5, 5), (6, 6)] {
        let call = u32::from(thread);
        let step = Step::update(thread, call, Asks::Unmap, place, Answer::NotMapped);
        let stopped = Step {
            wanted: Said::Fault(UpdateFault::Stopped(call)),
            ..step
        };
        plan.add(rt, if thread == stops { stopped } else { step });
    }
    Case {
        stops: Some((stops, Point::Appended)),
        calls: &[1, 2, 0, 3, 4, 5, 6],
        applied: [7, 5, 6, 0],
        batches: 6,
        ..Case::new(Depth::Four, 3, 7, 4, &plan.steps)
    }
    .assert(rt, alloc);
}

/// The gate gets the number of the thread that appends: not its replica's, and not that of another whose update is in its batch.
#[test]
fn gate_is_asked_for_the_thread(rt: HostRuntime) {
    for stops in 0..7 {
        stop_the_thread(&rt, rt.alloc(), stops);
    }
}

/// An update that was left in its slot is placed with the next one of its replica, in the order of the threads, and not by another
/// replica.
#[test]
fn stopped_update_is_placed_later(rt: HostRuntime) {
    let overlap = Answer::Overlap(0x400000);
    let steps = [
        Step::fault(0, 10, MAP, 0, UpdateFault::Stopped(10)),
        Step::update(1, 11, Asks::Unmap, 0, Answer::NotMapped),
        Step::update(2, 12, MAP, 2, overlap),
        Step::fault(0, 13, Asks::Unmap, TURNS, UpdateFault::Occupied),
        Step::update(3, 14, MAP, 3, overlap),
    ];
    Case {
        calls: &[11, 10, 12, 14],
        applied: [3, 4, 0, 0],
        batches: 3,
        ..Case::new(Depth::Four, 2, 4, 4, &steps)
    }
    .assert(&rt, rt.alloc());
}
