//! The end of a log.

use crate::cases::{Case, Plan};
use crate::steps::{Asks, Step, TURNS};
use nr_replicas::UpdateFault;
use std::alloc::Global;
use std::process::Abort;
use std::sync::Wait;
use std::thread::Threads;
use vs_types::{Access, Answer, Depth};

/// How many entries a log has at most.
const ENTRIES: u32 = 65_536;

/// All of them but two.
const ALL_BUT_TWO: u32 = ENTRIES - 2;

/// So many updates of thread 0, each of a page that there is not, and then these steps.
fn unmap_often(rt: &impl Abort, alloc: Global, count: u32, then: &[Step]) -> Plan {
    let mut plan = Plan::new(alloc);
    for call in 0..count {
        let step = Step::update(0, call, Asks::Unmap, u64::from(call), Answer::NotMapped);
        plan.place(rt, step);
    }
    for step in then {
        plan.add(rt, *step);
    }
    plan
}

/// Takes the steps of a case in whose replicas nothing is mapped in the end.
fn settle_empty<R: Wait + Abort + Threads + Sync>(rt: &R, alloc: Global, case: Case) {
    let settled = case.settle(rt, alloc);
    for dump in settled.dumps.as_slice() {
        assert_eq!(rt; dump.count(), 1);
    }
}

/// A thread makes as many updates as a log takes, and then calls at the end of the log: the next update is answered that it has ended, and
/// those after it that the slot is occupied. Then come the steps of others.
fn go_to_the_end<R: Wait + Abort + Threads + Sync>(
    rt: &R,
    alloc: Global,
    others: &[Step],
    case: Case,
) {
    let ended = UpdateFault::Ended(ENTRIES);
    let occupied = UpdateFault::Occupied;
    let at_the_end = [
        Step::fault(0, ENTRIES, Asks::Unmap, TURNS, ended),
        Step::fault(0, ENTRIES + 1, Asks::Unmap, TURNS, occupied),
        Step::fault(0, ENTRIES + 2, Asks::Unmap, TURNS, occupied),
        Step::read(0, 0x400000, u64::from(ENTRIES), Answer::NotMapped),
        Step::access(
            0,
            0x400000,
            Access::Read,
            u64::from(ENTRIES),
            Answer::Fault(4),
        ),
    ];
    let mut plan = unmap_often(rt, alloc, ENTRIES, &at_the_end);
    for step in others {
        plan.add(rt, *step);
    }
    let case = Case {
        steps: &plan.steps,
        calls: &plan.calls,
        applied: [ENTRIES; 4],
        batches: ENTRIES,
        ..case
    };
    settle_empty(rt, alloc, case);
}

#[test]
fn log_ends(rt: HostRuntime) {
    let case = Case::new(Depth::Four, 1, 1, 4, &[]);
    go_to_the_end(&rt, rt.alloc(), &[], case);
}

/// The same on two replicas, where the other one's thread calls at the end; the settling is handed no pass.
#[test]
fn log_ends_for_other_threads(rt: HostRuntime) {
    let others = [
        Step::read(1, 0x400000, u64::from(ENTRIES), Answer::NotMapped),
        Step::fault(1, 131_071, Asks::Unmap, TURNS, UpdateFault::Ended(131_071)),
        Step::fault(1, 131_070, Asks::Unmap, TURNS, UpdateFault::Occupied),
    ];
    let case = Case {
        hands_passes: false,
        ..Case::new(Depth::Five, 2, 2, 1, &[])
    };
    go_to_the_end(&rt, rt.alloc(), &others, case);
}

/// Two places are left, and three updates are collected. Their batch stays, so that the update of another thread is not placed before
/// them.
#[test]
fn batch_stays_at_the_end(rt: HostRuntime) {
    let last = ALL_BUT_TWO;
    let at_the_end = [
        Step::fault(1, last, Asks::Unmap, 0, UpdateFault::Stopped(last)),
        Step::fault(2, last + 1, Asks::Unmap, 0, UpdateFault::Stopped(last + 1)),
        Step::fault(
            0,
            last + 2,
            Asks::Unmap,
            TURNS,
            UpdateFault::Ended(last + 2),
        ),
        Step::fault(
            3,
            last + 3,
            Asks::Unmap,
            TURNS,
            UpdateFault::Ended(last + 3),
        ),
        Step::read(3, 0x400000, u64::from(last), Answer::NotMapped),
    ];
    let plan = unmap_often(&rt, rt.alloc(), last, &at_the_end);
    let case = Case {
        calls: &plan.calls,
        applied: [last; 4],
        batches: last,
        ..Case::new(Depth::Four, 1, 4, 4, &plan.steps)
    };
    settle_empty(&rt, rt.alloc(), case);
}

/// A settling that is handed no pass finds what the replicas have applied, and what they have not.
#[test]
fn settling_without_passes(rt: HostRuntime) {
    let steps = [
        Step::update(1, 7, Asks::Unmap, 0, Answer::NotMapped),
        Step::update(1, 3, Asks::Unmap, 1, Answer::NotMapped),
    ];
    Case {
        hands_passes: false,
        calls: &[7, 3],
        applied: [0, 2, 0, 0],
        batches: 2,
        ..Case::new(Depth::Four, 2, 2, 4, &steps)
    }
    .assert(&rt, rt.alloc());
}
