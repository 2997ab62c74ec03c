//! Accesses allocate no memory: `tests/programs` counts as many growths of replicas at which accesses are tried as of those that are read.

use crate::cases::Case;
use crate::steps::{MAP, Step};
use std::alloc::Global;
use std::process::Abort;
use std::sync::Wait;
use std::thread::Threads;
use vs_types::{Access, Answer, Depth, Rights, Size};

/// Two threads, each with a replica of its own, take these steps, of which the first maps a page by call 0.
fn map_and_ask<R: Wait + Abort + Threads + Sync>(rt: &R, alloc: Global, steps: &[Step]) {
    Case {
        calls: &[0],
        applied: [1; 4],
        batches: 1,
        ..Case::new(Depth::Four, 2, 2, 4, steps)
    }
    .assert(rt, alloc);
}

/// The read's replica takes the map.
#[test]
fn reads_after_a_map(rt: HostRuntime) {
    let steps = [
        Step::update(0, 0, MAP, 0, Answer::Done),
        Step::read(
            1,
            0x400123,
            1,
            Answer::Mapped(0x1123, Size::K4, Rights::ALL),
        ),
    ];
    map_and_ask(&rt, rt.alloc(), &steps);
}

/// The first access's replica takes the map.
#[test]
fn tries_after_a_map(rt: HostRuntime) {
    let steps = [
        Step::update(0, 0, MAP, 0, Answer::Done),
        Step::access(1, 0x400123, Access::Write, 1, Answer::Allowed(0x1123)),
        Step::access(1, 0x401000, Access::Fetch, 1, Answer::Fault(20)),
        Step::access(0, 0x400FFF, Access::Read, 1, Answer::Allowed(0x1FFF)),
    ];
    map_and_ask(&rt, rt.alloc(), &steps);
}
