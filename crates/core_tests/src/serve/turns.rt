//! How many turns a call has.
use crate::serve::scene::verified;
use crate::serve::scripts::unmap_a;
use nr_serve::{AlwaysGo, CallOutcome};
use std::alloc::Global;
use std::process::Abort;
use std::sync::Wait;
use std::thread::Threads;
use vs_types::Answer;

/// How many updates the thread makes.
const UPDATES: u32 = 20;

/// One thread of four replicas makes its updates in so many turns each, and the others make no call. So many of them are answered
/// before one is stopped.
fn update_in_turns<R: Threads + Wait + Abort + Sync>(
    rt: &R,
    alloc: Global,
    turns: u32,
    answered: u32,
) {
    let script = vec![in alloc; unmap_a(rt); UPDATES as usize].expect(rt, "memory");
    let mut said = Vec::new(alloc);
    for place in 0..answered {
        let done = CallOutcome::Answer(place, Answer::NotMapped);
        said.push(done).expect(rt, "memory");
    }
    if answered < UPDATES {
        said.push(CallOutcome::Stopped).expect(rt, "memory");
    }
    let none = Vec::new(alloc);
    let scripts = vec![in alloc; script, none, Vec::new(alloc), Vec::new(alloc)];
    let scripts = scripts.expect(rt, "memory");
    let shown = verified(rt, alloc, 4, scripts, turns, &AlwaysGo).expect(rt, "a run");
    shown.assert_said(rt, 0, &said);
}

/// An update takes two turns: its batch, and the poll that finds the answer. The seventeenth finds the ring full, and takes eight, of
/// which four bring a replica forward.
#[test]
fn turns_of_each_call(rt: HostRuntime) {
    let rows = [
        (1, 0),
        (2, 16),
        (5, 16),
        (7, 16),
        (8, UPDATES),
        (9, UPDATES),
        (50, UPDATES),
        (101, UPDATES),
        (u32::MAX, UPDATES),
    ];
    for (turns, answered) in rows {
        update_in_turns(&rt, rt.alloc(), turns, answered);
    }
}
