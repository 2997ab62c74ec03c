//! The points at which a run asks its gate.
use crate::serve::gates::{AllAtOnce, Around, Counting, StopAt};
use crate::serve::scene::shown_by;
use crate::serve::scripts::{map_a, overlapping, resolve_a, unmap_a};
use nr_replicas::Point;
use nr_serve::CallOutcome;
use nr_trace::Event;
use std::alloc::Global;
use std::process::Abort;
use std::sync::Wait;
use std::thread::Threads;
use vs_types::Answer;

const POINTS: [Point; 3] = [Point::Called, Point::Appended, Point::Answered];

/// If each thread has a replica of its own, each of its updates is a batch. A read appends none.
#[test]
fn each_point_is_asked_once(rt: HostRuntime) {
    let alloc = rt.alloc();
    let both = [
        map_a(&rt),
        resolve_a(&rt),
        unmap_a(&rt),
        resolve_a(&rt),
        map_a(&rt),
    ];
    let reads = [resolve_a(&rt), resolve_a(&rt)];
    let gate = Counting::new(alloc, 2).expect(&rt, "memory");
    shown_by(&rt, alloc, 2, &[&both, &reads], &gate);
    assert_eq!(rt; gate.asked(&rt, 0), [5, 3, 5]);
    assert_eq!(rt; gate.asked(&rt, 1), [2, 0, 2]);
}

/// If three threads of one replica update, each of their batches has one to three of their 96 updates. A fourth reads.
#[test]
fn batches_of_several_threads(rt: HostRuntime) {
    let alloc = rt.alloc();
    let both = overlapping(&rt, alloc);
    let reads = [resolve_a(&rt); 64];
    let gate = Counting::new(alloc, 4).expect(&rt, "memory");
    shown_by(&rt, alloc, 1, &[&both, &both, &both, &reads], &gate);
    let mut batches = 0u32;
    for thread in 0..4 {
        let [called, appended, answered] = gate.asked(&rt, thread);
        assert_eq!(rt; (called, answered), (64, 64));
        batches = batches.wrapping_add(appended);
    }
    assert!(rt; (32..=96).contains(&batches), "{batches} batches");
    assert_eq!(rt; gate.asked(&rt, 3), [64, 0, 64]);
}

/// So many threads are held until each has made its call, so that all calls come before all replies. They map one page.
fn run_at_once<R: Threads + Wait + Abort + Sync>(
    rt: &R,
    alloc: Global,
    replicas: u8,
    threads: u32,
) {
    let script = [map_a(rt)];
    let calls = threads as usize;
    let scripts = vec![in alloc; script.as_slice(); calls].expect(rt, "memory");
    let shown = shown_by(rt, alloc, replicas, &scripts, &AllAtOnce::new(threads));
    let trace = shown.read(rt, alloc);
    for (stamp, event) in trace.events().iter().enumerate() {
        let is_call = matches!(event.event(), Event::Call { .. });
        assert_eq!(rt; is_call, stamp < calls, "event {stamp}");
    }
    let (mut done, mut overlaps) = (0usize, 0usize);
    for said in shown.answers.threads() {
        match said.as_slice() {
            [CallOutcome::Answer(_, Answer::Done)] => done = done.wrapping_add(1),
            [CallOutcome::Answer(_, Answer::Overlap(0x400000))] => overlaps = overlaps.wrapping_add(
                1,
            ),
            said => panic!(rt; "{said:?}"),
        }
    }
    assert_eq!(rt; (done, overlaps), (1, calls.wrapping_sub(1)));
    assert_eq!(rt; trace.events().len(), calls.wrapping_mul(2));
}

/// Eight threads, one more, and as many as there can be.
#[test]
fn all_threads_run_at_once(rt: HostRuntime) {
    for (replicas, threads) in [(4, 8), (1, 9), (3, 64)] {
        run_at_once(&rt, rt.alloc(), replicas, threads);
    }
}

/// Two threads map one page, and one of them is held at a point of its call until the other has come to a point.
fn map_around<R: Threads + Wait + Abort + Sync>(
    rt: &R,
    alloc: Global,
    replicas: u8,
    held: (u16, Point),
    until: (u16, Point),
) {
    let script = [map_a(rt)];
    let gate = Around::new(held, until);
    let shown = shown_by(rt, alloc, replicas, &[&script, &script], &gate);
    let done = CallOutcome::Answer(0, Answer::Done);
    let overlap = CallOutcome::Answer(1, Answer::Overlap(0x400000));
    let said = (shown.said_once(rt, held.0), shown.said_once(rt, until.0));
    let may_be_so = match (held.1, until.1) {
        (Point::Called, Point::Called) => said == (done, overlap) || said == (overlap, done),
        (Point::Called, _) => said == (overlap, done),
        (_, _) => said == (done, overlap),
    };
    assert!(rt; may_be_so, "{said:?}, held at {held:?} until {until:?}");
}

/// A thread is held at each point until one of its own replica, or of another, has come to each.
#[test]
fn held_at_each_point(rt: HostRuntime) {
    for replicas in [1, 2] {
        for (thread, other) in [(0, 1), (1, 0)] {
            for held in POINTS {
                for until in POINTS {
                    map_around(&rt, rt.alloc(), replicas, (thread, held), (other, until));
                }
            }
        }
    }
}

/// What came of the calls of a thread: so many, of which the last is stopped, or none is.
fn assert_ends(
    rt: &impl Abort,
    thread: usize,
    said: &[CallOutcome],
    count: usize,
    is_stopped: bool,
) {
    assert_eq!(rt; said.len(), count, "thread {thread}");
    for (number, item) in said.iter().enumerate() {
        let is_last = number + 1 == count;
        assert_eq!(rt;
            *item == CallOutcome::Stopped,
            is_stopped && is_last,
            "call {number} of {thread}"
        );
    }
}

/// Three threads make four calls each, of which the first updates; one is stopped when it comes to a point.
fn stop_at<R: Threads + Wait + Abort + Sync>(rt: &R, alloc: Global, thread: u16, point: Point) {
    let script = [map_a(rt), resolve_a(rt), unmap_a(rt), resolve_a(rt)];
    let gate = StopAt(thread, point);
    let shown = shown_by(rt, alloc, 3, &[&script, &script, &script], &gate);
    for (number, said) in shown.answers.threads().iter().enumerate() {
        let is_stopped = number == usize::from(thread);
        let count = if is_stopped { 1 } else { 4 };
        assert_ends(rt, number, said, count, is_stopped);
    }
    let trace = shown.read(rt, alloc);
    let placed = if point == Point::Called { 4 } else { 5 };
    assert_eq!(rt; trace.log().len(), placed);
    assert_eq!(rt; trace.events().len(), 17);
}

/// The call is the last of that thread, and the others' go on.
#[test]
fn stopped_at_each_point(rt: HostRuntime) {
    for thread in 0..3 {
        for point in POINTS {
            stop_at(&rt, rt.alloc(), thread, point);
        }
    }
}
