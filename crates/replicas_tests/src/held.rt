//! A thread that is held at its gate, while others make their calls.

use crate::caller::Caller;
use crate::gate::CountingGate;
use crate::scene::{Test, run};
use crate::steps::{Asks, MAP, Step, TURNS, take_step};
use crossbeam_utils::Backoff;
use nr_replicas::{Gate, Point, ReplicasName, Signal, UpdateFault};
use nr_ring::LogName;
use std::process::Abort;
use std::sync::Wait;
use std::sync::atomic::{AtomicU32, Ordering};
use std::thread;
use std::thread::Threads;
use vs_types::{Answer, Config, Depth, Rights, Size};

/// A gate that holds a thread until the others have made their calls, and then gives a signal.
#[derive(Drop)]
struct HoldingGate {
    then: Signal,
    /// How many threads are not held.
    others: usize,
    /// How often it was asked.
    asked: AtomicU32,
    /// How many of the others have made their calls.
    made: AtomicU32,
}

impl Gate for HoldingGate {
    fn at(&self, _thread: u16, _point: Point) -> Signal {
        self.asked.fetch_add(1, Ordering::SeqCst);
        let backoff = Backoff::new();
        for _ in 0..10_000_000u32 {
            if self.made.load(Ordering::SeqCst) as usize >= self.others {
                return self.then;
            }
            backoff.snooze();
        }
        Signal::Stop
    }
}

impl HoldingGate {
    /// Waits until a thread has come to the gate.
    fn wait<R: Wait>(&self, rt: &R) {
        let backoff = Backoff::new();
        for _ in rt.forever() {
            if self.asked.load(Ordering::SeqCst) > 0 {
                return;
            }
            backoff.snooze();
        }
        unreachable!()
    }
}

/// Takes the steps of a caller's thread: the first thread's at the gate, and another one's when that one has come to it.
fn work<'a, J: LogName, K: ReplicasName, R: Wait + Abort>(
    rt: &R,
    caller: Caller<'a, J, K>,
    steps: &[Step],
    gate: &HoldingGate,
) -> Caller<'a, J, K> {
    let mut caller = caller;
    let thread = caller.thread();
    let is_held = thread == 0;
    if !is_held {
        gate.wait(rt);
    }
    let open = CountingGate::new(None);
    for step in steps {
        if step.thread == thread && is_held {
            take_step(rt, &mut caller, step, gate);
        } else if step.thread == thread {
            take_step(rt, &mut caller, step, &open);
        }
    }
    if !is_held {
        gate.made.fetch_add(1, Ordering::SeqCst);
    }
    caller
}

/// All threads at once, each with its steps. The first is held at the gate of its first step, the only one at which it is asked,
/// until the others have taken all of theirs; then the gate gives this signal.
pub fn hold<
    'a,
    J: LogName + Send + Sync,
    K: ReplicasName + Send + Sync,
    R: Wait + Abort + Threads + Sync,
>(rt: &R, callers: Vec<Caller<'a, J, K>>, steps: &[Step], then: Signal) -> Vec<Caller<'a, J, K>> {
    let gate = HoldingGate {
        then,
        others: callers.len().saturating_sub(1),
        asked: AtomicU32::new(0),
        made: AtomicU32::new(0),
    };
    let callers = thread::map_vec(
        rt,
        callers,
        &|caller: Caller<J, K>| { work(rt, caller, steps, &gate) },
    );
    assert_eq!(rt; gate.asked.load(Ordering::SeqCst), 1);
    callers.expect(rt, "memory")
}

/// Both threads have one replica, or each its own.
#[test]
fn no_lock_is_held_at_the_gate(rt: HostRuntime) {
    let removed = Answer::Removed(0x1000, Size::K4, Rights::ALL);
    let steps = [
        Step::update(0, 0, MAP, 0, Answer::Done),
        Step::update(1, 1, Asks::Unmap, 1, removed),
        Step::read(1, 0x400000, 2, Answer::NotMapped),
    ];
    for replicas in [1, 2] {
        let config = Config::new(Depth::Four, replicas, 2, 4).expect(&rt, "a configuration");
        let settled = run(&rt, rt.alloc(), config, Test::Hold(&steps, Signal::Go));
        settled.assert(&rt, &[0, 1], &[]);
    }
}

/// A call that is stopped makes no further step. It appends no update that has come to a slot of its replica meanwhile, and has its
/// replica take no entry that has come to the log. It does not take its answer, so that its slot is occupied.
#[test]
fn no_step_after_the_stop(rt: HostRuntime) {
    let removed = Answer::Removed(0x1000, Size::K4, Rights::ALL);
    let steps = [
        Step::fault(0, 0, MAP, TURNS, UpdateFault::Stopped(0)),
        Step::update(1, 1, Asks::Unmap, 1, removed),
        Step::read(1, 0x400000, 2, Answer::NotMapped),
        Step::fault(2, 2, MAP, 0, UpdateFault::Stopped(2)),
        Step::fault(0, 3, MAP, TURNS, UpdateFault::Occupied),
    ];
    let config = Config::new(Depth::Four, 2, 3, 4).expect(&rt, "a configuration");
    let settled = run(&rt, rt.alloc(), config, Test::Hold(&steps, Signal::Stop));
    settled.assert(&rt, &[0, 1], &[1, 2]);
}
