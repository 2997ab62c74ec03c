//! Threads that come to the end of a log at the same time.

use crate::caller::{Caller, Made, Said};
use crate::gate::CountingGate;
use crate::scene::{Settled, Test, run};
use crate::steps::{Asks, TURNS};
use crate::threads::{Drawn, Part, Shared, callers_of, make};
use nr_replicas::{ReplicasName, UpdateFault};
use nr_ring::LogName;
use std::alloc::Global;
use std::process::Abort;
use std::sync::Wait;
use std::thread;
use std::thread::Threads;
use vs_types::{Config, Depth};

/// How many updates the first thread makes alone: all entries of a log but 2,048.
const ALONE: u32 = 63_488;

/// How many updates a thread makes at most, when all do. Their calls are numbered from 65,536 on.
const EACH: u32 = 1_000;

/// The update of a page that there is not.
fn unmap(rt: &impl Abort) -> Drawn {
    Drawn {
        query: Asks::Unmap.query(rt, Depth::Four),
        turns: TURNS,
    }
}

/// Updates alone.
fn fill<J: LogName, K: ReplicasName, R: Wait + Abort>(rt: &R, caller: &mut Caller<J, K>) {
    let Drawn { query, turns } = unmap(rt);
    let open = CountingGate::new(None);
    for call in 0..ALONE {
        let said = caller.ask(rt, call, query, turns, &open);
        assert!(rt; matches!(said, Said::Answer(place, _) if place == u64::from(call)));
    }
}

/// Updates, when all threads have come, until a call is not answered.
fn work<'a, J: LogName, K: ReplicasName, R: Wait + Abort>(
    rt: &R,
    part: Part<'a, J, K>,
    shared: &Shared,
) -> Part<'a, J, K> {
    let Part {
        mut caller,
        first,
        script,
        mut made,
    } = part;
    shared.start(rt);
    for number in 0..EACH {
        let call = first.wrapping_add(number);
        let one = make(rt, &mut caller, shared, call, unmap(rt));
        let said = one.said;
        made.push(one).expect(rt, "memory");
        if matches!(said, Said::Fault(_)) {
            break;
        }
    }
    Part {
        caller,
        first,
        script,
        made,
    }
}

/// The parts of these callers, of which the first has filled the log but for some places.
fn parts_of<'a, J: LogName, K: ReplicasName, R: Wait + Abort>(
    rt: &R,
    alloc: Global,
    callers: Vec<Caller<'a, J, K>>,
) -> Vec<Part<'a, J, K>> {
    let mut parts = Vec::new(alloc);
    for mut caller in callers {
        if parts.is_empty() {
            fill(rt, &mut caller);
        }
        let first = (EACH * u32::from(caller.thread())).wrapping_add(65_536);
        let part = Part {
            caller,
            first,
            script: Vec::new(alloc),
            made: Vec::new(alloc),
        };
        parts.push(part).expect(rt, "memory");
    }
    parts
}

/// The first thread fills the log but for some places, and then all threads at once update to its end. What their calls were answered.
pub fn make_to_the_end<
    'a,
    J: LogName + Send + Sync,
    K: ReplicasName + Send + Sync,
    R: Wait + Abort + Threads + Sync,
>(rt: &R, alloc: Global, callers: Vec<Caller<'a, J, K>>) -> (Vec<Caller<'a, J, K>>, Vec<Made>) {
    let shared = Shared::new(callers.len() as u64);
    let parts = parts_of(rt, alloc, callers);
    let parts = thread::map_vec(rt, parts, &|part: Part<J, K>| work(rt, part, &shared));
    callers_of(rt, alloc, parts.expect(rt, "memory"))
}

/// Whether a call was answered, and then is at the place that it was answered. One that wasn't was answered that the log has ended.
fn is_answered(rt: &impl Abort, settled: &Settled, made: Made) -> bool {
    match made.said {
        Said::Answer(place, _) => {
            assert_eq!(rt; settled.calls.get(place as usize), Some(&made.call));
            true
        }
        said => {
            assert_eq!(rt; said, Said::Fault(UpdateFault::Ended(made.call)));
            false
        }
    }
}

/// An update that was placed is answered, also where its thread finds the log ended before it looks for the answer: the log has no
/// entries but those that were answered.
#[test]
fn placed_updates_are_answered(rt: HostRuntime) {
    for replicas in [1, 4] {
        let config = Config::new(Depth::Four, replicas, 64, 4).expect(&rt, "a configuration");
        let settled = run(&rt, rt.alloc(), config, Test::ToTheEnd);
        let mut answered = ALONE as usize;
        for made in settled.made.as_slice() {
            if is_answered(&rt, &settled, *made) {
                answered = answered.wrapping_add(1);
            }
        }
        assert_eq!(rt; settled.calls.len(), answered);
    }
}
