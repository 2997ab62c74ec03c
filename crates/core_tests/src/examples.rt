//! Lists of steps, each with what its recording says: step by step and at once.

use crate::cases::{Asks, CASES, Case, Item};
use crate::scripts::{Tries, assert_alike, order_at_once, run_at_once, run_one_by_one};
use nr_core::Step;
use nr_trace::{Asked, Event, Trace, TraceLayout};
use std::alloc::Global;
use std::process::Abort;
use vs_types::{Access, Depth, Mode, Op, Request, Rights, Size};

fn request_of(rt: &impl Abort, depth: Depth, asks: Asks) -> Request {
    let request = match asks {
        Asks::Map => {
            let map = Op::map(depth, 0x400000, Size::K4, 0x1000, Rights::ALL);
            return Request::update(map.expect(rt, "a map"));
        }
        Asks::Resolve => Request::resolve(depth, 0x400123),
        Asks::Write => Request::access(depth, 0x400123, Mode::User, Access::Write),
        Asks::Fetch => Request::access(depth, 0x401000, Mode::User, Access::Fetch),
    };
    request.expect(rt, "a read")
}

/// The scripts of a case.
pub fn scripts_of(rt: &impl Abort, alloc: Global, case: &Case) -> Vec<Vec<Request>> {
    let mut scripts = Vec::new(alloc);
    for asked in case.scripts {
        let mut script = Vec::new(alloc);
        for asks in *asked {
            let request = request_of(rt, case.depth, *asks);
            script.push(request).expect(rt, "memory");
        }
        scripts.push(script).expect(rt, "memory");
    }
    scripts
}

/// The steps of a case, and whether each is enabled.
pub fn steps_of(rt: &impl Abort, alloc: Global, case: &Case) -> (Vec<Step>, Vec<bool>) {
    let mut steps = Vec::new(alloc);
    let mut enabled = Vec::new(alloc);
    for (times, rows) in case.steps {
        for _ in 0..*times {
            for row in *rows {
                let step = Step {
                    thread: row.0,
                    act: row.1,
                };
                steps.push(step).expect(rt, "memory");
                enabled.push(row.2).expect(rt, "memory");
            }
        }
    }
    (steps, enabled)
}

fn event_of(rt: &impl Abort, depth: Depth, item: Item) -> Event {
    match item {
        Item::Call(replica, thread, asks) => Event::Call {
            replica,
            thread,
            asked: Asked::Request(request_of(rt, depth, asks)),
        },
        Item::Reply(call, at, answer) => Event::Reply { call, at, answer },
    }
}

/// Asserts that a trace has just these events.
fn assert_events(rt: &impl Abort, trace: &Trace, depth: Depth, events: &[Item]) {
    assert_eq!(rt; trace.events().len(), events.len());
    for (recorded, item) in trace.events().iter().zip(events.iter()) {
        assert!(rt; recorded.event() == event_of(rt, depth, *item));
    }
}

/// Asserts that a trace has just these dumps.
fn assert_dumps(rt: &impl Abort, trace: &Trace, dumps: &[(u32, usize)]) {
    assert_eq!(rt; trace.dumps().len(), dumps.len());
    for (dump, wanted) in trace.dumps().iter().zip(dumps.iter()) {
        assert_eq!(rt; (dump.applied(), dump.count()), *wanted);
    }
}

/// Asserts that a trace is the recording of the case.
pub fn assert_recorded(rt: &impl Abort, trace: &Trace, case: &Case) {
    assert!(rt; trace.version() == case.version);
    assert!(rt; trace.layout() == TraceLayout::of(case.config(rt)));
    assert!(rt; trace.log() == case.log, "{}", case.name);
    if let Some(events) = case.events {
        assert_events(rt, trace, case.depth, events);
    }
    assert_dumps(rt, trace, case.dumps);
}

/// The steps are made where they are enabled, and record what the case says, step by step and at once; and the auditor says yes to it.
fn run(rt: &impl Abort, alloc: Global, case: &Case) {
    let config = case.config(rt);
    let (steps, enabled) = steps_of(rt, alloc, case);
    let scripts = scripts_of(rt, alloc, case);
    let (trace, made) = run_one_by_one(rt, alloc, config, scripts, &steps, Tries::Once);
    assert!(rt; made == enabled, "{}", case.name);
    assert_recorded(rt, &trace, case);
    let again = run_at_once(rt, alloc, config, scripts_of(rt, alloc, case), &steps);
    assert_alike(rt, alloc, &trace, &again);
    let order = order_at_once(rt, alloc, config, scripts_of(rt, alloc, case), &steps);
    assert!(rt; order.calls() == case.order, "{}", case.name);
}

#[test]
fn examples(rt: HostRuntime) {
    for case in &CASES {
        run(&rt, rt.alloc(), case);
    }
}
