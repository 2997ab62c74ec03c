//! Runs that no gate stops.
use crate::serve::gates::{HoldUntil, InTurn};
use crate::serve::scene::{TURNS, shown_by, verified_of};
use crate::serve::scripts::{ANSWERS_OF_FOUR, access_high, map_a, map_high, resolve_a, unmap_a};
use nr_replicas::Point;
use nr_serve::{AlwaysGo, CallOutcome};
use nr_trace::{Event, Version};
use vs_types::{Access, Answer, Config, Depth, Mode, Rights, Size};

#[test]
fn run_of_four_lines(rt: HostRuntime) {
    let alloc = rt.alloc();
    let script = [map_a(&rt), resolve_a(&rt), unmap_a(&rt), resolve_a(&rt)];
    let shown = shown_by(&rt, alloc, 1, &[&script], &AlwaysGo);
    shown.assert_said(&rt, 0, &ANSWERS_OF_FOUR);
    assert_eq!(rt; shown.order.calls(), [0u32, 2, 4, 6].as_slice());
}

#[test]
fn empty_run(rt: HostRuntime) {
    let alloc = rt.alloc();
    let shown = shown_by(&rt, alloc, 1, &[&[]], &AlwaysGo);
    shown.assert_said(&rt, 0, &[]);
    assert_eq!(rt; shown.order.calls().len(), 0);
}

/// One thread waits until the other has its answer, and then the other for the one.
#[test]
fn two_workers_really_run(rt: HostRuntime) {
    let alloc = rt.alloc();
    for held in 0..2u16 {
        let gate = HoldUntil::new(held, Point::Answered, false);
        let script = [resolve_a(&rt)];
        let shown = shown_by(&rt, alloc, 2, &[&script, &script], &gate);
        shown.assert_said(&rt, 0, &[CallOutcome::Answer(0, Answer::NotMapped)]);
        shown.assert_said(&rt, 1, &[CallOutcome::Answer(0, Answer::NotMapped)]);
    }
}

/// A read is answered by the replica of its thread, which takes for it what another's thread has put in the log.
#[test]
fn read_at_its_own_replica(rt: HostRuntime) {
    let alloc = rt.alloc();
    let gate = HoldUntil::new(1, Point::Answered, false);
    let shown = shown_by(&rt, alloc, 2, &[&[map_a(&rt)], &[resolve_a(&rt)]], &gate);
    let mapped = Answer::Mapped(0x1123, Size::K4, Rights::ALL);
    shown.assert_said(&rt, 1, &[CallOutcome::Answer(1, mapped)]);
    let trace = shown.read(&rt, alloc);
    let dumps = trace.dumps();
    assert!(rt; dumps.len() == 2);
    assert_eq!(rt; dumps[1].applied(), 1);
}

/// The call of thread 0 is stamped before the gate lets thread 1 have its first answer, and its reply only when thread 1 has made its
/// third call.
#[test]
fn points_between_the_stamps(rt: HostRuntime) {
    let alloc = rt.alloc();
    let resolves = [resolve_a(&rt), resolve_a(&rt), resolve_a(&rt)];
    let gate = InTurn::new();
    let shown = shown_by(&rt, alloc, 2, &[&resolves[..1], &resolves], &gate);
    let trace = shown.read(&rt, alloc);
    let events = trace.events();
    assert_eq!(rt; events.len(), 8);
    let made = events
        .iter()
        .position(|it| matches!(it.event(), Event::Call { thread: 0, .. }))
        .expect(&rt, "a call");
    let replied = events
        .iter()
        .position(|it| matches!(it.event(), Event::Reply { call, .. } if call as usize == made))
        .expect(&rt, "a reply");
    assert!(rt; made < 2, "event {made} is the call");
    assert!(rt; replied >= 6, "event {replied} is the reply");
}

/// Accesses at five levels: a page fault's code has 1 where a page is there, 2 for a write, 4 for user mode, 16 for a fetch.
#[test]
fn accesses_of_five_levels(rt: HostRuntime) {
    let alloc = rt.alloc();
    let script = vec![in alloc;
        access_high(&rt, Mode::User, Access::Write),
        map_high(&rt),
        access_high(&rt, Mode::Supervisor, Access::Read),
        access_high(&rt, Mode::User, Access::Write),
        access_high(&rt, Mode::Supervisor, Access::Fetch),
    ]
    .expect(&rt, "memory");
    let scripts = vec![in alloc; script].expect(&rt, "memory");
    let config = Config::new(Depth::Five, 1, 1, 5).expect(&rt, "a configuration");
    let shown = verified_of(&rt, alloc, config, scripts, TURNS, &AlwaysGo).expect(&rt, "a run");
    shown.assert_said(
        &rt,
        0,
        &[
            CallOutcome::Answer(0, Answer::Fault(6)),
            CallOutcome::Answer(0, Answer::Done),
            CallOutcome::Answer(1, Answer::Allowed(0x1123)),
            CallOutcome::Answer(1, Answer::Fault(7)),
            CallOutcome::Answer(1, Answer::Fault(17)),
        ],
    );
    let trace = shown.read(&rt, alloc);
    assert_eq!(rt; trace.version(), Version::V2);
    assert_eq!(rt; trace.dumps()[0].count(), 5);
}
