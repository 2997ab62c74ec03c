//! Runs of which a gate stops a thread, and one of threads that are in each other's way.
use crate::serve::gates::{HoldUntil, StopAt};
use crate::serve::scene::shown_by;
use crate::serve::scripts::{map_a, overlapping, resolve_a, unmap_a};
use nr_replicas::Point;
use nr_serve::{AlwaysGo, CallOutcome};
use vs_types::Answer;

#[test]
fn stopped_when_called(rt: HostRuntime) {
    let alloc = rt.alloc();
    let gate = StopAt(0, Point::Called);
    let shown = shown_by(&rt, alloc, 1, &[&[map_a(&rt)], &[resolve_a(&rt)]], &gate);
    shown.assert_said(&rt, 0, &[CallOutcome::Stopped]);
    shown.assert_said(&rt, 1, &[CallOutcome::Answer(0, Answer::NotMapped)]);
    assert_eq!(rt; shown.read(&rt, alloc).log().len(), 0);
}

#[test]
fn stopped_when_appended(rt: HostRuntime) {
    let alloc = rt.alloc();
    let script = [map_a(&rt)];
    let gate = HoldUntil::new(1, Point::Appended, true);
    let shown = shown_by(&rt, alloc, 1, &[&script, &script], &gate);
    shown.assert_said(&rt, 0, &[CallOutcome::Stopped]);
    shown.assert_said(&rt, 1, &[CallOutcome::Answer(1, Answer::Overlap(0x400000))]);
    let trace = shown.read(&rt, alloc);
    assert_eq!(rt; trace.log(), shown.order.calls());
    assert_eq!(rt; trace.log().len(), 2);
    assert_eq!(rt; trace.dumps()[0].applied(), 2);
}

#[test]
fn stopped_when_answered(rt: HostRuntime) {
    let alloc = rt.alloc();
    let gate = StopAt(0, Point::Answered);
    let shown = shown_by(&rt, alloc, 1, &[&[map_a(&rt)]], &gate);
    shown.assert_said(&rt, 0, &[CallOutcome::Stopped]);
    let trace = shown.read(&rt, alloc);
    assert_eq!(rt; trace.log(), [0u32].as_slice());
    assert_eq!(rt; shown.order.calls(), [0u32].as_slice());
    assert_eq!(rt; trace.dumps()[0].count(), 4);
}

/// The other replica's thread is stopped, so that it is brought forward at the two full rings alone.
#[test]
fn replica_of_a_stopped_thread(rt: HostRuntime) {
    let alloc = rt.alloc();
    let unmaps = [unmap_a(&rt); 40];
    let mut said = [CallOutcome::Stopped; 40];
    for place in 0..40u32 {
        said[place as usize] = CallOutcome::Answer(place, Answer::NotMapped);
    }
    let gate = StopAt(1, Point::Called);
    let shown = shown_by(&rt, alloc, 2, &[&unmaps, &[resolve_a(&rt)]], &gate);
    shown.assert_said(&rt, 0, &said);
    let trace = shown.read(&rt, alloc);
    let dumps = trace.dumps();
    assert!(rt; dumps.len() == 2);
    assert_eq!(rt; dumps[0].applied(), 40);
    assert_eq!(rt; dumps[1].applied(), 32);
}

/// Eight threads of four replicas update the same two pages, which overlap.
#[test]
fn overlapping_pages(rt: HostRuntime) {
    let alloc = rt.alloc();
    let script = overlapping(&rt, alloc);
    let shown = shown_by(&rt, alloc, 4, &[script.as_slice(); 8], &AlwaysGo);
    let answers = shown.answers.threads();
    assert_eq!(rt; answers.len(), 8);
    for said in answers {
        assert_eq!(rt; said.len(), 64);
    }
    let trace = shown.read(&rt, alloc);
    assert_eq!(rt; trace.log().len(), 256);
    assert_eq!(rt; trace.dumps().len(), 4);
}
