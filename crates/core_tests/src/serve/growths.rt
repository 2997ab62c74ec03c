//! Refused growths of memory: a run of four lines, and one in two segments, each of whose growths `tests/programs` refuses in turn. If
//! the growth that is refused is that of starting a thread, there is no thread.
use crate::serve::scene::{TURNS, verified};
use crate::serve::scripts::{ANSWERS_OF_FOUR, map_a, resolve_a, unmap_a};
use crate::serve::segments::segments_of;
use nr_serve::{AlwaysGo, CallOutcome};
use std::test::Fail;
use vs_types::{Answer, Request, Rights, Size};

#[test]
fn whole_run(rt: HostRuntime) -> Result<(), Fail> {
    let alloc = rt.alloc();
    let script = vec![in alloc; map_a(&rt), resolve_a(&rt), unmap_a(&rt), resolve_a(&rt)]?;
    let shown = verified(&rt, alloc, 1, vec![in alloc; script]?, TURNS, &AlwaysGo)?;
    shown.assert_said(&rt, 0, &ANSWERS_OF_FOUR);
    Ok(())
}

#[test]
fn run_in_two_segments(rt: HostRuntime) -> Result<(), Fail> {
    let segments: [&[&[Request]]; 2] = [&[&[map_a(&rt)]], &[&[resolve_a(&rt)]]];
    let shown = segments_of(&rt, rt.alloc(), 1, 1, &segments, &AlwaysGo)?;
    let mapped = Answer::Mapped(0x1123, Size::K4, Rights::ALL);
    shown.assert_said(&rt, 0, 0, &[CallOutcome::Answer(0, Answer::Done)]);
    shown.assert_said(&rt, 1, 0, &[CallOutcome::Answer(0, mapped)]);
    Ok(())
}
