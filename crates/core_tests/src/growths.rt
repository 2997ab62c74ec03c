//! Refused growths of memory: each test is run with each of its growths refused in turn.

use crate::cases::{Case, FIFTEEN_WITH_FEW_TABLES};
use crate::examples::{assert_recorded, scripts_of, steps_of};
use crate::scripts::{Tries, run_at_once, run_one_by_one};
use std::alloc::Global;
use std::process::Abort;

/// A step or a recording that memory was refused to changes nothing: taken again it goes on from the same state.
fn go_on(rt: &impl Abort, alloc: Global, case: &Case) {
    let (steps, enabled) = steps_of(rt, alloc, case);
    let scripts = scripts_of(rt, alloc, case);
    let (trace, made) = run_one_by_one(rt, alloc, case.config(rt), scripts, &steps, Tries::Twice);
    assert!(rt; made == enabled);
    assert_recorded(rt, &trace, case);
}

#[test]
fn goes_on_from_the_same_state(rt: HostRuntime) {
    go_on(&rt, rt.alloc(), &FIFTEEN_WITH_FEW_TABLES);
}

fn run_whole(rt: &impl Abort, alloc: Global, case: &Case) {
    let (steps, _enabled) = steps_of(rt, alloc, case);
    let scripts = scripts_of(rt, alloc, case);
    let trace = run_at_once(rt, alloc, case.config(rt), scripts, &steps);
    assert_recorded(rt, &trace, case);
}

#[test]
fn whole_run(rt: HostRuntime) {
    run_whole(&rt, rt.alloc(), &FIFTEEN_WITH_FEW_TABLES);
}
