//! What is said of the dumps that the first fault is not of.

use crate::audit::trace_of;
use crate::audit_cases::{Case, DUMPS};
use crate::units::feed_in_units;
use nr_explain::{DumpExplanation, explain_all_read};
use nr_trace::Fault;
use std::alloc::Global;
use std::process::Abort;

/// A replica, and the first fault of its dump, if there is one.
type Told = (u8, Option<Fault>);

/// The cases that have other dumps or other faults, and what is said of each other dump.
static OTHER_DUMPS: [(&str, &[Told]); 4] = [
    ("a reserved bit", &[]),
    (
        "a page before the map, none after it",
        &[(0, None), (2, Some(Fault::Differs(2, 0x400000)))],
    ),
    (
        "no page after the map, one before it",
        &[(0, None), (2, Some(Fault::Differs(2, 0x400000)))],
    ),
    ("a shorter prefix between", &[]),
];

fn other_dumps(rt: &impl Abort, alloc: Global, case: &Case) -> Vec<Told> {
    let bytes = trace_of(rt, alloc, case);
    let read = feed_in_units(alloc, &bytes, 4096);
    let full = explain_all_read(alloc, read).expect(rt, "memory");
    let mut told = Vec::new(alloc);
    for dump in full.dumps.as_slice() {
        let one = match dump {
            DumpExplanation::Sound(replica) => (*replica, None),
            DumpExplanation::Faulty(replica, fault, _) => (*replica, Some(*fault)),
        };
        told.push(one).expect(rt, "memory");
    }
    told
}

#[test]
fn each_other_dump_is_told(rt: HostRuntime) {
    for (name, wanted) in &OTHER_DUMPS {
        for case in &DUMPS {
            if case.name == *name {
                let told = other_dumps(&rt, rt.alloc(), case);
                assert!(rt; told.as_slice() == *wanted, "{name}");
            }
        }
    }
}
