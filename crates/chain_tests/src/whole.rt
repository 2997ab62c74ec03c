//! Chains, each from all its bytes.

use crate::bytes::{CASES, Case, bytes_of};
use nr_audit::Order;
use nr_chain::{ChainVerdict, audit_chain};
use std::alloc::Global;
use std::process::Abort;

/// Holds the orders of a chain against what is expected.
fn expect_orders(rt: &impl Abort, case: &Case, orders: &[Order]) {
    assert_eq!(rt; orders.len(), case.orders.len(), "{}", case.name);
    for (order, wanted) in orders.iter().zip(case.orders) {
        assert_eq!(rt; order.calls(), *wanted, "{}", case.name);
    }
}

/// Holds the verdict on a chain against what is expected.
pub fn expect(rt: &impl Abort, case: &Case, verdict: &ChainVerdict) {
    match verdict {
        ChainVerdict::Yes(orders) => {
            assert_eq!(rt; None, case.fault, "{}", case.name);
            expect_orders(rt, case, orders);
        }
        ChainVerdict::No(orders, fault) => {
            assert_eq!(rt; Some(*fault), case.fault, "{}", case.name);
            expect_orders(rt, case, orders);
        }
    }
}

/// Audits the chain.
fn run(rt: &impl Abort, alloc: Global, case: &Case) {
    let bytes = bytes_of(rt, alloc, case);
    let verdict = audit_chain(alloc, &bytes).expect(rt, "memory");
    expect(rt, case, &verdict);
}

#[test]
fn one_chain(rt: HostRuntime) {
    run(&rt, rt.alloc(), &CASES[0]);
}

#[test]
fn worked_chains(rt: HostRuntime) {
    for case in &CASES {
        run(&rt, rt.alloc(), case);
    }
}
