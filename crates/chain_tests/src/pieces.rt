//! Chains in pieces.

ghost use Rattle.std.specs.Prelude.{◌<◌};

use crate::bytes::{CASES, bytes_of};
use crate::whole::expect;
use nr_audit::Order;
use nr_chain::{Chain, ChainVerdict, Step};
use std::alloc::Global;
use std::process::Abort;

/// What a piece makes of a chain.
enum Fed {
    Going(Chain),
    Ended(nr_trace::Fault),
}

/// Gives the chain the piece, and adds the order of each segment that is whole then.
fn feed_piece(
    rt: &impl Abort,
    alloc: Global,
    chain: Chain,
    piece: &[u8],
    orders: &mut Vec<Order>,
) -> Fed {
    let mut chain = chain;
    let mut rest = piece;
    for _ in 0..=piece.len() {
        if rest.is_empty() {
            break;
        }
        match chain.feed(alloc, rest, false).expect(rt, "memory") {
            Step::More(next) => return Fed::Going(next),
            Step::Right(count, order, _, next) => {
                chain = next;
                rest = rest.get(count..).unwrap_or(&[]);
                orders.push(order).expect(rt, "memory");
            }
            Step::Wrong(fault) => return Fed::Ended(fault),
        }
    }
    Fed::Going(chain)
}

/// The verdict on bytes that come in pieces of this length.
fn in_pieces(rt: &impl Abort, alloc: Global, bytes: &[u8], len: usize) -> ChainVerdict
    requires { 0 < len }
{
    let mut orders = Vec::new(alloc);
    let mut chain = Chain::new(alloc);
    for piece in bytes.chunks(len) {
        match feed_piece(rt, alloc, chain, piece, &mut orders) {
            Fed::Going(next) => chain = next,
            Fed::Ended(fault) => return ChainVerdict::No(orders, fault),
        }
    }
    match chain.end() {
        None => ChainVerdict::Yes(orders),
        Some(fault) => ChainVerdict::No(orders, fault),
    }
}

#[test]
fn pieces_of_every_kind_give_one_verdict(rt: HostRuntime) {
    let alloc = rt.alloc();
    for case in &CASES {
        let bytes = bytes_of(&rt, alloc, case);
        for len in [1, 39, 4095, 4096] {
            assert!(rt; len > 0);
            expect(&rt, case, &in_pieces(&rt, alloc, &bytes, len));
        }
    }
}

/// The chain after a piece without a byte, which is taken.
fn after_no_byte(rt: &impl Abort, alloc: Global, chain: Chain) -> Chain {
    match chain.feed(alloc, &[], false).expect(rt, "memory") {
        Step::More(next) => next,
        _ => panic!(rt; "no byte came"),
    }
}

/// A piece without a byte is taken, before a segment and behind one.
#[test]
fn pieces_without_a_byte(rt: HostRuntime) {
    let alloc = rt.alloc();
    let bytes = bytes_of(&rt, alloc, &CASES[0]);
    let mut orders = Vec::new(alloc);
    let chain = after_no_byte(&rt, alloc, Chain::new(alloc));
    match feed_piece(&rt, alloc, chain, &bytes, &mut orders) {
        Fed::Going(next) => assert!(rt; after_no_byte(&rt, alloc, next).end().is_none()),
        Fed::Ended(_) => panic!(&rt; "the chain is right"),
    }
    assert_eq!(rt; orders.len(), CASES[0].orders.len());
}
