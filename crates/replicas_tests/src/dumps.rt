//! What the dumps of replicas have to be.

use crate::scene::Settled;
use nr_dump::check;
use std::alloc::Global;
use std::process::Abort;
use vs_plain::PlainSpace;
use vs_types::{Config, Op};
use vs_walk::Dump;

/// A plain space after these updates.
fn space_after(rt: &impl Abort, alloc: Global, config: Config, updates: &[Op]) -> PlainSpace {
    let mut space = PlainSpace::new(alloc, config.tables(), config.depth());
    for op in updates {
        let depth = space.depth();
        assert!(rt; op.fits(depth));
        let _answer = space.apply(*op).expect(rt, "memory");
    }
    space
}

/// Its frames are just those from this number on that have been in use at one time.
fn assert_numbers(rt: &impl Abort, dump: &Dump, first: u64, tables: u16) {
    for k in 0..dump.count() {
        let number = dump.number(k);
        let end = first.saturating_add(u64::from(tables));
        assert!(rt; first <= number && number < end, "frame {number}");
    }
}

/// There is a dump for each replica, with frames of the replica's own numbers, of which the root is the first. Take a plain space after as many
/// of these updates as the replica has applied. The dump has as many frames as that space has tables, and its pages. The updates are those of
/// the log.
pub fn assert_dumps(
    rt: &impl Abort,
    alloc: Global,
    config: Config,
    settled: &Settled,
    updates: &[Op],
) {
    assert_eq!(rt; settled.calls.len(), updates.len());
    assert_eq!(rt; settled.dumps.len(), usize::from(config.replicas()));
    let mut first = 1u64 << 39;
    for dump in settled.dumps.as_slice() {
        assert_dump(rt, alloc, config, dump, first, updates);
        first = first.wrapping_add(4096);
    }
}

fn assert_dump(
    rt: &impl Abort,
    alloc: Global,
    config: Config,
    dump: &Dump,
    first: u64,
    updates: &[Op],
) {
    let applied = dump.applied() as usize;
    assert!(rt; applied <= updates.len());
    let space = space_after(rt, alloc, config, &updates[..applied]);
    assert_eq!(rt; (dump.root(), dump.count()), (first, space.tables()));
    assert_numbers(rt, dump, first, config.tables());
    check(alloc, dump, &space).expect(rt, "memory");
}
