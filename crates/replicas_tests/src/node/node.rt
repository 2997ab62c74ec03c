//! A node's calls, alone on its log and beside others, with and without room for its batch.

ghost use Rattle.std.specs.Prelude.{◌≡◌, [], ◌∷◌};
ghost use Rattle.std.specs.FinMap as finite;
ghost use Rattle.vs_types.specs.declared.limits.TheConstants.{LOG_PLACES};

use crate::node::bench::{Bench, Does, Given, Update};
use nr_node::{Held, Node};
use nr_ring::{LogName, LogPass, RingLog};
use nr_slots::Slots;
use std::alloc::Global;
use std::marker::Brand;
use std::process::Abort;
use vs_arena::{FrameStore, RawArena, VecArena};
use vs_space::NoRoot;
use vs_types::{Access, Answer, Depth, Rights, Size};

/// A node alone on its log holds one map as calls 0 and 1. The second finds the page of the first. Then the page goes and is mapped
/// again, by a batch that it puts while it catches up.
static ALONE: [Does; 22] = [
    Does::Has(Held::Nothing),
    Does::HasApplied(0),
    Does::NotTold(0),
    Does::Holds([(5, 0, Update::Map), (3, 1, Update::Map)]),
    Does::Has(Held::Unplaced(2)),
    Does::Puts(0),
    Does::Has(Held::Placed(0, 2)),
    Does::CatchesUp(
        2,
        &[
            Given(5, 0, Update::Map, 0, Answer::Done),
            Given(3, 1, Update::Map, 1, Answer::Overlap(0x400000)),
        ],
    ),
    Does::Has(Held::Nothing),
    Does::CatchesUp(0, &[]),
    Does::Told(0, 0, Update::Map, Answer::Done),
    Does::Told(1, 1, Update::Map, Answer::Overlap(0x400000)),
    Does::NotTold(2),
    Does::Reads(0x400123, 2, Answer::Mapped(0x1123, Size::K4, Rights::ALL)),
    Does::Reads(0x401000, 2, Answer::NotMapped),
    Does::Accesses(0x400123, Access::Write, 2, Answer::Allowed(0x1123)),
    Does::Accesses(0x401000, Access::Fetch, 2, Answer::Fault(20)),
    Does::Holds([(5, 2, Update::Unmap), (3, 3, Update::Map)]),
    Does::PutsAndCatchesUp([
        Given(
            5,
            2,
            Update::Unmap,
            2,
            Answer::Removed(0x1000, Size::K4, Rights::ALL),
        ),
        Given(3, 3, Update::Map, 3, Answer::Done),
    ]),
    Does::Has(Held::Nothing),
    Does::HasApplied(4),
    Does::Told(3, 3, Update::Map, Answer::Done),
];

/// The node forgets what it has applied: no answer of before is given any more, reads go on, and what it applies then is kept.
static FORGETS: [Does; 14] = [
    Does::Forgets(4),
    Does::NotTold(0),
    Does::NotTold(3),
    Does::NotTold(4),
    Does::Reads(0x400123, 4, Answer::Mapped(0x1123, Size::K4, Rights::ALL)),
    Does::Holds([(5, 2, Update::Unmap), (3, 3, Update::Map)]),
    Does::Puts(4),
    Does::CatchesUp(
        2,
        &[
            Given(
                5,
                2,
                Update::Unmap,
                4,
                Answer::Removed(0x1000, Size::K4, Rights::ALL),
            ),
            Given(3, 3, Update::Map, 5, Answer::Done),
        ],
    ),
    Does::NotTold(3),
    Does::Told(5, 3, Update::Map, Answer::Done),
    Does::HasApplied(6),
    Does::Forgets(6),
    Does::NotTold(5),
    Does::CatchesUp(0, &[]),
];

/// Other passes have appended 16 entries: the node holds its batch, for which there is no room, also once it has applied them, and once it
/// has taken them. None is applied twice.
static HAS_NO_ROOM: [Does; 9] = [
    Does::Holds([(0, 7, Update::Map), (1, 8, Update::Unmap)]),
    Does::IsFull(16, 0, [0, 0, 0, 0]),
    Does::Has(Held::Unplaced(2)),
    Does::Follows(16, 16),
    Does::Follows(16, 16),
    Does::IsFull(16, 0, [0, 0, 0, 0]),
    Does::CatchesUp(0, &[]),
    Does::Has(Held::Unplaced(2)),
    Does::IsFull(16, 16, [16, 0, 0, 0]),
];

/// The other replica has taken them too: the node puts its batch and catches up. The page is mapped, and goes.
static HAS_ROOM: [Does; 6] = [
    Does::Puts(16),
    Does::Has(Held::Placed(16, 2)),
    Does::CatchesUp(
        2,
        &[
            Given(0, 7, Update::Map, 16, Answer::Done),
            Given(
                1,
                8,
                Update::Unmap,
                17,
                Answer::Removed(0x1000, Size::K4, Rights::ALL),
            ),
        ],
    ),
    Does::Told(15, 100, Update::Unmap, Answer::NotMapped),
    Does::HasApplied(18),
    Does::NotTold(18),
];

/// Has a node alone on a new log take its steps: whether the store has a frame for its root. Its dump then has so many tables.
fn node_alone<S: FrameStore + Drop, R: Abort>(
    rt: &R,
    alloc: Global,
    store: S,
    depth: Depth,
    tables: usize,
) -> bool
    requires store { S.frames store ≡ finite.empty }
{
    node_on_log::<S, Brand, R>(rt, alloc, store, depth, tables)
}

/// The same, where the log has a name.
fn node_on_log<S: FrameStore + Drop, J: LogName, R: Abort>(
    rt: &R,
    alloc: Global,
    store: S,
    depth: Depth,
    tables: usize,
) -> bool
    requires store { S.frames store ≡ finite.empty }
    requires depth { depth ≡ J.depth }
    requires one { (J.replicas ≡ 1) × (J.passes ≡ 1) }
    requires places { J.places ≡ LOG_PLACES }
{
    let (log, mut passes) = RingLog::<J>::new(alloc, depth, 1, 0).expect(rt, "memory");
    let node = match Node::new(alloc, store, passes.remove(0), depth) {
        Ok(node) => node,
        Err(vs_types::Fail::Refused(NoRoot)) => return false,
        Err(vs_types::Fail::Memory) => panic!(rt; "memory: Memory"),
    };
    let slots = Slots::new(alloc, 8).expect(rt, "memory");
    let mut bench = Bench::new(&log, node, slots, depth);
    bench.take_all(rt, &ALONE);
    bench.assert_dump(rt, alloc, 4, tables);
    bench.take_all(rt, &FORGETS);
    bench.assert_dump(rt, alloc, 0, tables);
    true
}

#[test]
fn node_alone_over_a_vector(rt: HostRuntime) {
    let store = VecArena::new(rt.alloc(), 1 << 39, 8).expect(&rt, "memory");
    assert!(rt; node_alone(&rt, rt.alloc(), store, Depth::Four, 4));
}

#[test]
fn node_alone_over_one_region(rt: HostRuntime) {
    let store = RawArena::new(rt.alloc(), 1 << 39, 4096).expect(&rt, "memory");
    assert!(rt; node_alone(&rt, rt.alloc(), store, Depth::Four, 4));
}

#[test]
fn node_alone_at_five_levels(rt: HostRuntime) {
    let store = RawArena::new(rt.alloc(), 1, 5).expect(&rt, "memory");
    assert!(rt; node_alone(&rt, rt.alloc(), store, Depth::Five, 5));
    let store = VecArena::new(rt.alloc(), 1, 6).expect(&rt, "memory");
    assert!(rt; node_alone(&rt, rt.alloc(), store, Depth::Five, 5));
}

#[test]
fn no_frame_for_the_root(rt: HostRuntime) {
    let store = VecArena::new(rt.alloc(), 1, 0).expect(&rt, "memory");
    assert!(rt; !node_alone(&rt, rt.alloc(), store, Depth::Four, 4));
}

/// Names a log of two replicas.
struct Two;

impl LogName for Two {
    ghost use Rattle.vs_types.specs.declared.addresses.depth.Depth.TheVariants.{Four};

    ghost depth = { Four };

    ghost replicas = { 2 };

    ghost passes = { 3 };
}

/// A pass appends 16 entries of call 100 to a new log.
fn append_others(rt: &impl Abort, log: &RingLog<Two>, pass: &mut LogPass<Two>)
    requires { pass.old.log ≡ log.now }
{
    let others = [Update::Unmap.entry(rt, Depth::Four, 100); 16];
    assert!(rt; log.append(pass, &others) == Ok(0));
}

/// The other replica takes the 16 entries that there are.
fn take_others(rt: &impl Abort, log: &RingLog<Two>, pass: &mut LogPass<Two>)
    requires log { pass.old.log ≡ log.now }
    requires owner { pass.old.view.owns ≡ 1 ∷ [] }
{
    let tails = log.look(pass);
    assert!(rt; tails.local[1] <= 16 && 16 <= tails.tail);
    assert!(rt; log.advance(pass, 16).is_ok());
}

/// A node whose log is full holds its batch as before, and puts it once both replicas have taken what was there.
#[test]
fn full_log_leaves_the_batch(rt: HostRuntime) {
    let (log, mut passes) = RingLog::<Two>::new(rt.alloc(), Depth::Four, 2, 1).expect(
        &rt, "memory",
    );
    let pass = passes.remove(0);
    let mut second = passes.remove(0);
    let mut third = passes.remove(0);
    let store = VecArena::new(rt.alloc(), 1 << 39, 4).expect(&rt, "memory");
    let node = Node::new(rt.alloc(), store, pass, Depth::Four).expect(&rt, "a node");
    let slots = Slots::new(rt.alloc(), 8).expect(&rt, "memory");
    let mut bench = Bench::new(&log, node, slots, Depth::Four);
    append_others(&rt, &log, &mut third);
    bench.take_all(&rt, &HAS_NO_ROOM);
    take_others(&rt, &log, &mut second);
    bench.take_all(&rt, &HAS_ROOM);
}
