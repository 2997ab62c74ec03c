//! Replicas that are cut and go on: beyond 65,536 updates, each segment with its own call numbers.
ghost use Rattle.std.specs.Prelude.{◌≡◌, ◌≤◌, ◌+◌, All};

use crate::gate::CountingGate;
use crate::scene::{callers_of, passes_of};
use crate::steps::{Asks, Step, take_all};
use nr_replicas::{Cut, Open, OpenReplicas, ReplicasName, UpdateFault};
use nr_ring::{LogName, LogPass};
use std::alloc::Global;
use std::marker::Brand;
use std::process::Abort;
use std::sync::Wait;
use vs_types::{Answer, Config, Depth, Fail, Rights, Size};

/// How many updates each of three segments has: with the second there are more than 65,536.
const UPDATES: u32 = 40_000;

/// One update more than a replica may keep to put another.
const FULL: u32 = 65_537;

/// How many places the log has.
const PLACES: u64 = 200_000;

/// Replicas and the passes of their threads.
#[derive(Drop)]
struct Segment<J: LogName> {
    opened: OpenReplicas<J>,
    passes: Vec<LogPass<J>>,
}

/// The updates of a segment, thread 0 and 1 in turn: a page is mapped and unmapped, and the third thread reads in the end.
fn steps_of(rt: &impl Abort, alloc: Global, base: u64) -> Vec<Step> {
    let mut steps = Vec::new(alloc);
    let mapped = Answer::Removed(0x1000, Size::K4, Rights::ALL);
    for call in 0..UPDATES {
        let place = base.saturating_add(u64::from(call));
        let thread = (call % 4 / 2) as u16;
        let step = match call % 2 {
            0 => Step::update(thread, call, Asks::Map(0), place, Answer::Done),
            _ => Step::update(thread, call, Asks::Unmap, place, mapped),
        };
        steps.push(step).expect(rt, "memory");
    }
    let end = base.saturating_add(u64::from(UPDATES));
    let read = Step::read(2, 0x400123, end, Answer::NotMapped);
    steps.push(read).expect(rt, "memory");
    steps
}

/// What a cut gives has the calls of one segment from 0 on, and a dump of each replica after all of them.
fn assert_cut<J: LogName>(rt: &impl Abort, cut: &Cut<J>, base: u64) {
    assert_eq!(rt; cut.calls.len(), UPDATES as usize);
    for (place, call) in cut.calls.as_slice().iter().enumerate() {
        assert_eq!(rt; *call as usize, place);
    }
    assert_eq!(rt; cut.dumps.len(), 2);
    for dump in cut.dumps.as_slice() {
        assert_eq!(rt; (dump.applied(), dump.count()), (UPDATES, 1));
    }
    assert_eq!(rt;
        cut.replicas.base(),
        base.saturating_add(u64::from(UPDATES))
    );
}

/// One segment: its updates, a read, and a cut. The call numbers begin at 0 again, and no slot has an answer of before.
fn make_segment<J: LogName, K: ReplicasName, R: Wait + Abort>(
    rt: &R,
    alloc: Global,
    config: Config,
    before: Segment<J>,
) -> Segment<J>
    requires name { (before.opened.log ≡ K.log) × (before.opened.layout.tables ≡ K.tables)
        × (before.opened.base ≡ K.base) }
    requires config { (before.opened.layout ≡ config) × (config.depth ≡ J.depth) }
    requires passes { All (λ pass. pass.log ≡ K.log) before.passes.items }
    ensures layout { result.opened.layout ≡ config }
    ensures log { result.opened.log ≡ K.log }
    ensures passes { All (λ pass. pass.log ≡ K.log) result.passes.items }
{
    let Segment { opened, passes } = before;
    let base = opened.base();
    let replicas = opened.named::<K>().expect(rt, "memory");
    let mut callers = callers_of(rt, alloc, &replicas, config, passes);
    let steps = steps_of(rt, alloc, base);
    take_all(rt, &mut callers, &steps, &CountingGate::new(None));
    let mut passes = passes_of(rt, alloc, callers);
    let Ok(cut) = replicas.cut(&mut passes) else {
        panic!(rt; "a cut");
    };
    assert_cut(rt, &cut, base);
    let Cut { replicas, .. } = cut;
    Segment {
        opened: replicas,
        passes,
    }
}

/// The same, where the replicas have no name yet.
fn cut_once<J: LogName, R: Wait + Abort>(
    rt: &R,
    alloc: Global,
    config: Config,
    before: Segment<J>,
) -> Segment<J>
    requires config { (before.opened.layout ≡ config) × (config.depth ≡ J.depth) }
    requires passes { All (λ pass. pass.log ≡ before.opened.log) before.passes.items }
    ensures layout { result.opened.layout ≡ config }
    ensures passes { All (λ pass. pass.log ≡ result.opened.log) result.passes.items }
{
    make_segment::<J, Brand, R>(rt, alloc, config, before)
}

/// Three segments, one after another.
fn cut_often<J: LogName, R: Wait + Abort>(rt: &R, alloc: Global, config: Config)
    requires depth { config.depth ≡ J.depth }
    requires replicas { config.replicas ≡ J.replicas }
    requires passes { J.passes ≡ config.replicas + config.threads }
    requires places { J.places ≡ 200000 }
{
    let (opened, passes) = OpenReplicas::<J>::with_places(alloc, config, PLACES).expect(
        rt, "memory",
    );
    let before = Segment { opened, passes };
    let first = cut_once(rt, alloc, config, before);
    let second = cut_once(rt, alloc, config, first);
    let third = cut_once(rt, alloc, config, second);
    assert_eq!(rt; third.opened.base(), 120_000);
}

/// The same, where the log has no name yet.
fn go_on<R: Wait + Abort>(rt: &R, alloc: Global, config: Config) {
    cut_often::<Brand, R>(rt, alloc, config);
}

/// Two replicas with three threads go on beyond 65,536 updates.
#[test]
fn replicas_go_on_over_cuts(rt: HostRuntime) {
    let config = Config::new(Depth::Four, 2, 3, 4).expect(&rt, "a configuration");
    go_on(&rt, rt.alloc(), config);
}

/// What comes of a cut after these steps, where the passes are handed or none is.
fn cut_after<J: LogName, K: ReplicasName, R: Wait + Abort>(
    rt: &R,
    alloc: Global,
    config: Config,
    before: Segment<J>,
    steps: &[Step],
    hands_passes: bool,
) -> bool
    requires name { (before.opened.log ≡ K.log) × (before.opened.layout.tables ≡ K.tables)
        × (before.opened.base ≡ K.base) }
    requires config { (before.opened.layout ≡ config) × (config.depth ≡ J.depth) }
    requires passes { All (λ pass. pass.log ≡ K.log) before.passes.items }
{
    let Segment { opened, passes } = before;
    let replicas = opened.named::<K>().expect(rt, "memory");
    let mut callers = callers_of(rt, alloc, &replicas, config, passes);
    take_all(rt, &mut callers, steps, &CountingGate::new(None));
    let mut passes = passes_of(rt, alloc, callers);
    if !hands_passes {
        passes.clear();
    }
    match replicas.cut(&mut passes) {
        Ok(_) => true,
        Err(Fail::Refused(Open)) => false,
        Err(Fail::Memory) => panic!(rt; "memory"),
    }
}

/// Whether new replicas are cut after these steps.
fn is_cut<J: LogName, R: Wait + Abort>(
    rt: &R,
    alloc: Global,
    config: Config,
    steps: &[Step],
    hands_passes: bool,
) -> bool
    requires depth { config.depth ≡ J.depth }
    requires replicas { config.replicas ≡ J.replicas }
    requires passes { J.passes ≡ config.replicas + config.threads }
    requires places { J.places ≡ 200000 }
{
    let (opened, passes) = OpenReplicas::<J>::with_places(alloc, config, PLACES).expect(
        rt, "memory",
    );
    let before = Segment { opened, passes };
    cut_after::<J, Brand, R>(rt, alloc, config, before, steps, hands_passes)
}

/// The same, where the log has no name yet.
fn cuts<R: Wait + Abort>(
    rt: &R,
    alloc: Global,
    config: Config,
    steps: &[Step],
    hands_passes: bool,
) -> bool {
    is_cut::<Brand, R>(rt, alloc, config, steps, hands_passes)
}

/// A cut wants a pass, and no call open: an update that waits in its slot, and one whose answer is not confirmed, are open.
#[test]
fn open_calls_refuse_a_cut(rt: HostRuntime) {
    let config = Config::new(Depth::Four, 2, 3, 4).expect(&rt, "a configuration");
    let alloc = rt.alloc();
    let done = Step::update(0, 0, Asks::Map(0), 0, Answer::Done);
    let waits = Step::fault(1, 1, Asks::Unmap, 0, UpdateFault::Stopped(1));
    let taken = Step::fault(0, 0, Asks::Map(0), 1, UpdateFault::Stopped(0));
    let served = Step::update(
        2,
        1,
        Asks::Unmap,
        1,
        Answer::Removed(0x1000, Size::K4, Rights::ALL),
    );
    assert!(&rt; cuts(&rt, alloc, config, &[], true));
    assert!(&rt; cuts(&rt, alloc, config, &[done], true));
    assert!(&rt; !cuts(&rt, alloc, config, &[done], false));
    assert!(&rt; !cuts(&rt, alloc, config, &[done, waits], true));
    assert!(&rt; !cuts(&rt, alloc, config, &[taken], true));
    assert!(&rt; !cuts(&rt, alloc, config, &[taken, served], true));
}

/// A replica that only reads applies one entry more than it may keep to put another. It takes all of them at a cut.
#[test]
fn full_replica_takes_all_at_a_cut(rt: HostRuntime) {
    let config = Config::new(Depth::Four, 2, 2, 4).expect(&rt, "a configuration");
    let alloc = rt.alloc();
    let mut steps = Vec::new(alloc);
    for call in 0..FULL {
        let step = Step::update(0, call, Asks::Unmap, u64::from(call), Answer::NotMapped);
        steps.push(step).expect(&rt, "memory");
    }
    let read = Step::read(1, 0x400000, u64::from(FULL), Answer::NotMapped);
    steps.push(read).expect(&rt, "memory");
    assert!(&rt; cuts(&rt, alloc, config, &steps, true));
}
