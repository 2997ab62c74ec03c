//! The recorder's trace of one pen or two, and the version that it needs.

ghost use Rattle.std.specs.Prelude.{◌≡◌, ◌≤◌, [], ◌∷◌, IfOk};
ghost use Rattle.vs_types.specs.Query.{IsQuery};
ghost use Rattle.vs_types.specs.declared.limits.TheConstants.{LOG_PLACES};
ghost use Rattle.nr_trace.specs.Parts.{HasFrames};
ghost use Rattle.nr_trace.specs.declared.formats.version.Version.TheVariants.{V1, Segment};
ghost use Rattle.nr_record.specs.Pen.{AreAllPens, new_pen};

use nr_audit::judge_segment;
use nr_record::{Clock, Pen, finish, finish_segment, pens};
use nr_trace::{Asked, Event, Trace, TraceLayout, Version};
use std::alloc::Global;
use std::process::Abort;
use std::test::Fail;
use vs_types::{Access, Answer, Config, Depth, Memory, Mode, Op, Request, Rights, Size};
use vs_walk::Dump;

/// A dump with one frame, its root, which is empty.
fn empty_dump(alloc: Global) -> Result<Dump, Memory>
    ensures { IfOk result (HasFrames V1) }
{
    let mut dump = Dump::new(alloc, 0, 1);
    dump.push(1, &[0; 512])?;
    Ok(dump)
}

/// Two threads, each with a replica of its own.
pub fn two_replicas(rt: &impl Abort) -> Config
    ensures { (result.depth ≡ Depth.Four) × (result.replicas ≡ 2) × (result.threads ≡ 2) }
{
    Config::new(Depth::Four, 2, 2, 4).expect(rt, "a configuration")
}

/// A resolve at four levels.
pub fn resolve(rt: &impl Abort) -> Request
    ensures { IsQuery Depth.Four result }
{
    let request = Request::resolve(Depth::Four, 0x400000).expect(rt, "a resolve");
    assert!(rt; request.fits(Depth::Four));
    request
}

/// A map of a small page.
fn map(rt: &impl Abort) -> Request
    ensures { IsQuery Depth.Four result }
{
    let rights = Rights {
        write: true,
        user: true,
        exec: false,
    };
    let op = Op::map(Depth::Four, 0x400000, Size::K4, 0x1000, rights).expect(rt, "a map");
    let request = Request::update(op);
    assert!(rt; request.fits(Depth::Four));
    request
}

/// A clock and its only pen, for so many calls.
pub fn one_pen(alloc: Global, config: Config, quota: u32) -> Result<(Clock, Pen), Memory>
    requires threads { config.threads ≡ 1 }
    requires quota { quota ≤ LOG_PLACES }
    ensures layout { IfOk result (λ made. made.0.layout ≡ config) }
    ensures threads { IfOk result (λ made. made.0.layout.threads ≡ 1) }
    ensures calls { IfOk result (λ made. made.0.calls ≡ quota) }
    ensures pen { IfOk result (λ made. made.1 ≡ new_pen made.0 0 quota) }
{
    let (clock, mut pens) = pens(alloc, config, &[quota])?;
    Ok((clock, pens.remove(0)))
}

/// A clock and its two pens, each for one call.
pub fn two_pens(alloc: Global, config: Config) -> Result<(Clock, Pen, Pen), Memory>
    requires { config.threads ≡ 2 }
    ensures layout { IfOk result (λ made. made.0.layout ≡ config) }
    ensures threads { IfOk result (λ made. made.0.layout.threads ≡ 2) }
    ensures calls { IfOk result (λ made. made.0.calls ≡ 2) }
    ensures first { IfOk result (λ made. made.1 ≡ new_pen made.0 0 1) }
    ensures second { IfOk result (λ made. made.2 ≡ new_pen made.0 1 1) }
{
    let (clock, mut pens) = pens(alloc, config, &[1, 1])?;
    let first = pens.remove(0);
    let second = pens.remove(0);
    Ok((clock, first, second))
}

/// The trace of two pens, with one log word and two dumps.
pub fn finish_two(
    alloc: Global,
    clock: Clock,
    first: Pen,
    second: Pen,
    config: Config,
) -> Result<Trace, Memory>
    requires config { (config ≡ clock.layout) × (config.replicas ≡ 2) }
    requires pens { AreAllPens clock (first ∷ second ∷ []) }
{
    let pens = vec![in alloc; first, second]?;
    let log = vec![in alloc; 7u32]?;
    let dumps = vec![in alloc; empty_dump(alloc)?, empty_dump(alloc)?]?;
    finish(alloc, clock, pens, config, log, dumps)
}

/// A dump that is not there.
fn no_dump(alloc: Global) -> Dump
    ensures { HasFrames Segment result }
{
    Dump::new(alloc, 0, 0)
}

/// The segment of two pens, with no log words and no dumps.
fn segment_of_two(
    alloc: Global,
    clock: Clock,
    first: Pen,
    second: Pen,
    config: Config,
) -> Result<Trace, Memory>
    requires config { (config ≡ clock.layout) × (config.replicas ≡ 2) }
    requires pens { AreAllPens clock (first ∷ second ∷ []) }
{
    let pens = vec![in alloc; first, second]?;
    let dumps = vec![in alloc; no_dump(alloc), no_dump(alloc)]?;
    finish_segment(alloc, clock, pens, config, Vec::new(alloc), dumps)
}

fn call(thread: u8, request: Request) -> Event {
    Event::Call {
        replica: thread,
        thread: u16::from(thread),
        asked: Asked::Request(request),
    }
}

fn reply(call: u32, at: u32, answer: Answer) -> Event {
    Event::Reply { call, at, answer }
}

#[test]
fn two_pens_one_thread(rt: HostRuntime) -> Result<(), Fail> {
    let alloc = rt.alloc();
    let config = two_replicas(&rt);
    let map = map(&rt);
    let resolve = resolve(&rt);
    let (clock, mut first, mut second) = two_pens(alloc, config)?;
    assert_eq!(rt; first.call(&clock, map), 0);
    assert_eq!(rt; second.call(&clock, resolve), 1);
    assert_eq!(rt; second.reply(&clock, 5, Answer::NotMapped), 2);
    assert_eq!(rt; first.reply(&clock, 6, Answer::Done), 3);
    let trace = finish_two(alloc, clock, first, second, config)?;
    let wanted = [
        call(0, map),
        call(1, resolve),
        reply(1, 5, Answer::NotMapped),
        reply(0, 6, Answer::Done),
    ];
    assert_eq!(rt; trace.version(), Version::V1);
    assert_eq!(rt; trace.layout(), TraceLayout::of(config));
    assert_eq!(rt; trace.log(), [7u32].as_slice());
    assert_eq!(rt; trace.dumps().len(), 2);
    assert_eq!(rt; trace.events().len(), 4);
    for (recorded, event) in trace.events().iter().zip(wanted.iter()) {
        assert_eq!(rt; recorded.event(), *event);
    }
    Ok(())
}

/// The version of a run of one call.
fn version_of(
    rt: &impl Abort,
    alloc: Global,
    depth: Depth,
    request: Request,
    answer: Answer,
) -> Result<Version, Memory> {
    assert!(rt; request.fits(depth));
    let config = Config::new(depth, 1, 1, 1).expect(rt, "a configuration");
    let (clock, mut pen) = one_pen(alloc, config, 1)?;
    pen.call(&clock, request);
    pen.reply(&clock, 0, answer);
    let pens = vec![in alloc; pen]?;
    let dumps = vec![in alloc; empty_dump(alloc)?]?;
    let trace = finish(alloc, clock, pens, config, Vec::new(alloc), dumps)?;
    Ok(trace.version())
}

#[test]
fn least_version_of_a_run(rt: HostRuntime) -> Result<(), Fail> {
    let alloc = rt.alloc();
    let resolve = resolve(&rt);
    let access = Request::access(Depth::Four, 0, Mode::User, Access::Read).expect(&rt, "an access");
    let none = Answer::NotMapped;
    assert_eq!(rt;
        version_of(&rt, alloc, Depth::Four, resolve, none)?,
        Version::V1
    );
    assert_eq!(rt;
        version_of(&rt, alloc, Depth::Four, access, none)?,
        Version::V2
    );
    assert_eq!(rt;
        version_of(&rt, alloc, Depth::Four, resolve, Answer::Allowed(0))?,
        Version::V2
    );
    assert_eq!(rt;
        version_of(&rt, alloc, Depth::Four, resolve, Answer::Fault(4))?,
        Version::V2
    );
    assert_eq!(rt;
        version_of(&rt, alloc, Depth::Five, resolve, none)?,
        Version::V2
    );
    Ok(())
}

#[test]
fn segment_of_two_pens(rt: HostRuntime) -> Result<(), Fail> {
    let alloc = rt.alloc();
    let config = two_replicas(&rt);
    let resolve = resolve(&rt);
    let (clock, mut first, mut second) = two_pens(alloc, config)?;
    assert_eq!(rt; first.call(&clock, resolve), 0);
    assert_eq!(rt; second.call(&clock, resolve), 1);
    assert_eq!(rt; second.reply(&clock, 0, Answer::NotMapped), 2);
    assert_eq!(rt; first.reply(&clock, 0, Answer::NotMapped), 3);
    let segment = segment_of_two(alloc, clock, first, second, config)?;
    assert_eq!(rt; segment.version(), Version::Segment);
    assert!(rt; segment.start().is_none());
    assert_eq!(rt; segment.events().len(), 4);
    assert_eq!(rt; segment.events()[1].event(), call(1, resolve));
    assert!(rt; judge_segment(alloc, &segment, None, false).is_ok());
    Ok(())
}
