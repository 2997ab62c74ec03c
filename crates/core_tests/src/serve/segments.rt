//! Runs in segments of one log: each goes on with the space of those before it, and their bytes are one chain.
ghost use Rattle.std.specs.Prelude.{◌≡◌, ◌+◌, IfOk, IfSome};
ghost use Rattle.nr_ring.specs.declared.cells.words.TheConstants.{MOST_PLACES};

use crate::scripts::assert_scripts;
use crate::serve::gates::StopAt;
use crate::serve::scene::TURNS;
use crate::serve::scripts::{map_a, overlapping, resolve_a, unmap_a};
use nr_chain::{ChainVerdict, audit_chain};
use nr_replicas::{Gate, Point};
use nr_ring::LogName;
use nr_serve::{AlwaysGo, Answers, CallOutcome, ChainRun, NoSegment, SegmentOutcome};
use std::alloc::Global;
use std::marker::Brand;
use std::process::Abort;
use std::sync::Wait;
use std::thread::Threads;
use vs_types::{Answer, Config, Depth, Fail, Memory, Request, Rights, Size};

/// What a run in segments shows: what came of the calls of each, and the bytes of all.
#[derive(Drop)]
pub struct ShownChain {
    answers: Vec<Answers>,
    bytes: Vec<u8>,
}

impl ShownChain {
    fn push(&mut self, answers: Answers, bytes: &[u8]) -> Result<(), Memory> {
        self.answers.push(answers)?;
        self.bytes.extend_from_slice(bytes)?;
        Ok(())
    }

    /// What came of the calls of a thread in a segment.
    pub fn assert_said(
        &self,
        rt: &impl Abort,
        segment: usize,
        thread: usize,
        said: &[CallOutcome],
    ) {
        let all = self.answers.get(segment).expect(rt, "a segment").threads();
        assert!(rt; thread < all.len());
        assert_eq!(rt; all[thread].as_slice(), said);
    }

    /// That the bytes are a right chain, of a segment for each list of answers.
    fn assert_chain(&self, rt: &impl Abort, alloc: Global) {
        match audit_chain(alloc, &self.bytes).expect(rt, "memory") {
            ChainVerdict::Yes(orders) => assert_eq!(rt; orders.len(), self.answers.len()),
            ChainVerdict::No(_, fault) => panic!(rt; "refused: {fault:?}"),
        }
    }
}

/// A segment that has to be right: the run, where it goes on.
fn next<J: LogName + Send + Sync, G: Gate + Sync, R: Threads + Wait + Abort + Sync>(
    rt: &R,
    alloc: Global,
    run: ChainRun<J>,
    config: Config,
    scripts: Vec<Vec<Request>>,
    gate: &G,
    shown: &mut ShownChain,
) -> Result<Option<ChainRun<J>>, Fail<NoSegment>>
    requires { run.layout ≡ config }
    ensures { IfOk result (λ next. IfSome next (λ more. more.layout ≡ config)) }
{
    assert_scripts(rt, config, &scripts);
    match run.segment(rt, alloc, scripts, TURNS, gate)? {
        SegmentOutcome::Right {
            answers,
            bytes,
            order: _,
            run,
        } => {
            shown.push(answers, bytes.as_slice())?;
            Ok(Some(run))
        }
        SegmentOutcome::Last {
            answers,
            bytes,
            order: _,
            passes: _,
        } => {
            shown.push(answers, bytes.as_slice())?;
            Ok(None)
        }
        SegmentOutcome::Wrong { bytes: _, fault } => panic!(rt; "wrong: {fault:?}"),
    }
}

/// Segments of one log that has its name, up to the first in which a thread is stopped.
fn segments_on_log<J: LogName + Send + Sync, G: Gate + Sync, R: Threads + Wait + Abort + Sync>(
    rt: &R,
    alloc: Global,
    config: Config,
    segments: Vec<Vec<Vec<Request>>>,
    gate: &G,
) -> Result<ShownChain, Fail<NoSegment>>
    requires depth { config.depth ≡ J.depth }
    requires replicas { config.replicas ≡ J.replicas }
    requires passes { J.passes ≡ config.replicas + config.threads }
    requires places { J.places ≡ MOST_PLACES }
{
    let mut shown = ShownChain {
        answers: Vec::new(alloc),
        bytes: Vec::new(alloc),
    };
    let mut run = ChainRun::<J>::new(alloc, config)?;
    for scripts in segments {
        match next(rt, alloc, run, config, scripts, gate, &mut shown)? {
            Some(more) => run = more,
            None => return Ok(shown),
        }
    }
    Ok(shown)
}

/// Segments of a run, each with one script for each thread, up to the first in which a thread is stopped.
pub fn segments_of<G: Gate + Sync, R: Threads + Wait + Abort + Sync>(
    rt: &R,
    alloc: Global,
    replicas: u8,
    threads: u16,
    segments: &[&[&[Request]]],
    gate: &G,
) -> Result<ShownChain, Fail<NoSegment>> {
    let config = Config::new(Depth::Four, replicas, threads, 4096).expect(rt, "a configuration");
    let mut all = Vec::new(alloc);
    for segment in segments {
        let mut scripts = Vec::new(alloc);
        for script in *segment {
            let script = Vec::from_slice(alloc, *script)?;
            scripts.push(script)?;
        }
        all.push(scripts)?;
    }
    segments_on_log::<Brand, G, R>(rt, alloc, config, all, gate)
}

#[test]
fn map_in_one_and_resolve_in_the_next(rt: HostRuntime) {
    let segments: [&[&[Request]]; 3] = [
        &[&[map_a(&rt)]],
        &[&[resolve_a(&rt), unmap_a(&rt)]],
        &[&[resolve_a(&rt)]],
    ];
    let shown = segments_of(&rt, rt.alloc(), 1, 1, &segments, &AlwaysGo).expect(&rt, "segments");
    let mapped = Answer::Mapped(0x1123, Size::K4, Rights::ALL);
    let removed = Answer::Removed(0x1000, Size::K4, Rights::ALL);
    shown.assert_said(&rt, 0, 0, &[CallOutcome::Answer(0, Answer::Done)]);
    shown.assert_said(
        &rt,
        1,
        0,
        &[
            CallOutcome::Answer(0, mapped),
            CallOutcome::Answer(0, removed),
        ],
    );
    shown.assert_said(&rt, 2, 0, &[CallOutcome::Answer(0, Answer::NotMapped)]);
    shown.assert_chain(&rt, rt.alloc());
}

/// Four threads update overlapping pages through two replicas, in eight segments.
#[test]
fn overlapping_pages_in_segments(rt: HostRuntime) {
    let script = overlapping(&rt, rt.alloc());
    let threads: [&[Request]; 4] = [&script, &script, &script, &script];
    let segments: [&[&[Request]]; 8] = [
        &threads, &threads, &threads, &threads, &threads, &threads, &threads, &threads,
    ];
    let shown = segments_of(&rt, rt.alloc(), 2, 4, &segments, &AlwaysGo).expect(&rt, "segments");
    assert_eq!(rt; shown.answers.len(), 8);
    shown.assert_chain(&rt, rt.alloc());
}

/// A thread is stopped when it has appended: its update has no reply, and the segment is the last.
#[test]
fn stopped_thread_ends_the_run(rt: HostRuntime) {
    let segments: [&[&[Request]]; 3] = [
        &[&[resolve_a(&rt)], &[]],
        &[&[map_a(&rt), resolve_a(&rt)], &[]],
        &[&[], &[resolve_a(&rt)]],
    ];
    let gate = StopAt(0, Point::Appended);
    let shown = segments_of(&rt, rt.alloc(), 2, 2, &segments, &gate).expect(&rt, "segments");
    assert_eq!(rt; shown.answers.len(), 2);
    shown.assert_said(&rt, 1, 0, &[CallOutcome::Stopped]);
    shown.assert_chain(&rt, rt.alloc());
}

/// A segment of no calls is one of the chain.
#[test]
fn segment_without_calls(rt: HostRuntime) {
    let segments: [&[&[Request]]; 2] = [&[&[], &[]], &[&[map_a(&rt)], &[]]];
    let shown = segments_of(&rt, rt.alloc(), 1, 2, &segments, &AlwaysGo).expect(&rt, "segments");
    shown.assert_said(&rt, 0, 1, &[]);
    shown.assert_said(&rt, 1, 0, &[CallOutcome::Answer(0, Answer::Done)]);
    shown.assert_chain(&rt, rt.alloc());
}
