//! The trace of a run that has ended.
ghost use Rattle.std.specs.Prelude.{◌≡◌, ◌↔◌, ◌≤◌, All, IfOk, None, OnOk, length};
ghost use Rattle.std.specs.List.{flat_map};
ghost use Rattle.vs_types.specs.declared.limits.TheConstants.{CALLS, LOG_PLACES};
ghost use Rattle.nr_trace.specs.Parts.{HasFrames};
ghost use Rattle.nr_trace.specs.Recording.{IsEvent};
ghost use Rattle.nr_trace.specs.Versions.{FitsFirst, IsVersionOf};
ghost use Rattle.nr_trace.specs.declared.formats.version.Version.TheVariants.{V1, V2, Segment};
ghost use Rattle.nr_record.specs.Events.{AreEventsOf};
ghost use Rattle.nr_record.specs.Pen.{AreAllPens, stamps_of};
ghost use Rattle.nr_record.specs.Stamps.{AreBelow};
ghost use Rattle.nr_record.specs.inside.Held.{IsTrueOf};

use crate::clock::Clock;
use crate::order::in_order;
use crate::pen::Pen;
use crate::stamped::Stamped;
use nr_trace::{Form, Recorded, Trace, TraceLayout, Version};
use std::alloc::Global;
use vs_types::{Config, Memory};
use vs_walk::Dump;

/// The notes of all pens of a clock, by thread, and how many they are.
fn gather(alloc: Global, clock: Clock, pens: Vec<Pen>) -> Result<(u64, Vec<Vec<Stamped>>), Memory>
    requires pens { AreAllPens clock pens.items }
    requires some { 1 ≤ clock.layout.threads }
    ensures notes { IfOk result
        (λ gathered. flat_map (λ made. made.items) gathered.1.items
        ≡ flat_map (λ pen. pen.made) pens.items) }
    ensures stamps { IfOk result (λ gathered. AreBelow gathered.0 (flat_map stamps_of pens.items)
        × (length (flat_map stamps_of pens.items) ≡ gathered.0) × (gathered.0 ≤ CALLS)) }
    ensures each { OnOk result (All IsTrueOf pens.items) }
{
    let mut notes = Vec::with_capacity(alloc, pens.len())?;
    let mut pens = pens.into_iter();
    let Some(first) = pens.next() else {
        unreachable!()
    };
    let Pen { mut seat, made, .. } = first;
    notes.push(made)?;
    for pen in pens {
        let Pen {
            seat: other,
            made,
            ..
        } = pen;
        clock.join(&mut seat, other);
        notes.push(made)?;
    }
    Ok((clock.close(seat), notes))
}

/// The events of a run that has ended, in the order of their stamps.
fn recorded(alloc: Global, clock: Clock, pens: Vec<Pen>) -> Result<Vec<Recorded>, Memory>
    requires pens { AreAllPens clock pens.items }
    requires some { 1 ≤ clock.layout.threads }
    ensures events { IfOk result (λ events. AreEventsOf events.items pens.items) }
    ensures count { IfOk result (λ events. length events.items ≤ CALLS) }
    ensures fit { IfOk result (λ events. All (IsEvent V2 clock.layout) events.items) }
{
    let (count, notes) = gather(alloc, clock, pens)?;
    in_order(alloc, count as usize, &notes)
}

/// The trace of a run: the events in the order of their stamps, with the log and the dumps as they are handed in. All pens of the clock
/// are handed in, by thread, with the configuration that they were made with; at most 65,536 log words; and one dump for each replica,
/// which has 1 to 4,096 frames. The version is the least that can say the trace.
///
/// It takes 24 bytes for each event, and then for each thread as many.
///
/// # Errors
///
/// Out of memory.
pub fn finish(
    alloc: Global,
    clock: Clock,
    pens: Vec<Pen>,
    config: Config,
    log: Vec<u32>,
    dumps: Vec<Dump>,
) -> Result<Trace, Memory>
    requires config { config ≡ clock.layout }
    requires pens { AreAllPens clock pens.items }
    requires log { length log.items ≤ LOG_PLACES }
    requires dumps { (length dumps.items ≡ config.replicas)
        × All (HasFrames V1) dumps.items }
    ensures recorded { IfOk result (λ trace. AreEventsOf trace.events pens.items) }
    ensures handed_in { IfOk result
        (λ trace. (trace.layout ≡ config) × (trace.log ≡ log.items) × (trace.dumps ≡ dumps.items)) }
    ensures of_trace { IfOk result (λ trace. IsVersionOf Form.Trace trace.version) }
    ensures version { IfOk result
        (λ trace. (trace.version ≡ V1) ↔ FitsFirst trace.layout.depth trace.events) }
{
    let events = recorded(alloc, clock, pens)?;
    Ok(Trace::of_run(config, log, events, dumps))
}

/// A segment without a start.
fn segment_of(config: Config, log: Vec<u32>, events: Vec<Recorded>, dumps: Vec<Dump>) -> Trace
    requires log { length log.items ≤ LOG_PLACES }
    requires events { (length events.items ≤ CALLS) × All (IsEvent V2 config) events.items }
    requires dumps { (length dumps.items ≡ config.replicas)
        × All (HasFrames Segment) dumps.items }
    ensures { result
        ≡ record {
          version = Segment;
          layout = config;
          start = None;
          log = log.items;
          events = events.items;
          dumps = dumps.items;
        } }
{
    let layout = TraceLayout::of(config);
    match Trace::new(Version::Segment, layout, None, log, events, dumps) {
        Ok(segment) => segment,
        Err(_) => unreachable!(),
    }
}

/// A segment of a run that goes on: what `finish` has of a trace, for the calls since the last cut, in the version of segments and without
/// a start. The log words are those since the last cut, at most 65,536. There is one dump for each replica, of at most 65,535
/// frames; one without frames says that no dump of the replica is there, and then its root and its entries are 0.
///
/// It takes what `finish` takes.
///
/// # Errors
///
/// Out of memory.
pub fn finish_segment(
    alloc: Global,
    clock: Clock,
    pens: Vec<Pen>,
    config: Config,
    log: Vec<u32>,
    dumps: Vec<Dump>,
) -> Result<Trace, Memory>
    requires config { config ≡ clock.layout }
    requires pens { AreAllPens clock pens.items }
    requires log { length log.items ≤ LOG_PLACES }
    requires dumps { (length dumps.items ≡ config.replicas)
        × All (HasFrames Segment) dumps.items }
    ensures recorded { IfOk result (λ segment. AreEventsOf segment.events pens.items) }
    ensures handed_in { IfOk result
        (λ segment. (segment.layout ≡ config) × (segment.log ≡ log.items)
        × (segment.dumps ≡ dumps.items)) }
    ensures segment { IfOk result
        (λ segment. (segment.version ≡ Segment) × (segment.start ≡ None)) }
{
    let events = recorded(alloc, clock, pens)?;
    Ok(segment_of(config, log, events, dumps))
}
