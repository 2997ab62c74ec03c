//! What threads were answered, compared with the log that their replicas have left.

use crate::caller::{Made, Said};
use crate::dumps::assert_dumps;
use crate::scene::Settled;
use nr_replicas::UpdateFault;
use std::alloc::Global;
use std::process::Abort;
use vs_plain::PlainSpace;
use vs_types::{Config, Op, Query};

/// Whether a call of this number may be answered so, which is at that place of the log, or nowhere in it.
fn may_be_told(made: Made, call: u32, place: Option<u64>) -> bool {
    match (made.query, made.said) {
        (Query::Update(_), Said::Answer(at, _)) => place == Some(at),
        (Query::Update(_), Said::Fault(UpdateFault::Stopped(stopped))) => stopped == call,
        (Query::Update(_), Said::Fault(UpdateFault::Occupied)) => place.is_none(),
        (Query::Update(_), _) => false,
        (_, Said::Fault(_)) => false,
        (_, _) => place.is_none(),
    }
}

/// The place in the log of each of so many calls, of which each is there once at most.
fn places_of(rt: &impl Abort, alloc: Global, calls: &[u32], count: usize) -> Vec<Option<u64>> {
    let mut places = vec![in alloc; None::<u64>; count].expect(rt, "memory");
    let mut place = 0u64;
    for call in calls {
        let stands = places
            .get_mut(*call as usize)
            .expect(rt, "a call of the run");
        assert_eq!(rt; *stands, None, "call {call} stands twice in the log");
        *stands = Some(place);
        place = place.wrapping_add(1);
    }
    places
}

/// Each call was answered what fits to where it is in the log.
fn judge_places(rt: &impl Abort, made: &[Made], places: &[Option<u64>]) {
    let mut call = 0u32;
    for (made, place) in made.iter().zip(places.iter()) {
        let may = may_be_told(*made, call, *place);
        let said = made.said;
        assert!(rt; may, "call {call} at {place:?}: {said:?}");
        call = call.wrapping_add(1);
    }
}

/// Each read that saw just as many entries as the space has was answered as the space answers it.
fn judge_reads(rt: &impl Abort, made: &[Made], entries: u64, space: &PlainSpace) {
    for (call, made) in made.iter().enumerate() {
        let wanted = match made.query {
            Query::Update(_) => continue,
            Query::Resolve(address) => space.resolve(address),
            Query::Access(address, mode, access) => space.access(address, mode, access),
        };
        if let Said::Answer(at, answer) = made.said
            && at == entries
        {
            assert_eq!(rt; answer, wanted, "call {call}");
        }
    }
}

/// Each answer is that of a plain space at its place of the log; no read saw more entries than there are. The updates of the log.
fn judge_answers(rt: &impl Abort, alloc: Global, config: Config, settled: &Settled) -> Vec<Op> {
    let made = settled.made.as_slice();
    let mut updates = Vec::new(alloc);
    let mut space = PlainSpace::new(alloc, config.tables(), config.depth());
    judge_reads(rt, made, 0, &space);
    let mut entries = 0u64;
    for call in settled.calls.as_slice() {
        let update = judge_update(rt, made, *call, &mut space);
        updates.push(update).expect(rt, "memory");
        entries = entries.wrapping_add(1);
        judge_reads(rt, made, entries, &space);
    }
    for made in made {
        let said = made.said;
        assert!(rt;
            !matches!(said, Said::Answer(at, _) if at > entries),
            "{said:?}"
        );
    }
    updates
}

/// The answer to the update of this call is that of the space, where it comes next. The update.
fn judge_update(rt: &impl Abort, made: &[Made], call: u32, space: &mut PlainSpace) -> Op {
    let made = made.get(call as usize).expect(rt, "a call of the run");
    let Query::Update(op) = made.query else {
        panic!(rt; "the read of call {call} stands in the log");
    };
    let depth = space.depth();
    assert!(rt; op.fits(depth));
    let wanted = space.apply(op).expect(rt, "memory");
    if let Said::Answer(_, answer) = made.said {
        assert_eq!(rt; answer, wanted, "call {call}");
    }
    op
}

/// Each answer is that of a plain space at its place of the log. Each call is in the log once at most: those that were answered are there, and
/// of the others those that were stopped may be. Each dump is that of a plain space after as many entries as it says. The calls are numbered
/// from 0.
pub fn judge(rt: &impl Abort, alloc: Global, config: Config, settled: &Settled) {
    let made = settled.made.as_slice();
    let places = places_of(rt, alloc, &settled.calls, made.len());
    judge_places(rt, made, &places);
    let updates = judge_answers(rt, alloc, config, settled);
    assert_dumps(rt, alloc, config, settled, &updates);
}
