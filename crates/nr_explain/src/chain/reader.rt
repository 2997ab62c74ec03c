//! A chain that comes in pieces: each segment is judged as soon as it is whole, and the first wrong one explained.

ghost use Rattle.std.specs.Prelude.{◌≡◌, ◌++◌, [], ℕ, is_some, true, List, IfOk, IfSome, None, Option, Some};
ghost use Rattle.nr_trace.specs.Feed.{IsWhole};
ghost use Rattle.nr_trace.specs.Feed.Fed.{Taken};
ghost use Rattle.nr_trace.specs.FirstFault.{HasFaultAs};
ghost use Rattle.nr_trace.specs.Versions.{Follows};
ghost use Rattle.nr_trace.specs.declared.formats.version.Form.{Form};
ghost use Rattle.nr_explain.specs.Progress.{ChainState, IsSeenOf};
ghost use Rattle.nr_explain.specs.ChainExplanation.{Explains, FeedsReader};
ghost use Rattle.nr_explain.specs.inside.Reading.{all_states, layout_seen, AreTwice, FitsProgress, FitsSegment, IsKnown};
ghost use Rattle.nr_explain.specs.inside.Steps.{EndsWithin, JudgedTo, JudgesTo, StepsTo};

use crate::chain::explaining::explain_segment;
use crate::chain::explanation::ChainExplanation;
use crate::chain::progress::{Progress, go_on, sums_of};
use crate::chain::refusing::{ended, refused};
use nr_audit::{Met, Past, judge_segment};
use nr_trace::{SegmentFeed, Trace};
use std::alloc::Global;
use std::marker::Model;
use vs_types::{Fail, Memory};

/// A reader of a chain that comes in pieces, cut anywhere, which explains what an audit of it finds. It keeps the bytes of one segment
/// and what they say, the space after the segment before and the looks that linger behind it, both twice, and the space with which the
/// chain begins. Contracts see what is kept of the segments so far, and the bytes of the next one; the run of which it is kept is any
/// that the caller knows of.
#[derive(Drop)]
pub struct ChainReader {
    alloc: Global,
    last: Option<Progress>,
    /// The space after the segment before and what lingers, once more: the judge takes it, and changes it up to the first fault.
    before: Option<Past>,
    /// The bytes of the next segment so far.
    bytes: Vec<u8>,
    feed: SegmentFeed,
}

impl Model for ChainReader {
    ghost use Rattle.std.specs.Coded.{codes, coded_ℕ};
    ghost use Rattle.std.specs.FinMap as finite;
    ghost use Rattle.std.specs.Ordering.{nat_cmp};
    ghost use Rattle.vs_types.specs.contracts.addresses.page.Page as page_contract;
    ghost use Rattle.nr_touch.specs.contracts.touches.tail.Tail as tail_contract;
    ghost use Rattle.nr_explain.specs.Progress.{ReaderState};
    ghost use Rattle.nr_explain.specs.inside.Reading.{all_states, IsReading};

    ghost Value = { ReaderState };

    ghost coded = { Prim.hlevel (codes, finite.code {R = nat_cmp} coded_ℕ page_contract.the_row.coded, tail_contract.the_row.coded) };

    ghost view = { λ r. record { state = all_states r.last; bytes = r.bytes.items } };

    ghost invariant = { λ r. IsReading r.last r.before r.bytes.items r.feed };
}

/// What a piece makes of a reader.
#[derive(Drop)]
pub enum ReaderStep {
    /// The piece is taken, and no fault is found yet.
    More(ChainReader),
    /// A segment has a fault, its first, whatever comes after the piece.
    Found(ChainExplanation),
}

/// What a piece makes of a reader, up to the end of one segment.
#[derive(Drop)]
enum Step {
    /// The whole piece is taken, and too few bytes have come of the segment.
    More(ChainReader),
    /// So many bytes at the front of the piece end a segment, which is right.
    Right(usize, ChainReader),
    /// The segment has a fault.
    Wrong(ChainExplanation),
}

impl ChainReader {
    ghost use Rattle.nr_explain.specs.Progress.{ReaderState};

    /// A reader of which nothing has come yet. It allocates no memory.
    pub fn new(alloc: Global) -> ChainReader
        ensures { let nothing : ReaderState = record { state = None; bytes = [] } in result ≡ nothing }
    {
        ChainReader {
            alloc,
            last: None,
            before: None,
            bytes: Vec::new(alloc),
            feed: SegmentFeed::new(alloc, None),
        }
    }

    /// Takes bytes at the front of the next piece: all of them, or so many that a segment is whole, which is judged then.
    fn step(self, piece: &[u8]) -> Result<Step, Memory>
        ensures steps { (came : Option ChainState) → IsSeenOf came self.state
            → IfOk result (StepsTo came self piece.now) }
        ensures within { IfOk result (EndsWithin piece.now) }
    {
        let ChainReader {
            alloc,
            last,
            before,
            mut bytes,
            mut feed,
        } = self;
        match feed.feed_or_refuse(piece) {
            Ok(count) => {
                bytes.extend_from_slice(&piece[..count])?;
                if feed.is_whole() {
                    return judge_whole(alloc, last, before, &bytes, feed, count);
                }
                let next = ChainReader {
                    alloc,
                    last,
                    before,
                    bytes,
                    feed,
                };
                Ok(Step::More(next))
            }
            Err(Fail::Memory) => Err(Memory),
            Err(Fail::Refused(refusal)) => {
                bytes.extend_from_slice(piece)?;
                let found = refused(alloc, &last, bytes, refusal)?;
                Ok(Step::Wrong(found))
            }
        }
    }

    /// Takes the next piece, with all segments that are whole with it; each of them is judged, and the first wrong one explained. It
    /// allocates the bytes of a segment and what they say, what its judgement takes, the pages that its log maps, and what shows a fault.
    /// With the first segment it allocates three spaces, with any other right one none: the log is served on two of them.
    ///
    /// # Errors
    ///
    /// `Memory` where a growth of memory was refused.
    pub fn feed(self, piece: &[u8]) -> Result<ReaderStep, Memory>
        ensures { (came : Option ChainState) → IsSeenOf came self.state
            → IfOk result (FeedsReader came self piece.now) }
    {
        let mut reader = self;
        let mut rest = piece;
        'segments: while !rest.is_empty() {
            match reader.step(rest)? {
                Step::More(next) => return Ok(ReaderStep::More(next)),
                Step::Right(count, next) => {
                    reader = next;
                    rest = &rest[count..];
                }
                Step::Wrong(found) => return Ok(ReaderStep::Found(found)),
            }
        }
        Ok(ReaderStep::More(reader))
    }

    /// What is found of the chain where no piece comes any more: how much it has, where it ends behind a whole segment and all are
    /// right; else that the next one is truncated.
    ///
    /// # Errors
    ///
    /// `Memory` where a growth of memory was refused.
    pub fn end(self) -> Result<ChainExplanation, Memory>
        ensures { (came : Option ChainState) → IsSeenOf came self.state
            → IfOk result (Explains came self []) }
    {
        let ChainReader {
            alloc,
            last,
            before: _,
            bytes,
            feed,
        } = self;
        ended(alloc, &last, bytes, feed)
    }
}

/// Judges the segment that is whole, which these bytes spell.
fn judge_whole(
    alloc: Global,
    last: Option<Progress>,
    before: Option<Past>,
    bytes: &[u8],
    feed: SegmentFeed,
    count: usize,
) -> Result<Step, Memory>
    requires whole { IsWhole feed }
    requires taken { feed.pieces ≡ Taken bytes.now }
    requires behind { feed.before ≡ layout_seen (all_states last) }
    requires fits { IfSome last FitsProgress }
    requires twice { AreTwice last before }
    requires known { IsKnown last }
    ensures { (came : Option ChainState) → IsSeenOf came (all_states last)
        → IfOk result (JudgesTo came bytes.now count) }
{
    let segment = match feed.end() {
        Ok(segment) => segment,
        Err(_) => unreachable!(),
    };
    judge_next(alloc, last, before, &segment, bytes.len(), count)
}

/// What is counted of a segment, where that was asked.
fn counted(met: Option<Met>) -> Met
    requires { is_some met ≡ true }
    ensures { met ≡ Some result }
{
    match met {
        Some(met) => met,
        None => unreachable!(),
    }
}

/// Judges the segment that comes next, which has so many bytes, and explains it where it is wrong.
fn judge_next(
    alloc: Global,
    last: Option<Progress>,
    before: Option<Past>,
    segment: &Trace,
    size: usize,
    count: usize,
) -> Result<Step, Memory>
    requires fits { IfSome last (FitsSegment segment.now) }
    requires follows { Follows (Form.Segment (layout_seen (all_states last))) segment.now.layout }
    requires twice { AreTwice last before }
    requires known { IsKnown last }
    ensures { (came : Option ChainState) → IsSeenOf came (all_states last)
        → IfOk result (JudgedTo came segment.now size count) }
{
    match judge_segment(alloc, segment, before, true) {
        Ok((order, past, met)) => {
            let met = counted(met);
            let (came, kept) = go_on(alloc, last, segment, &order, met, past, size)?;
            let feed = SegmentFeed::new(alloc, Some(came.layout));
            let next = ChainReader {
                alloc,
                last: Some(came),
                before: Some(kept),
                bytes: Vec::new(alloc),
                feed,
            };
            Ok(Step::Right(count, next))
        }
        Err(Fail::Memory) => Err(Memory),
        Err(Fail::Refused(fault)) => {
            let number = sums_of(&last).segments;
            let shown = explain_segment(alloc, &last, segment, fault)?;
            Ok(Step::Wrong(ChainExplanation::No(number, fault, shown)))
        }
    }
}
