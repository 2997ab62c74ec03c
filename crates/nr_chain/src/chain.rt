//! A chain that comes in pieces: each segment is judged as soon as it is whole.

ghost use Rattle.std.specs.Prelude.{◌≡◌, ◌⊎◌, [], is_some, IfErr, IfOk, IfSome, OnOk, Option, Some, None, true, false, option_copied, option_map};
ghost use Rattle.nr_trace.specs.Feed.{IsWhole};
ghost use Rattle.nr_trace.specs.Orders.{recorded_order};
ghost use Rattle.vs_types.specs.Refusal.{IfRefused};
ghost use Rattle.nr_audit.specs.Faults.{IsFirstAfter, IsSoundAfter};
ghost use Rattle.nr_audit.specs.Met.{HasMet};
ghost use Rattle.nr_audit.specs.Start.{begins_in};
ghost use Rattle.nr_trace.specs.Run.{Run};
ghost use Rattle.nr_audit.specs.Segments.{run_after, FitsPast, IsBehind, IsKept};
ghost use Rattle.nr_chain.specs.Bytes.{EndsWith};
ghost use Rattle.nr_chain.specs.Fed.{IsKeptOf};
ghost use Rattle.nr_chain.specs.Verdict.{EndsWithin, FeedsChain, IsSpaceAfter};
ghost use Rattle.nr_chain.specs.inside.Between.{bytes_in, kept_by, layout_of, FitsLast};
ghost use Rattle.nr_chain.specs.inside.Steps.{EndsAt, JudgesWhole, RefusesWith};

use nr_audit::{Met, Order, Past, judge_segment};
use nr_trace::{Fault, Format, SegmentFeed, Trace, TraceLayout};
use std::alloc::Global;
use std::marker::Model;
use vs_plain::PlainSpace;
use vs_types::{Fail, Memory};

/// What the last segment has come to.
#[derive(Drop)]
struct Last {
    layout: TraceLayout,
    /// The space after its whole log, and how addresses may still be found to look otherwise.
    past: Past,
}

/// A reader and judge of a chain that comes in pieces, cut anywhere. It keeps the space after the segments so far, how addresses may
/// still be found to look otherwise, and what the pieces say of the next one. Contracts see what is kept, and the bytes of the next
/// one; the run of which it is kept is any that the caller knows of.
#[derive(Drop)]
pub struct Chain {
    last: Option<Last>,
    /// Whether a byte of the next segment has come.
    begun: bool,
    feed: SegmentFeed,
}

impl Model for Chain {
    ghost use Rattle.std.specs.Coded.{codes};
    ghost use Rattle.std.specs.Prelude.{option_map};
    ghost use Rattle.nr_audit.specs.contracts.histories.past.Past as past_contract;
    ghost use Rattle.nr_chain.specs.Fed.{ChainFed};
    ghost use Rattle.nr_chain.specs.inside.Between.{bytes_in, kept_by, IsBetween};

    ghost Value = { ChainFed };

    ghost coded = { Prim.hlevel (codes, past_contract.the_row.coded) };

    ghost view = { λ c.
        record { kept = option_map kept_by c.last; bytes = bytes_in c.feed.pieces } };

    ghost invariant = { λ c. IsBetween c.last c.begun c.feed };
}

/// What a piece makes of a chain.
#[derive(Drop)]
pub enum Step {
    /// The whole piece is taken, and too few bytes have come of the segment.
    More(Chain),
    /// So many bytes at the front of the piece end a segment, which is right with this order; what is counted of it, if that is asked; and
    /// what is left belongs to the next one.
    Right(usize, Order, Option<Met>, Chain),
    /// The segment has this fault, its first: whatever comes after the piece.
    Wrong(Fault),
}

impl Chain {
    ghost use Rattle.nr_chain.specs.Fed.{ChainFed};

    /// A chain of which nothing has come yet. It allocates no memory.
    pub fn new(alloc: Global) -> Chain
        ensures { let nothing : ChainFed = record { kept = None; bytes = [] } in result ≡ nothing }
    {
        Chain {
            last: None,
            begun: false,
            feed: SegmentFeed::new(alloc, None),
        }
    }

    /// Takes bytes at the front of the next piece: all of them, or so many that a segment is whole, which is judged then. It
    /// allocates what the segment says, and what its judgement takes. With `counts` the calls and the touches of a right one are counted.
    ///
    /// # Errors
    ///
    /// `Memory` where a growth of memory was refused.
    pub fn feed(self, alloc: Global, piece: &[u8], counts: bool) -> Result<Step, Memory>
        ensures feeds { (before : Option Run) → IsKeptOf before self.kept
            → IfOk result (FeedsChain before self piece.now) }
        ensures within { IfOk result (EndsWithin counts piece.now) }
    {
        let Chain {
            last,
            begun,
            mut feed,
        } = self;
        match feed.feed(piece) {
            Ok(count) => {
                if feed.is_whole() {
                    return judge_whole(alloc, last, feed, count, counts);
                }
                let begun = has_begun(begun, piece);
                let next = Chain { last, begun, feed };
                Ok(Step::More(next))
            }
            Err(fail) => refused(fail),
        }
    }

    /// The space after the last segment, where there is one: it has the depth and the limit of that segment's layout. It allocates no
    /// memory.
    pub fn space(&self) -> Option<&PlainSpace>
        ensures { (before : Option Run) → IsKeptOf before self.now.kept
            → IsSpaceAfter before (option_copied result) }
    {
        match &self.last {
            Some(last) => Some(&last.past.space),
            None => None,
        }
    }

    /// How the chain ends where no piece comes any more: `None` behind a whole segment, else with the next one truncated.
    pub fn end(self) -> Option<Fault>
        ensures { (before : Option Run) → IsKeptOf before self.kept
            → EndsWith before self.bytes result }
    {
        let Chain {
            last,
            begun,
            feed: _,
        } = self;
        end_of(last.is_some(), begun)
    }
}

/// Whether a byte of the next segment has come, after this piece.
fn has_begun(begun: bool, piece: &[u8]) -> bool
    ensures none { result ≡ false → (begun ≡ false) × (piece.now ≡ []) }
    ensures some { result ≡ true → (begun ≡ true) ⊎ (piece.now ≡ [] → ⊥) }
{
    begun || !piece.is_empty()
}

/// What a piece makes of a chain where it is refused.
fn refused(fail: Fail<Format>) -> Result<Step, Memory>
    ensures { IfOk result (RefusesWith fail) }
{
    match fail {
        Fail::Memory => Err(Memory),
        Fail::Refused(fault) => Ok(Step::Wrong(Fault::Format(fault))),
    }
}

/// How a chain ends, behind a segment or not, where a byte of the next one has come or not.
fn end_of(is_behind: bool, begun: bool) -> Option<Fault>
    ensures well { is_behind ≡ true → begun ≡ false → result ≡ None }
    ensures short { (is_behind ≡ true → begun ≡ true)
        → result ≡ Some (Fault.Format Format.Truncated) }
{
    if is_behind && !begun {
        return None;
    }
    Some(Fault::Format(Format::Truncated))
}

/// What is kept of the segments so far, if there are any.
fn past_of(last: Option<Last>) -> Option<Past>
    ensures { result ≡ option_map (λ last. last.past) last }
{
    match last {
        Some(last) => Some(last.past),
        None => None,
    }
}

/// Judges a segment, of which nothing is needed any more.
fn judge_last(
    alloc: Global,
    segment: Trace,
    before: Option<Past>,
    counts: bool,
) -> Result<(Order, Past, Option<Met>), Fail<Fault>>
    requires { IfSome before (FitsPast segment.layout) }
    ensures sound { (run : Option Run) → IsBehind run before segment
        → OnOk result (IsSoundAfter run segment) }
    ensures order { IfOk result (λ right. right.0 ≡ recorded_order segment) }
    ensures kept { (run : Option Run) → IsBehind run before segment
        → IfOk result (λ right. IsKept (run_after run segment) right.1) }
    ensures met { (run : Option Run) → IsBehind run before segment → IfOk result
        (λ right. IfSome right.2 (HasMet run (begins_in run segment) segment)) }
    ensures counted { IfOk result (λ right. is_some right.2 ≡ counts) }
    ensures fits { IfOk result (λ right. FitsPast segment.layout right.1) }
    ensures first { (run : Option Run) → IsBehind run before segment
        → IfErr result (IfRefused (IsFirstAfter run segment)) }
{
    judge_segment(alloc, &segment, before, counts)
}

/// Judges the segment that is whole, of which so many bytes came last.
fn judge_whole(
    alloc: Global,
    last: Option<Last>,
    feed: SegmentFeed,
    count: usize,
    counts: bool,
) -> Result<Step, Memory>
    requires whole { IsWhole feed }
    requires behind { feed.before ≡ layout_of (option_map kept_by last) }
    requires fits { IfSome last FitsLast }
    ensures judges { (before : Option Run) → IsKeptOf before (option_map kept_by last)
        → IfOk result (JudgesWhole before (bytes_in feed.pieces) count) }
    ensures ends { IfOk result (EndsAt counts count) }
{
    let segment = match feed.end() {
        Ok(segment) => segment,
        Err(_) => unreachable!(),
    };
    let layout = segment.layout();
    let before = past_of(last);
    match judge_last(alloc, segment, before, counts) {
        Ok((order, past, met)) => {
            let last = Some(Last { layout, past });
            let feed = SegmentFeed::new(alloc, Some(layout));
            let next = Chain {
                last,
                begun: false,
                feed,
            };
            Ok(Step::Right(count, order, met, next))
        }
        Err(Fail::Memory) => Err(Memory),
        Err(Fail::Refused(fault)) => Ok(Step::Wrong(fault)),
    }
}
