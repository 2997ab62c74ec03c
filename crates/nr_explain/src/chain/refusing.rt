//! What is said of a chain whose next segment has a fault of the format, or which ends.

ghost use Rattle.std.specs.Prelude.{◌≡◌, ◌≤◌, IfOk, Option, length};
ghost use Rattle.nr_trace.specs.Feed.{IsWhole};
ghost use Rattle.nr_trace.specs.Feed.Fed.{Taken};
ghost use Rattle.nr_trace.specs.FirstFault.{HasRefusalAs};
ghost use Rattle.nr_trace.specs.declared.formats.version.Form.{Form};
ghost use Rattle.nr_explain.specs.Progress.{ChainState, IsSeenOf};
ghost use Rattle.nr_explain.specs.ChainExplanation.{IsExplanationFrom};
ghost use Rattle.nr_explain.specs.inside.Reading.{all_states, layout_seen};
ghost use Rattle.nr_explain.specs.inside.Steps.{IsRefusalOf};

use crate::chain::evidence::{BadSegment, SegmentEvidence};
use crate::chain::explanation::ChainExplanation;
use crate::chain::progress::{Progress, counts_of, sums_of};
use crate::ends::bad_unit;
use crate::units::HEADER_BYTES;
use nr_trace::{Fault, Refusal, SegmentFeed};
use std::alloc::Global;
use vs_types::{Fail, Memory};

/// The fault of the format that the bytes of the next segment have, and the unit that shows it. Allocates a header.
pub(crate) fn refused(
    alloc: Global,
    last: &Option<Progress>,
    bytes: Vec<u8>,
    refusal: Refusal,
) -> Result<ChainExplanation, Memory>
    requires within { refusal.left ≤ length bytes.items }
    requires refused { HasRefusalAs (Form.Segment (layout_seen (all_states last.now))) bytes.items
        refusal }
    ensures { (came : Option ChainState) → IsSeenOf came (all_states last.now)
        → IfOk result (IsRefusalOf came bytes.items refusal.fault) }
{
    let header = Vec::from_slice(alloc, &bytes[..HEADER_BYTES.min(bytes.len())])?;
    let count = bytes.len() as u64;
    let unit = bad_unit(refusal, count, &header, bytes);
    let sums = sums_of(last);
    let begins = sums.bytes;
    Ok(ChainExplanation::No(
        sums.segments,
        Fault::Format(refusal.fault),
        SegmentEvidence::Format(BadSegment { begins, unit }),
    ))
}

/// What is said where no byte comes any more, of which these are the next segment's. Allocates a list of pages, or a header.
pub(crate) fn ended(
    alloc: Global,
    last: &Option<Progress>,
    bytes: Vec<u8>,
    feed: SegmentFeed,
) -> Result<ChainExplanation, Memory>
    requires taken { feed.pieces ≡ Taken bytes.items }
    requires behind { feed.before ≡ layout_seen (all_states last.now) }
    requires not_whole { IsWhole feed → ⊥ }
    ensures { (came : Option ChainState) → IsSeenOf came (all_states last.now)
        → IfOk result (IsExplanationFrom came bytes.items) }
{
    if bytes.is_empty() {
        if let Some(came) = last {
            let counts = counts_of(came)?;
            return Ok(ChainExplanation::Yes(counts));
        }
    }
    match feed.end_or_refuse() {
        Ok(_) => unreachable!(),
        Err(Fail::Memory) => Err(Memory),
        Err(Fail::Refused(refusal)) => refused(alloc, last, bytes, refusal),
    }
}
