//! The space with which a segment begins.

ghost use Rattle.std.specs.Prelude.{◌≡◌, IfOk, IfSome, None, Some, option_map};
ghost use Rattle.nr_audit.specs.Verdict.{space_of};
ghost use Rattle.nr_audit.specs.Start.{first_space, start_space, BeginsRight};
ghost use Rattle.nr_explain.specs.inside.Reading.{all_states, space_seen, BeginsWell, FitsSegment};

use crate::chain::progress::Progress;
use nr_audit::copy;
use nr_trace::Trace;
use std::alloc::Global;
use vs_plain::PlainSpace;
use vs_types::{Fail, Memory};

/// The space with which a first segment begins, with whose start nothing is wrong. It allocates memory for it, and for a check of
/// the start.
pub(crate) fn begin_first(alloc: Global, segment: &Trace) -> Result<PlainSpace, Memory>
    requires { BeginsRight None segment.now }
    ensures { IfOk result (λ space. space
        ≡ space_of segment.now.layout (first_space None segment.now)) }
{
    match nr_audit::begin(alloc, segment, None) {
        Ok(space) => Ok(space),
        Err(Fail::Memory) => Err(Memory),
        Err(Fail::Refused(_)) => unreachable!(),
    }
}

/// The space of the start of a first segment, where it has one, with which nothing is wrong. It allocates memory for it, and for a
/// check of the start.
pub(crate) fn start_space(alloc: Global, segment: &Trace) -> Result<Option<PlainSpace>, Memory>
    requires { BeginsWell None segment.now }
    ensures { IfOk result (λ space. space ≡ option_map (λ start.
        space_of segment.now.layout (start_space segment.now.layout.depth (Some start)))
        segment.now.start) }
{
    let Some(_) = segment.start() else {
        return Ok(None);
    };
    let space = begin_first(alloc, segment)?;
    Ok(Some(space))
}

/// The space with which a segment begins, with whose start nothing is wrong. It allocates memory for it, and of a first segment
/// for a check of the start.
pub(crate) fn begin(
    alloc: Global,
    last: &Option<Progress>,
    segment: &Trace,
) -> Result<PlainSpace, Memory>
    requires fits { IfSome last.now (FitsSegment segment.now) }
    requires well { BeginsWell last.now segment.now }
    ensures { IfOk result (λ space. space
        ≡ space_of segment.now.layout (first_space (space_seen (all_states last.now)) segment.now)) }
{
    match last {
        Some(came) => copy(alloc, segment.layout().tables(), &came.space),
        None => begin_first(alloc, segment),
    }
}
