//! Reading of a whole trace.

ghost use Rattle.std.specs.Prelude.{◌≡◌, IfOk, IfErr, MatchResult};
ghost use Rattle.nr_trace.specs.Recording.{Recording};
ghost use Rattle.nr_trace.specs.Spelling.{Spells};
ghost use Rattle.nr_trace.specs.FirstFault.{HasFormatFault};
ghost use Rattle.vs_types.specs.Refusal.{IfRefused};

use crate::reading::feed::Feed;
use crate::recordings::trace::Trace;
use crate::refusals::fault::Format;
use std::alloc::Global;
use vs_types::Fail;

/// The trace that the bytes spell. It allocates memory for the trace, at most about the length of the bytes.
///
/// # Errors
///
/// The first fault in byte order that keeps the bytes from spelling a trace, or `Memory` where a growth of memory was refused.
pub fn read(alloc: Global, bytes: &[u8]) -> Result<Trace, Fail<Format>>
    // What is read is spelled so.
    ensures spelled { IfOk result (λ trace. Spells bytes.now trace) }
    // What is spelled so is read, unless memory runs out.
    ensures only { (trace : Recording) → Spells bytes.now trace
        → MatchResult result (λ given. given ≡ trace) (λ fail. fail ≡ Fail.Memory) }
    // Which fault it is.
    ensures refused { IfErr result (IfRefused (HasFormatFault bytes.now)) }
{
    let mut feed = Feed::new(alloc);
    feed.feed(bytes)?;
    feed.end()
}
