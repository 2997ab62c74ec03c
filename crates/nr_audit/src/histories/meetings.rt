//! How many answered calls of a trace were open while another one was.

ghost use Rattle.std.specs.Prelude.{◌≡◌, ◌<◌, ◌≤◌, ◌↔◌, ◌⊎◌, IfOk, IsSomeAnd, IsTrue};
ghost use Rattle.nr_audit.specs.Meetings.{is_asked, overlapping};

use crate::checks::requests::request_of;
use nr_touch::replies;
use nr_trace::Trace;
use std::alloc::Global;
use vs_types::Memory;

/// The last update or read so far: the first reply to it, or `u32::MAX`, and whether an earlier one was open as it was made.
#[derive(Clone, Copy)]
pub(crate) struct Latest {
    pub(crate) call: u32,
    pub(crate) reply: u32,
    pub(crate) has_met: bool,
}

/// Whether an update or a read has this number.
fn is_asked(trace: &Trace, call: u32) -> bool
    ensures { result ≡ is_asked trace.now call }
{
    request_of(trace, call).is_some()
}

/// Whether the last call before one is answered, and has met an earlier call or is still open as that one is made.
fn meets(last: Option<Latest>, events: u32, call: u32) -> bool
    ensures { IsTrue result ↔ IsSomeAnd last (λ latest. (latest.reply < events)
        × (IsTrue latest.has_met ⊎ (call ≤ latest.reply))) }
{
    match last {
        Some(latest) => latest.reply < events && (latest.has_met || latest.reply >= call),
        None => false,
    }
}

/// How many updates and reads of a trace or of a segment that are answered overlap another one of it: one is made while the other is open.
/// Allocates a table of four bytes for each event.
///
/// # Errors
///
/// `Memory` where a growth of memory was refused.
pub fn overlapping(alloc: Global, trace: &Trace) -> Result<u64, Memory>
    ensures { IfOk result (λ count. count ≡ overlapping trace.now) }
{
    let replies = replies(alloc, trace)?;
    let events = trace.events().len() as u32;
    let mut last = None;
    let mut end: u64 = 0;
    let mut count: u64 = 0;
    for call in 0..events {
        if is_asked(trace, call) {
            if meets(last, events, call) {
                count += 1;
            }
            let reply = replies[call as usize];
            let has_met = end > u64::from(call);
            last = Some(Latest {
                call,
                reply,
                has_met,
            });
            end = end.max(u64::from(reply) + 1);
        }
    }
    if meets(last, events, events) {
        count += 1;
    }
    Ok(count)
}
