//! Writing of traces.

mod dumps;
mod events;
mod header;
mod lists;
mod numbers;

ghost use Rattle.std.specs.Prelude.{◌≡◌, IfOk, option_copied};
ghost use Rattle.nr_trace.specs.Recording.{start_frames};
ghost use Rattle.nr_trace.specs.Spelling.{spelling, SpellsAs};
ghost use Rattle.nr_trace.specs.Versions.{Follows, IsVersionOf};
ghost use Rattle.nr_trace.specs.declared.formats.version.Form.{Form};

use crate::formats::fields::Counts;
use crate::recordings::trace::Trace;
use crate::writing::dumps::{put_dumps, put_start};
use crate::writing::header::put_header;
use crate::writing::lists::{put_events, put_log};
use std::alloc::Global;
use vs_types::Memory;
use vs_walk::Dump;

/// How many frames a start has, where there is one.
fn frames_of(start: Option<&Dump>) -> u32
    ensures { result ≡ start_frames (option_copied start.entry) }
{
    match start {
        Some(start) => start.count() as u32,
        None => 0,
    }
}

/// The one spelling of the trace, or of the segment, which allocates memory.
///
/// # Errors
///
/// Out of memory.
pub fn write(alloc: Global, trace: &Trace) -> Result<Vec<u8>, Memory>
    ensures spelled { IfOk result (λ bytes. bytes.items ≡ spelling trace.now) }
    ensures spells { (form : Form) → IsVersionOf form trace.now.version
        → Follows form trace.now.layout
        → IfOk result (λ bytes. SpellsAs form bytes.items trace.now) }
{
    let mut out = Vec::new(alloc);
    let log = trace.log();
    let events = trace.events();
    let counts = Counts {
        layout: trace.layout(),
        places: log.len() as u32,
        events: events.len() as u32,
        start: frames_of(trace.start()),
    };
    put_header(&mut out, trace.version(), counts)?;
    put_start(&mut out, trace.start())?;
    put_log(&mut out, log)?;
    put_events(&mut out, events)?;
    put_dumps(&mut out, trace.dumps())?;
    Ok(out)
}
