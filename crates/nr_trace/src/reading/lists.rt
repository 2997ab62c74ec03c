//! The runs of the log, of the events, and of a frame's words.

ghost use Rattle.std.specs.Prelude.{◌≡◌, ◌+◌, ◌-◌, ◌*◌, ◌≤◌, ℕ, [], length, MatchResult, OnOk};
ghost use Rattle.vs_types.specs.declared.limits.TheConstants.{LOG_PLACES, CALLS};
ghost use Rattle.vs_types.specs.Refusal.{IfRefused};
ghost use Rattle.nr_trace.specs.FirstFault.{AtEvents, AtLog};
ghost use Rattle.nr_trace.specs.inside.Reading.{ArePlaced, AreRecorded, HasWords, IsBadEvent};
ghost use Rattle.nr_trace.specs.inside.Progress.{parts_spelling, AreInRange, AreUnits, HasRead, IsReady, Takes};

use crate::formats::layout::TraceLayout;
use crate::formats::version::Version;
use crate::reading::events::event_of;
use crate::reading::numbers::{take_u32, take_u64};
use crate::reading::reader::{Parts, Reader};
use crate::reading::room::make_room;
use crate::recordings::recorded::Recorded;
use crate::refusals::fault::Format;
use crate::refusals::refusal::{Refusal, TraceUnit};
use vs_types::{Fail, Memory};
use vs_walk::OpenDump;

fn at_events(parts: Parts, events: u32) -> Reader
    requires in_range { AreInRange parts }
    requires few_events { length parts.events.items + events ≤ CALLS }
    requires no_dumps { parts.dumps.items ≡ [] }
    ensures { HasRead parts.form
        (parts_spelling (length parts.log.items) (length parts.events.items + events) parts)
        (AtEvents parts.version parts.layout (length parts.events.items) events) result }
{
    if events == 0 {
        Reader::Dumps(parts)
    } else {
        Reader::Events(parts, events)
    }
}

pub(crate) fn at_log(parts: Parts, places: u32, events: u32) -> Reader
    requires in_range { AreInRange parts }
    requires few_places { length parts.log.items + places ≤ LOG_PLACES }
    requires few_events { events ≤ CALLS }
    requires no_events { parts.events.items ≡ [] }
    requires no_dumps { parts.dumps.items ≡ [] }
    ensures { HasRead parts.form (parts_spelling (length parts.log.items + places) events parts)
        (AtLog parts.version parts.layout (length parts.log.items) places events) result }
{
    if places == 0 {
        at_events(parts, events)
    } else {
        Reader::Log(parts, places, events)
    }
}

/// Adds the calls that the bytes spell to the log. It allocates memory where there is no room for them.
fn push_places(log: &mut Vec<u32>, bytes: &[u8]) -> Result<(), Memory>
    requires { (n : ℕ) × (length bytes.now ≡ 4 * n) }
    ensures { OnOk result (ArePlaced log.old.items bytes.now log.new.items) }
{
    let mut rest = bytes;
    for k in 0..bytes.len() / 4 {
        let (call, behind) = take_u32(rest);
        log.push(call)?;
        rest = behind;
    }
    Ok(())
}

pub(crate) fn take_places(
    mut parts: Parts,
    places: u32,
    events: u32,
    run: &[u8],
) -> Result<Reader, Fail<Refusal>>
    requires ready { IsReady (Reader.Log parts places events) }
    requires run { AreUnits 4 places (length run.now) }
    ensures { Takes (Reader.Log parts places events) run.now result }
{
    let count = run.len() / 4;
    make_room(&mut parts.log, count, places as usize)?;
    push_places(&mut parts.log, run)?;
    Ok(at_log(parts, places - count as u32, events))
}

/// Adds the events that the bytes spell, up to the first 24 bytes that spell none. It allocates memory where there is no room
/// for them.
fn push_events(
    version: Version,
    layout: TraceLayout,
    events: &mut Vec<Recorded>,
    bytes: &[u8],
) -> Result<(), Fail<Refusal>>
    requires whole { (n : ℕ) × (length bytes.now ≡ 24 * n) × (length events.old.items + n ≤ CALLS) }
    ensures { MatchResult result
        (λ done. AreRecorded version layout events.old.items bytes.now events.new.items)
        (IfRefused (IsBadEvent version layout (length events.old.items) bytes.now)) }
{
    let mut rest = bytes;
    for k in 0..bytes.len() / 24 {
        let (unit, behind) = rest.split_at(24);
        match event_of(version, layout, unit) {
            Some(event) => events.push(event)?,
            None => {
                let index = events.len() as u32;
                return Err(Fail::Refused(Refusal::of(
                    Format::BadEvent(index),
                    TraceUnit::Event(index),
                    rest,
                )));
            }
        }
        rest = behind;
    }
    Ok(())
}

pub(crate) fn take_events(
    mut parts: Parts,
    events: u32,
    run: &[u8],
) -> Result<Reader, Fail<Refusal>>
    requires ready { IsReady (Reader.Events parts events) }
    requires run { AreUnits 24 events (length run.now) }
    ensures { Takes (Reader.Events parts events) run.now result }
{
    let count = run.len() / 24;
    make_room(&mut parts.events, count, events as usize)?;
    push_events(parts.version, parts.layout, &mut parts.events, run)?;
    Ok(at_events(parts, events - count as u32))
}

/// Adds the words that the run spells to the frame that is coming.
pub(crate) fn push_words(dump: &mut OpenDump, run: &[u8])
    requires { AreUnits 8 (512 - length dump.old.coming) (length run.now) }
    ensures { HasWords dump.old run.now dump.new }
{
    let mut rest = run;
    for k in 0..run.len() / 8 {
        let (word, behind) = take_u64(rest);
        dump.push(word);
        rest = behind;
    }
}
