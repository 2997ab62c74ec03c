//! What a stale touch should have seen, what was open then or called later, and after which entries its answer would be right.

ghost use Rattle.std.specs.Prelude.{◌≡◌, IfOk, OnOk, string_bytes};
ghost use Rattle.serde_json.specs.View.{view};
ghost use Rattle.audit_texts.specs.ChainEvidence.{missed_parts, seen_parts};
ghost use Rattle.audit_texts.specs.NearbyText.{later_line, missed_data, missed_lines, open_data, open_lines};
ghost use Rattle.audit_texts.specs.Parts.{put_all};

use crate::json::fact_json::{call_value, reply_value, taken_value};
use crate::lines::fact_text::{call_line, own_line, reply_line};
use crate::lines::output::Output;
use crate::lines::parts::{Part, Says};
use nr_explain::{MissedUpdate, OpenUpdate, PlacedUpdate, SegmentEvidence, StaleTouch};
use serde_json::{Map, Value, put};
use std::alloc::{AllocError, Global};

/// The lines of an update that a touch should have seen, if there is one.
#[tactic(auto, unfolding(crate::specs::NearbyText::missed_lines))]
pub(crate) fn missed_lines(
    alloc: Global,
    missed: Option<MissedUpdate>,
) -> Result<String, AllocError>
    ensures { IfOk result (λ text. string_bytes text ≡ missed_lines missed) }
{
    match missed {
        None => String::from_str(alloc, "should have seen: none\n"),
        Some(missed) => {
            let place = missed.update.place;
            let call = call_line(alloc, missed.update.call)?;
            let reply = reply_line(alloc, missed.reply)?;
            format!(in alloc; "should have seen place {place}, {call}{reply}")
        }
    }
}

/// An update that a touch should have seen, or null.
pub(crate) fn missed_value(alloc: Global, missed: Option<MissedUpdate>) -> Result<Value, AllocError>
    ensures { IfOk result (λ value. view value ≡ missed_data missed) }
{
    match missed {
        None => Ok(Value::Null),
        Some(missed) => {
            let place = missed.update.place;
            let call = call_value(alloc, missed.update.call)?;
            let reply = reply_value(alloc, missed.reply)?;
            let mut members = Map::new(alloc);
            put(&mut members, alloc, "call", call)?;
            put(&mut members, alloc, "place", Value::from(place))?;
            put(&mut members, alloc, "reply", reply)?;
            Ok(Value::Object(members))
        }
    }
}

/// The lines of an update that was still open then, if there is one.
#[tactic(auto, unfolding(crate::specs::NearbyText::open_lines))]
pub(crate) fn open_lines(alloc: Global, found: Option<OpenUpdate>) -> Result<String, AllocError>
    ensures { IfOk result (λ text. string_bytes text ≡ open_lines found) }
{
    match found {
        None => String::from_str(alloc, ""),
        Some(found) => {
            let place = found.update.place;
            let call = call_line(alloc, found.update.call)?;
            let reply = own_line(alloc, found.reply)?;
            format!(in alloc; "still open then: place {place}, {call}{reply}")
        }
    }
}

/// An update that was still open then, or null.
pub(crate) fn open_value(alloc: Global, found: Option<OpenUpdate>) -> Result<Value, AllocError>
    ensures { IfOk result (λ value. view value ≡ open_data found) }
{
    match found {
        None => Ok(Value::Null),
        Some(found) => taken_value(alloc, found),
    }
}

/// The line of an update that was called later, if there is one.
#[tactic(auto, unfolding(crate::specs::NearbyText::later_line))]
pub(crate) fn later_line(alloc: Global, update: Option<PlacedUpdate>) -> Result<String, AllocError>
    ensures { IfOk result (λ text. string_bytes text ≡ later_line update) }
{
    match update {
        None => String::from_str(alloc, ""),
        Some(update) => {
            let place = update.place;
            let call = call_line(alloc, update.call)?;
            format!(in alloc; "called later: place {place}, {call}")
        }
    }
}

/// Puts which update a touch should have seen, which was open then, which was called later, and after which entries its answer would be
/// right.
#[tactic(auto, unfolding(crate::specs::ChainEvidence::seen_parts))]
fn put_seen<O: Output>(out: &mut O, alloc: Global, touch: &StaleTouch) -> Result<(), AllocError>
    ensures { OnOk result (O.held out.new ≡ put_all (seen_parts touch.now) (O.held out.old)) }
{
    let parts = [
        Part::InBoth("missed", Says::Missed(touch.missed)),
        Part::InBoth("open", Says::Open(touch.still_open)),
        Part::InBoth("later", Says::Later(touch.later)),
        Part::Words("right after: "),
        Part::InBoth("right", Says::Right(touch.right)),
        Part::Words("\n"),
    ];
    out.put_all(alloc, &parts)
}

/// Puts which update a stale touch should have seen, which was open then, which was called later, and after which entries its answer would
/// be right.
#[tactic(auto, unfolding(crate::specs::ChainEvidence::missed_parts, crate::specs::Parts::put_all))]
pub(crate) fn put_missed<O: Output>(
    out: &mut O,
    alloc: Global,
    shown: &SegmentEvidence,
) -> Result<(), AllocError>
    ensures { OnOk result (O.held out.new ≡ put_all (missed_parts shown.now) (O.held out.old)) }
{
    match shown {
        SegmentEvidence::Stale(touch) => put_seen(out, alloc, touch),
        _ => out.put_all(alloc, &[]),
    }
}
