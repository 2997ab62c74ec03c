//! What shows each fault of a chain.

ghost use Rattle.std.specs.Prelude.{◌≡◌, ◌++◌, IfOk, OnOk, flat_map, map, string_bytes};
ghost use Rattle.serde_json.specs.View.{members_view, view};
ghost use Rattle.audit_texts.specs.Parts.{put_all, says_of};
ghost use Rattle.audit_texts.specs.ChainEvidence.{allowed_parts, allowed_says, bad_segment_parts, begin_parts, change_parts};
ghost use Rattle.audit_texts.specs.ChainEvidence.{difference_parts, looks_of, moment_data, moment_line, origin_parts, origin_says};
ghost use Rattle.audit_texts.specs.ChainEvidence.{other_answer_parts, segment_evidence_data, segment_evidence_text, segment_parts};
ghost use Rattle.audit_texts.specs.ChainEvidence.{start_beyond_parts, start_differs_parts};
ghost use Rattle.audit_texts.specs.ChainEvidence.{stale_parts, start_stray_parts, window_parts, with_looks};

use crate::chain::earlier::{push_earlier, put_earlier};
use crate::chain::lags::put_lag;
use crate::chain::missed::put_missed;
use crate::chain::releases::put_why;
use crate::evidence::{put_evidence, put_missing, put_reserved, put_shared};
use crate::json::fact_json::Members;
use crate::lines::output::Output;
use crate::lines::parts::{Part, Says};
use crate::nearby::put_nearby;
use crate::shared::{put_answer, put_look, put_read, put_stray_frame, put_unlike};
use crate::wording::answer::answer_text;
use nr_explain::{
    BadSegment, Difference, Moment, Origin, OtherAnswer, PlacedUpdate, SegmentEvidence, StaleTouch,
    StartBeyond, StartDiffers,
};
use nr_trace::{Format, TraceUnit};
use serde_json::{Map, Value, put};
use std::alloc::{AllocError, Global};
use vs_walk::Walk;

/// What an address looks like that no update of the segment has changed.
#[tactic(auto, unfolding(crate::specs::ChainEvidence::origin_says))]
fn origin_says<'a>(origin: Origin) -> Says<'a>
    ensures { says_of result ≡ origin_says origin }
{
    match origin {
        Origin::Nothing => Says::Nothing,
        Origin::Start => Says::Text("the start"),
        Origin::Earlier => Says::Text("an earlier segment"),
    }
}

/// Puts where the look of an address comes from, behind the address.
#[tactic(auto, unfolding(crate::specs::ChainEvidence::origin_parts))]
fn put_origin<O: Output>(out: &mut O, alloc: Global, origin: Origin) -> Result<(), AllocError>
    ensures { OnOk result (O.held out.new ≡ put_all (origin_parts origin) (O.held out.old)) }
{
    let parts = [
        Part::Words(", last changed by: "),
        Part::InBoth("changed", origin_says(origin)),
        Part::Words("\n"),
    ];
    out.put_all(alloc, &parts)
}

/// Puts the last change of an address, behind the address.
#[tactic(auto, unfolding(crate::specs::ChainEvidence::change_parts))]
fn put_change<O: Output>(
    out: &mut O,
    alloc: Global,
    changed: Option<PlacedUpdate>,
    origin: Origin,
) -> Result<(), AllocError>
    ensures { OnOk result (O.held out.new
        ≡ put_all (change_parts changed origin) (O.held out.old)) }
{
    match changed {
        Some(_) => {
            let parts = [
                Part::Words(", "),
                Part::InBoth("changed", Says::Changed(changed)),
            ];
            out.put_all(alloc, &parts)
        }
        None => put_origin(out, alloc, origin),
    }
}

#[tactic(auto, unfolding(crate::specs::ChainEvidence::other_answer_parts))]
fn put_other_answer<O: Output>(
    out: &mut O,
    alloc: Global,
    wrong: OtherAnswer,
    origin: Origin,
) -> Result<(), AllocError>
    ensures { OnOk result (O.held out.new
        ≡ put_all (other_answer_parts wrong origin) (O.held out.old)) }
{
    let changed = wrong.changed;
    let right = wrong.right;
    let memory = wrong.memory;
    put_answer(out, alloc, wrong)?;
    put_change(out, alloc, changed, origin)?;
    put_nearby(out, alloc, right, memory)
}

#[tactic(auto, unfolding(crate::specs::ChainEvidence::difference_parts))]
fn put_difference<O: Output>(
    out: &mut O,
    alloc: Global,
    wrong: &Difference,
    origin: Origin,
) -> Result<(), AllocError>
    ensures { OnOk result (O.held out.new
        ≡ put_all (difference_parts wrong.now origin) (O.held out.old)) }
{
    put_unlike(out, alloc, wrong)?;
    put_change(out, alloc, wrong.changed, origin)
}

/// What is allowed in a segment where it has this fault of the format.
#[tactic(auto, unfolding(crate::specs::ChainEvidence::allowed_says))]
fn allowed_says<'a>(fault: Format) -> Says<'a>
    ensures { says_of result ≡ allowed_says fault }
{
    match fault {
        Format::BadMagic => Says::Text("bytes 0 to 3 are NRVS\n"),
        Format::BadVersion => Says::Text("bytes 4 and 5 are the version, 1\n"),
        Format::BadCount => Says::Text(
            "levels 4 or 5, replicas 1 to 4, threads and tables 1 to 65535, places to 65536, events to 131072, \
            frames to 65535; where a dump has none, its other numbers are 0\n",
        ),
        Format::Truncated
        | Format::BadChain
        | Format::BadStart(_)
        | Format::BadEvent(_)
        | Format::BadFrame(_, _)
        | Format::Trailing => Says::Allowed(fault),
    }
}

/// Puts where a segment begins, and a unit.
#[tactic(auto, unfolding(crate::specs::ChainEvidence::begin_parts))]
fn put_begin<O: Output>(
    out: &mut O,
    alloc: Global,
    begins: u64,
    unit: TraceUnit,
) -> Result<(), AllocError>
    ensures { OnOk result (O.held out.new ≡ put_all (begin_parts begins unit) (O.held out.old)) }
{
    let parts = [
        Part::InJson("fault", Says::Text("Format")),
        Part::Words("the segment begins at byte "),
        Part::InBoth("begins", Says::Count(begins)),
        Part::Words("\n"),
        Part::InBoth("unit", Says::Unit(unit)),
    ];
    out.put_all(alloc, &parts)
}

/// Puts what is allowed where a segment has this fault of the format.
#[tactic(auto, unfolding(crate::specs::ChainEvidence::allowed_parts))]
fn put_allowed<O: Output>(out: &mut O, alloc: Global, fault: Format) -> Result<(), AllocError>
    ensures { OnOk result (O.held out.new ≡ put_all (allowed_parts fault) (O.held out.old)) }
{
    let parts = [
        Part::InLines(allowed_says(fault)),
        Part::InJson("format", Says::Allowed(fault)),
    ];
    out.put_all(alloc, &parts)
}

#[tactic(auto, unfolding(crate::specs::ChainEvidence::bad_segment_parts))]
fn put_bad_segment<O: Output>(
    out: &mut O,
    alloc: Global,
    bad: &BadSegment,
) -> Result<(), AllocError>
    ensures { OnOk result (O.held out.new ≡ put_all (bad_segment_parts bad.now) (O.held out.old)) }
{
    let BadSegment { begins, unit } = bad;
    put_begin(out, alloc, *begins, unit.unit)?;
    put_read(
        out,
        alloc,
        bad.offset(),
        unit.read.as_slice(),
        unit.unit.size(),
    )?;
    put_allowed(out, alloc, unit.fault)
}

#[tactic(auto, unfolding(crate::specs::ChainEvidence::start_stray_parts))]
fn put_start_stray<O: Output>(out: &mut O, alloc: Global, frame: u64) -> Result<(), AllocError>
    ensures { OnOk result (O.held out.new ≡ put_all (start_stray_parts frame) (O.held out.old)) }
{
    put_stray_frame(out, alloc, "StartStray", frame)
}

#[tactic(auto, unfolding(crate::specs::ChainEvidence::start_beyond_parts))]
fn put_start_beyond<O: Output>(
    out: &mut O,
    alloc: Global,
    wrong: &StartBeyond,
) -> Result<(), AllocError>
    ensures { OnOk result (O.held out.new
        ≡ put_all (start_beyond_parts wrong.now) (O.held out.old)) }
{
    let page = wrong.page;
    let parts = [
        Part::InJson("fault", Says::Text("StartBeyond")),
        Part::Words("the start: "),
        Part::InBoth(
            "found",
            Says::Walk(Walk::Mapped(page.phys, page.size, page.rights)),
        ),
        Part::Words("\n"),
        Part::InBoth("path", Says::Steps(wrong.path.as_slice())),
        Part::Words("its page ends above 0x8000000000000\n"),
        Part::InJson("address", Says::Address(page.base)),
    ];
    out.put_all(alloc, &parts)
}

#[tactic(auto, unfolding(crate::specs::ChainEvidence::start_differs_parts))]
fn put_start_differs<O: Output>(
    out: &mut O,
    alloc: Global,
    wrong: &StartDiffers,
) -> Result<(), AllocError>
    ensures { OnOk result (O.held out.new
        ≡ put_all (start_differs_parts wrong.now) (O.held out.old)) }
{
    let parts = [
        Part::InJson("fault", Says::Text("StartDiffers")),
        Part::Words("the start: "),
    ];
    out.put_all(alloc, &parts)?;
    put_look(
        out,
        alloc,
        wrong.found,
        wrong.path.as_slice(),
        wrong.wanted,
        wrong.address,
    )?;
    put_origin(out, alloc, wrong.origin)
}

/// Puts a touch, its reply, and how many entries of the log it may see.
#[tactic(auto, unfolding(crate::specs::ChainEvidence::window_parts))]
fn put_window<O: Output>(out: &mut O, alloc: Global, touch: &StaleTouch) -> Result<(), AllocError>
    ensures { OnOk result (O.held out.new ≡ put_all (window_parts touch.now) (O.held out.old)) }
{
    let parts = [
        Part::InJson("fault", Says::Text("Stale")),
        Part::InBoth("call", Says::Call(touch.call)),
        Part::InBoth("reply", Says::Reply(touch.reply)),
        Part::Words("entries seen at least: "),
        Part::InBoth("first", Says::Count(u64::from(touch.first))),
        Part::Words("\nentries seen at most: "),
        Part::InBoth("last", Says::Count(u64::from(touch.last))),
        Part::Words("\n"),
    ];
    out.put_all(alloc, &parts)
}

/// Puts a stale touch, and how far the table of its replica may lag, if that counts.
#[tactic(auto, unfolding(crate::specs::ChainEvidence::stale_parts))]
fn put_stale<O: Output>(out: &mut O, alloc: Global, touch: &StaleTouch) -> Result<(), AllocError>
    ensures { OnOk result (O.held out.new ≡ put_all (stale_parts touch.now) (O.held out.old)) }
{
    put_window(out, alloc, touch)?;
    put_lag(out, alloc, touch.lag)
}

/// Puts what is said of a fault, but for the moments of a touch.
#[tactic(auto, unfolding(crate::specs::ChainEvidence::segment_parts))]
fn put_segment<O: Output>(
    out: &mut O,
    alloc: Global,
    shown: &SegmentEvidence,
) -> Result<(), AllocError>
    ensures { OnOk result (O.held out.new ≡ put_all (segment_parts shown.now) (O.held out.old)) }
{
    match shown {
        SegmentEvidence::Format(bad) => put_bad_segment(out, alloc, bad),
        SegmentEvidence::Within(within) => put_evidence(out, alloc, within),
        SegmentEvidence::WrongAnswer(wrong, origin) => put_other_answer(
            out, alloc, *wrong, *origin,
        ),
        SegmentEvidence::Differs(wrong, origin) => put_difference(out, alloc, wrong, *origin),
        SegmentEvidence::StartMissing(wrong) => put_missing(out, alloc, wrong),
        SegmentEvidence::StartShared(wrong) => put_shared(out, alloc, wrong),
        SegmentEvidence::StartReserved(wrong) => put_reserved(out, alloc, wrong),
        SegmentEvidence::StartStray(frame) => put_start_stray(out, alloc, *frame),
        SegmentEvidence::StartBeyond(wrong) => put_start_beyond(out, alloc, wrong),
        SegmentEvidence::StartDiffers(wrong) => put_start_differs(out, alloc, wrong),
        SegmentEvidence::Stale(touch) => put_stale(out, alloc, touch),
        SegmentEvidence::Reachable(wrong) => put_why(out, alloc, wrong.call, wrong.why),
    }
}

/// How an address looked at a moment.
#[tactic(auto, unfolding(crate::specs::ChainEvidence::moment_line))]
fn moment_line(alloc: Global, moment: Moment) -> Result<String, AllocError>
    ensures { IfOk result (λ text. string_bytes text ≡ moment_line moment) }
{
    let entries = moment.entries;
    let look = answer_text(alloc, moment.look)?;
    format!(in alloc; "after {entries}: {look}\n")
}

/// Adds how an address looked at some moments.
fn push_moments(alloc: Global, text: &mut String, moments: &[Moment]) -> Result<(), AllocError>
    ensures { OnOk result (string_bytes text.new
        ≡ string_bytes text.old ++ flat_map moment_line moments.now) }
{
    for moment in moments {
        let line = moment_line(alloc, *moment)?;
        text.push_str(line.as_str())?;
    }
    Ok(())
}

fn moment_value(alloc: Global, moment: Moment) -> Result<Value, AllocError>
    ensures { IfOk result (λ value. view value ≡ moment_data moment) }
{
    let mut members = Map::new(alloc);
    put(&mut members, alloc, "entries", Value::from(moment.entries))?;
    let look = answer_text(alloc, moment.look)?;
    put(&mut members, alloc, "look", Value::String(look))?;
    Ok(Value::Object(members))
}

fn moment_values(alloc: Global, moments: &[Moment]) -> Result<Vec<Value>, AllocError>
    ensures { IfOk result (λ values. map view values.items ≡ map moment_data moments.now) }
{
    let mut values = Vec::new(alloc);
    for moment in moments {
        let value = moment_value(alloc, *moment)?;
        values.push(value)?;
    }
    Ok(values)
}

/// Adds the moments of a touch.
#[tactic(auto, unfolding(crate::specs::ChainEvidence::looks_of))]
fn push_looks(alloc: Global, text: &mut String, shown: &SegmentEvidence) -> Result<(), AllocError>
    ensures { OnOk result (string_bytes text.new
        ≡ string_bytes text.old ++ flat_map moment_line (looks_of shown.now)) }
{
    match shown {
        SegmentEvidence::Stale(touch) => push_moments(alloc, text, touch.looks.as_slice()),
        _ => Ok(()),
    }
}

/// Puts the moments of a touch.
#[tactic(auto, unfolding(crate::specs::ChainEvidence::with_looks))]
fn put_looks(
    members: &mut Members,
    alloc: Global,
    shown: &SegmentEvidence,
) -> Result<(), AllocError>
    ensures { OnOk result (members_view members.new.entries
        ≡ with_looks shown.now (members_view members.old.entries)) }
{
    match shown {
        SegmentEvidence::Stale(touch) => {
            let looks = moment_values(alloc, touch.looks.as_slice())?;
            put(members, alloc, "looks", Value::Array(looks))
        }
        _ => Ok(()),
    }
}

/// The lines of the evidence of a fault.
#[tactic(auto, unfolding(crate::specs::Parts::put_all))]
pub(crate) fn segment_evidence_text(
    alloc: Global,
    shown: &SegmentEvidence,
) -> Result<String, AllocError>
    ensures { IfOk result (λ text. string_bytes text ≡ segment_evidence_text shown.now) }
{
    let mut text = String::new(alloc);
    put_segment(&mut text, alloc, shown)?;
    push_earlier(alloc, &mut text, shown)?;
    push_looks(alloc, &mut text, shown)?;
    put_missed(&mut text, alloc, shown)?;
    Ok(text)
}

/// The evidence of a fault as JSON.
#[tactic(auto, unfolding(crate::specs::Parts::put_all))]
pub(crate) fn segment_evidence_value(
    alloc: Global,
    shown: &SegmentEvidence,
) -> Result<Value, AllocError>
    ensures { IfOk result (λ value. view value ≡ segment_evidence_data shown.now) }
{
    let mut members = Map::new(alloc);
    put_segment(&mut members, alloc, shown)?;
    put_looks(&mut members, alloc, shown)?;
    put_earlier(&mut members, alloc, shown)?;
    put_missed(&mut members, alloc, shown)?;
    Ok(Value::Object(members))
}
