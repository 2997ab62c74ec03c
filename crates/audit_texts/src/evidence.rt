//! What shows each fault, and how much a right trace has.

ghost use Rattle.std.specs.Prelude.{◌≡◌, IfOk, OnOk, map, string_bytes};
ghost use Rattle.serde_json.specs.View.{view};
ghost use Rattle.audit_texts.specs.Evidence.{owner_parts};
ghost use Rattle.audit_texts.specs.Evidence.{bad_unit_parts, changed_parts, counts_data, counts_lines, counts_parts, difference_parts};
ghost use Rattle.audit_texts.specs.Evidence.{early_parts, evidence_data, evidence_parts, evidence_text, long_prefix_parts};
ghost use Rattle.audit_texts.specs.Evidence.{misplaced_parts, missing_parts, no_update_parts, open_parts, other_answer_parts};
ghost use Rattle.audit_texts.specs.Evidence.{past_end_parts, replica_parts, reserved_parts, shared_parts, short_prefix_parts, stray_parts};
ghost use Rattle.audit_texts.specs.Evidence.{stray_reply_parts, two_places_parts, two_replies_parts};
ghost use Rattle.audit_texts.specs.Parts.{part_of, put_all};

use crate::json::part_json::parts_value;
use crate::lines::output::Output;
use crate::lines::part_text::parts_text;
use crate::lines::parts::{Part, Says};
use crate::nearby::put_nearby;
use crate::owner::of_owner;
use crate::shared::{
    put_answer, put_missing_frame, put_read, put_reserved_entry, put_shared_frame, put_stray_frame,
    put_unlike,
};
use nr_explain::{
    BadUnit, Counts, Difference, EarlyCall, Evidence, LongPrefix, Misplaced, MissingTable,
    NoUpdate, OpenCalls, OtherAnswer, Owner, PastEnd, PlacedUpdate, ReservedEntry, SharedTable,
    ShortPrefix, StrayReply, StrayTable, TwoPlaces, TwoReplies,
};
use serde_json::{Map, Value};
use std::alloc::{AllocError, Global};

/// Puts the replica of a dump.
#[tactic(auto, unfolding(crate::specs::Evidence::replica_parts))]
fn put_replica<O: Output>(out: &mut O, alloc: Global, replica: u8) -> Result<(), AllocError>
    ensures { OnOk result (O.held out.new ≡ put_all (replica_parts replica) (O.held out.old)) }
{
    let parts = [Part::InJson("replica", Says::Count(u64::from(replica)))];
    out.put_all(alloc, &parts)
}

/// Puts whose tables they are.
#[tactic(auto, unfolding(crate::specs::Evidence::owner_parts, crate::specs::Parts::put_all))]
fn put_owner<O: Output>(out: &mut O, alloc: Global, owner: Owner) -> Result<(), AllocError>
    ensures { OnOk result (O.held out.new ≡ put_all (owner_parts owner) (O.held out.old)) }
{
    match owner {
        Owner::Dump(replica) => put_replica(out, alloc, replica),
        Owner::Start => out.put_all(alloc, &[]),
    }
}

/// Puts the last change of an address, behind the address.
#[tactic(auto, unfolding(crate::specs::Evidence::changed_parts))]
fn put_changed<O: Output>(
    out: &mut O,
    alloc: Global,
    changed: Option<PlacedUpdate>,
) -> Result<(), AllocError>
    ensures { OnOk result (O.held out.new ≡ put_all (changed_parts changed) (O.held out.old)) }
{
    let parts = [
        Part::Words(", "),
        Part::InBoth("changed", Says::Changed(changed)),
    ];
    out.put_all(alloc, &parts)
}

#[tactic(auto, unfolding(crate::specs::Evidence::bad_unit_parts))]
fn put_bad_unit<O: Output>(out: &mut O, alloc: Global, bad: &BadUnit) -> Result<(), AllocError>
    ensures { OnOk result (O.held out.new ≡ put_all (bad_unit_parts bad.now) (O.held out.old)) }
{
    let begin = [
        Part::InJson("fault", Says::Text("Format")),
        Part::InBoth("unit", Says::Unit(bad.unit)),
    ];
    out.put_all(alloc, &begin)?;
    put_read(out, alloc, bad.offset, bad.read.as_slice(), bad.unit.size())?;
    out.put_all(alloc, &[Part::InBoth("format", Says::Allowed(bad.fault))])
}

#[tactic(auto, unfolding(crate::specs::Evidence::open_parts))]
fn put_open<O: Output>(out: &mut O, alloc: Global, calls: OpenCalls) -> Result<(), AllocError>
    ensures { OnOk result (O.held out.new ≡ put_all (open_parts calls) (O.held out.old)) }
{
    let parts = [
        Part::InJson("fault", Says::Text("ThreadOpen")),
        Part::InBoth("first", Says::Call(calls.first)),
        Part::InBoth("second", Says::Call(calls.second)),
    ];
    out.put_all(alloc, &parts)
}

#[tactic(auto, unfolding(crate::specs::Evidence::stray_reply_parts))]
fn put_stray_reply<O: Output>(
    out: &mut O,
    alloc: Global,
    stray: StrayReply,
) -> Result<(), AllocError>
    ensures { OnOk result (O.held out.new ≡ put_all (stray_reply_parts stray) (O.held out.old)) }
{
    let parts = [
        Part::InJson("fault", Says::Text("NoSuchCall")),
        Part::InBoth("reply", Says::Reply(stray.reply)),
        Part::InBoth("named", Says::Event(stray.reply.call, stray.named)),
    ];
    out.put_all(alloc, &parts)
}

#[tactic(auto, unfolding(crate::specs::Evidence::two_replies_parts))]
fn put_two_replies<O: Output>(
    out: &mut O,
    alloc: Global,
    replies: TwoReplies,
) -> Result<(), AllocError>
    ensures { OnOk result (O.held out.new ≡ put_all (two_replies_parts replies) (O.held out.old)) }
{
    let parts = [
        Part::InJson("fault", Says::Text("AnsweredTwice")),
        Part::InBoth("call", Says::Call(replies.call)),
        Part::InBoth("first", Says::Reply(replies.first)),
        Part::InBoth("second", Says::Reply(replies.second)),
    ];
    out.put_all(alloc, &parts)
}

#[tactic(auto, unfolding(crate::specs::Evidence::no_update_parts))]
fn put_no_update<O: Output>(out: &mut O, alloc: Global, wrong: NoUpdate) -> Result<(), AllocError>
    ensures { OnOk result (O.held out.new ≡ put_all (no_update_parts wrong) (O.held out.old)) }
{
    let parts = [
        Part::InJson("fault", Says::Text("NotAnUpdate")),
        Part::Words("place "),
        Part::InBoth("place", Says::Count(u64::from(wrong.place))),
        Part::Words(" has "),
        Part::InBoth("call", Says::Count(u64::from(wrong.call))),
        Part::Words("\n"),
        Part::InBoth("named", Says::Event(wrong.call, wrong.named)),
    ];
    out.put_all(alloc, &parts)
}

#[tactic(auto, unfolding(crate::specs::Evidence::two_places_parts))]
fn put_two_places<O: Output>(
    out: &mut O,
    alloc: Global,
    places: TwoPlaces,
) -> Result<(), AllocError>
    ensures { OnOk result (O.held out.new ≡ put_all (two_places_parts places) (O.held out.old)) }
{
    let parts = [
        Part::InJson("fault", Says::Text("PlacedTwice")),
        Part::Words("places "),
        Part::InBoth("first", Says::Count(u64::from(places.first))),
        Part::Words(" and "),
        Part::InBoth("second", Says::Count(u64::from(places.second))),
        Part::Words("\n"),
        Part::InBoth("call", Says::Call(places.call)),
    ];
    out.put_all(alloc, &parts)
}

#[tactic(auto, unfolding(crate::specs::Evidence::misplaced_parts))]
fn put_misplaced<O: Output>(out: &mut O, alloc: Global, wrong: Misplaced) -> Result<(), AllocError>
    ensures { OnOk result (O.held out.new ≡ put_all (misplaced_parts wrong) (O.held out.old)) }
{
    let parts = [
        Part::InJson("fault", Says::Text("NotPlaced")),
        Part::InBoth("call", Says::Call(wrong.call)),
        Part::InBoth("reply", Says::Reply(wrong.reply)),
        Part::Words("its place: "),
        Part::InBoth("own", Says::Place(wrong.own)),
        Part::Words("\nthe call there: "),
        Part::InBoth("there", Says::Place(wrong.there)),
        Part::Words("\n"),
    ];
    out.put_all(alloc, &parts)
}

#[tactic(auto, unfolding(crate::specs::Evidence::past_end_parts))]
fn put_past_end<O: Output>(out: &mut O, alloc: Global, wrong: PastEnd) -> Result<(), AllocError>
    ensures { OnOk result (O.held out.new ≡ put_all (past_end_parts wrong) (O.held out.old)) }
{
    let parts = [
        Part::InJson("fault", Says::Text("PastLog")),
        Part::InBoth("call", Says::Call(wrong.call)),
        Part::InBoth("reply", Says::Reply(wrong.reply)),
        Part::Words("entries of the log: "),
        Part::InBoth("places", Says::Count(u64::from(wrong.places))),
        Part::Words("\n"),
    ];
    out.put_all(alloc, &parts)
}

#[tactic(auto, unfolding(crate::specs::Evidence::early_parts))]
fn put_early<O: Output>(out: &mut O, alloc: Global, early: EarlyCall) -> Result<(), AllocError>
    ensures { OnOk result (O.held out.new ≡ put_all (early_parts early) (O.held out.old)) }
{
    let parts = [
        Part::InJson("fault", Says::Text("Early")),
        Part::InBoth("call", Says::Call(early.call)),
        Part::InBoth("own", Says::Own(early.own)),
        Part::Words("entries before it: "),
        Part::InBoth("entries", Says::Count(u64::from(early.entries))),
        Part::Words("\nknown when it was made: "),
        Part::InBoth("floor", Says::Count(early.floor)),
        Part::Words("\n"),
        Part::InBoth("reply", Says::Reply(early.reply)),
        Part::InBoth("answered", Says::Call(early.answered)),
    ];
    out.put_all(alloc, &parts)
}

#[tactic(auto, unfolding(crate::specs::Evidence::other_answer_parts))]
fn put_other_answer<O: Output>(
    out: &mut O,
    alloc: Global,
    wrong: OtherAnswer,
) -> Result<(), AllocError>
    ensures { OnOk result (O.held out.new ≡ put_all (other_answer_parts wrong) (O.held out.old)) }
{
    let changed = wrong.changed;
    let right = wrong.right;
    let memory = wrong.memory;
    put_answer(out, alloc, wrong)?;
    put_changed(out, alloc, changed)?;
    put_nearby(out, alloc, right, memory)
}

#[tactic(auto, unfolding(crate::specs::Evidence::long_prefix_parts))]
fn put_long_prefix<O: Output>(
    out: &mut O,
    alloc: Global,
    wrong: LongPrefix,
) -> Result<(), AllocError>
    ensures { OnOk result (O.held out.new ≡ put_all (long_prefix_parts wrong) (O.held out.old)) }
{
    let parts = [
        Part::InJson("fault", Says::Text("PrefixPastLog")),
        Part::Words("applied: "),
        Part::InBoth("applied", Says::Count(u64::from(wrong.applied))),
        Part::Words("\nentries of the log: "),
        Part::InBoth("places", Says::Count(u64::from(wrong.places))),
        Part::Words("\n"),
        Part::InJson("replica", Says::Count(u64::from(wrong.replica))),
    ];
    out.put_all(alloc, &parts)
}

#[tactic(auto, unfolding(crate::specs::Evidence::short_prefix_parts))]
fn put_short_prefix<O: Output>(
    out: &mut O,
    alloc: Global,
    wrong: ShortPrefix,
) -> Result<(), AllocError>
    ensures { OnOk result (O.held out.new ≡ put_all (short_prefix_parts wrong) (O.held out.old)) }
{
    let parts = [
        Part::InJson("fault", Says::Text("PrefixShort")),
        Part::Words("applied: "),
        Part::InBoth("applied", Says::Count(u64::from(wrong.applied))),
        Part::Words("\nknown there: "),
        Part::InBoth("known", Says::Count(wrong.known)),
        Part::Words("\n"),
        Part::InBoth("reply", Says::Reply(wrong.reply)),
        Part::InBoth("call", Says::Call(wrong.call)),
        Part::InJson("replica", Says::Count(u64::from(wrong.replica))),
    ];
    out.put_all(alloc, &parts)
}

#[tactic(auto, unfolding(crate::specs::Evidence::missing_parts))]
pub(crate) fn put_missing<O: Output>(
    out: &mut O,
    alloc: Global,
    wrong: &MissingTable,
) -> Result<(), AllocError>
    ensures { OnOk result (O.held out.new ≡ put_all (missing_parts wrong.now) (O.held out.old)) }
{
    let owner = wrong.owner;
    let fault = of_owner(owner, "MissingFrame", "StartMissing");
    let end = of_owner(
        owner,
        ", which the dump doesn't have\n",
        ", which the start doesn't have\n",
    );
    put_missing_frame(out, alloc, fault, wrong.path.as_slice(), wrong.frame, end)?;
    put_owner(out, alloc, owner)
}

#[tactic(auto, unfolding(crate::specs::Evidence::shared_parts))]
pub(crate) fn put_shared<O: Output>(
    out: &mut O,
    alloc: Global,
    wrong: &SharedTable,
) -> Result<(), AllocError>
    ensures { OnOk result (O.held out.new ≡ put_all (shared_parts wrong.now) (O.held out.old)) }
{
    let fault = of_owner(wrong.owner, "SharedFrame", "StartShared");
    let (first, second) = (wrong.first.as_slice(), wrong.second.as_slice());
    put_shared_frame(out, alloc, fault, first, second, wrong.frame)?;
    put_owner(out, alloc, wrong.owner)
}

#[tactic(auto, unfolding(crate::specs::Evidence::reserved_parts))]
pub(crate) fn put_reserved<O: Output>(
    out: &mut O,
    alloc: Global,
    wrong: &ReservedEntry,
) -> Result<(), AllocError>
    ensures { OnOk result (O.held out.new ≡ put_all (reserved_parts wrong.now) (O.held out.old)) }
{
    let fault = of_owner(wrong.owner, "ReservedBit", "StartReserved");
    let path = wrong.path.as_slice();
    put_reserved_entry(out, alloc, fault, path, wrong.entry, wrong.bit)?;
    put_owner(out, alloc, wrong.owner)
}

#[tactic(auto, unfolding(crate::specs::Evidence::stray_parts))]
fn put_stray<O: Output>(out: &mut O, alloc: Global, wrong: StrayTable) -> Result<(), AllocError>
    ensures { OnOk result (O.held out.new ≡ put_all (stray_parts wrong) (O.held out.old)) }
{
    put_stray_frame(out, alloc, "StrayFrame", wrong.frame)?;
    put_replica(out, alloc, wrong.replica)
}

#[tactic(auto, unfolding(crate::specs::Evidence::difference_parts))]
fn put_difference<O: Output>(
    out: &mut O,
    alloc: Global,
    wrong: &Difference,
) -> Result<(), AllocError>
    ensures { OnOk result (O.held out.new ≡ put_all (difference_parts wrong.now) (O.held out.old)) }
{
    put_unlike(out, alloc, wrong)?;
    put_changed(out, alloc, wrong.changed)
}

/// Puts the evidence of a fault, and allocates its text.
///
/// # Errors
///
/// Out of memory. Some of it may have been put.
#[tactic(auto, unfolding(crate::specs::Evidence::evidence_parts))]
pub fn put_evidence<O: Output>(
    out: &mut O,
    alloc: Global,
    shown: &Evidence,
) -> Result<(), AllocError>
    ensures { OnOk result (O.held out.new ≡ put_all (evidence_parts shown.now) (O.held out.old)) }
{
    match shown {
        Evidence::Format(bad) => put_bad_unit(out, alloc, bad),
        Evidence::ThreadOpen(calls) => put_open(out, alloc, *calls),
        Evidence::NoSuchCall(stray) => put_stray_reply(out, alloc, *stray),
        Evidence::AnsweredTwice(replies) => put_two_replies(out, alloc, *replies),
        Evidence::NotAnUpdate(wrong) => put_no_update(out, alloc, *wrong),
        Evidence::PlacedTwice(places) => put_two_places(out, alloc, *places),
        Evidence::NotPlaced(wrong) => put_misplaced(out, alloc, *wrong),
        Evidence::PastLog(wrong) => put_past_end(out, alloc, *wrong),
        Evidence::Early(early) => put_early(out, alloc, *early),
        Evidence::WrongAnswer(wrong) => put_other_answer(out, alloc, *wrong),
        Evidence::PrefixPastLog(wrong) => put_long_prefix(out, alloc, *wrong),
        Evidence::PrefixShort(wrong) => put_short_prefix(out, alloc, *wrong),
        Evidence::MissingFrame(wrong) => put_missing(out, alloc, wrong),
        Evidence::SharedFrame(wrong) => put_shared(out, alloc, wrong),
        Evidence::ReservedBit(wrong) => put_reserved(out, alloc, wrong),
        Evidence::StrayFrame(wrong) => put_stray(out, alloc, *wrong),
        Evidence::Differs(wrong) => put_difference(out, alloc, wrong),
    }
}

/// The lines of the evidence of a fault.
#[tactic(auto, unfolding(crate::specs::Parts::put_all))]
pub(crate) fn evidence_lines(alloc: Global, shown: &Evidence) -> Result<String, AllocError>
    ensures { IfOk result (λ text. string_bytes text ≡ evidence_text shown.now) }
{
    let mut text = String::new(alloc);
    put_evidence(&mut text, alloc, shown)?;
    Ok(text)
}

/// The evidence of a fault as JSON.
#[tactic(auto, unfolding(crate::specs::Parts::put_all))]
pub(crate) fn evidence_value(alloc: Global, shown: &Evidence) -> Result<Value, AllocError>
    ensures { IfOk result (λ value. view value ≡ evidence_data shown.now) }
{
    let mut members = Map::new(alloc);
    put_evidence(&mut members, alloc, shown)?;
    Ok(Value::Object(members))
}

#[tactic(auto, unfolding(crate::specs::Evidence::counts_parts))]
fn counts_parts<'a>(counts: Counts) -> [Part<'a>; 13]
    ensures { map part_of result ≡ counts_parts counts }
{
    [
        Part::Words("calls: "),
        Part::InBoth("calls", Says::Count(counts.calls)),
        Part::Words("\nupdates: "),
        Part::InBoth("updates", Says::Count(counts.updates)),
        Part::Words("\nreads: "),
        Part::InBoth("reads", Says::Count(counts.reads)),
        Part::Words("\nreplicas: "),
        Part::InBoth("replicas", Says::Count(u64::from(counts.replicas))),
        Part::Words("\npages: "),
        Part::InBoth("pages", Says::Count(counts.pages)),
        Part::Words("\noverlapping calls: "),
        Part::InBoth("overlapping", Says::Count(counts.overlapping)),
        Part::Words("\n"),
    ]
}

/// The lines of how much a right trace has.
pub(crate) fn counts_lines(alloc: Global, counts: Counts) -> Result<String, AllocError>
    ensures { IfOk result (λ text. string_bytes text ≡ counts_lines counts) }
{
    parts_text(alloc, &counts_parts(counts))
}

/// How much a right trace has, as JSON.
pub(crate) fn counts_value(alloc: Global, counts: Counts) -> Result<Value, AllocError>
    ensures { IfOk result (λ value. view value ≡ counts_data counts) }
{
    parts_value(alloc, &counts_parts(counts))
}
