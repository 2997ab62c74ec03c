//! The sentence of a fault: what is wrong, with the numbers that show it.

ghost use Rattle.std.specs.Prelude.{◌≡◌, ◌==◌, IfOk, Some, if◌then◌else◌, string_bytes};
ghost use Rattle.vs_text.specs.Words.{hexadecimal};
ghost use Rattle.audit_texts.specs.Sentence.{bad_unit_sentence, cut_text, difference_sentence, early_sentence, entries_text, event_text};
ghost use Rattle.audit_texts.specs.Sentence.{frame_text, leads_text, long_prefix_sentence, misplaced_sentence, missing_sentence};
ghost use Rattle.audit_texts.specs.Sentence.{no_update_sentence, noun, open_sentence, other_answer_sentence, past_end_sentence};
ghost use Rattle.audit_texts.specs.Sentence.{reason_text, reserved_sentence, seen_text, sentence_text, shared_sentence, short_prefix_sentence};
ghost use Rattle.audit_texts.specs.Sentence.{stands_text, start_text, stray_reply_sentence, stray_sentence, stray_text, there_text};
ghost use Rattle.audit_texts.specs.Sentence.{two_places_sentence, two_replies_sentence, unlogged_call_text, unlogged_text, updates_text, version_text};

use crate::lines::field_text::since_text;
use crate::owner::{of_owner, owner_text};
use crate::wording::answer::answer_text;
use crate::wording::text::walk_words;
use crate::wording::units::{bytes_text, unit_text};
use nr_explain::{
    BadField, BadUnit, Difference, EarlyCall, Evidence, LongPrefix, Misplaced, MissingTable,
    NoUpdate, OpenCalls, OtherAnswer, Owner, PastEnd, ReservedEntry, SharedTable, ShortPrefix,
    StrayReply, StrayTable, TableEntry, TwoPlaces, TwoReplies,
};
use nr_trace::{Asked, Event, Format};
use std::alloc::{AllocError, Global};
use vs_text::request_text;
use vs_types::Query;

/// The word for one of them, or for none or more.
fn noun(number: u32, one: &'static str, more: &'static str) -> &'static str
    ensures { result.now ≡ noun number one.entry.now more.entry.now }
{
    if number == 1 { one } else { more }
}

fn entries_text(alloc: Global, number: u32) -> Result<String, AllocError>
    ensures { IfOk result (λ text. string_bytes text ≡ entries_text number) }
{
    let entries = noun(number, "entry", "entries");
    format!(in alloc; "{number} {entries}")
}

fn updates_text(alloc: Global, number: u32) -> Result<String, AllocError>
    ensures { IfOk result (λ text. string_bytes text ≡ updates_text number) }
{
    let updates = noun(number, "update", "updates");
    format!(in alloc; "{number} {updates}")
}

/// The unit in which bytes end.
fn cut_text(alloc: Global, bad: &BadUnit) -> Result<String, AllocError>
    ensures { IfOk result (λ text. string_bytes text ≡ cut_text bad.now) }
{
    let unit = unit_text(alloc, bad.unit)?;
    let size = bad.unit.size();
    let there = bad.read.len();
    format!(in alloc; "they end in {unit}, of whose {size} bytes there are {there}")
}

/// Which version there is not.
fn version_text(alloc: Global, bad: &BadUnit) -> Result<String, AllocError>
    ensures { IfOk result (λ text. string_bytes text ≡ version_text bad.now) }
{
    let read = bytes_text(alloc, &bad.read)?;
    format!(in alloc; "their version is 0x{read}, and not 1 or 2")
}

/// Which event is none, and which of its fields is wrong.
fn event_text(alloc: Global, index: u32, found: Option<BadField>) -> Result<String, AllocError>
    ensures { IfOk result (λ text. string_bytes text ≡ event_text index found) }
{
    let since = since_text(alloc, found)?;
    format!(in alloc; "event {index} is no call and no reply{since}")
}

/// Which frame of a dump has a wrong number.
fn frame_text(alloc: Global, replica: u8, index: u32) -> Result<String, AllocError>
    ensures { IfOk result (λ text. string_bytes text ≡ frame_text replica index) }
{
    format!(in alloc;
        "frame {index} of dump {replica} has a number that is not above the one before it, or too great"
    )
}

/// Which frame of a start has a wrong number.
fn start_text(alloc: Global, index: u32) -> Result<String, AllocError>
    ensures { IfOk result (λ text. string_bytes text ≡ start_text index) }
{
    format!(in alloc;
        "frame {index} of the start has a number that is not above the one before it, or too great"
    )
}

/// Why bytes with this fault, which the unit shows, are no trace. Allocates memory for the text.
///
/// # Errors
///
/// Out of memory.
#[tactic(auto, unfolding(crate::specs::Sentence::reason_text))]
pub fn reason_text(alloc: Global, bad: &BadUnit, fault: Format) -> Result<String, AllocError>
    ensures { IfOk result (λ text. string_bytes text ≡ reason_text bad.now fault) }
{
    match fault {
        Format::Truncated => cut_text(alloc, bad),
        Format::BadMagic => String::from_str(alloc, "they don't begin with NRVT"),
        Format::BadVersion => version_text(alloc, bad),
        Format::BadCount => {
            let unit = unit_text(alloc, bad.unit)?;
            format!(in alloc; "a number in {unit} is out of range")
        }
        Format::BadChain => {
            String::from_str(alloc, "they are not laid out as the segment before them")
        }
        Format::BadStart(index) => start_text(alloc, index),
        Format::BadEvent(index) => event_text(alloc, index, bad.field),
        Format::BadFrame(replica, index) => frame_text(alloc, replica, index),
        Format::Trailing => String::from_str(alloc, "more bytes follow the last unit"),
    }
}

fn bad_unit_sentence(alloc: Global, bad: &BadUnit) -> Result<String, AllocError>
    ensures { IfOk result (λ text. string_bytes text ≡ bad_unit_sentence bad.now) }
{
    let reason = reason_text(alloc, bad, bad.fault)?;
    format!(in alloc; "These bytes are no trace: {reason}.")
}

fn open_sentence(alloc: Global, calls: OpenCalls) -> Result<String, AllocError>
    ensures { IfOk result (λ text. string_bytes text ≡ open_sentence calls) }
{
    let thread = calls.second.thread;
    let second = calls.second.event;
    let first = calls.first.event;
    format!(in alloc;
        "Thread {thread} makes call {second} while its call {first} has no reply yet."
    )
}

/// What an event is that is no earlier call.
#[tactic(auto, unfolding(crate::specs::Sentence::stray_text))]
fn stray_text(named: Option<Event>) -> &'static str
    ensures { result.now ≡ stray_text named }
{
    match named {
        None => "there is no such event",
        Some(Event::Call { asked, .. }) => match asked {
            Asked::Request(_) => "that call is made later",
            Asked::Touch(_, _, _) => "that touch is made later",
            Asked::Release(_, _) => "that release is made later",
        },
        Some(Event::Reply { .. }) => "that event is a reply",
    }
}

fn stray_reply_sentence(alloc: Global, stray: StrayReply) -> Result<String, AllocError>
    ensures { IfOk result (λ text. string_bytes text ≡ stray_reply_sentence stray) }
{
    let event = stray.reply.event;
    let call = stray.reply.call;
    let named = stray_text(stray.named);
    format!(in alloc; "Event {event} replies to call {call}, which is no call before it: {named}.")
}

fn two_replies_sentence(alloc: Global, replies: TwoReplies) -> Result<String, AllocError>
    ensures { IfOk result (λ text. string_bytes text ≡ two_replies_sentence replies) }
{
    let second = replies.second.event;
    let call = replies.call.event;
    let first = replies.first.event;
    format!(in alloc; "Event {second} answers call {call} again: event {first} had answered it.")
}

/// What a call is that is no update.
#[tactic(auto, unfolding(crate::specs::Sentence::unlogged_call_text))]
fn unlogged_call(alloc: Global, asked: Asked) -> Result<String, AllocError>
    ensures { IfOk result (λ text. string_bytes text ≡ unlogged_call_text asked) }
{
    match asked {
        Asked::Request(request) => {
            let asked = request_text(alloc, request)?;
            format!(in alloc; "that call only reads, {asked}")
        }
        Asked::Touch(_, _, _) => String::from_str(alloc, "that event is a touch"),
        Asked::Release(_, _) => String::from_str(alloc, "that event is a release"),
    }
}

/// What a call or a reply is that is no update.
#[tactic(auto, unfolding(crate::specs::Sentence::unlogged_text))]
fn unlogged_event(alloc: Global, event: Event) -> Result<String, AllocError>
    ensures { IfOk result (λ text. string_bytes text ≡ unlogged_text (Some event)) }
{
    match event {
        Event::Call { asked, .. } => unlogged_call(alloc, asked),
        Event::Reply { .. } => String::from_str(alloc, "that event is a reply"),
    }
}

/// What an event is that is no update.
#[tactic(auto, unfolding(crate::specs::Sentence::unlogged_text))]
fn unlogged_text(alloc: Global, named: Option<Event>) -> Result<String, AllocError>
    ensures { IfOk result (λ text. string_bytes text ≡ unlogged_text named) }
{
    match named {
        None => String::from_str(alloc, "there is no such event"),
        Some(event) => unlogged_event(alloc, event),
    }
}

fn no_update_sentence(alloc: Global, wrong: NoUpdate) -> Result<String, AllocError>
    ensures { IfOk result (λ text. string_bytes text ≡ no_update_sentence wrong) }
{
    let place = wrong.place;
    let call = wrong.call;
    let named = unlogged_text(alloc, wrong.named)?;
    format!(in alloc;
        "Place {place} of the log has the number {call}, which is no update: {named}."
    )
}

fn two_places_sentence(alloc: Global, places: TwoPlaces) -> Result<String, AllocError>
    ensures { IfOk result (λ text. string_bytes text ≡ two_places_sentence places) }
{
    let call = places.call.event;
    let first = places.first;
    let second = places.second;
    format!(in alloc;
        "Call {call} is in the log twice: at place {first}, and again at place {second}."
    )
}

/// What the log has at a place.
#[tactic(auto, unfolding(crate::specs::Sentence::there_text))]
fn there_text(alloc: Global, there: Option<u32>) -> Result<String, AllocError>
    ensures { IfOk result (λ text. string_bytes text ≡ there_text there) }
{
    match there {
        None => String::from_str(alloc, "no such place"),
        Some(call) => format!(in alloc; "call {call} there"),
    }
}

fn misplaced_sentence(alloc: Global, wrong: Misplaced) -> Result<String, AllocError>
    ensures { IfOk result (λ text. string_bytes text ≡ misplaced_sentence wrong) }
{
    let event = wrong.reply.event;
    let call = wrong.call.event;
    let at = wrong.reply.at;
    let there = there_text(alloc, wrong.there)?;
    format!(in alloc;
        "Event {event} says that call {call} is at place {at} of the log, but the log has {there}."
    )
}

fn past_end_sentence(alloc: Global, wrong: PastEnd) -> Result<String, AllocError>
    ensures { IfOk result (λ text. string_bytes text ≡ past_end_sentence wrong) }
{
    let event = wrong.reply.event;
    let call = wrong.call.event;
    let seen = entries_text(alloc, wrong.reply.at)?;
    let places = wrong.places;
    format!(in alloc;
        "Event {event} says that call {call} saw {seen} of the log, which has {places}."
    )
}

/// From how many entries of the log a call was answered.
fn seen_text(alloc: Global, entries: u32) -> Result<String, AllocError>
    ensures { IfOk result (λ text. string_bytes text ≡ seen_text entries) }
{
    let seen = entries_text(alloc, entries)?;
    format!(in alloc; "was answered from {seen}")
}

/// After how many entries of the log a call is.
#[tactic(auto, unfolding(crate::specs::Sentence::stands_text))]
fn stands_text(alloc: Global, asked: Asked, entries: u32) -> Result<String, AllocError>
    ensures { IfOk result (λ text. string_bytes text ≡ stands_text asked entries) }
{
    match asked {
        Asked::Request(request) => match request.query() {
            Query::Update(_) => format!(in alloc; "is at place {entries}"),
            Query::Resolve(_) | Query::Access(_, _, _) => seen_text(alloc, entries),
        },
        Asked::Touch(_, _, _) | Asked::Release(_, _) => seen_text(alloc, entries),
    }
}

fn early_sentence(alloc: Global, early: EarlyCall) -> Result<String, AllocError>
    ensures { IfOk result (λ text. string_bytes text ≡ early_sentence early) }
{
    let call = early.call.event;
    let stands = stands_text(alloc, early.call.asked, early.entries)?;
    let floor = early.floor;
    format!(in alloc;
        "Call {call} {stands} of the log, but before it was made a reply had shown {floor}."
    )
}

/// The sentence of a wrong answer. Allocates the text.
///
/// # Errors
///
/// Out of memory.
pub fn other_answer_sentence(alloc: Global, wrong: OtherAnswer) -> Result<String, AllocError>
    ensures { IfOk result (λ text. string_bytes text ≡ other_answer_sentence wrong) }
{
    let call = wrong.call.event;
    let told = answer_text(alloc, wrong.reply.answer)?;
    let before = updates_text(alloc, wrong.reply.at)?;
    let wanted = answer_text(alloc, wrong.wanted)?;
    format!(in alloc;
        "Call {call} was answered `{told}`, but after the {before} before it the address space answers `{wanted}`."
    )
}

fn long_prefix_sentence(alloc: Global, wrong: LongPrefix) -> Result<String, AllocError>
    ensures { IfOk result (λ text. string_bytes text ≡ long_prefix_sentence wrong) }
{
    let replica = wrong.replica;
    let applied = entries_text(alloc, wrong.applied)?;
    let places = wrong.places;
    format!(in alloc;
        "The dump of replica {replica} says that it has applied {applied}, but the log has {places}."
    )
}

fn short_prefix_sentence(alloc: Global, wrong: ShortPrefix) -> Result<String, AllocError>
    ensures { IfOk result (λ text. string_bytes text ≡ short_prefix_sentence wrong) }
{
    let replica = wrong.replica;
    let applied = entries_text(alloc, wrong.applied)?;
    let known = wrong.known;
    format!(in alloc;
        "The dump of replica {replica} has applied {applied}, but a reply given there shows {known}."
    )
}

/// What leads to a frame, by the entries on the way from the root.
#[tactic(auto, unfolding(crate::specs::Sentence::leads_text))]
fn leads_text(alloc: Global, way: &[TableEntry], owner: Owner) -> Result<String, AllocError>
    ensures { IfOk result (λ text. string_bytes text ≡ leads_text way.now owner) }
{
    let owner = owner_text(alloc, owner)?;
    if way.is_empty() {
        return format!(in alloc; "The root of {owner} is");
    }
    format!(in alloc; "An entry of the tables of {owner} leads to")
}

pub(crate) fn missing_sentence(alloc: Global, wrong: &MissingTable) -> Result<String, AllocError>
    ensures { IfOk result (λ text. string_bytes text ≡ missing_sentence wrong.now) }
{
    let leads = leads_text(alloc, wrong.path.as_slice(), wrong.owner)?;
    let frame = address_text(alloc, wrong.frame)?;
    let lacks = of_owner(wrong.owner, "the dump", "the start");
    format!(in alloc; "{leads} frame {frame}, which {lacks} doesn't have.")
}

pub(crate) fn shared_sentence(alloc: Global, wrong: &SharedTable) -> Result<String, AllocError>
    ensures { IfOk result (λ text. string_bytes text ≡ shared_sentence wrong.now) }
{
    let owner = owner_text(alloc, wrong.owner)?;
    let frame = address_text(alloc, wrong.frame)?;
    format!(in alloc;
        "The tables of {owner} reach frame {frame} twice: a change on one way is seen on the other."
    )
}

pub(crate) fn reserved_sentence(alloc: Global, wrong: &ReservedEntry) -> Result<String, AllocError>
    ensures { IfOk result (λ text. string_bytes text ≡ reserved_sentence wrong.now) }
{
    let owner = owner_text(alloc, wrong.owner)?;
    let index = wrong.entry.index;
    let frame = address_text(alloc, wrong.entry.frame)?;
    let bit = wrong.bit;
    format!(in alloc;
        "Entry {index} of frame {frame} of {owner} has the reserved bit {bit} set: a processor faults there."
    )
}

fn stray_sentence(alloc: Global, wrong: StrayTable) -> Result<String, AllocError>
    ensures { IfOk result (λ text. string_bytes text ≡ stray_sentence wrong) }
{
    let replica = wrong.replica;
    let frame = wrong.frame;
    format!(in alloc;
        "The dump of replica {replica} holds frame 0x{frame:x} as a table, and no table leads to it."
    )
}

/// The number as an address is written.
fn address_text(alloc: Global, address: u64) -> Result<String, AllocError>
    ensures { IfOk result (λ text. string_bytes text ≡ hexadecimal address) }
{
    format!(in alloc; "0x{address:x}")
}

/// The sentence of a dump that translates otherwise than the space. Allocates the text.
///
/// # Errors
///
/// Out of memory.
pub fn difference_sentence(alloc: Global, wrong: &Difference) -> Result<String, AllocError>
    ensures { IfOk result (λ text. string_bytes text ≡ difference_sentence wrong.now) }
{
    let at = address_text(alloc, wrong.address)?;
    let replica = wrong.replica;
    let found = walk_words(alloc, wrong.found)?;
    let applied = updates_text(alloc, wrong.applied)?;
    let wanted = answer_text(alloc, wrong.wanted)?;
    format!(in alloc;
        "At {at} the tables of replica {replica} say `{found}`, but after {applied} the address space says `{wanted}`."
    )
}

/// The sentence of a fault, by what shows it. Allocates the text.
///
/// # Errors
///
/// Out of memory.
#[tactic(auto, unfolding(crate::specs::Sentence::sentence_text))]
pub fn sentence_text(alloc: Global, shown: &Evidence) -> Result<String, AllocError>
    ensures { IfOk result (λ text. string_bytes text ≡ sentence_text shown.now) }
{
    match shown {
        Evidence::Format(bad) => bad_unit_sentence(alloc, bad),
        Evidence::ThreadOpen(calls) => open_sentence(alloc, *calls),
        Evidence::NoSuchCall(stray) => stray_reply_sentence(alloc, *stray),
        Evidence::AnsweredTwice(replies) => two_replies_sentence(alloc, *replies),
        Evidence::NotAnUpdate(wrong) => no_update_sentence(alloc, *wrong),
        Evidence::PlacedTwice(places) => two_places_sentence(alloc, *places),
        Evidence::NotPlaced(wrong) => misplaced_sentence(alloc, *wrong),
        Evidence::PastLog(wrong) => past_end_sentence(alloc, *wrong),
        Evidence::Early(early) => early_sentence(alloc, *early),
        Evidence::WrongAnswer(wrong) => other_answer_sentence(alloc, *wrong),
        Evidence::PrefixPastLog(wrong) => long_prefix_sentence(alloc, *wrong),
        Evidence::PrefixShort(wrong) => short_prefix_sentence(alloc, *wrong),
        Evidence::MissingFrame(wrong) => missing_sentence(alloc, wrong),
        Evidence::SharedFrame(wrong) => shared_sentence(alloc, wrong),
        Evidence::ReservedBit(wrong) => reserved_sentence(alloc, wrong),
        Evidence::StrayFrame(wrong) => stray_sentence(alloc, *wrong),
        Evidence::Differs(wrong) => difference_sentence(alloc, wrong),
    }
}
