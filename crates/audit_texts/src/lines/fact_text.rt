//! The lines of what evidence is made of: calls, replies, entries of tables.

ghost use Rattle.std.specs.Prelude.{◌≡◌, ◌++◌, IfOk, OnOk, Some, decimal, string_bytes};
ghost use Rattle.vs_text.specs.Words.{hexadecimal};
ghost use Rattle.audit_texts.specs.EvidenceText.{asked_text, call_line, changed_line, event_line, format_lines, option_text, own_line};
ghost use Rattle.audit_texts.specs.EvidenceText.{release_text, reply_line, reserved_text, step_line, steps_lines};
ghost use Rattle.audit_texts.specs.EvidenceText.{taken_lines, touch_text, way_lines};

use crate::wording::answer::answer_text;
use nr_explain::{OpenUpdate, PlacedUpdate, RecordedCall, RecordedReply, TableEntry};
use nr_trace::{Asked, Event, Format};
use std::alloc::{AllocError, Global};
use vs_text::{access_text, mode_text, request_text, size_text};
use vs_types::{Access, Answer, Mode, Size};

/// What a touch asks.
fn touch_text(alloc: Global, address: u64, mode: Mode, access: Access) -> Result<String, AllocError>
    ensures { IfOk result (λ text. string_bytes text ≡ touch_text address mode access) }
{
    let mode = mode_text(mode);
    let access = access_text(access);
    format!(in alloc; "touch {mode} {access} 0x{address:x}")
}

/// What a release gives away.
fn release_text(alloc: Global, size: Size, phys: u64) -> Result<String, AllocError>
    ensures { IfOk result (λ text. string_bytes text ≡ release_text size phys) }
{
    let size = size_text(size);
    format!(in alloc; "release {size} 0x{phys:x}")
}

/// What a call asks.
#[tactic(auto, unfolding(crate::specs::EvidenceText::asked_text))]
pub(crate) fn asked_text(alloc: Global, asked: Asked) -> Result<String, AllocError>
    ensures { IfOk result (λ text. string_bytes text ≡ asked_text asked) }
{
    match asked {
        Asked::Request(request) => request_text(alloc, request),
        Asked::Touch(address, mode, access) => touch_text(alloc, address, mode, access),
        Asked::Release(size, phys) => release_text(alloc, size, phys),
    }
}

/// The line of a call.
#[tactic(auto, unfolding(crate::specs::EvidenceText::call_line))]
pub(crate) fn call_line(alloc: Global, call: RecordedCall) -> Result<String, AllocError>
    ensures { IfOk result (λ text. string_bytes text ≡ call_line call) }
{
    let asked = asked_text(alloc, call.asked)?;
    let event = call.event;
    let thread = call.thread;
    let replica = call.replica;
    format!(in alloc; "call {event}, thread {thread}, replica {replica}: {asked}\n")
}

/// The line of a reply.
#[tactic(auto, unfolding(crate::specs::EvidenceText::reply_line))]
pub(crate) fn reply_line(alloc: Global, reply: RecordedReply) -> Result<String, AllocError>
    ensures { IfOk result (λ text. string_bytes text ≡ reply_line reply) }
{
    let told = answer_text(alloc, reply.answer)?;
    let event = reply.event;
    let call = reply.call;
    let at = reply.at;
    format!(in alloc; "reply {event} to call {call}, at {at}: {told}\n")
}

/// The line of the reply to a call.
#[tactic(auto, unfolding(crate::specs::EvidenceText::own_line))]
pub(crate) fn own_line(alloc: Global, own: Option<RecordedReply>) -> Result<String, AllocError>
    ensures { IfOk result (λ text. string_bytes text ≡ own_line own) }
{
    match own {
        None => String::from_str(alloc, "no reply to it\n"),
        Some(reply) => reply_line(alloc, reply),
    }
}

/// The line of an event.
#[tactic(auto, unfolding(crate::specs::EvidenceText::event_line))]
fn one_event_line(alloc: Global, index: u32, event: Event) -> Result<String, AllocError>
    ensures { IfOk result (λ text. string_bytes text ≡ event_line index (Some event)) }
{
    match event {
        Event::Call {
            replica,
            thread,
            asked,
        } => {
            let call = RecordedCall {
                event: index,
                replica,
                thread,
                asked,
            };
            call_line(alloc, call)
        }
        Event::Reply { call, at, answer } => {
            let reply = RecordedReply {
                event: index,
                call,
                at,
                answer,
            };
            reply_line(alloc, reply)
        }
    }
}

/// The line of the event that a number names.
#[tactic(auto, unfolding(crate::specs::EvidenceText::event_line))]
pub(crate) fn event_line(
    alloc: Global,
    index: u32,
    named: Option<Event>,
) -> Result<String, AllocError>
    ensures { IfOk result (λ text. string_bytes text ≡ event_line index named) }
{
    match named {
        None => format!(in alloc; "event {index}: none\n"),
        Some(event) => one_event_line(alloc, index, event),
    }
}

/// A number.
pub(crate) fn number_text(alloc: Global, number: u64) -> Result<String, AllocError>
    ensures { IfOk result (λ text. string_bytes text ≡ decimal number) }
{
    format!(in alloc; "{number}")
}

/// A number, if there is one.
#[tactic(auto, unfolding(crate::specs::EvidenceText::option_text))]
pub(crate) fn option_text(alloc: Global, number: Option<u32>) -> Result<String, AllocError>
    ensures { IfOk result (λ text. string_bytes text ≡ option_text number) }
{
    match number {
        None => String::from_str(alloc, "none"),
        Some(number) => format!(in alloc; "{number}"),
    }
}

/// An address, or the number of a frame.
pub(crate) fn address_text(alloc: Global, address: u64) -> Result<String, AllocError>
    ensures { IfOk result (λ text. string_bytes text ≡ hexadecimal address) }
{
    format!(in alloc; "0x{address:x}")
}

/// The last update that changed how an address looks, to the end of its line.
#[tactic(auto, unfolding(crate::specs::EvidenceText::changed_line))]
pub(crate) fn changed_line(
    alloc: Global,
    changed: Option<PlacedUpdate>,
) -> Result<String, AllocError>
    ensures { IfOk result (λ text. string_bytes text ≡ changed_line changed) }
{
    match changed {
        None => String::from_str(alloc, "last changed by: none\n"),
        Some(update) => {
            let place = update.place;
            let call = call_line(alloc, update.call)?;
            format!(in alloc; "last changed by place {place}, {call}")
        }
    }
}

/// The update that takes away that an address leads somewhere, and the reply to it.
#[tactic(auto, unfolding(crate::specs::EvidenceText::taken_lines))]
pub(crate) fn taken_lines(alloc: Global, taken: OpenUpdate) -> Result<String, AllocError>
    ensures { IfOk result (λ text. string_bytes text ≡ taken_lines taken) }
{
    let place = taken.update.place;
    let call = call_line(alloc, taken.update.call)?;
    let reply = own_line(alloc, taken.reply)?;
    format!(in alloc; "taken away by place {place}, {call}{reply}")
}

/// The line of an entry of a table.
#[tactic(auto, unfolding(crate::specs::EvidenceText::step_line))]
pub(crate) fn step_line(alloc: Global, step: TableEntry) -> Result<String, AllocError>
    ensures { IfOk result (λ text. string_bytes text ≡ step_line step) }
{
    let level = step.level;
    let frame = step.frame;
    let index = step.index;
    let word = step.word;
    format!(in alloc; "level {level}, frame 0x{frame:x}, index {index}: 0x{word:x}\n")
}

/// Adds the lines of entries.
pub fn push_steps(alloc: Global, text: &mut String, steps: &[TableEntry]) -> Result<(), AllocError>
    ensures { OnOk result (string_bytes text.new ≡ string_bytes text.old ++ steps_lines steps.now) }
{
    for step in steps {
        let line = step_line(alloc, *step)?;
        text.push_str(line.as_str())?;
    }
    Ok(())
}

/// The lines of entries.
pub(crate) fn steps_lines(alloc: Global, steps: &[TableEntry]) -> Result<String, AllocError>
    ensures { IfOk result (λ text. string_bytes text ≡ steps_lines steps.now) }
{
    let mut text = String::new(alloc);
    push_steps(alloc, &mut text, steps)?;
    Ok(text)
}

/// The lines of the entries on a way from the root.
#[tactic(auto, unfolding(crate::specs::EvidenceText::way_lines))]
pub(crate) fn way_lines(alloc: Global, steps: &[TableEntry]) -> Result<String, AllocError>
    ensures { IfOk result (λ text. string_bytes text ≡ way_lines steps.now) }
{
    if steps.is_empty() {
        return String::from_str(alloc, "it is the root\n");
    }
    steps_lines(alloc, steps)
}

/// What is reserved in an entry of a level that has a reserved bit set.
#[tactic(auto, unfolding(crate::specs::EvidenceText::reserved_text))]
pub(crate) fn reserved_text(alloc: Global, level: u8) -> Result<String, AllocError>
    ensures { IfOk result (λ text. string_bytes text ≡ reserved_text level) }
{
    if level == 2 {
        return String::from_str(alloc, "bits 13 to 20 are reserved in an entry that maps 2M");
    }
    if level == 3 {
        return String::from_str(alloc, "bits 13 to 29 are reserved in an entry that maps 1G");
    }
    format!(in alloc; "bit 7 is reserved in an entry of level {level}")
}

/// The unit that is wrong, and what is allowed there.
#[tactic(auto, unfolding(crate::specs::EvidenceText::format_lines))]
pub(crate) fn format_lines(alloc: Global, fault: Format) -> Result<String, AllocError>
    ensures { IfOk result (λ text. string_bytes text ≡ format_lines fault) }
{
    match fault {
        Format::Truncated => String::from_str(alloc, "the bytes end before the last unit does\n"),
        Format::BadMagic => String::from_str(alloc, "bytes 0 to 3 are NRVT\n"),
        Format::BadVersion => String::from_str(alloc, "bytes 4 and 5 are the version, 1 or 2\n"),
        Format::BadCount => String::from_str(
            alloc,
            "levels 4 (version 2: or 5), replicas 1 to 4, threads 1 to 64, tables 1 to 4096, places to 65536, events to 131072, \
            frames 1 to 4096\n",
        ),
        Format::BadChain => String::from_str(
            alloc,
            "levels, replicas, threads and tables are those of the segment before\n",
        ),
        Format::BadStart(index) => {
            format!(in alloc;
                "start, frame {index}: its number is above the one before it, and below 0x10000000000\n"
            )
        }
        Format::BadEvent(index) => {
            format!(in alloc; "event {index}: 24 bytes that spell no call and no reply here\n")
        }
        Format::BadFrame(replica, index) => {
            format!(in alloc;
                "replica {replica}, frame {index}: its number is above the one before it, and below 0x10000000000\n"
            )
        }
        Format::Trailing => String::from_str(alloc, "nothing stands after the last unit\n"),
    }
}
