//! The texts of a fault and of a verdict.

ghost use Rattle.std.specs.Prelude.{◌≡◌, ◌++◌, IfOk, OnOk, codes, string_bytes};
ghost use Rattle.audit_texts.specs.Text.{format_text, fault_text, no_text, call_text, yes_text, verdict_line, verdict_text};
ghost use Rattle.audit_texts.specs.Text.{walk_text, walk_words};

use itoa::Buffer;
use nr_audit::Verdict;
use nr_trace::{Fault, Format};
use std::alloc::{AllocError, Global};
use vs_text::push_page;
use vs_walk::Walk;

/// The name of a fault of the format, and its numbers.
#[tactic(auto, unfolding(crate::specs::Text::format_text))]
pub(crate) fn format_text(alloc: Global, fault: Format) -> Result<String, AllocError>
    ensures { IfOk result (λ text. string_bytes text ≡ format_text fault) }
{
    match fault {
        Format::Truncated => String::from_str(alloc, "Truncated"),
        Format::BadMagic => String::from_str(alloc, "BadMagic"),
        Format::BadVersion => String::from_str(alloc, "BadVersion"),
        Format::BadCount => String::from_str(alloc, "BadCount"),
        Format::BadChain => String::from_str(alloc, "BadChain"),
        Format::BadStart(index) => format!(in alloc; "BadStart {index}"),
        Format::BadEvent(index) => format!(in alloc; "BadEvent {index}"),
        Format::BadFrame(replica, index) => format!(in alloc; "BadFrame {replica} {index}"),
        Format::Trailing => String::from_str(alloc, "Trailing"),
    }
}

/// The text of a fault of the format: its number, its name, and its numbers.
fn format_fault_text(alloc: Global, fault: Format) -> Result<String, AllocError>
    ensures { IfOk result (λ text. string_bytes text ≡ codes "1 Format " ++ format_text fault) }
{
    let name = format_text(alloc, fault)?;
    format!(in alloc; "1 Format {name}")
}

/// The name of a fault, before it its number and behind it where it is. Allocates the text.
///
/// # Errors
///
/// Out of memory.
#[tactic(auto, unfolding(crate::specs::Text::fault_text))]
pub fn fault_text(alloc: Global, fault: Fault) -> Result<String, AllocError>
    ensures { IfOk result (λ text. string_bytes text ≡ fault_text fault) }
{
    match fault {
        Fault::Format(fault) => format_fault_text(alloc, fault),
        Fault::ThreadOpen(index) => format!(in alloc; "2 ThreadOpen {index}"),
        Fault::NoSuchCall(index) => format!(in alloc; "3 NoSuchCall {index}"),
        Fault::AnsweredTwice(index) => format!(in alloc; "4 AnsweredTwice {index}"),
        Fault::NotAnUpdate(place) => format!(in alloc; "5 NotAnUpdate {place}"),
        Fault::PlacedTwice(place) => format!(in alloc; "6 PlacedTwice {place}"),
        Fault::NotPlaced(index) => format!(in alloc; "7 NotPlaced {index}"),
        Fault::PastLog(index) => format!(in alloc; "8 PastLog {index}"),
        Fault::Early(call) => format!(in alloc; "9 Early {call}"),
        Fault::WrongAnswer(call) => format!(in alloc; "10 WrongAnswer {call}"),
        Fault::PrefixPastLog(replica) => format!(in alloc; "11 PrefixPastLog {replica}"),
        Fault::PrefixShort(replica) => format!(in alloc; "12 PrefixShort {replica}"),
        Fault::MissingFrame(replica, number) => {
            format!(in alloc; "13 MissingFrame {replica} {number}")
        }
        Fault::SharedFrame(replica, number) => {
            format!(in alloc; "14 SharedFrame {replica} {number}")
        }
        Fault::ReservedBit(replica, number, index) => {
            format!(in alloc; "15 ReservedBit {replica} {number} {index}")
        }
        Fault::StrayFrame(replica, number) => {
            format!(in alloc; "16 StrayFrame {replica} {number}")
        }
        Fault::Differs(replica, address) => {
            format!(in alloc; "17 Differs {replica} 0x{address:x}")
        }
        Fault::StartMissing(number) => format!(in alloc; "18 StartMissing {number}"),
        Fault::StartShared(number) => format!(in alloc; "19 StartShared {number}"),
        Fault::StartReserved(number, index) => {
            format!(in alloc; "20 StartReserved {number} {index}")
        }
        Fault::StartStray(number) => format!(in alloc; "21 StartStray {number}"),
        Fault::StartBeyond(base) => format!(in alloc; "22 StartBeyond 0x{base:x}"),
        Fault::StartDiffers(address) => format!(in alloc; "23 StartDiffers 0x{address:x}"),
        Fault::Stale(call) => format!(in alloc; "24 Stale {call}"),
        Fault::Reachable(call) => format!(in alloc; "25 Reachable {call}"),
    }
}

/// What is printed of a trace with this fault, on a line.
pub(crate) fn no_words(alloc: Global, fault: Fault) -> Result<String, AllocError>
    ensures { IfOk result (λ text. string_bytes text ≡ codes "no " ++ fault_text fault) }
{
    let text = fault_text(alloc, fault)?;
    format!(in alloc; "no {text}")
}

/// This line, with its LF. Allocates the text.
///
/// # Errors
///
/// Out of memory.
pub fn no_text(alloc: Global, fault: Fault) -> Result<String, AllocError>
    ensures { IfOk result (λ text. string_bytes text ≡ no_text fault) }
{
    let text = fault_text(alloc, fault)?;
    format!(in alloc; "no {text}\n")
}

fn push_call(text: &mut String, call: u32) -> Result<(), AllocError>
    ensures { OnOk result (string_bytes text.new ≡ string_bytes text.old ++ call_text call) }
{
    text.push(' ')?;
    text.push_str(Buffer::new().format(call))
}

/// The lines that are printed of a right trace, with an order of its calls. Allocates memory for the text.
///
/// # Errors
///
/// Out of memory.
pub fn yes_text(alloc: Global, order: &[u32]) -> Result<String, AllocError>
    ensures { IfOk result (λ text. string_bytes text ≡ yes_text order.now) }
{
    let mut text = String::from_str(alloc, "yes\norder")?;
    for call in order {
        push_call(&mut text, *call)?;
    }
    text.push_str("\n")?;
    Ok(text)
}

/// The lines that `audit` prints of a verdict. Allocates the text.
///
/// # Errors
///
/// Out of memory.
pub fn verdict_text(alloc: Global, verdict: &Verdict) -> Result<String, AllocError>
    ensures { IfOk result (λ text. string_bytes text ≡ verdict_text verdict.now) }
{
    match verdict {
        Verdict::Yes(order) => yes_text(alloc, order.calls()),
        Verdict::No(fault) => no_text(alloc, *fault),
    }
}

/// The first of these lines. Allocates the text.
///
/// # Errors
///
/// Out of memory.
pub fn verdict_line(alloc: Global, verdict: &Verdict) -> Result<String, AllocError>
    ensures { IfOk result (λ text. string_bytes text ≡ verdict_line verdict.now) }
{
    match verdict {
        Verdict::Yes(_) => String::from_str(alloc, "yes\n"),
        Verdict::No(fault) => no_text(alloc, *fault),
    }
}

/// The end of a walk. Allocates the text.
///
/// # Errors
///
/// Out of memory.
#[tactic(auto, unfolding(crate::specs::Text::walk_words))]
pub fn walk_words(alloc: Global, walk: Walk) -> Result<String, AllocError>
    ensures { IfOk result (λ text. string_bytes text ≡ walk_words walk) }
{
    match walk {
        Walk::NotMapped => String::from_str(alloc, "not mapped"),
        Walk::Reserved => String::from_str(alloc, "reserved"),
        Walk::Missing => String::from_str(alloc, "missing"),
        Walk::Mapped(phys, size, rights) => {
            let mut text = String::from_str(alloc, "mapped ")?;
            push_page(&mut text, phys, size, rights)?;
            Ok(text)
        }
    }
}

/// The line that `resolve` prints of a walk. Allocates the text.
///
/// # Errors
///
/// Out of memory.
pub fn walk_text(alloc: Global, walk: Walk) -> Result<String, AllocError>
    ensures { IfOk result (λ text. string_bytes text ≡ walk_text walk) }
{
    let mut text = walk_words(alloc, walk)?;
    text.push_str("\n")?;
    Ok(text)
}
