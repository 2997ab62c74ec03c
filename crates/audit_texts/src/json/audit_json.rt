//! What `audit` prints of a verdict, as a JSON object on a line or as lines.

ghost use Rattle.std.specs.Prelude.{◌≡◌, ◌++◌, ◌∷◌, [], IfOk, OnOk, codes, false, map, string_bytes};
ghost use Rattle.serde_json.specs.Data.{array, object, put as with_member, string};
ghost use Rattle.serde_json.specs.View.{items_of, members_view, view};
ghost use Rattle.serde_json.specs.Written.{has_float};
ghost use Rattle.vs_text.specs.Words.{hexadecimal};
ghost use Rattle.audit_texts.specs.AuditJson.{addressed, counted, fault_code, fault_members, fault_name, fault_numbers, format_name};
ghost use Rattle.audit_texts.specs.AuditJson.{format_numbers, json_line, named_json, named_verdict, numbers_data, right_members};
ghost use Rattle.audit_texts.specs.AuditJson.{told_verdict, verdict_json, verdict_members, yes_members};
ghost use Rattle.audit_texts.specs.EvidenceJson.{number_data};
ghost use Rattle.audit_texts.specs.Text.{verdict_line};

use crate::json::fact_json::{Members, put_text};
use crate::lines::fact_text::address_text;
use crate::wording::text::{no_words, verdict_line, verdict_text};
use nr_audit::Verdict;
use nr_trace::{Fault, Format};
use serde_json::{Map, Value, put};
use std::alloc::{AllocError, Global};

/// The number of a fault: its place among all faults, from 1 on.
#[tactic(auto, unfolding(crate::specs::AuditJson::fault_code))]
fn fault_code(fault: Fault) -> u8
    ensures { result ≡ fault_code fault }
{
    match fault {
        Fault::Format(_) => 1,
        Fault::ThreadOpen(_) => 2,
        Fault::NoSuchCall(_) => 3,
        Fault::AnsweredTwice(_) => 4,
        Fault::NotAnUpdate(_) => 5,
        Fault::PlacedTwice(_) => 6,
        Fault::NotPlaced(_) => 7,
        Fault::PastLog(_) => 8,
        Fault::Early(_) => 9,
        Fault::WrongAnswer(_) => 10,
        Fault::PrefixPastLog(_) => 11,
        Fault::PrefixShort(_) => 12,
        Fault::MissingFrame(_, _) => 13,
        Fault::SharedFrame(_, _) => 14,
        Fault::ReservedBit(_, _, _) => 15,
        Fault::StrayFrame(_, _) => 16,
        Fault::Differs(_, _) => 17,
        Fault::StartMissing(_) => 18,
        Fault::StartShared(_) => 19,
        Fault::StartReserved(_, _) => 20,
        Fault::StartStray(_) => 21,
        Fault::StartBeyond(_) => 22,
        Fault::StartDiffers(_) => 23,
        Fault::Stale(_) => 24,
        Fault::Reachable(_) => 25,
    }
}

/// The name of a fault of the format.
#[tactic(auto, unfolding(crate::specs::AuditJson::format_name))]
fn format_name(fault: Format) -> &'static str
    ensures { result.now ≡ format_name fault }
{
    match fault {
        Format::Truncated => "Format Truncated",
        Format::BadMagic => "Format BadMagic",
        Format::BadVersion => "Format BadVersion",
        Format::BadCount => "Format BadCount",
        Format::BadChain => "Format BadChain",
        Format::BadStart(_) => "Format BadStart",
        Format::BadEvent(_) => "Format BadEvent",
        Format::BadFrame(_, _) => "Format BadFrame",
        Format::Trailing => "Format Trailing",
    }
}

/// The name of a fault.
#[tactic(auto, unfolding(crate::specs::AuditJson::fault_name))]
fn fault_name(fault: Fault) -> &'static str
    ensures { result.now ≡ fault_name fault }
{
    match fault {
        Fault::Format(fault) => format_name(fault),
        Fault::ThreadOpen(_) => "ThreadOpen",
        Fault::NoSuchCall(_) => "NoSuchCall",
        Fault::AnsweredTwice(_) => "AnsweredTwice",
        Fault::NotAnUpdate(_) => "NotAnUpdate",
        Fault::PlacedTwice(_) => "PlacedTwice",
        Fault::NotPlaced(_) => "NotPlaced",
        Fault::PastLog(_) => "PastLog",
        Fault::Early(_) => "Early",
        Fault::WrongAnswer(_) => "WrongAnswer",
        Fault::PrefixPastLog(_) => "PrefixPastLog",
        Fault::PrefixShort(_) => "PrefixShort",
        Fault::MissingFrame(_, _) => "MissingFrame",
        Fault::SharedFrame(_, _) => "SharedFrame",
        Fault::ReservedBit(_, _, _) => "ReservedBit",
        Fault::StrayFrame(_, _) => "StrayFrame",
        Fault::Differs(_, _) => "Differs",
        Fault::StartMissing(_) => "StartMissing",
        Fault::StartShared(_) => "StartShared",
        Fault::StartReserved(_, _) => "StartReserved",
        Fault::StartStray(_) => "StartStray",
        Fault::StartBeyond(_) => "StartBeyond",
        Fault::StartDiffers(_) => "StartDiffers",
        Fault::Stale(_) => "Stale",
        Fault::Reachable(_) => "Reachable",
    }
}

/// Numbers, one after the other.
fn counts_value(alloc: Global, counts: &[u64]) -> Result<Value, AllocError>
    ensures { IfOk result (λ value. view value ≡ array (items_of (map number_data counts.now))) }
{
    let mut values = Vec::new(alloc);
    for count in counts {
        values.push(Value::from(*count))?;
    }
    Ok(Value::Array(values))
}

/// An address.
fn address_value(alloc: Global, address: u64) -> Result<Value, AllocError>
    ensures { IfOk result (λ value. view value ≡ string (hexadecimal address)) }
{
    Ok(Value::String(address_text(alloc, address)?))
}

/// An address alone.
fn one_address(alloc: Global, address: u64) -> Result<Value, AllocError>
    ensures { IfOk result (λ value. view value ≡ numbers_data (addressed address ∷ [])) }
{
    let only = address_value(alloc, address)?;
    let mut values = Vec::new(alloc);
    values.push(only)?;
    Ok(Value::Array(values))
}

/// A replica and an address.
fn replica_and_address(alloc: Global, replica: u8, address: u64) -> Result<Value, AllocError>
    ensures { IfOk result (λ value. view value
        ≡ numbers_data (counted replica ∷ addressed address ∷ [])) }
{
    let second = address_value(alloc, address)?;
    let mut values = Vec::new(alloc);
    values.push(Value::from(replica))?;
    values.push(second)?;
    Ok(Value::Array(values))
}

/// The numbers of a fault of the format.
#[tactic(auto, unfolding(crate::specs::AuditJson::format_numbers))]
fn format_numbers(alloc: Global, fault: Format) -> Result<Value, AllocError>
    ensures { IfOk result (λ value. view value ≡ numbers_data (format_numbers fault)) }
{
    match fault {
        Format::Truncated
        | Format::BadMagic
        | Format::BadVersion
        | Format::BadCount
        | Format::BadChain
        | Format::Trailing => Ok(Value::Array(Vec::new(alloc))),
        Format::BadStart(index) | Format::BadEvent(index) => {
            counts_value(alloc, &[u64::from(index)])
        }
        Format::BadFrame(replica, index) => {
            counts_value(alloc, &[u64::from(replica), u64::from(index)])
        }
    }
}

/// The numbers of a fault.
#[tactic(auto, unfolding(crate::specs::AuditJson::fault_numbers))]
fn fault_numbers(alloc: Global, fault: Fault) -> Result<Value, AllocError>
    ensures { IfOk result (λ value. view value ≡ numbers_data (fault_numbers fault)) }
{
    match fault {
        Fault::Format(fault) => format_numbers(alloc, fault),
        Fault::ThreadOpen(number)
        | Fault::NoSuchCall(number)
        | Fault::AnsweredTwice(number)
        | Fault::NotAnUpdate(number)
        | Fault::PlacedTwice(number)
        | Fault::NotPlaced(number)
        | Fault::PastLog(number)
        | Fault::Early(number)
        | Fault::WrongAnswer(number)
        | Fault::Stale(number)
        | Fault::Reachable(number) => counts_value(alloc, &[u64::from(number)]),
        Fault::PrefixPastLog(replica) | Fault::PrefixShort(replica) => {
            counts_value(alloc, &[u64::from(replica)])
        }
        Fault::MissingFrame(replica, number)
        | Fault::SharedFrame(replica, number)
        | Fault::StrayFrame(replica, number) => {
            counts_value(alloc, &[u64::from(replica), number])
        }
        Fault::ReservedBit(replica, number, index) => {
            counts_value(alloc, &[u64::from(replica), number, u64::from(index)])
        }
        Fault::Differs(replica, address) => replica_and_address(alloc, replica, address),
        Fault::StartMissing(number) | Fault::StartShared(number) | Fault::StartStray(number) => {
            counts_value(alloc, &[number])
        }
        Fault::StartReserved(number, index) => { counts_value(alloc, &[number, u64::from(index)]) }
        Fault::StartBeyond(address) | Fault::StartDiffers(address) => one_address(alloc, address),
    }
}

/// Puts the number of a fault, its name, its numbers, and the line of the verdict.
pub(crate) fn put_fault(
    members: &mut Members,
    alloc: Global,
    fault: Fault,
) -> Result<(), AllocError>
    requires { members.old.entries ≡ [] }
    ensures { OnOk result (members_view members.new.entries ≡ fault_members fault) }
{
    put(members, alloc, "code", Value::from(fault_code(fault)))?;
    put_text(members, alloc, "fault", fault_name(fault))?;
    let numbers = fault_numbers(alloc, fault)?;
    put(members, alloc, "numbers", numbers)?;
    let verdict = no_words(alloc, fault)?;
    put(members, alloc, "verdict", Value::String(verdict))
}

/// Puts how many calls the order of a right segment has, and the line of the verdict.
pub(crate) fn put_right(
    members: &mut Members,
    alloc: Global,
    calls: usize,
) -> Result<(), AllocError>
    requires { members.old.entries ≡ [] }
    ensures { OnOk result (members_view members.new.entries ≡ right_members calls) }
{
    put(members, alloc, "calls", Value::from(calls))?;
    put_text(members, alloc, "verdict", "yes")
}

/// Puts how many calls the order of a right trace has, how many of them overlap another one, and the line of the verdict.
fn put_yes(
    members: &mut Members,
    alloc: Global,
    calls: usize,
    overlapping: u64,
) -> Result<(), AllocError>
    requires { members.old.entries ≡ [] }
    ensures { OnOk result (members_view members.new.entries ≡ yes_members calls overlapping) }
{
    put(members, alloc, "calls", Value::from(calls))?;
    put(members, alloc, "overlapping", Value::from(overlapping))?;
    put_text(members, alloc, "verdict", "yes")
}

fn put_verdict(
    members: &mut Members,
    alloc: Global,
    verdict: &Verdict,
    overlapping: u64,
) -> Result<(), AllocError>
    requires { members.old.entries ≡ [] }
    ensures { OnOk result (members_view members.new.entries
        ≡ verdict_members verdict.now overlapping) }
{
    match verdict {
        Verdict::Yes(order) => put_yes(members, alloc, order.calls().len(), overlapping),
        Verdict::No(fault) => put_fault(members, alloc, *fault),
    }
}

/// The line of a value that has no floating-point number.
pub(crate) fn json_line(alloc: Global, value: &Value) -> Result<String, AllocError>
    ensures { IfOk result (λ text. has_float (view value.now) ≡ false
        → string_bytes text ≡ json_line (view value.now)) }
{
    let mut text = value.to_string(alloc)?;
    text.push_str("\n")?;
    Ok(text)
}

/// The object of a verdict.
fn verdict_value(alloc: Global, verdict: &Verdict, overlapping: u64) -> Result<Value, AllocError>
    ensures { IfOk result (λ value. view value
        ≡ object (verdict_members verdict.now overlapping)) }
{
    let mut members = Map::new(alloc);
    put_verdict(&mut members, alloc, verdict, overlapping)?;
    Ok(Value::Object(members))
}

/// The object of the verdict on the file of this name.
fn named_value(
    alloc: Global,
    name: &str,
    verdict: &Verdict,
    overlapping: u64,
) -> Result<Value, AllocError>
    ensures { IfOk result (λ value. view value
        ≡ object (with_member (codes "file") (string name.now)
        (verdict_members verdict.now overlapping))) }
{
    let mut members = Map::new(alloc);
    put_verdict(&mut members, alloc, verdict, overlapping)?;
    put_text(&mut members, alloc, "file", name)?;
    Ok(Value::Object(members))
}

/// The line that `audit --json` prints of a verdict.
fn verdict_json(alloc: Global, verdict: &Verdict, overlapping: u64) -> Result<String, AllocError>
    ensures { IfOk result (λ text. string_bytes text ≡ verdict_json verdict.now overlapping) }
{
    let value = verdict_value(alloc, verdict, overlapping)?;
    json_line(alloc, &value)
}

/// The line that `audit --json` prints for one of several files.
fn named_json(
    alloc: Global,
    name: &str,
    verdict: &Verdict,
    overlapping: u64,
) -> Result<String, AllocError>
    ensures { IfOk result (λ text. string_bytes text
        ≡ named_json name.now verdict.now overlapping) }
{
    let value = named_value(alloc, name, verdict, overlapping)?;
    json_line(alloc, &value)
}

/// The name of a file, a colon and the first line of the verdict.
fn named_line(alloc: Global, name: &str, verdict: &Verdict) -> Result<String, AllocError>
    ensures { IfOk result (λ text. string_bytes text
        ≡ name.now ++ (codes ": " ++ verdict_line verdict.now)) }
{
    let line = verdict_line(alloc, verdict)?;
    format!(in alloc; "{name}: {line}")
}

/// What `audit` prints of a verdict: a JSON object on a line, or lines. The object of a yes has how many calls overlap another one: so many,
/// which the lines leave out. Allocates the text, and the object.
///
/// # Errors
///
/// Out of memory.
pub fn told_verdict(
    alloc: Global,
    as_json: bool,
    verdict: &Verdict,
    overlapping: u64,
) -> Result<String, AllocError>
    ensures { IfOk result (λ text. string_bytes text
        ≡ told_verdict as_json verdict.now overlapping) }
{
    if as_json {
        verdict_json(alloc, verdict, overlapping)
    } else {
        verdict_text(alloc, verdict)
    }
}

/// What `audit` prints of the verdict on one of several files: an object that has the file's name too, or the name, a colon and the first
/// line. Allocates the text, and the object.
///
/// # Errors
///
/// Out of memory.
pub fn named_verdict(
    alloc: Global,
    as_json: bool,
    name: &str,
    verdict: &Verdict,
    overlapping: u64,
) -> Result<String, AllocError>
    ensures { IfOk result (λ text. string_bytes text
        ≡ named_verdict as_json name.now verdict.now overlapping) }
{
    if as_json {
        named_json(alloc, name, verdict, overlapping)
    } else {
        named_line(alloc, name, verdict)
    }
}
