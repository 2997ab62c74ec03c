//! An explanation with what is wrong with each other dump.

ghost use Rattle.std.specs.Prelude.{◌≡◌, ◌++◌, [], IfOk, OnOk, flat_map, map, string_bytes};
ghost use Rattle.serde_json.specs.Data.{array, object};
ghost use Rattle.serde_json.specs.View.{items_of, members_view, view};
ghost use Rattle.audit_texts.specs.FullExplained.{dump_data, dump_lines, full_data, full_json, full_text, told_full};

use crate::evidence::evidence_value;
use crate::explanation::{explanation_text, explanation_value, push_shown, put_no};
use crate::json::fact_json::{Members, put_text};
use crate::wording::sentence::sentence_text;
use crate::wording::text::fault_text;
use crate::wording::usual::usual_text;
use nr_explain::{DumpExplanation, Evidence, Explanation, FullExplanation};
use nr_trace::Fault;
use serde_json::{Map, Value, put};
use std::alloc::{AllocError, Global};

/// The lines of a dump that has no fault.
#[tactic(auto, unfolding(crate::specs::FullExplained::dump_lines))]
fn sound_lines(alloc: Global, replica: u8) -> Result<String, AllocError>
    ensures { IfOk result (λ text. string_bytes text ≡ dump_lines (DumpExplanation.Sound replica)) }
{
    format!(in alloc; "dump {replica}: no fault\n")
}

/// The lines of a dump with its first fault and what shows it.
#[tactic(auto, unfolding(crate::specs::FullExplained::dump_lines))]
fn faulty_lines(
    alloc: Global,
    replica: u8,
    fault: Fault,
    shown: &Evidence,
) -> Result<String, AllocError>
    ensures { IfOk result (λ text. string_bytes text
        ≡ dump_lines (DumpExplanation.Faulty replica fault shown.now)) }
{
    let is = fault_text(alloc, fault)?;
    let mut text = format!(in alloc; "dump {replica}: {is}\n")?;
    push_shown(alloc, &mut text, fault, shown)?;
    Ok(text)
}

/// The lines of a dump.
fn dump_lines(alloc: Global, dump: &DumpExplanation) -> Result<String, AllocError>
    ensures { IfOk result (λ text. string_bytes text ≡ dump_lines dump.now) }
{
    match dump {
        DumpExplanation::Sound(replica) => sound_lines(alloc, *replica),
        DumpExplanation::Faulty(replica, fault, shown) => {
            faulty_lines(alloc, *replica, *fault, shown)
        }
    }
}

/// Adds the lines of dumps.
fn push_dumps(alloc: Global, text: &mut String, dumps: &[DumpExplanation]) -> Result<(), AllocError>
    ensures { OnOk result (string_bytes text.new
        ≡ string_bytes text.old ++ flat_map dump_lines dumps.now) }
{
    for dump in dumps {
        let lines = dump_lines(alloc, dump)?;
        text.push_str(lines.as_str())?;
    }
    Ok(())
}

/// The lines that `explain --all` prints. Allocates memory for the text.
fn full_text(alloc: Global, full: &FullExplanation) -> Result<String, AllocError>
    ensures { IfOk result (λ text. string_bytes text ≡ full_text full.now) }
{
    let mut text = explanation_text(alloc, &full.explanation)?;
    push_dumps(alloc, &mut text, full.dumps.as_slice())?;
    Ok(text)
}

/// Puts the first fault of a dump and what shows it.
fn put_faulty(
    members: &mut Members,
    alloc: Global,
    replica: u8,
    fault: Fault,
    shown: &Evidence,
) -> Result<(), AllocError>
    requires { members.old.entries ≡ [] }
    ensures { OnOk result (object (members_view members.new.entries)
        ≡ dump_data (DumpExplanation.Faulty replica fault shown.now)) }
{
    let evidence = evidence_value(alloc, shown)?;
    put(members, alloc, "evidence", evidence)?;
    let is = fault_text(alloc, fault)?;
    put(members, alloc, "fault", Value::String(is))?;
    put(members, alloc, "replica", Value::from(replica))?;
    let sentence = sentence_text(alloc, shown)?;
    put(members, alloc, "sentence", Value::String(sentence))?;
    put_text(members, alloc, "usually", usual_text(fault))
}

fn put_sound(members: &mut Members, alloc: Global, replica: u8) -> Result<(), AllocError>
    requires { members.old.entries ≡ [] }
    ensures { OnOk result (object (members_view members.new.entries)
        ≡ dump_data (DumpExplanation.Sound replica)) }
{
    put(members, alloc, "fault", Value::Null)?;
    put(members, alloc, "replica", Value::from(replica))
}

fn put_dump(members: &mut Members, alloc: Global, dump: &DumpExplanation) -> Result<(), AllocError>
    requires { members.old.entries ≡ [] }
    ensures { OnOk result (object (members_view members.new.entries) ≡ dump_data dump.now) }
{
    match dump {
        DumpExplanation::Sound(replica) => put_sound(members, alloc, *replica),
        DumpExplanation::Faulty(replica, fault, shown) => {
            put_faulty(members, alloc, *replica, *fault, shown)
        }
    }
}

/// The object of a dump.
fn dump_value(alloc: Global, dump: &DumpExplanation) -> Result<Value, AllocError>
    ensures { IfOk result (λ value. view value ≡ dump_data dump.now) }
{
    let mut members = Map::new(alloc);
    put_dump(&mut members, alloc, dump)?;
    Ok(Value::Object(members))
}

/// The objects of dumps.
fn dumps_value(alloc: Global, dumps: &[DumpExplanation]) -> Result<Value, AllocError>
    ensures { IfOk result (λ value. view value ≡ array (items_of (map dump_data dumps.now))) }
{
    let mut values = Vec::new(alloc);
    for dump in dumps {
        let value = dump_value(alloc, dump)?;
        values.push(value)?;
    }
    Ok(Value::Array(values))
}

/// Puts what is wrong, and before it what is said of other dumps, where there are some.
fn put_no_and_dumps(
    members: &mut Members,
    alloc: Global,
    fault: Fault,
    shown: &Evidence,
    dumps: &[DumpExplanation],
) -> Result<(), AllocError>
    requires { members.old.entries ≡ [] }
    ensures { OnOk result (object (members_view members.new.entries)
        ≡ full_data (Explanation.No fault shown.now) dumps.now) }
{
    if dumps.is_empty() {
        return put_no(members, alloc, fault, shown);
    }
    let dumps = dumps_value(alloc, dumps)?;
    put(members, alloc, "dumps", dumps)?;
    put_no(members, alloc, fault, shown)
}

fn no_value(
    alloc: Global,
    fault: Fault,
    shown: &Evidence,
    dumps: &[DumpExplanation],
) -> Result<Value, AllocError>
    ensures { IfOk result (λ value. view value
        ≡ full_data (Explanation.No fault shown.now) dumps.now) }
{
    let mut members = Map::new(alloc);
    put_no_and_dumps(&mut members, alloc, fault, shown, dumps)?;
    Ok(Value::Object(members))
}

/// The object that `explain --all --json` prints.
fn full_value(alloc: Global, full: &FullExplanation) -> Result<Value, AllocError>
    ensures { IfOk result (λ value. view value
        ≡ full_data full.now.explanation full.now.dumps.items) }
{
    match &full.explanation {
        Explanation::Yes(_, _) => explanation_value(alloc, &full.explanation),
        Explanation::No(fault, shown) => no_value(alloc, *fault, shown, full.dumps.as_slice()),
    }
}

/// The line that `explain --all --json` prints. Allocates memory for the object and for the line.
#[tactic(auto, using(crate::proofs::NoFloats::full_has_no_float))]
fn full_json(alloc: Global, full: &FullExplanation) -> Result<String, AllocError>
    ensures { IfOk result (λ text. string_bytes text ≡ full_json full.now) }
{
    let value = full_value(alloc, full)?;
    let mut text = value.to_string(alloc)?;
    text.push_str("\n")?;
    Ok(text)
}

/// What `explain --all` prints: the lines of a full explanation, or the line of its JSON object. Allocates memory for the text, and for
/// the object.
///
/// # Errors
///
/// Out of memory.
pub fn told_full(alloc: Global, as_json: bool, full: &FullExplanation) -> Result<String, AllocError>
    ensures { IfOk result (λ text. string_bytes text ≡ told_full as_json full.now) }
{
    if as_json {
        full_json(alloc, full)
    } else {
        full_text(alloc, full)
    }
}
