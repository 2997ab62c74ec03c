//! The verdict on a trace with what shows its fault, as lines and as JSON.

ghost use Rattle.std.specs.Prelude.{◌≡◌, ◌++◌, [], IfOk, OnOk, codes, map, string_bytes};
ghost use Rattle.serde_json.specs.Data.{array, object, put as with_member, string};
ghost use Rattle.audit_texts.specs.Text.{fault_text, no_text, yes_text};
ghost use Rattle.serde_json.specs.View.{items_of, members_view, view};
ghost use Rattle.audit_texts.specs.Sentence.{sentence_text};
ghost use Rattle.audit_texts.specs.EvidenceJson.{number_data};
ghost use Rattle.audit_texts.specs.Evidence.{counts_lines, evidence_data};
ghost use Rattle.audit_texts.specs.Explained.{explanation_data, explanation_json, explanation_text};
ghost use Rattle.audit_texts.specs.Explained.{shown_text, told_explanation};
ghost use Rattle.audit_texts.specs.Usual.{usual_text};

use crate::evidence::{counts_lines, counts_value, evidence_lines, evidence_value};
use crate::json::fact_json::{Members, put_text};
use crate::wording::sentence::sentence_text;
use crate::wording::text::{no_text, yes_text};
use crate::wording::usual::{push_sentence, put_usual};
use nr_explain::{Counts, Evidence, Explanation};
use nr_trace::Fault;
use serde_json::{Map, Value, put};
use std::alloc::{AllocError, Global};

/// Adds the sentence of a fault, the line of what it most often is, and the lines of what shows it.
pub(crate) fn push_shown(
    alloc: Global,
    text: &mut String,
    fault: Fault,
    shown: &Evidence,
) -> Result<(), AllocError>
    ensures { OnOk result (string_bytes text.new
        ≡ string_bytes text.old ++ shown_text fault shown.now) }
{
    let sentence = sentence_text(alloc, shown)?;
    push_sentence(text, sentence.as_str(), fault)?;
    let lines = evidence_lines(alloc, shown)?;
    text.push_str(lines.as_str())
}

fn right_text(alloc: Global, order: &[u32], counts: Counts) -> Result<String, AllocError>
    ensures { IfOk result (λ text. string_bytes text ≡ yes_text order.now ++ counts_lines counts) }
{
    let yes = yes_text(alloc, order)?;
    let lines = counts_lines(alloc, counts)?;
    format!(in alloc; "{yes}{lines}")
}

fn wrong_text(alloc: Global, fault: Fault, shown: &Evidence) -> Result<String, AllocError>
    ensures { IfOk result (λ text. string_bytes text
        ≡ no_text fault ++ shown_text fault shown.now) }
{
    let mut text = no_text(alloc, fault)?;
    push_shown(alloc, &mut text, fault, shown)?;
    Ok(text)
}

/// The lines that `explain` prints. Allocates memory for the text.
pub(crate) fn explanation_text(
    alloc: Global,
    explanation: &Explanation,
) -> Result<String, AllocError>
    ensures { IfOk result (λ text. string_bytes text ≡ explanation_text explanation.now) }
{
    match explanation {
        Explanation::Yes(order, counts) => right_text(alloc, order.calls(), *counts),
        Explanation::No(fault, shown) => wrong_text(alloc, *fault, shown),
    }
}

/// The calls of an order.
fn order_value(alloc: Global, order: &[u32]) -> Result<Value, AllocError>
    ensures { IfOk result (λ value. view value ≡ array (items_of (map number_data order.now))) }
{
    let mut calls = Vec::new(alloc);
    for call in order {
        calls.push(Value::from(*call))?;
    }
    Ok(Value::Array(calls))
}

/// Puts the evidence of a fault, its sentence, what it most often is, and the verdict.
pub(crate) fn put_no(
    members: &mut Members,
    alloc: Global,
    fault: Fault,
    shown: &Evidence,
) -> Result<(), AllocError>
    ensures { OnOk result (members_view members.new.entries
        ≡ with_member (codes "verdict") (string (codes "no " ++ fault_text fault))
        (with_member (codes "usually") (string (usual_text fault))
        (with_member (codes "sentence") (string (sentence_text shown.now))
        (with_member (codes "evidence") (evidence_data shown.now)
        (members_view members.old.entries))))) }
{
    let evidence = evidence_value(alloc, shown)?;
    put(members, alloc, "evidence", evidence)?;
    let sentence = sentence_text(alloc, shown)?;
    put(members, alloc, "sentence", Value::String(sentence))?;
    put_usual(members, alloc, fault)
}

fn put_yes(
    members: &mut Members,
    alloc: Global,
    order: &[u32],
    counts: Counts,
) -> Result<(), AllocError>
    requires { members.old.entries ≡ [] }
    ensures { OnOk result (object (members_view members.new.entries)
        ≡ explanation_data (Explanation.Yes order.now counts)) }
{
    let counts = counts_value(alloc, counts)?;
    put(members, alloc, "counts", counts)?;
    let order = order_value(alloc, order)?;
    put(members, alloc, "order", order)?;
    put_text(members, alloc, "verdict", "yes")
}

fn put_explanation(
    members: &mut Members,
    alloc: Global,
    explanation: &Explanation,
) -> Result<(), AllocError>
    requires { members.old.entries ≡ [] }
    ensures { OnOk result (object (members_view members.new.entries)
        ≡ explanation_data explanation.now) }
{
    match explanation {
        Explanation::Yes(order, counts) => put_yes(members, alloc, order.calls(), *counts),
        Explanation::No(fault, shown) => put_no(members, alloc, *fault, shown),
    }
}

/// The object that `explain --json` prints.
pub(crate) fn explanation_value(
    alloc: Global,
    explanation: &Explanation,
) -> Result<Value, AllocError>
    ensures { IfOk result (λ value. view value ≡ explanation_data explanation.now) }
{
    let mut members = Map::new(alloc);
    put_explanation(&mut members, alloc, explanation)?;
    Ok(Value::Object(members))
}

/// The line that `explain --json` prints. Allocates memory for the object and for the line.
#[tactic(auto, using(crate::proofs::NoFloats::explanation_has_no_float))]
fn explanation_json(alloc: Global, explanation: &Explanation) -> Result<String, AllocError>
    ensures { IfOk result (λ text. string_bytes text ≡ explanation_json explanation.now) }
{
    let value = explanation_value(alloc, explanation)?;
    let mut text = value.to_string(alloc)?;
    text.push_str("\n")?;
    Ok(text)
}

/// What `explain` prints: the lines of an explanation, or the line of its JSON object. Allocates memory for the text, and for the object.
///
/// # Errors
///
/// Out of memory.
pub fn told_explanation(
    alloc: Global,
    as_json: bool,
    explanation: &Explanation,
) -> Result<String, AllocError>
    ensures { IfOk result (λ text. string_bytes text ≡ told_explanation as_json explanation.now) }
{
    if as_json {
        explanation_json(alloc, explanation)
    } else {
        explanation_text(alloc, explanation)
    }
}
