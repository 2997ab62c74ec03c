//! What is printed of the explanation of a chain, as lines and as JSON.

ghost use Rattle.std.specs.Prelude.{◌≡◌, ◌++◌, IfOk, OnOk, string_bytes};
ghost use Rattle.serde_json.specs.View.{view};
ghost use Rattle.audit_texts.specs.ChainText.{end_lines};
ghost use Rattle.audit_texts.specs.ChainExplained.{chain_explanation_data, chain_explanation_json};
ghost use Rattle.audit_texts.specs.ChainExplained.{chain_explanation_text, shown_text, told_chain};

use crate::chain::counts::{chain_counts_lines, chain_counts_value};
use crate::chain::evidence::{segment_evidence_text, segment_evidence_value};
use crate::chain::sentence::segment_sentence;
use crate::chain::text::end_lines;
use crate::wording::usual::{push_sentence, put_usual};
use nr_explain::{ChainCounts, ChainExplanation, SegmentEvidence};
use nr_trace::Fault;
use serde_json::{Map, Value, put};
use std::alloc::{AllocError, Global};

fn right_text(alloc: Global, counts: ChainCounts) -> Result<String, AllocError>
    ensures { IfOk result (λ text. string_bytes text
        ≡ chain_explanation_text (ChainExplanation.Yes counts)) }
{
    let segments = counts.segments;
    let lines = chain_counts_lines(alloc, counts)?;
    format!(in alloc; "segments {segments}\n{lines}")
}

/// Adds the sentence of a fault, the line of what it most often is, and the lines of what shows it.
fn push_shown(
    alloc: Global,
    text: &mut String,
    fault: Fault,
    shown: &SegmentEvidence,
) -> Result<(), AllocError>
    ensures { OnOk result (string_bytes text.new
        ≡ string_bytes text.old ++ shown_text fault shown.now) }
{
    let sentence = segment_sentence(alloc, shown)?;
    push_sentence(text, sentence.as_str(), fault)?;
    let lines = segment_evidence_text(alloc, shown)?;
    text.push_str(lines.as_str())
}

fn wrong_text(
    alloc: Global,
    number: u64,
    fault: Fault,
    shown: &SegmentEvidence,
) -> Result<String, AllocError>
    ensures { IfOk result (λ text. string_bytes text
        ≡ chain_explanation_text (ChainExplanation.No number fault shown.now)) }
{
    let mut text = end_lines(alloc, number, Some(fault))?;
    push_shown(alloc, &mut text, fault, shown)?;
    Ok(text)
}

/// The lines that are printed.
fn chain_explanation_text(
    alloc: Global,
    explanation: &ChainExplanation,
) -> Result<String, AllocError>
    ensures { IfOk result (λ text. string_bytes text ≡ chain_explanation_text explanation.now) }
{
    match explanation {
        ChainExplanation::Yes(counts) => right_text(alloc, *counts),
        ChainExplanation::No(number, fault, shown) => wrong_text(alloc, *number, *fault, shown),
    }
}

fn right_value(alloc: Global, counts: ChainCounts) -> Result<Value, AllocError>
    ensures { IfOk result (λ value. view value
        ≡ chain_explanation_data (ChainExplanation.Yes counts)) }
{
    let mut members = Map::new(alloc);
    let has = chain_counts_value(alloc, counts)?;
    put(&mut members, alloc, "counts", has)?;
    let segments = counts.segments;
    let verdict = format!(in alloc; "segments {segments}")?;
    put(&mut members, alloc, "verdict", Value::String(verdict))?;
    Ok(Value::Object(members))
}

fn wrong_value(
    alloc: Global,
    number: u64,
    fault: Fault,
    shown: &SegmentEvidence,
) -> Result<Value, AllocError>
    ensures { IfOk result (λ value. view value
        ≡ chain_explanation_data (ChainExplanation.No number fault shown.now)) }
{
    let mut members = Map::new(alloc);
    let evidence = segment_evidence_value(alloc, shown)?;
    put(&mut members, alloc, "evidence", evidence)?;
    put(&mut members, alloc, "segment", Value::from(number))?;
    let sentence = segment_sentence(alloc, shown)?;
    put(&mut members, alloc, "sentence", Value::String(sentence))?;
    put_usual(&mut members, alloc, fault)?;
    Ok(Value::Object(members))
}

/// The object that is printed.
fn chain_explanation_value(
    alloc: Global,
    explanation: &ChainExplanation,
) -> Result<Value, AllocError>
    ensures { IfOk result (λ value. view value ≡ chain_explanation_data explanation.now) }
{
    match explanation {
        ChainExplanation::Yes(counts) => right_value(alloc, *counts),
        ChainExplanation::No(number, fault, shown) => wrong_value(alloc, *number, *fault, shown),
    }
}

/// The line of this object. Allocates memory for the object and for the line.
#[tactic(auto, using(crate::proofs::ChainNoFloats::chain_explanation_has_no_float))]
fn chain_explanation_json(
    alloc: Global,
    explanation: &ChainExplanation,
) -> Result<String, AllocError>
    ensures { IfOk result (λ text. string_bytes text ≡ chain_explanation_json explanation.now) }
{
    let value = chain_explanation_value(alloc, explanation)?;
    let mut text = value.to_string(alloc)?;
    text.push_str("\n")?;
    Ok(text)
}

/// What `explain --chain` prints: the lines of an explanation, or the line of its JSON object. Allocates memory for the text, and for the
/// object.
///
/// # Errors
///
/// Out of memory.
pub fn told_chain(
    alloc: Global,
    as_json: bool,
    explanation: &ChainExplanation,
) -> Result<String, AllocError>
    ensures { IfOk result (λ text. string_bytes text ≡ told_chain as_json explanation.now) }
{
    if as_json {
        chain_explanation_json(alloc, explanation)
    } else {
        chain_explanation_text(alloc, explanation)
    }
}
