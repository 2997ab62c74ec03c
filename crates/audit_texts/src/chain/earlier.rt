//! How the address of a stale touch may still be found to look behind the segments before.

ghost use Rattle.std.specs.Prelude.{◌≡◌, ◌++◌, IfOk, OnOk, flat_map, map, string_bytes};
ghost use Rattle.serde_json.specs.View.{members_view, view};
ghost use Rattle.audit_texts.specs.ChainEvidence.{earlier_data, earlier_line, earlier_of, put_earlier, with_array, with_earlier};
ghost use Rattle.audit_texts.specs.ChainSentence.{earlier_words};

use crate::json::fact_json::Members;
use crate::wording::answer::answer_text;
use nr_explain::SegmentEvidence;
use serde_json::{Value, put};
use std::alloc::{AllocError, Global};
use vs_types::Answer;

#[tactic(auto, unfolding(crate::specs::ChainEvidence::earlier_line))]
fn earlier_line(alloc: Global, look: Answer) -> Result<String, AllocError>
    ensures { IfOk result (λ text. string_bytes text ≡ earlier_line look) }
{
    let look = answer_text(alloc, look)?;
    format!(in alloc; "before the segment: {look}\n")
}

/// Adds a line for each of the looks.
fn push_looks(alloc: Global, text: &mut String, looks: &[Answer]) -> Result<(), AllocError>
    ensures { OnOk result (string_bytes text.new
        ≡ string_bytes text.old ++ flat_map earlier_line looks.now) }
{
    for look in looks {
        let line = earlier_line(alloc, *look)?;
        text.push_str(line.as_str())?;
    }
    Ok(())
}

/// Adds a line for each look of a touch's address that lingers behind the segments before.
#[tactic(auto, unfolding(crate::specs::ChainEvidence::earlier_of))]
pub(crate) fn push_earlier(
    alloc: Global,
    text: &mut String,
    shown: &SegmentEvidence,
) -> Result<(), AllocError>
    ensures { OnOk result (string_bytes text.new
        ≡ string_bytes text.old ++ flat_map earlier_line (earlier_of shown.now)) }
{
    match shown {
        SegmentEvidence::Stale(touch) => push_looks(alloc, text, touch.earlier.as_slice()),
        _ => Ok(()),
    }
}

fn earlier_value(alloc: Global, look: Answer) -> Result<Value, AllocError>
    ensures { IfOk result (λ value. view value ≡ earlier_data look) }
{
    let text = answer_text(alloc, look)?;
    Ok(Value::String(text))
}

fn earlier_values(alloc: Global, looks: &[Answer]) -> Result<Vec<Value>, AllocError>
    ensures { IfOk result (λ values. map view values.items ≡ map earlier_data looks.now) }
{
    let mut values = Vec::new(alloc);
    for look in looks {
        let value = earlier_value(alloc, *look)?;
        values.push(value)?;
    }
    Ok(values)
}

/// Puts an array of the looks.
#[tactic(auto, unfolding(crate::specs::ChainEvidence::with_array))]
fn put_array(members: &mut Members, alloc: Global, looks: &[Answer]) -> Result<(), AllocError>
    ensures { OnOk result (members_view members.new.entries
        ≡ with_array looks.now (members_view members.old.entries)) }
{
    let values = earlier_values(alloc, looks)?;
    put(members, alloc, "earlier", Value::Array(values))
}

/// Puts the looks, where there are some.
fn put_looks(members: &mut Members, alloc: Global, looks: &[Answer]) -> Result<(), AllocError>
    ensures { OnOk result (members_view members.new.entries
        ≡ put_earlier looks.now (members_view members.old.entries)) }
{
    if looks.is_empty() {
        return Ok(());
    }
    put_array(members, alloc, looks)
}

/// Puts the looks of a touch's address that linger behind the segments before, where there are some.
#[tactic(auto, unfolding(crate::specs::ChainEvidence::with_earlier))]
pub(crate) fn put_earlier(
    members: &mut Members,
    alloc: Global,
    shown: &SegmentEvidence,
) -> Result<(), AllocError>
    ensures { OnOk result (members_view members.new.entries
        ≡ with_earlier shown.now (members_view members.old.entries)) }
{
    match shown {
        SegmentEvidence::Stale(touch) => put_looks(members, alloc, touch.earlier.as_slice()),
        _ => Ok(()),
    }
}

/// That none of the looks is that of the answer, where there are some.
#[tactic(auto, unfolding(crate::specs::ChainSentence::earlier_words))]
pub(crate) fn earlier_words(looks: &[Answer]) -> &'static str
    ensures { result.now ≡ earlier_words looks.now }
{
    if looks.is_empty() {
        return "";
    }
    " Nor does it in what earlier segments leave."
}
