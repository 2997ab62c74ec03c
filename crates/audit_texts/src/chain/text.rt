//! What is printed of the segments of a chain.

ghost use Rattle.std.specs.Prelude.{◌≡◌, ◌++◌, IfOk, string_bytes};
ghost use Rattle.audit_texts.specs.ChainText.{end_lines, segment_lines, told_end, told_segment};

use crate::chain::json::{end_json, segment_json};
use crate::wording::text::{fault_text, yes_text};
use nr_audit::Totals;
use nr_trace::Fault;
use std::alloc::{AllocError, Global};

/// The lines of the segment of this number, which is right with this order of its calls. Allocates the text.
///
/// # Errors
///
/// Out of memory.
pub fn segment_lines(alloc: Global, number: u64, order: &[u32]) -> Result<String, AllocError>
    ensures { IfOk result (λ text. string_bytes text ≡ segment_lines number order.now) }
{
    let lines = yes_text(alloc, order)?;
    format!(in alloc; "segment {number}\n{lines}")
}

/// The lines of the segment of this number, which is the first with a fault.
fn wrong_lines(alloc: Global, number: u64, fault: Fault) -> Result<String, AllocError>
    ensures { IfOk result (λ text. string_bytes text ≡ end_lines number (Some fault)) }
{
    let name = fault_text(alloc, fault)?;
    format!(in alloc; "segment {number}\nno {name}\n")
}

/// The last lines of a chain of which so many segments are right: how many there are, or the fault of the next one. Allocates the text.
///
/// # Errors
///
/// Out of memory.
pub fn end_lines(alloc: Global, number: u64, found: Option<Fault>) -> Result<String, AllocError>
    ensures { IfOk result (λ text. string_bytes text ≡ end_lines number found) }
{
    match found {
        None => format!(in alloc; "segments {number}\n"),
        Some(fault) => wrong_lines(alloc, number, fault),
    }
}

/// What is printed of the segment of this number, which is right with this order of its calls: a JSON object on a line, or lines. Allocates
/// the text, and the object.
///
/// # Errors
///
/// Out of memory.
pub fn told_segment(
    alloc: Global,
    as_json: bool,
    number: u64,
    order: &[u32],
) -> Result<String, AllocError>
    ensures { IfOk result (λ text. string_bytes text ≡ told_segment as_json number order.now) }
{
    if as_json {
        segment_json(alloc, number, order.len())
    } else {
        segment_lines(alloc, number, order)
    }
}

/// What is printed at the end of a chain of which so many segments are right: a JSON object on a line, or the last lines. The object of a
/// right chain has what is counted of it, which the lines leave out. Allocates the text, and the object.
///
/// # Errors
///
/// Out of memory.
pub fn told_end(
    alloc: Global,
    as_json: bool,
    number: u64,
    totals: Totals,
    found: Option<Fault>,
) -> Result<String, AllocError>
    ensures { IfOk result (λ text. string_bytes text ≡ told_end as_json number totals found) }
{
    if as_json {
        end_json(alloc, number, totals, found)
    } else {
        end_lines(alloc, number, found)
    }
}
