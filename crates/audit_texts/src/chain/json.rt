//! What is printed of the segments of a chain as JSON, an object on a line.

ghost use Rattle.std.specs.Prelude.{◌≡◌, [], IfOk, None, OnOk, Some, codes, string_bytes};
ghost use Rattle.serde_json.specs.Data.{object, put as with_member};
ghost use Rattle.serde_json.specs.View.{members_view, view};
ghost use Rattle.audit_texts.specs.AuditJson.{right_members};
ghost use Rattle.audit_texts.specs.ChainJson.{end_json, end_members, segment_json};
ghost use Rattle.audit_texts.specs.EvidenceJson.{number_data};
ghost use Rattle.nr_audit.specs.declared.histories.met.Totals.{Totals as TotalsRow};

use crate::json::audit_json::{json_line, put_fault, put_right};
use crate::json::fact_json::Members;
use nr_audit::Totals;
use nr_trace::Fault;
use serde_json::{Map, Value, put};
use std::alloc::{AllocError, Global};

/// The object of the segment of this number, which is right.
fn segment_value(alloc: Global, number: u64, calls: usize) -> Result<Value, AllocError>
    ensures { IfOk result (λ value. view value
        ≡ object (with_member (codes "segment") (number_data number) (right_members calls))) }
{
    let mut members = Map::new(alloc);
    put_right(&mut members, alloc, calls)?;
    put(&mut members, alloc, "segment", Value::from(number))?;
    Ok(Value::Object(members))
}

/// The line of the segment of this number, which is right, and whose order has so many calls.
pub(crate) fn segment_json(alloc: Global, number: u64, calls: usize) -> Result<String, AllocError>
    ensures { IfOk result (λ text. string_bytes text ≡ segment_json number calls) }
{
    let value = segment_value(alloc, number, calls)?;
    json_line(alloc, &value)
}

/// Puts how many segments a right chain has, and what is counted of them.
fn put_segments(
    members: &mut Members,
    alloc: Global,
    number: u64,
    totals: Totals,
) -> Result<(), AllocError>
    requires { members.old.entries ≡ [] }
    ensures { OnOk result (members_view members.new.entries ≡ end_members number totals None) }
{
    let met = totals.met;
    put(members, alloc, "beside", Value::from(met.beside))?;
    put(members, alloc, "calls", Value::from(totals.calls))?;
    put(members, alloc, "kept", Value::from(met.since_kept))?;
    put(members, alloc, "lagging", Value::from(met.since_lagging))?;
    put(members, alloc, "open", Value::from(met.since_open))?;
    put(members, alloc, "overlapping", Value::from(met.overlapping))?;
    put(members, alloc, "repeated", Value::from(met.repeated))?;
    put(members, alloc, "segments", Value::from(number))?;
    let verdict = format!(in alloc; "segments {number}")?;
    put(members, alloc, "verdict", Value::String(verdict))
}

/// Puts the number of the first segment with a fault, and the fault.
fn put_wrong(
    members: &mut Members,
    alloc: Global,
    number: u64,
    fault: Fault,
) -> Result<(), AllocError>
    requires { members.old.entries ≡ [] }
    ensures { (totals : TotalsRow) → OnOk result
        (members_view members.new.entries ≡ end_members number totals (Some fault)) }
{
    put_fault(members, alloc, fault)?;
    put(members, alloc, "segment", Value::from(number))
}

fn put_end(
    members: &mut Members,
    alloc: Global,
    number: u64,
    totals: Totals,
    found: Option<Fault>,
) -> Result<(), AllocError>
    requires { members.old.entries ≡ [] }
    ensures { OnOk result (members_view members.new.entries ≡ end_members number totals found) }
{
    match found {
        None => put_segments(members, alloc, number, totals),
        Some(fault) => put_wrong(members, alloc, number, fault),
    }
}

/// The object at the end of a chain of which so many segments are right.
fn end_value(
    alloc: Global,
    number: u64,
    totals: Totals,
    found: Option<Fault>,
) -> Result<Value, AllocError>
    ensures { IfOk result (λ value. view value ≡ object (end_members number totals found)) }
{
    let mut members = Map::new(alloc);
    put_end(&mut members, alloc, number, totals, found)?;
    Ok(Value::Object(members))
}

/// The last line of a chain of which so many segments are right: how many there are, or the fault of the next one.
pub(crate) fn end_json(
    alloc: Global,
    number: u64,
    totals: Totals,
    found: Option<Fault>,
) -> Result<String, AllocError>
    ensures { IfOk result (λ text. string_bytes text ≡ end_json number totals found) }
{
    let value = end_value(alloc, number, totals, found)?;
    json_line(alloc, &value)
}
