//! What evidence is made of, as JSON: texts, calls, replies, entries of tables.

ghost use Rattle.std.specs.Prelude.{◌≡◌, IfOk, OnOk, Some, map, string_bytes};
ghost use Rattle.serde_json.specs.Data.{put as with_member, string};
ghost use Rattle.serde_json.specs.View.{members_view, view};
ghost use Rattle.audit_texts.specs.EvidenceJson.{call_data, changed_data, event_data, option_data, own_data, reply_data};
ghost use Rattle.audit_texts.specs.EvidenceJson.{step_data, taken_data, way_data};

use crate::lines::fact_text::{address_text, asked_text};
use crate::wording::answer::answer_text;
use nr_explain::{OpenUpdate, PlacedUpdate, RecordedCall, RecordedReply, TableEntry};
use nr_trace::Event;
use serde_json::{Map, Value, put};
use std::alloc::{AllocError, Global};

/// The members of an object.
pub type Members = Map<String, Value>;

/// Puts a text. Allocates the value and its key.
///
/// # Errors
///
/// Out of memory.
pub fn put_text(
    members: &mut Members,
    alloc: Global,
    key: &str,
    text: &str,
) -> Result<(), AllocError>
    ensures { OnOk result (members_view members.new.entries
        ≡ with_member key.now (string text.now) (members_view members.old.entries)) }
{
    put(members, alloc, key, Value::try_from_str(alloc, text)?)
}

/// A number, or null where there is none.
pub(crate) fn option_value(number: Option<u32>) -> Value
    ensures { view result ≡ option_data number }
{
    match number {
        None => Value::Null,
        Some(number) => Value::from(number),
    }
}

/// A call.
pub(crate) fn call_value(alloc: Global, call: RecordedCall) -> Result<Value, AllocError>
    ensures { IfOk result (λ value. view value ≡ call_data call) }
{
    let asked = asked_text(alloc, call.asked)?;
    let mut members = Map::new(alloc);
    put(&mut members, alloc, "request", Value::String(asked))?;
    put(&mut members, alloc, "event", Value::from(call.event))?;
    put(&mut members, alloc, "replica", Value::from(call.replica))?;
    put(&mut members, alloc, "thread", Value::from(call.thread))?;
    Ok(Value::Object(members))
}

/// A reply.
pub(crate) fn reply_value(alloc: Global, reply: RecordedReply) -> Result<Value, AllocError>
    ensures { IfOk result (λ value. view value ≡ reply_data reply) }
{
    let mut members = Map::new(alloc);
    put(&mut members, alloc, "at", Value::from(reply.at))?;
    put(&mut members, alloc, "call", Value::from(reply.call))?;
    put(&mut members, alloc, "event", Value::from(reply.event))?;
    let answer = answer_text(alloc, reply.answer)?;
    put(&mut members, alloc, "answer", Value::String(answer))?;
    Ok(Value::Object(members))
}

/// The reply to a call, or null.
pub(crate) fn own_value(alloc: Global, own: Option<RecordedReply>) -> Result<Value, AllocError>
    ensures { IfOk result (λ value. view value ≡ own_data own) }
{
    match own {
        None => Ok(Value::Null),
        Some(reply) => reply_value(alloc, reply),
    }
}

fn one_event_value(alloc: Global, index: u32, event: Event) -> Result<Value, AllocError>
    ensures { IfOk result (λ value. view value ≡ event_data index (Some event)) }
{
    match event {
        Event::Call {
            replica,
            thread,
            asked,
        } => {
            let call = RecordedCall {
                event: index,
                replica,
                thread,
                asked,
            };
            call_value(alloc, call)
        }
        Event::Reply { call, at, answer } => {
            let reply = RecordedReply {
                event: index,
                call,
                at,
                answer,
            };
            reply_value(alloc, reply)
        }
    }
}

/// The event that a number names: a call, a touch, a release, a reply, or null.
pub(crate) fn event_value(
    alloc: Global,
    index: u32,
    named: Option<Event>,
) -> Result<Value, AllocError>
    ensures { IfOk result (λ value. view value ≡ event_data index named) }
{
    match named {
        None => Ok(Value::Null),
        Some(event) => one_event_value(alloc, index, event),
    }
}

fn update_value(alloc: Global, update: PlacedUpdate) -> Result<Value, AllocError>
    ensures { IfOk result (λ value. view value ≡ changed_data (Some update)) }
{
    let call = call_value(alloc, update.call)?;
    let mut members = Map::new(alloc);
    put(&mut members, alloc, "call", call)?;
    put(&mut members, alloc, "place", Value::from(update.place))?;
    Ok(Value::Object(members))
}

/// An update and its place, or null.
pub(crate) fn changed_value(
    alloc: Global,
    changed: Option<PlacedUpdate>,
) -> Result<Value, AllocError>
    ensures { IfOk result (λ value. view value ≡ changed_data changed) }
{
    match changed {
        None => Ok(Value::Null),
        Some(update) => update_value(alloc, update),
    }
}

/// The update that takes away that an address leads somewhere, its place, and the reply to it.
pub(crate) fn taken_value(alloc: Global, taken: OpenUpdate) -> Result<Value, AllocError>
    ensures { IfOk result (λ value. view value ≡ taken_data taken) }
{
    let place = Value::from(taken.update.place);
    let call = call_value(alloc, taken.update.call)?;
    let reply = own_value(alloc, taken.reply)?;
    let mut members = Map::new(alloc);
    put(&mut members, alloc, "call", call)?;
    put(&mut members, alloc, "place", place)?;
    put(&mut members, alloc, "reply", reply)?;
    Ok(Value::Object(members))
}

/// An entry of a table.
pub(crate) fn step_value(alloc: Global, step: TableEntry) -> Result<Value, AllocError>
    ensures { IfOk result (λ value. view value ≡ step_data step) }
{
    let mut members = Map::new(alloc);
    put(&mut members, alloc, "frame", Value::from(step.frame))?;
    put(&mut members, alloc, "index", Value::from(step.index))?;
    put(&mut members, alloc, "level", Value::from(step.level))?;
    let word = address_text(alloc, step.word)?;
    put(&mut members, alloc, "word", Value::String(word))?;
    Ok(Value::Object(members))
}

fn way_values(alloc: Global, steps: &[TableEntry]) -> Result<Vec<Value>, AllocError>
    ensures { IfOk result (λ values. map view values.items ≡ map step_data steps.now) }
{
    let mut values = Vec::new(alloc);
    for step in steps {
        let value = step_value(alloc, *step)?;
        values.push(value)?;
    }
    Ok(values)
}

/// The entries on a way.
pub(crate) fn way_value(alloc: Global, steps: &[TableEntry]) -> Result<Value, AllocError>
    ensures { IfOk result (λ value. view value ≡ way_data steps.now) }
{
    Ok(Value::Array(way_values(alloc, steps)?))
}
