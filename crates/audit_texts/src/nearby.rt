//! The texts and the JSON of what is near a wrong answer.

ghost use Rattle.std.specs.Prelude.{◌≡◌, IfOk, OnOk, string_bytes};
ghost use Rattle.serde_json.specs.View.{view};
ghost use Rattle.audit_texts.specs.Evidence.{nearby_parts};
ghost use Rattle.audit_texts.specs.NearbyText.{address_data, address_words, memory_data, memory_line, right_data, right_text};
ghost use Rattle.audit_texts.specs.NearbyText.{stretch_data, stretch_text, stretches_text};
ghost use Rattle.audit_texts.specs.Parts.{put_all};

use crate::lines::fact_text::address_text;
use crate::lines::output::Output;
use crate::lines::parts::{Part, Says};
use nr_explain::{NamedMemory, RightAfter, Stretch};
use serde_json::{Map, Value, put};
use std::alloc::{AllocError, Global};

/// Numbers of entries, of a log that has so many.
#[tactic(auto, unfolding(crate::specs::NearbyText::stretch_text))]
fn stretch_text(alloc: Global, places: u32, stretch: Stretch) -> Result<String, AllocError>
    ensures { IfOk result (λ text. string_bytes text ≡ stretch_text places stretch) }
{
    let first = stretch.first;
    let last = stretch.last;
    if last == places {
        return format!(in alloc; "{first} on");
    }
    if first == last {
        return format!(in alloc; "{first}");
    }
    format!(in alloc; "{first} to {last}")
}

/// Numbers of entries below and above a call's, if there are any.
#[tactic(auto, unfolding(crate::specs::NearbyText::stretches_text))]
fn stretches_text(
    alloc: Global,
    places: u32,
    before: Option<Stretch>,
    behind: Option<Stretch>,
) -> Result<String, AllocError>
    ensures { IfOk result (λ text. string_bytes text ≡ stretches_text places before behind) }
{
    match before {
        None => match behind {
            None => String::from_str(alloc, "none"),
            Some(behind) => stretch_text(alloc, places, behind),
        },
        Some(before) => match behind {
            None => stretch_text(alloc, places, before),
            Some(behind) => {
                let first = stretch_text(alloc, places, before)?;
                let second = stretch_text(alloc, places, behind)?;
                format!(in alloc; "{first}, and {second}")
            }
        },
    }
}

/// After how many entries, nearest to those that a call had, its answer is the space's.
pub(crate) fn right_text(alloc: Global, right: RightAfter) -> Result<String, AllocError>
    ensures { IfOk result (λ text. string_bytes text ≡ right_text right) }
{
    stretches_text(alloc, right.places, right.before, right.behind)
}

/// Where memory is, to the end of the line.
#[tactic(auto, unfolding(crate::specs::NearbyText::address_words))]
fn address_words(alloc: Global, address: Option<u64>) -> Result<String, AllocError>
    ensures { IfOk result (λ text. string_bytes text ≡ address_words address) }
{
    match address {
        None => String::from_str(alloc, "nowhere\n"),
        Some(address) => format!(in alloc; "at 0x{address:x}\n"),
    }
}

/// The line of the memory that an answer names, if it names any.
#[tactic(auto, unfolding(crate::specs::NearbyText::memory_line))]
pub(crate) fn memory_line(alloc: Global, memory: Option<NamedMemory>) -> Result<String, AllocError>
    ensures { IfOk result (λ text. string_bytes text ≡ memory_line memory) }
{
    match memory {
        None => String::from_str(alloc, ""),
        Some(memory) => {
            let phys = address_text(alloc, memory.phys)?;
            let place = address_words(alloc, memory.address)?;
            format!(in alloc; "{phys} is mapped {place}")
        }
    }
}

/// Numbers of entries, or null.
fn stretch_value(alloc: Global, stretch: Option<Stretch>) -> Result<Value, AllocError>
    ensures { IfOk result (λ value. view value ≡ stretch_data stretch) }
{
    match stretch {
        None => Ok(Value::Null),
        Some(stretch) => {
            let mut members = Map::new(alloc);
            put(&mut members, alloc, "first", Value::from(stretch.first))?;
            put(&mut members, alloc, "last", Value::from(stretch.last))?;
            Ok(Value::Object(members))
        }
    }
}

/// The numbers of entries below and above a call's.
pub(crate) fn right_value(alloc: Global, right: RightAfter) -> Result<Value, AllocError>
    ensures { IfOk result (λ value. view value ≡ right_data right) }
{
    let mut members = Map::new(alloc);
    let before = stretch_value(alloc, right.before)?;
    put(&mut members, alloc, "before", before)?;
    let behind = stretch_value(alloc, right.behind)?;
    put(&mut members, alloc, "behind", behind)?;
    Ok(Value::Object(members))
}

/// An address, or null.
fn address_value(alloc: Global, address: Option<u64>) -> Result<Value, AllocError>
    ensures { IfOk result (λ value. view value ≡ address_data address) }
{
    match address {
        None => Ok(Value::Null),
        Some(address) => Ok(Value::String(address_text(alloc, address)?)),
    }
}

/// The memory that an answer names, or null.
pub(crate) fn memory_value(alloc: Global, memory: Option<NamedMemory>) -> Result<Value, AllocError>
    ensures { IfOk result (λ value. view value ≡ memory_data memory) }
{
    match memory {
        None => Ok(Value::Null),
        Some(memory) => {
            let mut members = Map::new(alloc);
            let address = address_value(alloc, memory.address)?;
            put(&mut members, alloc, "address", address)?;
            let phys = address_text(alloc, memory.phys)?;
            put(&mut members, alloc, "phys", Value::String(phys))?;
            Ok(Value::Object(members))
        }
    }
}

/// Puts what is near a wrong answer.
#[tactic(auto, unfolding(crate::specs::Evidence::nearby_parts))]
pub(crate) fn put_nearby<O: Output>(
    out: &mut O,
    alloc: Global,
    right: RightAfter,
    memory: Option<NamedMemory>,
) -> Result<(), AllocError>
    ensures { OnOk result (O.held out.new ≡ put_all (nearby_parts right memory) (O.held out.old)) }
{
    let parts = [
        Part::Words("right after: "),
        Part::InBoth("right", Says::Right(right)),
        Part::Words("\n"),
        Part::InBoth("memory", Says::Memory(memory)),
    ];
    out.put_all(alloc, &parts)
}
