//! The words of a field of an event that isn't what it may be.

ghost use Rattle.std.specs.Prelude.{◌≡◌, IfOk, string_bytes};
ghost use Rattle.audit_texts.specs.FieldText.{field_text, limit_text, name_text, since_text, value_text, why_text};

use nr_explain::{BadField, EventField, FieldFault};
use std::alloc::{AllocError, Global};

/// The name of a field.
#[tactic(auto, unfolding(crate::specs::FieldText::name_text))]
fn name_text(field: EventField) -> &'static str
    ensures { result.now ≡ name_text field }
{
    match field {
        EventField::Tag => "its tag is ",
        EventField::Replica => "its replica is ",
        EventField::Thread => "its thread is ",
        EventField::Kind => "its kind is ",
        EventField::Size => "its size is ",
        EventField::Access => "its access is ",
        EventField::Rights => "its rights are ",
        EventField::Mode => "its mode is ",
        EventField::Unused => "its unused bytes are ",
        EventField::Address => "its address is ",
        EventField::Physical => "its physical address is ",
        EventField::Answer => "its answer is ",
        EventField::Value => "its value is ",
    }
}

/// The number that a field has: an address, or another.
#[tactic(auto, unfolding(crate::specs::FieldText::value_text))]
fn value_text(alloc: Global, field: EventField, value: u64) -> Result<String, AllocError>
    ensures { IfOk result (λ text. string_bytes text ≡ value_text field value) }
{
    match field {
        EventField::Address | EventField::Physical | EventField::Value => {
            format!(in alloc; "0x{value:x}")
        }
        EventField::Tag
        | EventField::Replica
        | EventField::Thread
        | EventField::Kind
        | EventField::Size
        | EventField::Access
        | EventField::Rights
        | EventField::Mode
        | EventField::Unused
        | EventField::Answer => format!(in alloc; "{value}"),
    }
}

/// What a number has to be below.
#[tactic(auto, unfolding(crate::specs::FieldText::limit_text))]
fn limit_text(alloc: Global, limit: u64) -> Result<String, AllocError>
    ensures { IfOk result (λ text. string_bytes text ≡ limit_text limit) }
{
    if limit == 1 {
        return String::from_str(alloc, ", and not 0");
    }
    format!(in alloc; ", and not below {limit}")
}

/// Why a field isn't what it may be.
#[tactic(auto, unfolding(crate::specs::FieldText::why_text))]
fn why_text(alloc: Global, fault: FieldFault) -> Result<String, AllocError>
    ensures { IfOk result (λ text. string_bytes text ≡ why_text fault) }
{
    match fault {
        FieldFault::NotBelow(limit) => limit_text(alloc, limit),
        FieldFault::NotCanonical(levels) => {
            format!(in alloc; ", which isn't canonical with {levels} levels")
        }
        FieldFault::NotMultiple(bytes) => {
            format!(in alloc; ", which is no multiple of 0x{bytes:x}")
        }
        FieldFault::Beyond => String::from_str(alloc, ", and its page ends above 0x8000000000000"),
    }
}

/// The field, its number, and why it isn't what it may be.
#[tactic(auto, unfolding(crate::specs::FieldText::field_text))]
fn field_text(alloc: Global, bad: BadField) -> Result<String, AllocError>
    ensures { IfOk result (λ text. string_bytes text ≡ field_text bad) }
{
    let name = name_text(bad.field);
    let value = value_text(alloc, bad.field, bad.value)?;
    let why = why_text(alloc, bad.fault)?;
    format!(in alloc; "{name}{value}{why}")
}

/// The end of a sentence on an event, where it has such a field.
#[tactic(auto, unfolding(crate::specs::FieldText::since_text))]
pub(crate) fn since_text(alloc: Global, found: Option<BadField>) -> Result<String, AllocError>
    ensures { IfOk result (λ text. string_bytes text ≡ since_text found) }
{
    match found {
        None => Ok(String::new(alloc)),
        Some(bad) => {
            let field = field_text(alloc, bad)?;
            format!(in alloc; ", since {field}")
        }
    }
}
