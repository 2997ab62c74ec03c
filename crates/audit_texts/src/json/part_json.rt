//! What is said, as a JSON object: each fact that has a name is a member.

ghost use Rattle.std.specs.Prelude.{◌≡◌, IfOk, OnOk, fold, map};
ghost use Rattle.serde_json.specs.View.{members_view, view};
ghost use Rattle.audit_texts.specs.Parts.{part_of, parts_data, put_part, says_data, says_of};

use crate::chain::missed::{missed_value, open_value};
use crate::json::fact_json::{
    Members, call_value, changed_value, event_value, option_value, own_value, reply_value,
    step_value, taken_value, way_value,
};
use crate::lines::fact_text::{address_text, reserved_text};
use crate::lines::parts::{Part, Says};
use crate::nearby::{memory_value, right_value};
use crate::wording::answer::answer_text;
use crate::wording::text::{format_text, walk_words};
use crate::wording::units::{bytes_text, unit_text};
use serde_json::{Map, Value, put};
use std::alloc::{AllocError, Global};

/// The value of what a fact says.
#[tactic(auto, unfolding(crate::specs::Parts::says_data))]
fn says_value(alloc: Global, says: &Says) -> Result<Value, AllocError>
    ensures { IfOk result (λ value. view value ≡ says_data (says_of says.now)) }
{
    match says {
        Says::Nothing => Ok(Value::Null),
        Says::Call(call) => call_value(alloc, *call),
        Says::Reply(reply) => reply_value(alloc, *reply),
        Says::Own(own) => own_value(alloc, *own),
        Says::Event(number, named) => event_value(alloc, *number, *named),
        Says::Changed(changed) => changed_value(alloc, *changed),
        Says::Taken(taken) => taken_value(alloc, *taken),
        Says::Step(step) => step_value(alloc, *step),
        Says::Steps(steps) => way_value(alloc, *steps),
        Says::Way(steps) => way_value(alloc, *steps),
        Says::Count(number) => Ok(Value::from(*number)),
        Says::Place(number) => Ok(option_value(*number)),
        Says::Frame(number) => Ok(Value::from(*number)),
        Says::Address(address) => Ok(Value::String(address_text(alloc, *address)?)),
        Says::Answer(answer) => Ok(Value::String(answer_text(alloc, *answer)?)),
        Says::Walk(walk) => Ok(Value::String(walk_words(alloc, *walk)?)),
        Says::Unit(unit) => Ok(Value::String(unit_text(alloc, *unit)?)),
        Says::Bytes(bytes) => Ok(Value::String(bytes_text(alloc, *bytes)?)),
        Says::Allowed(fault) => Ok(Value::String(format_text(alloc, *fault)?)),
        Says::Reserved(level) => Ok(Value::String(reserved_text(alloc, *level)?)),
        Says::Text(text) => Value::try_from_str(alloc, *text),
        Says::Right(right) => right_value(alloc, *right),
        Says::Memory(memory) => memory_value(alloc, *memory),
        Says::Missed(missed) => missed_value(alloc, *missed),
        Says::Open(update) => open_value(alloc, *update),
        Says::Later(update) => changed_value(alloc, *update),
    }
}

/// Puts the member of a part.
fn put_part(members: &mut Members, alloc: Global, part: &Part) -> Result<(), AllocError>
    ensures { OnOk result (members_view members.new.entries
        ≡ put_part (members_view members.old.entries) (part_of part.now)) }
{
    match part {
        Part::Words(_) | Part::InLines(_) => Ok(()),
        Part::InBoth(name, says) | Part::InJson(name, says) => {
            put(members, alloc, *name, says_value(alloc, says)?)
        }
    }
}

/// Puts the members of parts. Allocates the values and their keys.
///
/// # Errors
///
/// Out of memory. Some of the members may have been put.
pub fn put_parts(members: &mut Members, alloc: Global, parts: &[Part]) -> Result<(), AllocError>
    ensures { OnOk result (members_view members.new.entries
        ≡ fold put_part (members_view members.old.entries) (map part_of parts.now)) }
{
    for part in parts {
        put_part(members, alloc, part)?;
    }
    Ok(())
}

/// The object of parts. Allocates the value.
///
/// # Errors
///
/// Out of memory.
pub fn parts_value(alloc: Global, parts: &[Part]) -> Result<Value, AllocError>
    ensures { IfOk result (λ value. view value ≡ parts_data (map part_of parts.now)) }
{
    let mut members = Map::new(alloc);
    put_parts(&mut members, alloc, parts)?;
    Ok(Value::Object(members))
}
