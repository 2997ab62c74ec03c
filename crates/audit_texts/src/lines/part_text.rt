//! What is said, as lines: the parts one after the other.

ghost use Rattle.std.specs.Prelude.{◌≡◌, ◌++◌, IfOk, OnOk, map, string_bytes};
ghost use Rattle.audit_texts.specs.Parts.{part_of, part_text, parts_text, says_of, says_text};

use crate::chain::missed::{later_line, missed_lines, open_lines};
use crate::lines::fact_text::{
    address_text, call_line, changed_line, event_line, format_lines, number_text, option_text,
    own_line, reply_line, reserved_text, step_line, steps_lines, taken_lines, way_lines,
};
use crate::lines::parts::{Part, Says};
use crate::nearby::{memory_line, right_text};
use crate::wording::answer::answer_text;
use crate::wording::text::walk_words;
use crate::wording::units::{read_text, unit_text};
use std::alloc::{AllocError, Global};

/// The text of what a fact says.
#[tactic(auto, unfolding(crate::specs::Parts::says_text))]
fn says_text(alloc: Global, says: &Says) -> Result<String, AllocError>
    ensures { IfOk result (λ text. string_bytes text ≡ says_text (says_of says.now)) }
{
    match says {
        Says::Nothing => String::from_str(alloc, "none"),
        Says::Call(call) => call_line(alloc, *call),
        Says::Reply(reply) => reply_line(alloc, *reply),
        Says::Own(own) => own_line(alloc, *own),
        Says::Event(number, named) => event_line(alloc, *number, *named),
        Says::Changed(changed) => changed_line(alloc, *changed),
        Says::Taken(taken) => taken_lines(alloc, *taken),
        Says::Step(step) => step_line(alloc, *step),
        Says::Steps(steps) => steps_lines(alloc, *steps),
        Says::Way(steps) => way_lines(alloc, *steps),
        Says::Count(number) => number_text(alloc, *number),
        Says::Place(number) => option_text(alloc, *number),
        Says::Frame(number) => address_text(alloc, *number),
        Says::Address(address) => address_text(alloc, *address),
        Says::Answer(answer) => answer_text(alloc, *answer),
        Says::Walk(walk) => walk_words(alloc, *walk),
        Says::Unit(unit) => unit_text(alloc, *unit),
        Says::Bytes(bytes) => read_text(alloc, *bytes),
        Says::Allowed(fault) => format_lines(alloc, *fault),
        Says::Reserved(level) => reserved_text(alloc, *level),
        Says::Text(text) => String::from_str(alloc, *text),
        Says::Right(right) => right_text(alloc, *right),
        Says::Memory(memory) => memory_line(alloc, *memory),
        Says::Missed(missed) => missed_lines(alloc, *missed),
        Says::Open(update) => open_lines(alloc, *update),
        Says::Later(update) => later_line(alloc, *update),
    }
}

/// Adds the text of what a fact says.
fn push_says(alloc: Global, text: &mut String, says: &Says) -> Result<(), AllocError>
    ensures { OnOk result (string_bytes text.new
        ≡ string_bytes text.old ++ says_text (says_of says.now)) }
{
    let told = says_text(alloc, says)?;
    text.push_str(told.as_str())
}

/// Adds the text of a part.
fn push_part(alloc: Global, text: &mut String, part: &Part) -> Result<(), AllocError>
    ensures { OnOk result (string_bytes text.new
        ≡ string_bytes text.old ++ part_text (part_of part.now)) }
{
    match part {
        Part::Words(words) => text.push_str(*words),
        Part::InLines(says) | Part::InBoth(_, says) => push_says(alloc, text, says),
        Part::InJson(_, _) => Ok(()),
    }
}

/// Adds the text of parts. Allocates it.
///
/// # Errors
///
/// Out of memory. Some of the parts may have been added.
pub fn push_parts(alloc: Global, text: &mut String, parts: &[Part]) -> Result<(), AllocError>
    ensures { OnOk result (string_bytes text.new
        ≡ string_bytes text.old ++ parts_text (map part_of parts.now)) }
{
    for part in parts {
        push_part(alloc, text, part)?;
    }
    Ok(())
}

/// The text of parts. Allocates it.
///
/// # Errors
///
/// Out of memory.
pub fn parts_text(alloc: Global, parts: &[Part]) -> Result<String, AllocError>
    ensures { IfOk result (λ text. string_bytes text ≡ parts_text (map part_of parts.now)) }
{
    let mut text = String::new(alloc);
    push_parts(alloc, &mut text, parts)?;
    Ok(text)
}
