//! How answers are printed.
ghost use Rattle.std.specs.Prelude.{◌≡◌, ◌++◌, IfOk, OnOk, decimal, string_bytes};
ghost use Rattle.vs_text.specs.Words.{hexadecimal};
ghost use Rattle.audit_texts.specs.Text.{answer_text};

use itoa::Buffer;
use std::alloc::{AllocError, Global};
use vs_text::{push_address, push_page, push_rights};
use vs_types::Answer;

/// Adds a word that ends with a space, and an address.
fn push_named(text: &mut String, word: &str, address: u64) -> Result<(), AllocError>
    ensures { OnOk result
        (string_bytes text.new ≡ string_bytes text.old ++ (word.now ++ hexadecimal address)) }
{
    text.push_str(word)?;
    push_address(text, address)
}

/// Adds a word that ends with a space, and a number.
fn push_number(text: &mut String, word: &str, number: u64) -> Result<(), AllocError>
    ensures { OnOk result
        (string_bytes text.new ≡ string_bytes text.old ++ (word.now ++ decimal number)) }
{
    text.push_str(word)?;
    text.push_str(Buffer::new().format(number))
}

/// Adds the name of an answer, and what it says. The text allocates where it grows.
///
/// # Errors
///
/// Out of memory. A part of it may have been added.
#[tactic(auto, unfolding(crate::specs::Text::answer_text))]
pub fn push_answer(text: &mut String, answer: Answer) -> Result<(), AllocError>
    ensures { OnOk result
        (string_bytes text.new ≡ string_bytes text.old ++ answer_text answer) }
{
    match answer {
        Answer::Done => text.push_str("done"),
        Answer::Overlap(base) => push_named(text, "overlap ", base),
        Answer::Full(need) => push_number(text, "full ", need),
        Answer::Removed(phys, size, rights) => {
            text.push_str("removed ")?;
            push_page(text, phys, size, rights)
        }
        Answer::NotMapped => text.push_str("not mapped"),
        Answer::Inside(base) => push_named(text, "inside ", base),
        Answer::Changed(rights) => {
            text.push_str("changed ")?;
            push_rights(text, rights)
        }
        Answer::Mapped(phys, size, rights) => {
            text.push_str("mapped ")?;
            push_page(text, phys, size, rights)
        }
        Answer::Allowed(phys) => push_named(text, "allowed ", phys),
        Answer::Fault(code) => push_number(text, "fault ", code),
    }
}

/// The name of an answer, and what it says. Allocates the text.
///
/// # Errors
///
/// Out of memory.
pub fn answer_text(alloc: Global, answer: Answer) -> Result<String, AllocError>
    ensures { IfOk result (λ text. string_bytes text ≡ answer_text answer) }
{
    let mut text = String::new(alloc);
    push_answer(&mut text, answer)?;
    Ok(text)
}
