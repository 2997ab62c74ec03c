//! The sentence of a fault of a chain: what is wrong, with the numbers that show it.

ghost use Rattle.std.specs.Prelude.{◌≡◌, IfOk, string_bytes};
ghost use Rattle.vs_text.specs.Words.{hexadecimal};
ghost use Rattle.audit_texts.specs.ChainSentence.{bad_segment_sentence, limit_words, segment_reason};
ghost use Rattle.audit_texts.specs.ChainSentence.{segment_sentence, stale_sentence};
ghost use Rattle.audit_texts.specs.ChainSentence.{start_beyond_sentence, start_differs_sentence};
ghost use Rattle.audit_texts.specs.ChainSentence.{start_stray_sentence, window_text};

use crate::chain::earlier::earlier_words;
use crate::chain::releases::release_sentence;
use crate::wording::answer::answer_text;
use crate::wording::sentence::{
    difference_sentence, missing_sentence, other_answer_sentence, reason_text, reserved_sentence,
    sentence_text, shared_sentence,
};
use crate::wording::text::walk_words;
use crate::wording::units::bytes_text;
use nr_explain::{BadUnit, Lag, SegmentEvidence, StaleTouch, StartBeyond, StartDiffers, fewest};
use nr_trace::Format;
use std::alloc::{AllocError, Global};

/// Why bytes with this fault are no segment.
#[tactic(auto, unfolding(crate::specs::ChainSentence::segment_reason))]
fn segment_reason(alloc: Global, bad: &BadUnit, fault: Format) -> Result<String, AllocError>
    ensures { IfOk result (λ text. string_bytes text ≡ segment_reason bad.now fault) }
{
    match fault {
        Format::BadMagic => String::from_str(alloc, "they don't begin with NRVS"),
        Format::BadVersion => {
            let read = bytes_text(alloc, &bad.read)?;
            format!(in alloc; "their version is 0x{read}, and not 1")
        }
        Format::Truncated
        | Format::BadCount
        | Format::BadChain
        | Format::BadStart(_)
        | Format::BadEvent(_)
        | Format::BadFrame(_, _)
        | Format::Trailing => reason_text(alloc, bad, fault),
    }
}

fn bad_segment_sentence(alloc: Global, bad: &BadUnit) -> Result<String, AllocError>
    ensures { IfOk result (λ text. string_bytes text ≡ bad_segment_sentence bad.now) }
{
    let reason = segment_reason(alloc, bad, bad.fault)?;
    format!(in alloc; "These bytes are no segment: {reason}.")
}

fn start_stray_sentence(alloc: Global, frame: u64) -> Result<String, AllocError>
    ensures { IfOk result (λ text. string_bytes text ≡ start_stray_sentence frame) }
{
    format!(in alloc; "The start holds frame 0x{frame:x} as a table, and no table leads to it.")
}

fn start_beyond_sentence(alloc: Global, wrong: &StartBeyond) -> Result<String, AllocError>
    ensures { IfOk result (λ text. string_bytes text ≡ start_beyond_sentence wrong.now) }
{
    let base = wrong.page.base;
    format!(in alloc; "At 0x{base:x} the start has a page that ends above 0x8000000000000.")
}

pub(crate) fn address_text(alloc: Global, address: u64) -> Result<String, AllocError>
    ensures { IfOk result (λ text. string_bytes text ≡ hexadecimal address) }
{
    format!(in alloc; "0x{address:x}")
}

fn start_differs_sentence(alloc: Global, wrong: &StartDiffers) -> Result<String, AllocError>
    ensures { IfOk result (λ text. string_bytes text ≡ start_differs_sentence wrong.now) }
{
    let at = address_text(alloc, wrong.address)?;
    let found = walk_words(alloc, wrong.found)?;
    let wanted = answer_text(alloc, wrong.wanted)?;
    format!(in alloc;
        "At {at} the start says `{found}`, but after the segment before it the address space says `{wanted}`."
    )
}

/// How many entries of the log a touch may see.
fn window_text(alloc: Global, first: u32, last: u32) -> Result<String, AllocError>
    ensures { IfOk result (λ text. string_bytes text ≡ window_text first last) }
{
    format!(in alloc; "{first} to {last} entries of the log")
}

/// What limits the entries that a touch may see.
#[tactic(auto, unfolding(crate::specs::ChainSentence::limit_words))]
fn limit_words(lag: Option<Lag>) -> &'static str
    ensures { result.now ≡ limit_words lag }
{
    match lag {
        None => "it may see only ",
        Some(_) => "even by a table that lags it may see only ",
    }
}

fn stale_sentence(alloc: Global, touch: &StaleTouch) -> Result<String, AllocError>
    ensures { IfOk result (λ text. string_bytes text ≡ stale_sentence touch.now) }
{
    let call = touch.call.event;
    let told = answer_text(alloc, touch.reply.answer)?;
    let limit = limit_words(touch.lag);
    let window = window_text(alloc, fewest(touch.first, touch.lag), touch.last)?;
    let earlier = earlier_words(&touch.earlier);
    format!(in alloc;
        "Touch {call} was answered `{told}`, but {limit}{window}, and after none of these its address looks so.{earlier}"
    )
}

/// The sentence of a fault, by what shows it.
#[tactic(auto, unfolding(crate::specs::ChainSentence::segment_sentence))]
pub(crate) fn segment_sentence(alloc: Global, shown: &SegmentEvidence) -> Result<String, AllocError>
    ensures { IfOk result (λ text. string_bytes text ≡ segment_sentence shown.now) }
{
    match shown {
        SegmentEvidence::Format(bad) => bad_segment_sentence(alloc, &bad.unit),
        SegmentEvidence::Within(evidence) => sentence_text(alloc, evidence),
        SegmentEvidence::WrongAnswer(wrong, _) => other_answer_sentence(alloc, *wrong),
        SegmentEvidence::Differs(wrong, _) => difference_sentence(alloc, wrong),
        SegmentEvidence::StartMissing(wrong) => missing_sentence(alloc, wrong),
        SegmentEvidence::StartShared(wrong) => shared_sentence(alloc, wrong),
        SegmentEvidence::StartReserved(wrong) => reserved_sentence(alloc, wrong),
        SegmentEvidence::StartStray(frame) => start_stray_sentence(alloc, *frame),
        SegmentEvidence::StartBeyond(wrong) => start_beyond_sentence(alloc, wrong),
        SegmentEvidence::StartDiffers(wrong) => start_differs_sentence(alloc, wrong),
        SegmentEvidence::Stale(touch) => stale_sentence(alloc, touch),
        SegmentEvidence::Reachable(wrong) => release_sentence(alloc, wrong.call, wrong.why),
    }
}
