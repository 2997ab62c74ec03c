//! What a fault most often is, in words.

ghost use Rattle.std.specs.Prelude.{◌≡◌, ◌++◌, OnOk, codes, string_bytes};
ghost use Rattle.serde_json.specs.Data.{put as with_member, string};
ghost use Rattle.serde_json.specs.View.{members_view};
ghost use Rattle.audit_texts.specs.Text.{fault_text, line_end};
ghost use Rattle.audit_texts.specs.Usual.{usual_line, usual_text};

use crate::json::fact_json::{Members, put_text};
use crate::wording::text::no_words;
use nr_trace::Fault;
use serde_json::{Value, put};
use std::alloc::{AllocError, Global};

/// What a fault most often is, without the end of a sentence.
#[tactic(auto, unfolding(crate::specs::Usual::usual_text))]
pub(crate) fn usual_text(fault: Fault) -> &'static str
    ensures { result.now ≡ usual_text fault }
{
    match fault {
        Fault::Format(_) =>
            "a file of another kind, a file that was cut off, or a mistake of what wrote it",
        Fault::ThreadOpen(_) => "a mistake of the hook: a thread has two calls open",
        Fault::NoSuchCall(_) => "a mistake of the hook: a reply to a call that wasn't made",
        Fault::AnsweredTwice(_) =>
            "a reply that is sent again, as when a request is retried whose answer was only late",
        Fault::NotAnUpdate(_) => "a mistake of the hook: a read is given a place",
        Fault::PlacedTwice(_) => "a mistake of the hook: a place is given twice",
        Fault::NotPlaced(_) => "a reply that went out with a place which another update got",
        Fault::PastLog(_) => "a mistake of the hook: a read says that it saw more than there is",
        Fault::Early(_) => "a read of a replica that lags, or a stamp drawn outside of its call",
        Fault::WrongAnswer(_) =>
            "an update that was lost, a translation that was kept, or places taken in another order than the work",
        Fault::PrefixPastLog(_) | Fault::PrefixShort(_) => "an applied count that isn't the dump's",
        Fault::MissingFrame(_, _) => "a table that was freed while its parent's entry stayed",
        Fault::SharedFrame(_, _) =>
            "a table that is linked at two entries: an alias that nobody mapped",
        Fault::ReservedBit(_, _, _) =>
            "a large page made of a frame that isn't its first: bits below its size are set",
        Fault::StrayFrame(_, _) | Fault::StartStray(_) =>
            "a table that was unlinked, and not freed",
        Fault::Differs(_, _) => "tables with other pages or rights than the answers say",
        Fault::StartMissing(_) =>
            "a table that was freed while its parent's entry stayed, or a start that was copied while a thread changed the tables",
        Fault::StartShared(_) => "a table that is linked at two entries, on purpose or not",
        Fault::StartReserved(_, _) =>
            "a large page made of a frame that isn't its first, or a start that isn't the page table's",
        Fault::StartBeyond(_) => "a page at memory that the processor doesn't have",
        Fault::StartDiffers(_) =>
            "a start that was copied while a thread still changed the tables, or updates that weren't recorded",
        Fault::Stale(_) => "an update that was answered before the TLBs were flushed",
        Fault::Reachable(_) => "memory that was freed before the TLBs were flushed",
    }
}

/// Adds the line that says so.
#[tactic(auto, unfolding(crate::specs::Usual::usual_line))]
fn push_usual(text: &mut String, fault: Fault) -> Result<(), AllocError>
    ensures { OnOk result (string_bytes text.new ≡ string_bytes text.old ++ usual_line fault) }
{
    text.push_str("Most often this is ")?;
    text.push_str(usual_text(fault))?;
    text.push_str(".\n")
}

/// Adds the sentence of a fault, and the line of what it most often is.
pub(crate) fn push_sentence(
    text: &mut String,
    sentence: &str,
    fault: Fault,
) -> Result<(), AllocError>
    ensures { OnOk result (string_bytes text.new
        ≡ string_bytes text.old ++ (sentence.now ++ (line_end ++ usual_line fault))) }
{
    text.push_str(sentence)?;
    text.push_str("\n")?;
    push_usual(text, fault)
}

/// Puts what a fault most often is, and the line of the verdict.
pub(crate) fn put_usual(
    members: &mut Members,
    alloc: Global,
    fault: Fault,
) -> Result<(), AllocError>
    ensures { OnOk result (members_view members.new.entries
        ≡ with_member (codes "verdict") (string (codes "no " ++ fault_text fault))
        (with_member (codes "usually") (string (usual_text fault))
        (members_view members.old.entries))) }
{
    put_text(members, alloc, "usually", usual_text(fault))?;
    let verdict = no_words(alloc, fault)?;
    put(members, alloc, "verdict", Value::String(verdict))
}
