//! The texts of a unit and of its bytes.

ghost use Rattle.std.specs.Prelude.{◌≡◌, ◌++◌, IfOk, OnOk, flat_map, string_bytes, take};
ghost use Rattle.audit_texts.specs.EvidenceText.{byte_text, bytes_text, read_text, unit_text};

use nr_trace::TraceUnit;
use std::alloc::{AllocError, Global};

/// Which unit of a trace or of a segment it is. Allocates memory for the text.
///
/// # Errors
///
/// Out of memory.
#[tactic(auto, unfolding(crate::specs::EvidenceText::unit_text))]
pub fn unit_text(alloc: Global, unit: TraceUnit) -> Result<String, AllocError>
    ensures { IfOk result (λ text. string_bytes text ≡ unit_text unit) }
{
    match unit {
        TraceUnit::Magic => String::from_str(alloc, "magic"),
        TraceUnit::Version => String::from_str(alloc, "version"),
        TraceUnit::Counts | TraceUnit::SegmentCounts => String::from_str(alloc, "counts"),
        TraceUnit::StartRoot => String::from_str(alloc, "root of the start"),
        TraceUnit::StartNumber(index) => {
            format!(in alloc; "number of frame {index} of the start")
        }
        TraceUnit::StartWords(index) => format!(in alloc; "words of frame {index} of the start"),
        TraceUnit::Place(place) => format!(in alloc; "place {place}"),
        TraceUnit::Event(index) => format!(in alloc; "event {index}"),
        TraceUnit::DumpHead(replica) => format!(in alloc; "head of dump {replica}"),
        TraceUnit::FrameNumber(replica, index) => {
            format!(in alloc; "number of frame {index} of dump {replica}")
        }
        TraceUnit::FrameWords(replica, index) => {
            format!(in alloc; "words of frame {index} of dump {replica}")
        }
        TraceUnit::Behind => String::from_str(alloc, "behind the last unit"),
    }
}

/// Adds two digits for each byte.
fn push_bytes(alloc: Global, text: &mut String, bytes: &[u8]) -> Result<(), AllocError>
    ensures { OnOk result (string_bytes text.new
        ≡ string_bytes text.old ++ flat_map byte_text bytes.now) }
{
    for byte in bytes {
        let high = *byte / 16;
        let low = *byte % 16;
        let digits = format!(in alloc; "{high:x}{low:x}")?;
        text.push_str(digits.as_str())?;
    }
    Ok(())
}

/// The first bytes, at most 24, two digits each. Allocates memory for the text.
///
/// # Errors
///
/// Out of memory.
pub fn bytes_text(alloc: Global, bytes: &[u8]) -> Result<String, AllocError>
    ensures { IfOk result (λ text. string_bytes text ≡ bytes_text bytes.now) }
{
    let mut text = String::new(alloc);
    push_bytes(alloc, &mut text, &bytes[..bytes.len().min(24)])?;
    Ok(text)
}

/// The same, or `none` where there is no byte.
#[tactic(auto, unfolding(crate::specs::EvidenceText::read_text))]
pub(crate) fn read_text(alloc: Global, bytes: &[u8]) -> Result<String, AllocError>
    ensures { IfOk result (λ text. string_bytes text ≡ read_text bytes.now) }
{
    if bytes.is_empty() {
        return String::from_str(alloc, "none");
    }
    bytes_text(alloc, bytes)
}
