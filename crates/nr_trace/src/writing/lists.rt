//! The units of the log, of the events, and of a frame's words.

ghost use Rattle.std.specs.Int.{w64, to_be_bytes};
ghost use Rattle.std.specs.Prelude.{◌≡◌, ◌++◌, ◌+◌, ◌<◌, ◌≤◌, ℕ, IfOk, OnOk, flat_map, slice_index};
ghost use Rattle.nr_trace.specs.Spelling.{log_word, event, frame_words};
ghost use Rattle.vs_types.specs.declared.addresses.frame.TheConstants.{FRAME_WORDS};

use crate::recordings::recorded::Recorded;
use crate::writing::events::put_event;
use crate::writing::numbers::{put_u32, put_u64};
use vs_types::{FRAME_WORDS, Memory};
use vs_walk::FrameWords;

pub(crate) fn put_log(out: &mut Vec<u8>, log: &[u32]) -> Result<(), Memory>
    ensures { OnOk result (out.new.items ≡ out.old.items ++ flat_map log_word log.now) }
{
    for call in log {
        put_u32(out, *call)?;
    }
    Ok(())
}

pub(crate) fn put_events(out: &mut Vec<u8>, events: &[Recorded]) -> Result<(), Memory>
    ensures { OnOk result (out.new.items ≡ out.old.items ++ flat_map event events.now) }
{
    for recorded in events {
        put_event(out, recorded.event())?;
    }
    Ok(())
}

/// Writes the word at an index, where all words from there up to `next` are 0. Says up to where the words behind it are 0:
/// a search for each word that is not 0, and none for zeros.
fn put_word(
    out: &mut Vec<u8>,
    words: &FrameWords<'_>,
    index: usize,
    next: usize,
) -> Result<usize, Memory>
    requires index { index < FRAME_WORDS }
    requires zeros { (i : ℕ) → index ≤ i → i < next → slice_index words.now i ≡ 0 }
    ensures put { OnOk result
        (out.new.items ≡ out.old.items ++ to_be_bytes w64 (slice_index words.now index)) }
    ensures zeros { IfOk result
        (λ next. (i : ℕ) → index + 1 ≤ i → i < next → slice_index words.now i ≡ 0) }
{
    if index < next {
        put_u64(out, 0)?;
        return Ok(next);
    }
    put_u64(out, words.word(index))?;
    Ok(words.next_nonzero(index + 1))
}

pub(crate) fn put_words(out: &mut Vec<u8>, words: &FrameWords<'_>) -> Result<(), Memory>
    ensures { OnOk result (out.new.items ≡ out.old.items ++ frame_words words.now) }
{
    let mut next = words.next_nonzero(0);
    for index in 0..words.len() {
        next = put_word(out, words, index, next)?;
    }
    Ok(())
}
