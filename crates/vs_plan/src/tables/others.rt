//! Whether a frame has another word, over whatever lends its words.
ghost use Rattle.std.specs.Prelude.{◌≡◌, ◌≢◌, ◌<◌, ◌≤◌, ◌/◌, ℕ, IsTrue, IsFalse, slice_index};
ghost use Rattle.vs_types.specs.declared.addresses.frame.TheConstants.{FRAME_WORDS};

use crate::words::reading::FrameWords;
use vs_types::FRAME_WORDS;

/// Whether a frame has a word other than 0 beside that at the index. In most the one next to it decides.
#[inline(always)]
pub fn has_other<W: FrameWords>(words: &mut W, index: usize) -> bool
    requires in_range { index < FRAME_WORDS }
    requires unread { (i : ℕ) → i < FRAME_WORDS → i ≢ index → W.is_unread words.old i }
    ensures same { W.words words.new ≡ W.words words.old }
    ensures none { IsFalse result → (i : ℕ) → i < FRAME_WORDS → i ≢ index
        → slice_index (W.words words.old) i ≡ 0 }
    ensures other { IsTrue result
        → (i : ℕ) × (i ≢ index) × (slice_index (W.words words.old) i ≢ 0) }
{
    let beside = if index % 2 == 0 { index + 1 } else { index - 1 };
    words.read(beside) != 0 || has_other_pair(words, index / 2)
}

/// Whether a frame has a word other than 0 outside a pair. In most another of its eight decides.
#[inline(never)]
fn has_other_pair<W: FrameWords>(words: &mut W, pair: usize) -> bool
    requires in_range { pair < FRAME_WORDS / 2 }
    requires unread { (i : ℕ) → i < FRAME_WORDS → i / 2 ≢ pair → W.is_unread words.old i }
    ensures same { W.words words.new ≡ W.words words.old }
    ensures none { IsFalse result → (i : ℕ) → i < FRAME_WORDS → i / 2 ≢ pair
        → slice_index (W.words words.old) i ≡ 0 }
    ensures other { IsTrue result
        → (i : ℕ) × (i / 2 ≢ pair) × (slice_index (W.words words.old) i ≢ 0) }
{
    let eight = pair / 4 * 8;
    has_word(words, eight, pair * 2)
        || has_word(words, pair * 2 + 2, eight + 8)
        || has_other_eight(words, pair / 4)
}

/// Whether a frame has a word other than 0 outside an eight. Each eight is looked at whole, and none behind the first that has one.
fn has_other_eight<W: FrameWords>(words: &mut W, eight: usize) -> bool
    requires unread { (i : ℕ) → i < FRAME_WORDS → i / 8 ≢ eight → W.is_unread words.old i }
    ensures same { W.words words.new ≡ W.words words.old }
    ensures none { IsFalse result → (i : ℕ) → i < FRAME_WORDS → i / 8 ≢ eight
        → slice_index (W.words words.old) i ≡ 0 }
    ensures other { IsTrue result
        → (i : ℕ) × (i / 8 ≢ eight) × (slice_index (W.words words.old) i ≢ 0) }
{
    for at in 0..FRAME_WORDS / 8 {
        if at != eight && has_word(words, at * 8, at * 8 + 8) {
            return true;
        }
    }
    false
}

/// Whether a word of a frame from one index to another is not 0: each is looked at.
fn has_word<W: FrameWords>(words: &mut W, from: usize, to: usize) -> bool
    requires in_range { to ≤ FRAME_WORDS }
    requires unread { (i : ℕ) → from ≤ i → i < to → W.is_unread words.old i }
    ensures same { W.words words.new ≡ W.words words.old }
    ensures others { (i : ℕ) → (from ≤ i → to ≤ i) → W.is_unread words.old i
        → W.is_unread words.new i }
    ensures none { IsFalse result → (i : ℕ) → from ≤ i → i < to
        → slice_index (W.words words.old) i ≡ 0 }
    ensures other { IsTrue result
        → (i : ℕ) × (from ≤ i) × (i < to) × (slice_index (W.words words.old) i ≢ 0) }
{
    let mut found = false;
    for i in from..to {
        found = found | (words.read(i) != 0);
    }
    found
}
