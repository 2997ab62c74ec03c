//! Sizes beside each other, and what a table has.
ghost use Rattle.std.specs.Prelude.{◌≡◌, ◌≢◌, ◌<◌, ℕ, IsTrue, IsFalse, slice_index};
ghost use Rattle.vs_types.specs.declared.addresses.frame.TheConstants.{FRAME_WORDS};
ghost use Rattle.vs_plan.specs.Changes.{larger, smaller};

use crate::tables::others::has_other;
use crate::words::reading::FrameWords;
use vs_types::{FRAME_WORDS, Size};

/// The next smaller size.
pub(crate) fn smaller(size: Size) -> Size
    ensures { result ≡ smaller size }
{
    match size {
        Size::K4 | Size::M2 => Size::K4,
        Size::G1 => Size::M2,
    }
}

/// The next larger size.
pub(crate) fn larger(size: Size) -> Size
    ensures { result ≡ larger size }
{
    match size {
        Size::K4 => Size::M2,
        Size::M2 | Size::G1 => Size::G1,
    }
}

/// Whether each word of a frame but that at the index is 0.
pub(crate) fn is_alone<W: FrameWords>(words: &mut W, index: usize) -> bool
    requires in_range { index < FRAME_WORDS }
    requires unread { (i : ℕ) → i < FRAME_WORDS → i ≢ index → W.is_unread words.old i }
    ensures same { W.words words.new ≡ W.words words.old }
    ensures alone { IsTrue result → (i : ℕ) → i < FRAME_WORDS → i ≢ index
        → slice_index (W.words words.old) i ≡ 0 }
    ensures other { IsFalse result
        → (i : ℕ) × (i ≢ index) × (slice_index (W.words words.old) i ≢ 0) }
{
    !has_other(words, index)
}
