//! Frames by index, and what all stores need of one.
ghost use Rattle.std.specs.Prelude.{◌≡◌, ℕ, ◌+◌, ◌<◌, ◌≤◌, true, false, IfSome, IfNone, length, slice_index_or};
ghost use Rattle.vs_types.specs.declared.limits.TheConstants.{TABLES};
ghost use Rattle.vs_arena.specs.Store.{zeros};

use std::marker::Model;
use vs_types::FRAME_WORDS;

/// The name of a frame of a store: its index, below 4,096. Contracts see the index.
#[derive(Clone, Copy, Debug, PartialEq, Eq)]
pub struct Frame {
    index: usize,
}

impl Model for Frame {
    ghost use Rattle.std.specs.Prelude.{ℕ, ◌<◌};
    ghost use Rattle.vs_types.specs.declared.limits.TheConstants.{TABLES};

    ghost Value = { ℕ };

    ghost view = { λ f. f.index };

    ghost invariant = { λ f. f.index < TABLES };

    ghost inverse = { λ n. record { index = n } };
}

impl Frame {
    pub(crate) fn at_index(index: usize) -> Frame
        requires { index < TABLES }
        ensures { result ≡ index }
    {
        Frame { index }
    }

    /// Its place in the store: 0 to 4,095.
    pub fn index(self) -> usize
        ensures reads { result ≡ self }
        ensures in_range { self < TABLES }
    {
        self.index
    }
}

/// The frame of this number, where it is marked as in use. Frames lie in a row, the first of which has the number `base`.
pub(crate) fn marked_at(base: u64, marks: &[bool], number: u64) -> Option<Frame>
    requires { length marks.now ≤ TABLES }
    ensures numbered { IfSome result (λ f. base + f ≡ number) }
    ensures marked { IfSome result (λ f. slice_index_or marks.now f false ≡ true) }
    ensures unmarked { IfNone result
        ((f : ℕ) → base + f ≡ number → slice_index_or marks.now f false ≡ false) }
{
    let index = number.checked_sub(base)? as usize;
    if index < marks.len() && marks[index] {
        Some(Frame::at_index(index))
    } else {
        None
    }
}

/// The words of a frame that is clear.
pub(crate) fn cleared_words() -> [u64; FRAME_WORDS]
    ensures { result ≡ zeros }
{
    [0; FRAME_WORDS]
}
