//! The words of a frame as they are shown: none is read twice.
ghost use Rattle.std.specs.Prelude.{◌≡◌, ◌≢◌, ◌<◌, ℕ, List, slice_index};
ghost use Rattle.vs_types.specs.declared.addresses.frame.TheConstants.{FRAME_WORDS};

use vs_types::FRAME_WORDS;

/// The 512 words of a frame, of which each may be read once. So it makes no difference to a planner that a processor sets flags in them while
/// it reads: what it knows of a word is what its one read gave.
pub trait FrameWords {
    /// What the reads give, by index.
    ghost words: { Self → List ℕ };

    /// The word at an index was not read yet.
    ghost is_unread: { Self → ℕ → Type 0 };

    /// Reads the word at an index.
    fn read(&mut self, index: usize) -> u64
        requires low { index < FRAME_WORDS }
        requires once { is_unread self.old index }
        ensures is { result ≡ slice_index (words self.old) index }
        ensures same { words self.new ≡ words self.old }
        ensures others { (i : ℕ) → i ≢ index → is_unread self.old i → is_unread self.new i };
}

/// Words that stay as they are, and could be read more than once.
#[derive(Clone, Copy)]
pub struct PlainWords<'a>(pub &'a [u64; FRAME_WORDS]);

impl FrameWords for PlainWords<'_> {
    ghost words = { λ w. w.0.now };

    ghost is_unread = { λ w i. Unit {0} };

    #[inline]
    fn read(&mut self, index: usize) -> u64 {
        self.0[index]
    }
}
