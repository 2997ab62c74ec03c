//! Frames by their number.
ghost use Rattle.std.specs.Prelude.{◌≡◌};
ghost use Rattle.std.specs.FinMap as finite;
ghost use Rattle.vs_walk.specs.Memory.{Memory};

use crate::frame_words::FrameWords;

/// Some frames, by number.
pub trait Frames {
    /// The frames that there are.
    ghost memory: { Self → Memory };

    /// The words of a frame, or `None` where there is no such frame. It allocates no memory.
    fn words(&self, number: u64) -> Option<FrameWords<'_>>
        ensures { result ≡ finite.get (memory self.now) number };
}
